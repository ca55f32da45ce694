//! Who holds a lock.
ghost use Rattle.std.specs.Prelude.{◌≡◌, ◌<◌};
ghost use Rattle.velo_events.specs.declared.limits.TheConstants.{MAX_THREADS};
ghost use Rattle.velo_events.specs.ThreadSets.{has_thread};
ghost use Rattle.velo_heap.specs.Steps.{acquire_in, acquire_shared_in, release_in, release_shared_in, free, is_held_by, is_holder, with_holder, with_sharer, without_sharer};

use velo_events::{Kind, LockId, Refusal, ThreadId, ThreadSet};

/// Who holds one lock.
#[derive(Clone, Copy, PartialEq, Eq)]
pub struct Lock {
    /// The thread that holds it alone.
    pub holder: Option<ThreadId>,
    /// The threads that share it.
    pub sharers: ThreadSet,
}

impl Lock {
    /// A lock that nobody holds.
    pub fn free() -> Lock
        ensures { result ≡ free }
    {
        Lock {
            holder: None,
            sharers: ThreadSet::none(),
        }
    }

    /// Whether the thread holds it alone.
    pub fn is_held_alone_by(self, t: ThreadId) -> bool
        ensures { result ≡ is_holder self t }
    {
        match self.holder {
            Some(holder) => holder == t,
            None => false,
        }
    }

    /// Whether the thread shares it.
    pub fn is_shared_by(self, t: ThreadId) -> bool
        ensures { result ≡ has_thread self.sharers t.0 }
    {
        self.sharers.has(t)
    }

    /// Whether the thread holds it, alone or with others.
    pub fn is_held_by(self, t: ThreadId) -> bool
        ensures { result ≡ is_held_by self t }
    {
        self.is_held_alone_by(t) || self.is_shared_by(t)
    }

    /// The acquire of this lock, whose number is `m`.
    ///
    /// # Errors
    /// `AlreadyHeld` where the thread holds it, and else `Busy` where another thread does.
    pub fn admit_acquire(self, t: ThreadId, m: LockId) -> Result<Kind, Refusal>
        ensures { result ≡ acquire_in t m self }
    {
        if self.is_held_by(t) {
            Err(Refusal::AlreadyHeld)
        } else if self.holder.is_some() || !self.sharers.is_empty() {
            Err(Refusal::Busy)
        } else {
            Ok(Kind::Acquire(m))
        }
    }

    /// The shared acquire of this lock, whose number is `m`.
    ///
    /// # Errors
    /// `AlreadyHeld` where the thread holds it, and else `Busy` where another thread holds it
    /// alone.
    pub fn admit_acquire_shared(self, t: ThreadId, m: LockId) -> Result<Kind, Refusal>
        ensures { result ≡ acquire_shared_in t m self }
    {
        if self.is_held_by(t) {
            Err(Refusal::AlreadyHeld)
        } else if self.holder.is_some() {
            Err(Refusal::Busy)
        } else {
            Ok(Kind::AcquireShared(m))
        }
    }

    /// The release of this lock, whose number is `m`.
    ///
    /// # Errors
    /// `NotHolder` where the thread does not hold it alone.
    pub fn admit_release(self, t: ThreadId, m: LockId) -> Result<Kind, Refusal>
        ensures { result ≡ release_in t m self }
    {
        if self.is_held_alone_by(t) {
            Ok(Kind::Release(m))
        } else {
            Err(Refusal::NotHolder)
        }
    }

    /// The shared release of this lock, whose number is `m`.
    ///
    /// # Errors
    /// `NotHolder` where the thread does not share it.
    pub fn admit_release_shared(self, t: ThreadId, m: LockId) -> Result<Kind, Refusal>
        ensures { result ≡ release_shared_in t m self }
    {
        if self.is_shared_by(t) {
            Ok(Kind::ReleaseShared(m))
        } else {
            Err(Refusal::NotHolder)
        }
    }

    /// This lock with `holder`.
    pub fn with_holder(self, holder: Option<ThreadId>) -> Lock
        ensures { result ≡ with_holder holder self }
    {
        Lock { holder, ..self }
    }

    /// This lock with `t` among its sharers.
    pub fn with_sharer(self, t: ThreadId) -> Lock
        requires { t.0 < MAX_THREADS }
        ensures { result ≡ with_sharer t self }
    {
        Lock {
            sharers: self.sharers.with(t),
            ..self
        }
    }

    /// This lock without `t` among its sharers.
    pub fn without_sharer(self, t: ThreadId) -> Lock
        requires { t.0 < MAX_THREADS }
        ensures { result ≡ without_sharer t self }
    {
        Lock {
            sharers: self.sharers.without(t),
            ..self
        }
    }
}
