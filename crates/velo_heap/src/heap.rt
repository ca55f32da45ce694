//! Variables, locks and threads of a run, each with its state.
ghost use Rattle.std.specs.Prelude.{◌≡◌, ◌<◌, ◌≤◌, [], ◌∷◌, ◌++◌, ◌↔◌, List, IsTrue, IfOk, option_map, length, slice_get};
ghost use Rattle.velo_events.specs.declared.event.Event.{Event};
ghost use Rattle.velo_events.specs.Heap.{value_in, holder_in, shares_in, status_in, depth_in};
ghost use Rattle.velo_events.specs.declared.limits.TheConstants.{MAX_THREADS};
ghost use Rattle.velo_heap.specs.Contents.{bounds_of, set_below, IsHeapOf, ForItsTraces, admission, IsAdmitted};
ghost use Rattle.velo_events.specs.Meaning.{refusal_of, action_of, has_its_value};
ghost use Rattle.velo_events.specs.WellFormed.{NamesKnown};
ghost use Rattle.velo_heap.specs.Steps.{refusal_in, read_at, write_at, acquire_at, acquire_shared_at, release_at, release_shared_at, fork_at, join_at, kind_in, live_kind, contents_after, CanChange};

use crate::lock::Lock;
use crate::thread_state::ThreadState;
use std::alloc::Global;
use std::marker::Model;
use velo_events::growth::{filled, with_capacity};
use velo_events::{
    Action, Config, Event, Kind, LockId, Memory, Refusal, Status, ThreadId, ThreadSet, VarId,
};

/// The variables, locks and threads of a run, each with its state.
///
/// A heap keeps no log. It represents the trace of the events that were applied to it.
#[derive(Drop)]
pub struct Heap {
    values: Vec<u64>,
    locks: Vec<Lock>,
    threads: Vec<ThreadState>,
}

impl Model for Heap {
    ghost use Rattle.std.specs.Prelude.{◌≤◌, length};
    ghost use Rattle.velo_events.specs.declared.limits.TheConstants.{MAX_LOCKS, MAX_THREADS};
    ghost use Rattle.velo_heap.specs.Contents.{Contents};

    ghost Value = { Contents };

    ghost view = { λ h. record { values = h.values.items; locks = h.locks.items; threads = h.threads.items } };

    // so few locks that the count of those that a thread holds never wraps, and a bit for each
    // thread
    ghost invariant = { λ h. (length h.locks.items ≤ MAX_LOCKS) × (length h.threads.items ≤ MAX_THREADS) };
}

/// The same items once more.
///
/// # Errors
/// `Memory` if an allocation failed.
fn copied<T: Copy>(alloc: Global, items: &[T]) -> Result<Vec<T>, Memory>
    ensures { IfOk result (λ copy. copy.items ≡ items.now) }
{
    let mut copy = with_capacity(alloc, items.len())?;
    match copy.extend_from_slice(items) {
        Ok(()) => Ok(copy),
        Err(_) => unreachable!(),
    }
}

/// Whether the two have the same values.
fn are_same_values(one: &[u64], other: &[u64]) -> bool
    ensures { IsTrue result ↔ (one.now ≡ other.now) }
{
    one == other
}

/// Whether the locks of the two are held alike.
fn are_held_alike(one: &[Lock], other: &[Lock]) -> bool
    ensures { IsTrue result ↔ (one.now ≡ other.now) }
{
    one == other
}

/// Whether the threads of the two have equal states.
fn stand_alike(one: &[ThreadState], other: &[ThreadState]) -> bool
    ensures { IsTrue result ↔ (one.now ≡ other.now) }
{
    one == other
}

impl Heap {
    /// The heap at the start of a run: thread 0 is live and no other is born, all variables are 0,
    /// all locks are free.
    ///
    /// # Errors
    /// `Memory` if an allocation failed. No later call but `copy` takes memory.
    pub fn new(alloc: Global, config: &Config) -> Result<Heap, Memory>
        ensures bounds { IfOk result (λ h. bounds_of h ≡ config.now.bounds) }
        ensures start { IfOk result (λ h. IsHeapOf h []) }
    {
        let bounds = config.bounds;
        let values = filled(alloc, 0, usize::from(bounds.variables))?;
        let locks = filled(alloc, Lock::free(), usize::from(bounds.locks))?;
        let mut threads = filled(alloc, ThreadState::unborn(), usize::from(bounds.threads))?;
        threads[0].status = Status::Live;
        Ok(Heap {
            values,
            locks,
            threads,
        })
    }

    /// The same heap once more.
    ///
    /// # Errors
    /// `Memory` if an allocation failed.
    pub fn copy(&self, alloc: Global) -> Result<Heap, Memory>
        ensures { IfOk result (λ h. h ≡ self.now) }
    {
        let values = copied(alloc, &self.values)?;
        let locks = copied(alloc, &self.locks)?;
        let threads = copied(alloc, &self.threads)?;
        Ok(Heap {
            values,
            locks,
            threads,
        })
    }

    /// Whether the heaps are the same.
    pub fn is_same(&self, other: &Heap) -> bool
        ensures { IsTrue result ↔ (self.now ≡ other.now) }
    {
        are_same_values(&self.values, &other.values)
            && are_held_alike(&self.locks, &other.locks)
            && stand_alike(&self.threads, &other.threads)
    }

    /// The event that the action becomes if the thread does it now; a read's event has the
    /// variable's value.
    ///
    /// # Errors
    /// The first refusal that applies, from `NotLive` (2) to `LockHeld` (16).
    pub fn admit(&self, thread: ThreadId, action: Action) -> Result<Event, Refusal>
        ensures { (trace : List Event) → IsHeapOf self.now trace →
            result ≡ admission (bounds_of self.now) trace thread action }
    {
        let kind = self.kind_for(thread, action)?;
        Ok(Event { thread, kind })
    }

    /// Why the event's thread may not do its operation now: the first refusal that applies, from
    /// `NotLive` (2) to `LockHeld` (16). The value that a read returned is not checked here.
    #[inline(always)]
    pub fn refusal(&self, event: &Event) -> Option<Refusal>
        ensures { (trace : List Event) → IsHeapOf self.now trace →
            result ≡ refusal_of (bounds_of self.now) trace event.now.thread.0 event.now.kind }
    {
        self.reason(event)
    }

    /// Whether a read that names a variable has its value; so has any other operation.
    #[inline(always)]
    pub fn has_its_value(&self, event: &Event) -> bool
        ensures { (trace : List Event) → IsHeapOf self.now trace → NamesKnown (bounds_of self.now) event.now.kind →
            result ≡ has_its_value trace event.now.kind }
    {
        match event.kind {
            Kind::Read(x, value) => self.values.get(usize::from(x.0)).copied() == Some(value),
            _ => true,
        }
    }

    /// Does an admitted event.
    #[inline(always)]
    pub fn apply(&mut self, event: &Event)
        requires { IsAdmitted self.old event.now }
        ensures bounds { bounds_of self.new ≡ bounds_of self.old }
        ensures next { (trace : List Event) → IsHeapOf self.old trace →
            IsHeapOf self.new (trace ++ event.now ∷ []) }
    {
        self.change(event);
    }

    /// The value of a variable.
    pub fn value(&self, x: VarId) -> u64
        requires { x.0 < (bounds_of self.now).variables }
        ensures { ForItsTraces self.now (λ trace. result ≡ value_in trace x.0) }
    {
        let at = usize::from(x.0);
        self.values[at]
    }

    /// The thread that holds a lock alone, or `None` where none does.
    pub fn holder(&self, m: LockId) -> Option<ThreadId>
        requires { m.0 < (bounds_of self.now).locks }
        ensures { ForItsTraces self.now (λ trace. option_map (λ t. t.0) result ≡ holder_in trace m.0) }
    {
        let at = usize::from(m.0);
        self.locks[at].holder
    }

    /// The threads that share a lock.
    pub fn sharers(&self, m: LockId) -> ThreadSet
        requires { m.0 < (bounds_of self.now).locks }
        ensures { ForItsTraces self.now (λ trace.
            result ≡ set_below (bounds_of self.now).threads (shares_in trace m.0)) }
    {
        let at = usize::from(m.0);
        self.locks[at].sharers
    }

    /// Whether a thread shares a lock.
    pub fn shares(&self, m: LockId, t: ThreadId) -> bool
        requires { m.0 < (bounds_of self.now).locks }
        ensures { ForItsTraces self.now (λ trace. result ≡ shares_in trace m.0 t.0) }
    {
        let at = usize::from(m.0);
        self.locks[at].is_shared_by(t)
    }

    /// How far a thread has come.
    pub fn status(&self, t: ThreadId) -> Status
        requires { t.0 < (bounds_of self.now).threads }
        ensures { ForItsTraces self.now (λ trace. result ≡ status_in trace t.0) }
    {
        let at = usize::from(t.0);
        self.threads[at].status
    }

    /// How many blocks a thread has open.
    pub fn depth(&self, t: ThreadId) -> u8
        requires { t.0 < (bounds_of self.now).threads }
        ensures { ForItsTraces self.now (λ trace. result ≡ depth_in trace t.0) }
    {
        let at = usize::from(t.0);
        self.threads[at].depth
    }

    /// The operation that the action becomes.
    fn kind_for(&self, thread: ThreadId, action: Action) -> Result<Kind, Refusal>
        ensures { result ≡ kind_in self.now thread action }
    {
        let Some(own) = self.threads.get(usize::from(thread.0)).copied() else {
            return Err(Refusal::NotLive);
        };
        if own.status.is_live() {
            self.live_kind(own, thread, action)
        } else {
            Err(Refusal::NotLive)
        }
    }

    /// The operation that the action of a live thread becomes.
    #[inline]
    fn live_kind(&self, own: ThreadState, thread: ThreadId, action: Action) -> Result<Kind, Refusal>
        ensures { result ≡ live_kind self.now thread own action }
    {
        match action {
            Action::Read(x) => self.admit_read(x),
            Action::Write(x, value) => self.admit_write(x, value),
            Action::Acquire(m) => self.admit_acquire(thread, m),
            Action::Release(m) => self.admit_release(thread, m),
            Action::AcquireShared(m) => self.admit_acquire_shared(thread, m),
            Action::ReleaseShared(m) => self.admit_release_shared(thread, m),
            Action::Begin(label) => own.admit_begin(label),
            Action::End => own.admit_end(),
            Action::Fork(u) => self.admit_fork(u),
            Action::Join(u) => self.admit_join(u),
            Action::Exit => own.admit_exit(),
        }
    }

    /// Why the operation is refused, by what the heap has.
    #[inline(always)]
    fn reason(&self, event: &Event) -> Option<Refusal>
        ensures { result ≡ refusal_in (kind_in self.now event.now.thread (action_of event.now.kind)) }
    {
        let Some(own) = self.threads.get(usize::from(event.thread.0)).copied() else {
            return Some(Refusal::NotLive);
        };
        if own.status.is_live() {
            self.live_reason(own, event)
        } else {
            Some(Refusal::NotLive)
        }
    }

    /// Why the operation of a live thread is refused.
    #[inline(always)]
    fn live_reason(&self, own: ThreadState, event: &Event) -> Option<Refusal>
        ensures { result ≡ refusal_in (live_kind self.now event.now.thread own (action_of event.now.kind)) }
    {
        match event.kind {
            Kind::Read(x, _) => self.admit_read(x).err(),
            Kind::Write(x, value) => self.admit_write(x, value).err(),
            Kind::Acquire(m) => self.admit_acquire(event.thread, m).err(),
            Kind::Release(m) => self.admit_release(event.thread, m).err(),
            Kind::AcquireShared(m) => self.admit_acquire_shared(event.thread, m).err(),
            Kind::ReleaseShared(m) => self.admit_release_shared(event.thread, m).err(),
            Kind::Begin(label) => own.admit_begin(label).err(),
            Kind::End => own.admit_end().err(),
            Kind::Fork(u) => self.admit_fork(u).err(),
            Kind::Join(u) => self.admit_join(u).err(),
            Kind::Exit => own.admit_exit().err(),
        }
    }

    #[inline]
    fn admit_read(&self, x: VarId) -> Result<Kind, Refusal>
        ensures { result ≡ read_at x (slice_get self.now.values x.0) }
    {
        match self.values.get(usize::from(x.0)).copied() {
            Some(value) => Ok(Kind::Read(x, value)),
            None => Err(Refusal::NoSuchVariable),
        }
    }

    #[inline]
    fn admit_write(&self, x: VarId, value: u64) -> Result<Kind, Refusal>
        ensures { result ≡ write_at x value (slice_get self.now.values x.0) }
    {
        match self.values.get(usize::from(x.0)).copied() {
            Some(_) => Ok(Kind::Write(x, value)),
            None => Err(Refusal::NoSuchVariable),
        }
    }

    #[inline]
    fn admit_acquire(&self, thread: ThreadId, m: LockId) -> Result<Kind, Refusal>
        ensures { result ≡ acquire_at thread m (slice_get self.now.locks m.0) }
    {
        match self.locks.get(usize::from(m.0)).copied() {
            Some(lock) => lock.admit_acquire(thread, m),
            None => Err(Refusal::NoSuchLock),
        }
    }

    #[inline]
    fn admit_release(&self, thread: ThreadId, m: LockId) -> Result<Kind, Refusal>
        ensures { result ≡ release_at thread m (slice_get self.now.locks m.0) }
    {
        match self.locks.get(usize::from(m.0)).copied() {
            Some(lock) => lock.admit_release(thread, m),
            None => Err(Refusal::NoSuchLock),
        }
    }

    #[inline]
    fn admit_acquire_shared(&self, thread: ThreadId, m: LockId) -> Result<Kind, Refusal>
        ensures { result ≡ acquire_shared_at thread m (slice_get self.now.locks m.0) }
    {
        match self.locks.get(usize::from(m.0)).copied() {
            Some(lock) => lock.admit_acquire_shared(thread, m),
            None => Err(Refusal::NoSuchLock),
        }
    }

    #[inline]
    fn admit_release_shared(&self, thread: ThreadId, m: LockId) -> Result<Kind, Refusal>
        ensures { result ≡ release_shared_at thread m (slice_get self.now.locks m.0) }
    {
        match self.locks.get(usize::from(m.0)).copied() {
            Some(lock) => lock.admit_release_shared(thread, m),
            None => Err(Refusal::NoSuchLock),
        }
    }

    #[inline]
    fn admit_fork(&self, u: ThreadId) -> Result<Kind, Refusal>
        ensures { result ≡ fork_at u (slice_get self.now.threads u.0) }
    {
        match self.threads.get(usize::from(u.0)).copied() {
            Some(child) => child.admit_fork(u),
            None => Err(Refusal::NoSuchThread),
        }
    }

    #[inline]
    fn admit_join(&self, u: ThreadId) -> Result<Kind, Refusal>
        ensures { result ≡ join_at u (slice_get self.now.threads u.0) }
    {
        match self.threads.get(usize::from(u.0)).copied() {
            Some(child) => child.admit_join(u),
            None => Err(Refusal::NoSuchThread),
        }
    }

    /// Changes what the event names, and its thread if that has another state then.
    #[inline(always)]
    fn change(&mut self, event: &Event)
        requires { CanChange self.old event.now }
        ensures changed { self.new ≡ contents_after self.old event.now }
        ensures few { length self.old.threads ≤ MAX_THREADS }
    {
        let own = usize::from(event.thread.0);
        match event.kind {
            Kind::Read(..) => {}
            Kind::Write(x, value) => self.values[usize::from(x.0)] = value,
            Kind::Acquire(m) => {
                let lock = &mut self.locks[usize::from(m.0)];
                *lock = lock.with_holder(Some(event.thread));
                self.threads[own].locks += 1;
            }
            Kind::Release(m) => {
                let lock = &mut self.locks[usize::from(m.0)];
                *lock = lock.with_holder(None);
                self.threads[own].locks -= 1;
            }
            Kind::AcquireShared(m) => {
                let lock = &mut self.locks[usize::from(m.0)];
                *lock = lock.with_sharer(event.thread);
                self.threads[own].locks += 1;
            }
            Kind::ReleaseShared(m) => {
                let lock = &mut self.locks[usize::from(m.0)];
                *lock = lock.without_sharer(event.thread);
                self.threads[own].locks -= 1;
            }
            Kind::Begin(_) => self.threads[own].depth += 1,
            Kind::End => self.threads[own].depth -= 1,
            Kind::Fork(u) => self.threads[usize::from(u.0)].status = Status::Live,
            Kind::Join(u) => self.threads[usize::from(u.0)].status = Status::Joined,
            Kind::Exit => self.threads[own].status = Status::Exited,
        }
    }
}
