//! Sets of threads, one bit for each.
ghost use Rattle.std.specs.Prelude.{◌≡◌, ◌<◌, ◌==◌, ◌&&◌, ◌||◌, ℕ, not, IfNone, IfSome, IsTrue, IsFalse};
ghost use Rattle.velo_events.specs.declared.limits.TheConstants.{MAX_THREADS};
ghost use Rattle.velo_events.specs.ThreadSets.{has_thread, has_none, no_threads, with_thread, without_thread};

use crate::event::ThreadId;
use crate::limits::MAX_THREADS;

/// A set of threads, as one bit for each.
#[derive(Clone, Copy, PartialEq, Eq, Hash)]
pub struct ThreadSet(pub u64);

impl ThreadSet {
    /// The set without members.
    pub fn none() -> ThreadSet
        ensures { result ≡ no_threads }
    {
        ThreadSet(0)
    }

    /// Whether the set has no members.
    pub fn is_empty(self) -> bool
        ensures { result ≡ has_none self }
    {
        self.0 == 0
    }

    /// Whether the thread is a member.
    pub fn has(self, thread: ThreadId) -> bool
        ensures { result ≡ has_thread self thread.0 }
    {
        thread.0 < MAX_THREADS && (self.0 >> thread.0) & 1 == 1
    }

    /// The set with the thread.
    pub fn with(self, thread: ThreadId) -> ThreadSet
        requires { thread.0 < MAX_THREADS }
        ensures set { result ≡ with_thread thread self }
        ensures members { (u : ℕ) → has_thread result u ≡ (thread.0 == u || has_thread self u) }
    {
        ThreadSet(self.0 | 1 << thread.0)
    }

    /// The set without the thread.
    pub fn without(self, thread: ThreadId) -> ThreadSet
        requires { thread.0 < MAX_THREADS }
        ensures set { result ≡ without_thread thread self }
        ensures members { (u : ℕ) →
            has_thread result u ≡ (not (thread.0 == u) && has_thread self u) }
    {
        ThreadSet(self.0 & !(1 << thread.0))
    }

    /// The members of either.
    pub fn union(self, other: ThreadSet) -> ThreadSet
        ensures { (u : ℕ) → has_thread result u ≡ (has_thread self u || has_thread other u) }
    {
        ThreadSet(self.0 | other.0)
    }

    /// The members that the other does not have.
    pub fn difference(self, other: ThreadSet) -> ThreadSet
        ensures { (u : ℕ) → has_thread result u ≡ (not (has_thread other u) && has_thread self u) }
    {
        ThreadSet(self.0 & !other.0)
    }

    /// The least member.
    pub fn first(self) -> Option<ThreadId>
        ensures none { IfNone result ((u : ℕ) → IsFalse (has_thread self u)) }
        ensures few { IfSome result (λ t. t.0 < MAX_THREADS) }
        ensures member { IfSome result (λ t. IsTrue (has_thread self t.0)) }
        ensures least { IfSome result (λ t. (u : ℕ) → u < t.0 → IsFalse (has_thread self u)) }
    {
        if self.0 == 0 {
            None
        } else {
            Some(ThreadId(self.0.trailing_zeros() as u8))
        }
    }
}
