//! The threads that reach one group of events.
ghost use Rattle.std.specs.Prelude.{◌≡◌, ◌<◌, ◌==◌, ◌&&◌, ◌||◌, ℕ, not};
ghost use Rattle.velo_events.specs.ThreadSets.{has_thread};

use velo_events::{ThreadId, ThreadSet};

/// The threads that reach a group of events.
#[derive(Clone, Copy, PartialEq, Eq, Hash)]
pub struct Mark {
    /// Those whose unfinished transaction reaches that of an event of the group.
    pub reached: ThreadSet,
    /// Those of them where this is another transaction.
    pub beyond: ThreadSet,
}

impl Mark {
    ghost use Rattle.velo_search.specs.Marks.{blank_mark, IsMarkAfter};

    /// The mark of a group that nobody reaches.
    pub fn blank() -> Mark
        ensures { result ≡ blank_mark }
    {
        Mark {
            reached: ThreadSet::none(),
            beyond: ThreadSet::none(),
        }
    }

    /// The threads that reach one group or the other.
    pub fn union(self, other: Mark) -> Mark
        ensures reached { (u : ℕ) → has_thread result.reached u ≡
            (has_thread self.reached u || has_thread other.reached u) }
        ensures beyond { (u : ℕ) → has_thread result.beyond u ≡
            (has_thread self.beyond u || has_thread other.beyond u) }
    {
        Mark {
            reached: self.reached.union(other.reached),
            beyond: self.beyond.union(other.beyond),
        }
    }

    /// The mark without the thread.
    fn without(self, thread: ThreadId) -> Mark
        requires { thread.0 < 64 }
        ensures reached { (u : ℕ) → has_thread result.reached u ≡ (not (thread.0 == u) && has_thread self.reached u) }
        ensures beyond { (u : ℕ) → has_thread result.beyond u ≡ (not (thread.0 == u) && has_thread self.beyond u) }
    {
        Mark {
            reached: self.reached.without(thread),
            beyond: self.beyond.without(thread),
        }
    }

    /// The mark with the thread and those after its event, where the thread is in it.
    fn spread(self, thread: ThreadId, behind: ThreadSet) -> Mark
        requires { thread.0 < 64 }
        ensures reached { (u : ℕ) → has_thread result.reached u ≡
            (has_thread self.reached u ||
            (has_thread self.reached thread.0 && (thread.0 == u || has_thread behind u))) }
        ensures beyond { (u : ℕ) → has_thread result.beyond u ≡
            (has_thread self.beyond u ||
            (has_thread self.reached thread.0 && (not (thread.0 == u) && has_thread behind u))) }
    {
        if self.reached.has(thread) {
            Mark {
                reached: self.reached.union(behind.with(thread)),
                beyond: self.beyond.union(behind.without(thread)),
            }
        } else {
            self
        }
    }

    /// The mark after an event of the thread, which is in it where the event leads to the group.
    ///
    /// `inside` says whether the thread has a block open after the event.
    pub fn after(self, thread: ThreadId, behind: ThreadSet, inside: bool) -> Mark
        requires { thread.0 < 64 }
        ensures { IsMarkAfter thread.0 behind inside self result }
    {
        let spread = self.spread(thread, behind);
        if inside {
            spread
        } else {
            spread.without(thread)
        }
    }
}
