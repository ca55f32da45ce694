//! How a thread has one lock by its own operations.
ghost use Rattle.std.specs.Prelude.{◌≡◌};

use velo_events::Kind;

/// How a thread has a lock by its own operations.
#[derive(Clone, Copy, PartialEq, Eq)]
pub struct Hold {
    /// Alone.
    pub alone: bool,
    /// A share of it.
    pub shared: bool,
}

impl Hold {
    ghost use Rattle.velo_search.specs.Free.{excludes, hold_next, no_hold};

    /// Not at all.
    pub fn none() -> Hold
        ensures { result ≡ no_hold }
    {
        Hold {
            alone: false,
            shared: false,
        }
    }

    /// Whether two threads cannot hold one lock so at one time.
    pub fn excludes(self, other: Hold) -> bool
        ensures { result ≡ excludes self other }
    {
        (self.alone && (other.alone || other.shared)) || (self.shared && other.alone)
    }

    /// How the thread has the lock of this number after one more operation.
    pub fn after(self, lock: usize, kind: Kind) -> Hold
        ensures { result ≡ hold_next lock self kind }
    {
        let Hold { alone, shared } = self;
        match kind {
            Kind::Acquire(m) => Hold {
                alone: usize::from(m.0) == lock || alone,
                shared,
            },
            Kind::Release(m) => Hold {
                alone: usize::from(m.0) != lock && alone,
                shared,
            },
            Kind::AcquireShared(m) => Hold {
                alone,
                shared: usize::from(m.0) == lock || shared,
            },
            Kind::ReleaseShared(m) => Hold {
                alone,
                shared: usize::from(m.0) != lock && shared,
            },
            _ => self,
        }
    }
}
