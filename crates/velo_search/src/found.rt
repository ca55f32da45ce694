//! Which faults a search has found.
ghost use Rattle.std.specs.Prelude.{◌≡◌};

use crate::fault::Fault;
use crate::seen::ThreadsSeen;

/// What was found of the runs.
#[derive(Clone, Copy, PartialEq, Eq)]
pub struct Found {
    /// Some run has a cycle.
    pub alarm: bool,
    /// Some run is stuck.
    pub stuck: bool,
    /// In some run an operation is refused.
    pub refused: bool,
}

impl Found {
    ghost use Rattle.velo_search.specs.Search.{has_fault};
    ghost use Rattle.velo_search.specs.Told.{foremost, found_after, has_ended, nothing};

    /// Nothing.
    pub fn none() -> Found
        ensures { result ≡ nothing }
    {
        Found {
            alarm: false,
            stuck: false,
            refused: false,
        }
    }

    /// What was found once a state is looked at, too, which has an alarm or not, and of whose
    /// threads this was seen.
    pub fn after(self, alarmed: bool, seen: ThreadsSeen) -> Found
        ensures { result ≡ found_after self alarmed seen }
    {
        Found {
            alarm: self.alarm || alarmed,
            stuck: self.stuck || (seen.waits && !(seen.acts || seen.refused)),
            refused: self.refused || seen.refused,
        }
    }

    /// Whether some run has the fault.
    pub fn has(self, fault: Fault) -> bool
        ensures { result ≡ has_fault self fault }
    {
        match fault {
            Fault::Cycle => self.alarm,
            Fault::Stuck => self.stuck,
            Fault::Refusing => self.refused,
        }
    }

    /// Whether a search that ends at the first finding has ended: it is one, and something was
    /// found.
    pub fn has_ended(self, first: bool) -> bool
        ensures { result ≡ has_ended first self }
    {
        first && (self.alarm || self.stuck || self.refused)
    }

    /// One of them alone: the alarm, else what is stuck, else the refusal.
    pub fn foremost(self) -> Found
        ensures { result ≡ foremost self }
    {
        Found {
            alarm: self.alarm,
            stuck: self.stuck && !self.alarm,
            refused: self.refused && !(self.alarm || self.stuck),
        }
    }
}
