//! What a search returns.
ghost use Rattle.std.specs.Prelude.{◌≡◌, ◌&&◌, not};

use crate::fault::Fault;
use crate::found::Found;
use crate::schedules::Schedules;

/// What a search found, by which turns, how many states it looked at, and whether it tried every
/// run.
#[derive(Drop)]
pub struct Searched {
    pub found: Found,
    pub schedules: Schedules,
    pub states: u64,
    pub whole: bool,
}

impl Searched {
    ghost use Rattle.velo_search.specs.Search.{has_fault};

    /// Whether no run has the fault: every run was tried, and none that was has it.
    pub fn rules_out(&self, fault: Fault) -> bool
        ensures { result ≡ (self.now.whole && not (has_fault self.now.found fault)) }
    {
        self.whole && !self.found.has(fault)
    }
}
