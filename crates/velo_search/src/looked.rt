//! What was found in a level, how many of its states were looked at, and the level after it.
ghost use Rattle.std.specs.Prelude.{◌≡◌, ◌||◌};

use crate::found::Found;
use crate::level::Level;

/// What was found once states of a level were looked at, how many of them were, and the level after
/// it.
#[derive(Drop)]
pub struct Looked {
    pub found: Found,
    pub states: usize,
    /// The states after the next events of those that were looked at.
    pub next: Level,
    /// Whether the caller said that the search is over.
    pub over: bool,
}

impl Looked {
    ghost use Rattle.velo_search.specs.Told.{has_ended};

    /// Whether the search ends here: the caller said so, or it ends at the first finding and has
    /// one.
    pub fn has_ended(&self, first: bool) -> bool
        ensures { result ≡ (self.now.over || has_ended first self.now.found) }
    {
        self.over || self.found.has_ended(first)
    }
}
