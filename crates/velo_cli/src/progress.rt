//! Telling how far the search of an exploration is, and when it is over.

use velo_explore::{Progress, Quiet};

/// Where an exploration reports how far its search is, and who says when it is over.
pub trait ExploreProgress: Progress {
    /// A search begins, which is to be told of wherever this goes, if `always`, and else where
    /// somebody looks. After so many seconds it is over, if a number is given.
    fn begin(&mut self, always: bool, seconds: Option<u32>);

    /// The search has ended, and its report follows.
    fn end(&mut self);
}

impl ExploreProgress for Quiet {
    fn begin(&mut self, _always: bool, _seconds: Option<u32>) {}

    fn end(&mut self) {}
}
