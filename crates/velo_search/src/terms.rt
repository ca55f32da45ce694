//! The terms of a search.

use crate::marked::MarkedScripts;
use velo_events::Bounds;

/// The terms of a search: which runs it tries, and when it ends.
#[derive(Clone, Copy)]
pub(crate) struct Terms<'s> {
    /// The bounds of the runs.
    pub bounds: Bounds,
    /// The operations of each thread, and what is left of them.
    pub scripts: &'s MarkedScripts,
    /// Whether the search ends at the first finding.
    pub first: bool,
}
