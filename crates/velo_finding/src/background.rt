//! What events are described by.

use std::alloc::Global;
use velo_events::Event;
use velo_names::Names;
use velo_sidecars::Sites;

/// What events are described by.
#[derive(Clone, Copy)]
pub struct Background<'b> {
    /// Where a text is made.
    pub alloc: Global,
    /// The names of what is numbered.
    pub names: &'b Names<'b>,
    /// Where in the source they happened, if this is known.
    pub sites: &'b Option<Sites<'b>>,
    /// The events of the log.
    pub events: &'b [Event],
    /// For each of them the first position of its transaction.
    pub owners: &'b [usize],
}
