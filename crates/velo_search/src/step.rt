//! An event of a run, and where the one before it stands.
use velo_events::ThreadId;

/// An event of a run: its thread, and where the event before it stands.
#[derive(Clone, Copy)]
pub struct Step {
    /// One more than the index of the event before it, 0 where there is none.
    pub before: usize,
    pub thread: ThreadId,
}
