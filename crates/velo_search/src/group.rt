//! Groups of events, by what they conflict with.
use velo_events::{Cell, ThreadId};

/// A group of events of a log. What conflicts with an event is in the groups that the event looks at.
#[derive(Clone, Copy)]
pub enum Group {
    /// The events of the thread, and its fork.
    OfThread(ThreadId),
    /// The writes of the variable, or what acquires or releases the lock alone.
    WritesOf(Cell),
    /// The reads of the variable, or what acquires or releases a share of the lock.
    ReadsOf(Cell),
}
