//! How a run ends.
use velo_events::{Refusal, ThreadId};

/// How a run ends.
#[derive(Clone, Copy, PartialEq, Eq)]
pub enum Ending {
    /// Every thread has exited, or was never forked.
    Done,
    /// Some thread is left, and none can go on; of a live run, that the least thread that was
    /// refused anything would have waited for itself.
    Stuck,
    /// The world was halted: by its alarm.
    Halted,
    /// A thread's action was refused.
    Refused(ThreadId, Refusal),
    /// A worker was gated. A replay never ends so.
    Gated,
}
