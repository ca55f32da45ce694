//! What a run may show.
ghost use Rattle.std.specs.Prelude.{◌≡◌};
ghost use Rattle.velo_explore.specs.Goals.{fault_of};

use velo_events::{Refusal, ThreadId};
use velo_search::Fault;

/// What the replay by a schedule may show.
#[derive(Clone, Copy, PartialEq, Eq)]
pub enum Goal {
    /// An alarm: its log is not serializable.
    Alarm,
    /// A deadlock: it ends as stuck.
    Stuck,
    /// It ends as this thread is refused, for this reason, which is no want of room.
    Refused(ThreadId, Refusal),
}

impl Goal {
    /// Which fault of a run it is.
    pub fn fault(self) -> Fault
        ensures { result ≡ fault_of self }
    {
        match self {
            Goal::Alarm => Fault::Cycle,
            Goal::Stuck => Fault::Stuck,
            Goal::Refused(..) => Fault::Refusing,
        }
    }
}
