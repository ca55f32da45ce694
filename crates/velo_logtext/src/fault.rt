//! Why a log could not be read.
ghost use Rattle.std.specs.Prelude.{◌≡◌};

use thiserror::Error;
use velo_bytes::Failed;
use velo_events::Memory;

/// Why a log could not be read. Lines are counted from 1, the header's.
#[derive(Clone, Copy, Debug, PartialEq, Eq, Error)]
pub enum LogFault {
    /// The first line is no header, or it has no newline.
    #[error("bad header")]
    BadHeader,
    /// This line is no event's, though its newline or more than 64 bytes of it are there.
    #[error("bad line {0}")]
    BadLine(usize),
    /// The input ends within this line, after 1 to 64 bytes of it.
    #[error("line {0} is cut off")]
    Truncated(usize),
    /// A byte stands after the line of the last event that a log may have: the one with the number
    /// [`MAX_EVENTS`](velo_events::MAX_EVENTS), counted from 1.
    #[error("too many events")]
    TooLong,
    /// The source failed in this call.
    #[error("read failed")]
    Read,
    /// A growth was refused in this call.
    #[error("out of memory")]
    Memory,
}

impl From<Failed> for LogFault {
    ghost use Rattle.velo_logtext.specs.declared.fault.LogFault.TheVariants.{Read};

    ghost from_gives = { λ _ e. e ≡ Read };

    fn from(_failed: Failed) -> LogFault {
        LogFault::Read
    }
}

impl From<Memory> for LogFault {
    ghost use Rattle.velo_logtext.specs.declared.fault.LogFault.TheVariants as log_fault;

    ghost from_gives = { λ _ e. e ≡ log_fault.Memory };

    fn from(_refused: Memory) -> LogFault {
        LogFault::Memory
    }
}
