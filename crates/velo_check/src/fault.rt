//! Why a log has no verdict.

use thiserror::Error;
use velo_events::Refusal;
use velo_logtext::LogFault;

/// Why a log has no verdict. Positions count the events from 0.
#[derive(Clone, Copy, Debug, PartialEq, Eq, Error)]
pub enum CheckFault {
    /// The log could not be read.
    #[error(transparent)]
    Log(LogFault),
    /// The event at the position is refused.
    #[error("refused {} at {position}", *.refusal as u8)]
    Refused { position: usize, refusal: Refusal },
    /// The event at the position reads a value that the variable does not have.
    #[error("wrong value at {position}")]
    WrongValue { position: usize },
    /// The sink failed; a beginning of the report, or of the certificate after it, was written.
    #[error("write failed")]
    Write,
    /// A growth was refused.
    #[error("out of memory")]
    Memory,
}
