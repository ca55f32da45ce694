//! Why a text is no report.
ghost use Rattle.std.specs.Prelude.{◌≡◌};
ghost use Rattle.velo_claims.specs.Fault.{fault_line, fault_number};

use thiserror::Error;
use velo_events::Memory;

/// Why a text is no report. Lines are counted from 1.
#[derive(Clone, Copy, Debug, PartialEq, Eq, Error)]
pub enum ReportFault {
    /// This line is not what comes at this place in a report.
    #[error("bad line {0}")]
    BadLine(usize),
    /// The text ends in or after this line, before the end of the verdict, or without its last
    /// newline.
    #[error("ends early in line {0}")]
    EndsEarly(usize),
    /// There are more bytes than [`MAX_REPORT_BYTES`](crate::MAX_REPORT_BYTES).
    #[error("too many bytes")]
    TooManyBytes,
    /// An allocation failed.
    #[error("out of memory")]
    Memory,
}

impl ReportFault {
    /// The number of the fault; `None` if it was out of memory, which is no fault of the text.
    pub fn number(&self) -> Option<u8>
        ensures { result ≡ fault_number self.now }
    {
        match self {
            ReportFault::BadLine(_) => Some(1),
            ReportFault::EndsEarly(_) => Some(2),
            ReportFault::TooManyBytes => Some(3),
            ReportFault::Memory => None,
        }
    }

    /// The line of the fault; 0 if it is one of the whole text.
    pub fn line(&self) -> usize
        ensures { result ≡ fault_line self.now }
    {
        match self {
            ReportFault::BadLine(line) | ReportFault::EndsEarly(line) => *line,
            ReportFault::TooManyBytes | ReportFault::Memory => 0,
        }
    }
}

impl From<Memory> for ReportFault {
    ghost use Rattle.velo_claims.specs.declared.fault.ReportFault.TheVariants as report_fault;

    ghost from_gives = { λ _ e. e ≡ report_fault.Memory };

    fn from(_refused: Memory) -> ReportFault {
        ReportFault::Memory
    }
}
