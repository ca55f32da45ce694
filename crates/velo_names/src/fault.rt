//! Why a file has no names.
ghost use Rattle.std.specs.Prelude.{◌≡◌};
ghost use Rattle.velo_names.specs.Fault.{fault_number, fault_line};

use thiserror::Error;
use velo_events::Memory;

/// Why a file has no names. Lines are counted from 1.
#[derive(Clone, Copy, Debug, PartialEq, Eq, Error)]
pub enum NamesFault {
    /// This line is not empty, is no comment and says no name.
    #[error("bad line {0}")]
    BadLine(usize),
    /// This line names what a line before it names.
    #[error("named twice in line {0}")]
    NamedTwice(usize),
    /// There is a line after the last one that a file may have, the one with the number
    /// [`MAX_NAME_LINES`](crate::MAX_NAME_LINES).
    #[error("too many lines")]
    TooManyLines,
    /// There are more bytes than [`MAX_NAMES_BYTES`](crate::MAX_NAMES_BYTES).
    #[error("too many bytes")]
    TooManyBytes,
    /// The bytes are not UTF-8.
    #[error("not UTF-8")]
    NotText,
    /// An allocation failed in this call.
    #[error("out of memory")]
    Memory,
}

impl NamesFault {
    /// The number of the fault; `None` for `Memory`, which is no fault of the file.
    pub fn number(&self) -> Option<u8>
        ensures { result ≡ fault_number self.now }
    {
        match self {
            NamesFault::BadLine(_) => Some(1),
            NamesFault::NamedTwice(_) => Some(2),
            NamesFault::TooManyLines | NamesFault::TooManyBytes => Some(3),
            NamesFault::NotText => Some(4),
            NamesFault::Memory => None,
        }
    }

    /// The line of the fault; 0 where it is one of the whole file.
    pub fn line(&self) -> usize
        ensures { result ≡ fault_line self.now }
    {
        match self {
            NamesFault::BadLine(line) | NamesFault::NamedTwice(line) => *line,
            NamesFault::TooManyLines => crate::MAX_NAME_LINES + 1,
            NamesFault::TooManyBytes | NamesFault::NotText | NamesFault::Memory => 0,
        }
    }
}

impl From<Memory> for NamesFault {
    ghost use Rattle.velo_names.specs.declared.fault.NamesFault.TheVariants as names_fault;

    ghost from_gives = { λ _ e. e ≡ names_fault.Memory };

    fn from(_refused: Memory) -> NamesFault {
        NamesFault::Memory
    }
}
