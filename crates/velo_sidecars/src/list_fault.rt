//! Why a file is no list.
ghost use Rattle.std.specs.Prelude.{◌≡◌};
ghost use Rattle.velo_sidecars.specs.ListFault.{fault_line, fault_number};

use thiserror::Error;
use velo_events::Memory;
use velo_names::MAX_NAME_LINES;

/// Why a file is no list. Lines are counted from 1.
#[derive(Clone, Copy, Debug, PartialEq, Eq, Error)]
pub enum ListFault {
    /// This line is no entry.
    #[error("bad line {0}")]
    BadLine(usize),
    /// There is a line after the last one that a file may have, the one with the number
    /// [`MAX_NAME_LINES`](velo_names::MAX_NAME_LINES).
    #[error("too many lines")]
    TooManyLines,
    /// There are more bytes than [`MAX_NAMES_BYTES`](velo_names::MAX_NAMES_BYTES).
    #[error("too many bytes")]
    TooManyBytes,
    /// The bytes are not UTF-8.
    #[error("not UTF-8")]
    NotText,
    /// An allocation failed in this call.
    #[error("out of memory")]
    Memory,
}

impl ListFault {
    /// The number of the fault, as of a file of names; `None` for `Memory`, which is no fault of
    /// the file.
    pub fn number(&self) -> Option<u8>
        ensures { result ≡ fault_number self.now }
    {
        match self {
            ListFault::BadLine(_) => Some(1),
            ListFault::TooManyLines | ListFault::TooManyBytes => Some(3),
            ListFault::NotText => Some(4),
            ListFault::Memory => None,
        }
    }

    /// The line of the fault; 0 where it is one of the whole file.
    pub fn line(&self) -> usize
        ensures { result ≡ fault_line self.now }
    {
        match self {
            ListFault::BadLine(line) => *line,
            ListFault::TooManyLines => MAX_NAME_LINES + 1,
            ListFault::TooManyBytes | ListFault::NotText | ListFault::Memory => 0,
        }
    }
}

impl From<Memory> for ListFault {
    ghost use Rattle.velo_sidecars.specs.declared.list_fault.ListFault.TheVariants as list_fault;

    ghost from_gives = { λ _ e. e ≡ list_fault.Memory };

    fn from(_refused: Memory) -> ListFault {
        ListFault::Memory
    }
}
