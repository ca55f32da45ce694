//! Why a text is no workload.
ghost use Rattle.std.specs.Prelude.{◌≡◌};

use thiserror::Error;
use velo_events::Memory;

/// Why a text is no workload. Lines are counted from 1; line 0 means the whole text.
#[derive(Clone, Copy, Debug, PartialEq, Eq, Error)]
pub enum WorkFault {
    /// This line is no statement, or one in a wrong place. Line 0: the text has no thread, or is no
    /// text.
    #[error("bad line {0}")]
    BadLine(usize),
    /// This line uses a variable, a lock or a thread that the text does not declare.
    #[error("unknown name in line {0}")]
    Unknown(usize),
    /// This line declares a variable, a lock or a thread again.
    #[error("name declared twice in line {0}")]
    Twice(usize),
    /// This line's `repeat` has no `done`, or its `done` has no `repeat`.
    #[error("unmatched line {0}")]
    Unmatched(usize),
    /// This line is one too many of its kind, or begins a thread whose body costs too much. Line 0:
    /// the text is too long.
    #[error("too many at line {0}")]
    TooMany(usize),
    /// An allocation failed in this call.
    #[error("out of memory")]
    Memory,
}

impl From<Memory> for WorkFault {
    ghost use Rattle.velo_workload.specs.declared.fault.WorkFault.TheVariants as work_fault;

    ghost from_gives = { λ _ e. e ≡ work_fault.Memory };

    fn from(_refused: Memory) -> WorkFault {
        WorkFault::Memory
    }
}
