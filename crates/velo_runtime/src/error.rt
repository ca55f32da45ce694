//! What may go wrong in a program whose threads share a world.
ghost use Rattle.std.specs.Prelude.{◌≡◌};
ghost use Rattle.velo_runtime.specs.declared.error.RunError.TheVariants as run_error;

use crate::shared::Missing;
use std::alloc::{AllocError, AllocFailed};
use thiserror::Error;
use velo_events::{BadConfig, Memory, Refusal};

/// What may go wrong in a program whose threads share a world. Every error of such a program
/// becomes one by `?`.
#[derive(Debug, Drop, Error)]
pub enum RunError {
    /// A value of the configuration is out of its range.
    #[error(transparent)]
    BadConfig(BadConfig),
    /// An action was refused.
    #[error(transparent)]
    Refused(Refusal),
    /// The run could not be closed. All is given back.
    #[error(transparent)]
    Missing(Missing),
    /// The library is out of memory.
    #[error(transparent)]
    Memory(Memory),
    /// An allocation of the program's own failed.
    #[error("out of memory")]
    Allocation,
}

impl From<BadConfig> for RunError {
    ghost from_gives = { λ bad error. error ≡ run_error.BadConfig bad };

    fn from(bad: BadConfig) -> RunError {
        RunError::BadConfig(bad)
    }
}

impl From<Refusal> for RunError {
    ghost from_gives = { λ refusal error. error ≡ run_error.Refused refusal };

    fn from(refusal: Refusal) -> RunError {
        RunError::Refused(refusal)
    }
}

impl From<Missing> for RunError {
    ghost from_gives = { λ missing error. error ≡ run_error.Missing missing };

    fn from(missing: Missing) -> RunError {
        RunError::Missing(missing)
    }
}

impl From<Memory> for RunError {
    ghost from_gives = { λ memory error. error ≡ run_error.Memory memory };

    fn from(memory: Memory) -> RunError {
        RunError::Memory(memory)
    }
}

impl From<AllocError> for RunError {
    ghost from_gives = { λ _ error. error ≡ run_error.Allocation };

    fn from(_error: AllocError) -> RunError {
        RunError::Allocation
    }
}

impl<T: Drop> From<AllocFailed<T>> for RunError {
    ghost from_gives = { λ _ error. error ≡ run_error.Allocation };

    fn from(_error: AllocFailed<T>) -> RunError {
        RunError::Allocation
    }
}
