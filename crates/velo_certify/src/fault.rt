//! Why there is no certificate.
use thiserror::Error;
use velo_events::Memory;

/// Why there is no certificate of the wanted kind.
#[derive(Clone, Copy, Debug, PartialEq, Eq, Error)]
pub enum CertFault {
    /// The trace has a cycle, so no order of it is serial.
    #[error("the trace has a cycle")]
    HasCycle,
    /// No cycle of the events up to the position contains its transaction.
    #[error("no cycle contains the transaction")]
    NoCycle,
    /// The trace has no such position.
    #[error("no such position")]
    NotThere,
    /// An allocation failed.
    #[error("out of memory")]
    Memory,
}

impl From<Memory> for CertFault {
    ghost use Rattle.std.specs.Prelude.{◌≡◌};
    ghost use Rattle.velo_certify.specs.Faults.{out_of_memory};

    ghost from_gives = { λ _ fault. fault ≡ out_of_memory };

    fn from(_refused: Memory) -> CertFault {
        CertFault::Memory
    }
}
