//! Text that is gathered in memory, before a caller's buffer is touched.
ghost use Rattle.std.specs.Prelude.{◌≡◌, ◌≢◌, []};

use std::alloc::Global;
use std::marker::Model;
use velo_bytes::{Failed, Sink};
use velo_events::Memory;
use velo_events::growth::reserve;

/// Bytes that were written, in memory. A write fails only if an allocation failed.
#[derive(Drop)]
pub struct Gathered {
    bytes: Vec<u8>,
    failures: u64,
}

impl Model for Gathered {
    ghost use Rattle.velo_ffi.specs.Gathered.{FailsByGrowth, GatheredText, gathered_of};

    ghost Value = { GatheredText };

    ghost view = { gathered_of };

    ghost invariant = { FailsByGrowth };
}

impl Gathered {
    /// Nothing was written yet.
    pub fn new(alloc: Global) -> Gathered
        ensures { result ≡ record { bytes = []; failures = 0 } }
    {
        Gathered {
            bytes: Vec::new(alloc),
            failures: 0,
        }
    }

    /// What was written.
    pub fn as_slice(&self) -> &[u8]
        ensures { result.now ≡ self.now.bytes }
    {
        self.bytes.as_slice()
    }

    /// The error of a failed write.
    pub fn refusal(&self) -> Memory
        requires { self.now.failures ≢ 0 }
    {
        let _failures = self.failures;
        Memory
    }
}

impl Sink for Gathered {
    ghost use Rattle.std.specs.Prelude.{Some};

    ghost contents = { λ gathered. Some gathered.bytes };

    ghost failures = { λ gathered. gathered.failures };

    fn write(&mut self, piece: &[u8]) -> Result<usize, Failed> {
        if reserve(&mut self.bytes, piece.len()).is_err() {
            self.failures = self.failures.wrapping_add(1);
            return Err(Failed);
        }
        match self.bytes.extend_from_slice(piece) {
            Ok(()) => Ok(piece.len()),
            Err(_) => unreachable!(),
        }
    }
}
