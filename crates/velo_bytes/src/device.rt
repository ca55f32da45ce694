//! Where bytes come from and where they go.
ghost use Rattle.std.specs.Prelude.{◌≡◌, ℕ, ◌+◌, ◌%◌, ◌^◌, ◌<◌, List, Option, None, length, IfOk, OnOk, OnErr};
ghost use Rattle.std.specs.Io.{ReadsAtMost, WritesAtMost};
ghost use Rattle.std.specs.Io.KnownBytes.{ReadConsumes, WriteAppends, Appends};
ghost use Rattle.velo_bytes.specs.Device.{with_failure, AppendsBeginning};

use thiserror::Error;

/// A device failed in this call.
#[derive(Clone, Copy, Debug, PartialEq, Eq, Error)]
#[error("the device failed")]
pub struct Failed;

/// The sink failed in this call.
#[derive(Clone, Copy, Debug, PartialEq, Eq, Error)]
#[error("write failed")]
pub struct WriteFault;

impl From<Failed> for WriteFault {
    fn from(_failed: Failed) -> WriteFault {
        WriteFault
    }
}

/// Where bytes come from.
pub trait Source {
    /// The bytes still to come, where they are known.
    ghost remaining: { Self → Option (List ℕ) };

    /// How many reads have failed, modulo 2 ^ 64.
    ghost failures: { Self → ℕ };

    /// Puts the next bytes at the front of the piece, and returns how many. It returns 0 for a
    /// piece that is not empty only at the end of the input.
    ///
    /// # Errors
    /// `Failed` where the device failed, which counts one failure more.
    fn read(&mut self, piece: &mut [u8]) -> Result<usize, Failed>
        ensures bound { ReadsAtMost result piece.new }
        ensures bytes { ReadConsumes (remaining self.old) (remaining self.new) result piece.new }
        ensures ok { OnOk result (failures self.new ≡ failures self.old) }
        ensures err { OnErr result (failures self.new ≡ with_failure (failures self.old)) };
}

/// Where bytes go.
pub trait Sink {
    /// The bytes written so far, where they are known.
    ghost contents: { Self → Option (List ℕ) };

    /// How many writes have failed, modulo 2 ^ 64.
    ghost failures: { Self → ℕ };

    /// Takes bytes from the front of the piece, and returns how many: at least one where there are
    /// any.
    ///
    /// # Errors
    /// `Failed` where the device failed, which counts one failure more.
    fn write(&mut self, piece: &[u8]) -> Result<usize, Failed>
        ensures bound { WritesAtMost result piece.now }
        ensures some { 0 < length piece.now → IfOk result (λ n. 0 < n) }
        ensures bytes { WriteAppends (contents self.old) (contents self.new) result piece.now }
        ensures ok { OnOk result (failures self.new ≡ failures self.old) }
        ensures err { OnErr result (failures self.new ≡ with_failure (failures self.old)) };
}

/// Writes all the bytes.
///
/// # Errors
/// `WriteFault` at the first failure of the sink. A beginning of the bytes was written then.
pub fn write_all<S: Sink>(sink: &mut S, bytes: &[u8]) -> Result<(), WriteFault>
    ensures ok { OnOk result (Appends (S.contents sink.old) (S.contents sink.new) bytes.now) }
    ensures err { OnErr result (AppendsBeginning (S.contents sink.old) (S.contents sink.new) bytes.now) }
    ensures no_failure { OnOk result (S.failures sink.new ≡ S.failures sink.old) }
    ensures failure { OnErr result (S.failures sink.new ≡ with_failure (S.failures sink.old)) }
{
    let mut done = 0;
    while done < bytes.len() {
        let taken = sink.write(&bytes[done..])?;
        done += taken;
    }
    Ok(())
}
