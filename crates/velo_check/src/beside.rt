//! Files that are read whole beside a command's input.
ghost use Rattle.std.specs.Prelude.{◌≡◌, IfErr, IfOk, OnOk};
ghost use Rattle.velo_check.specs.Format.{LacksAt, Reads, SaysNone, bytes_up_to};
ghost use Rattle.velo_check.specs.Failures.{failures_told};
ghost use Rattle.velo_check.specs.Reading.{IsReadOf};

use crate::fate::Fate;
use crate::files::{Files, open_at};
use crate::reading::{ReadFault, read_whole};
use std::alloc::Global;
use velo_bytes::Source;

/// All bytes of a source; or if there are more than `most`, more than `most` of them.
fn read_source<I: Source>(alloc: Global, source: &mut I, most: usize) -> Result<Vec<u8>, Fate>
    ensures bytes { IfOk result (λ bytes. IsReadOf most (I.remaining source.old) bytes.items) }
    ensures failed { IfErr result (SaysNone (bytes_up_to most) (I.remaining source.old)) }
    ensures read { OnOk result (I.failures source.new ≡ I.failures source.old) }
    ensures failure { IfErr result (λ fate. I.failures source.new ≡ failures_told fate
        (I.failures source.old)) }
{
    match read_whole(alloc, source, most) {
        Ok(bytes) => Ok(bytes),
        Err(ReadFault::Failed) => Err(Fate::ReadFailed),
        Err(ReadFault::Memory) => Err(Fate::Memory),
    }
}

/// All bytes of the file at a path, or of standard input; or if there are more than `most`, more
/// than `most` of them.
///
/// # Errors
/// `CannotOpen` where it does not open, `ReadFailed` where it failed, `Memory` if an allocation
/// failed.
pub fn read_file<F: Files>(
    alloc: Global,
    path: &str,
    most: usize,
    files: &F,
) -> Result<Vec<u8>, Fate>
    ensures bytes { IfOk result (λ bytes. Reads (bytes_up_to most) (F.disk files.now) path.now
        bytes.items) }
    ensures unread { IfErr result (LacksAt (bytes_up_to most) (F.disk files.now) path.now) }
{
    match open_at(files, path) {
        Some(mut file) => read_source(alloc, &mut file, most),
        None => Err(Fate::CannotOpen),
    }
}
