//! Reading a whole file.
ghost use Rattle.std.specs.Prelude.{◌≡◌, ◌+◌, Err, IfOk, vec_len};
ghost use Rattle.velo_events.specs.Refusals.{GrowthRefused};
ghost use Rattle.velo_check.specs.declared.reading.ReadFault.TheVariants as read_fault;
ghost use Rattle.velo_check.specs.Reading.{GrowsByPiece, IsReadOf, failures_by};

use std::alloc::Global;
use velo_bytes::Source;
use velo_events::Memory;
use velo_events::growth::resize;

/// How many bytes are asked for at one time.
const PIECE: usize = 65_536;

/// Why a file was not read.
#[derive(Clone, Copy, PartialEq, Eq)]
pub enum ReadFault {
    /// The source failed.
    Failed,
    /// A growth was refused.
    Memory,
}

/// Reads the next bytes to the end of those that are there, and returns how many.
fn read_more<I: Source>(source: &mut I, bytes: &mut Vec<u8>) -> Result<usize, ReadFault>
    ensures grows { IfOk result (λ count. vec_len bytes.new ≡ vec_len bytes.old + count) }
    ensures bytes { IfOk result (GrowsByPiece (I.remaining source.old) (I.remaining source.new)
        bytes.old.items bytes.new.items) }
    ensures failures { I.failures source.new ≡ failures_by result (I.failures source.old) }
    ensures memory { result ≡ Err read_fault.Memory → GrowthRefused }
{
    let done = bytes.len();
    match resize(bytes, done.saturating_add(PIECE), 0) {
        Ok(()) => {}
        Err(Memory) => return Err(ReadFault::Memory),
    }
    match source.read(&mut bytes[done..]) {
        Ok(count) => {
            bytes.truncate(done + count);
            Ok(count)
        }
        Err(_) => Err(ReadFault::Failed),
    }
}

/// All bytes of a source; or where there are more than the most that are wanted, more than so many of them.
pub fn read_whole<I: Source>(
    alloc: Global,
    source: &mut I,
    most: usize,
) -> Result<Vec<u8>, ReadFault>
    ensures bytes { IfOk result (λ bytes. IsReadOf most (I.remaining source.old) bytes.items) }
    ensures failures { I.failures source.new ≡ failures_by result (I.failures source.old) }
    ensures memory { result ≡ Err read_fault.Memory → GrowthRefused }
{
    let mut bytes = Vec::new(alloc);
    while bytes.len() <= most {
        if read_more(source, &mut bytes)? == 0 {
            return Ok(bytes);
        }
    }
    Ok(bytes)
}
