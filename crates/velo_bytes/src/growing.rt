//! Text that grows in memory.
ghost use Rattle.std.specs.Prelude.{◌≡◌, ◌++◌, decimal, OnErr, OnOk};

use crate::buffer::put_number;
use velo_events::Memory;
use velo_events::growth::reserve;

/// Appends bytes.
///
/// # Errors
/// `Memory` if an allocation failed.
pub fn append(text: &mut Vec<u8>, bytes: &[u8]) -> Result<(), Memory>
    ensures ok { OnOk result (text.new.items ≡ text.old.items ++ bytes.now) }
    ensures kept { OnErr result (text.new.items ≡ text.old.items) }
{
    reserve(text, bytes.len())?;
    match text.extend_from_slice(bytes) {
        Ok(()) => Ok(()),
        Err(_) => unreachable!(),
    }
}

/// Appends the digits of a number.
///
/// # Errors
/// `Memory` if an allocation failed.
pub fn append_number(text: &mut Vec<u8>, number: u64) -> Result<(), Memory>
    ensures ok { OnOk result (text.new.items ≡ text.old.items ++ decimal number) }
    ensures kept { OnErr result (text.new.items ≡ text.old.items) }
{
    let mut buffer = [0u8; 20];
    let end = put_number(&mut buffer, 0, number);
    append(text, &buffer[..end])
}
