//! Text that is made ready in a buffer, so that it is written at once.
ghost use Rattle.std.specs.Prelude.{◌≡◌, ◌≤◌, ◌+◌, ◌++◌, length, take, decimal};

use itoa::Buffer;

/// Puts bytes at a place of a buffer that has room for them, and returns the place after them.
pub fn put_bytes(buffer: &mut [u8], at: usize, bytes: &[u8]) -> usize
    requires { at + length bytes.now ≤ length buffer.old }
    ensures text { take result buffer.new ≡ take at buffer.old ++ bytes.now }
    ensures end { result ≡ at + length bytes.now }
{
    let end = at + bytes.len();
    buffer[at..end].copy_from_slice(bytes);
    end
}

/// Puts the digits of a number, of which there are at most 20, and returns the place after them.
pub fn put_number(buffer: &mut [u8], at: usize, number: u64) -> usize
    requires { at + 20 ≤ length buffer.old }
    ensures text { take result buffer.new ≡ take at buffer.old ++ decimal number }
    ensures end { result ≤ at + 20 }
{
    let mut digits = Buffer::new();
    put_bytes(buffer, at, digits.format(number).as_bytes())
}
