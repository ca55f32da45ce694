//! Texts between quotes.
ghost use Rattle.std.specs.Prelude.{◌≡◌, ◌++◌, ◌<◌, OnOk};
ghost use Rattle.std.specs.Char.{digit_char};
ghost use Rattle.json.specs.Print.{escape, escape_byte, escape_letter, quoted};

use velo_bytes::append;
use velo_events::Memory;

/// The letter of the short escape of a byte, or 0 where it has none.
fn letter(byte: u8) -> u8
    ensures { result ≡ escape_letter byte }
{
    match byte {
        b'"' | b'\\' => byte,
        8 => b'b',
        12 => b'f',
        b'\n' => b'n',
        b'\r' => b'r',
        b'\t' => b't',
        _ => 0,
    }
}

/// A digit to the base 16.
fn hex(digit: u8) -> u8
    requires { digit < 16 }
    ensures { result ≡ digit_char digit }
{
    if digit < 10 {
        b'0' + digit
    } else {
        b'a' - 10 + digit
    }
}

/// Adds what stands in a text for a byte.
#[tactic(auto, unfolding(json::specs::Print::escape_byte))]
fn add_escaped_byte(text: &mut Vec<u8>, byte: u8) -> Result<(), Memory>
    ensures { OnOk result (text.new.items ≡ text.old.items ++ escape_byte byte) }
{
    let letter = letter(byte);
    if letter > 0 {
        return append(text, &[b'\\', letter]);
    }
    if byte < 0x20 {
        return append(
            text,
            &[b'\\', b'u', b'0', b'0', hex(byte / 16), hex(byte % 16)],
        );
    }
    append(text, &[byte])
}

/// Adds what stands in a text for some bytes.
fn add_escaped(text: &mut Vec<u8>, bytes: &[u8]) -> Result<(), Memory>
    ensures { OnOk result (text.new.items ≡ text.old.items ++ escape bytes.now) }
{
    for byte in bytes {
        add_escaped_byte(text, *byte)?;
    }
    Ok(())
}

/// Adds bytes between quotes.
pub(crate) fn add_quoted(text: &mut Vec<u8>, bytes: &[u8]) -> Result<(), Memory>
    ensures { OnOk result (text.new.items ≡ text.old.items ++ quoted bytes.now) }
{
    append(text, b"\"")?;
    add_escaped(text, bytes)?;
    append(text, b"\"")
}
