//! What a line of a file of names says.
ghost use Rattle.std.specs.Prelude.{◌≡◌, ◌==◌, ◌<◌, ◌≤◌, option_map, ◌∷◌, length};
ghost use Rattle.std.specs.Char.{is_ascii_digit};
ghost use Rattle.std.specs.List.{list_all, position_or_len};
ghost use Rattle.velo_names.specs.Line.{is_number, number_of_kind, is_control, has_control, is_name, is_silent, lines, name_at, number_and_name_at, naming_of};
ghost use Rattle.velo_names.specs.Said.{said};

use crate::kind::NameKind;
use crate::limits::MAX_NAME_BYTES;
use velo_bytes::{after, number, whole_number};

/// A number of a kind, and its name.
#[derive(Clone, Copy)]
pub struct Said<'a> {
    /// The kind.
    pub kind: NameKind,
    /// The number.
    pub number: u32,
    /// The name.
    pub name: &'a [u8],
}

/// Whether a byte is a control character of ASCII, or the second byte of one of U+0080 to U+009F.
fn is_control(before: u8, byte: u8) -> bool
    ensures { result ≡ is_control before byte }
{
    byte < 32 || byte == 127 || (before == 194 && 128 <= byte && byte < 160)
}

/// Whether the bytes have a control character, of ASCII or of U+0080 to U+009F.
pub fn has_control(bytes: &[u8]) -> bool
    ensures { result ≡ has_control 0 bytes.now }
{
    let mut before = 0;
    for byte in bytes {
        if is_control(before, *byte) {
            return true;
        }
        before = *byte;
    }
    false
}

/// Whether the bytes are a name: 1 to 200, and no control character among them.
pub fn is_name(bytes: &[u8]) -> bool
    ensures { result ≡ is_name bytes.now }
{
    !bytes.is_empty() && bytes.len() <= MAX_NAME_BYTES && !has_control(bytes)
}

/// What a line says after its kind.
fn number_and_name(kind: NameKind, bytes: &[u8]) -> Option<Said<'_>>
    ensures { option_map said result ≡ number_and_name_at kind bytes.now }
{
    let (number, rest) = number(bytes, u64::from(kind.greatest()))?;
    let name = after(rest, b" ")?;
    if !is_name(name) {
        return None;
    }
    let number = number as u32;
    Some(Said { kind, number, name })
}

/// What a line says, if it says a name.
#[tactic(auto, unfolding(crate::specs::Line::naming_of))]
pub fn naming(line: &[u8]) -> Option<Said<'_>>
    ensures { option_map said result ≡ naming_of line.now }
{
    if let Some(rest) = after(line, b"thread ") {
        return number_and_name(NameKind::Thread, rest);
    }
    if let Some(rest) = after(line, b"variable ") {
        return number_and_name(NameKind::Variable, rest);
    }
    if let Some(rest) = after(line, b"lock ") {
        return number_and_name(NameKind::Lock, rest);
    }
    let rest = after(line, b"label ")?;
    number_and_name(NameKind::Label, rest)
}

/// Whether a line is empty or a comment.
pub fn is_silent(line: &[u8]) -> bool
    ensures { result ≡ is_silent line.now }
{
    match line.first() {
        None => true,
        Some(first) => *first == b'#',
    }
}

/// The index of the first newline, or the length.
fn line_end(bytes: &[u8]) -> usize
    ensures value { result ≡ position_or_len (λ b. b == 10) bytes.now }
    ensures within { result ≤ length bytes.now }
{
    for (i, byte) in bytes.iter().enumerate() {
        if *byte == b'\n' {
            return i;
        }
    }
    bytes.len()
}

/// The first line, without its newline, and what follows it.
pub fn split_line(bytes: &[u8]) -> (&[u8], &[u8])
    requires { 0 < length bytes.now }
    ensures line { lines bytes.now ≡ result.0.now ∷ lines result.1.now }
    ensures shorter { length result.1.now < length bytes.now }
{
    let (line, rest) = bytes.split_at(line_end(bytes));
    match rest.split_first() {
        Some((_, rest)) => (line, rest),
        None => (line, rest),
    }
}

/// Whether each byte is a digit.
fn are_digits(bytes: &[u8]) -> bool
    ensures { result ≡ list_all is_ascii_digit bytes.now }
{
    bytes.iter().all(|byte| byte.is_ascii_digit())
}

/// Whether the bytes are digits alone.
pub fn is_number(bytes: &[u8]) -> bool
    ensures { result ≡ is_number bytes.now }
{
    !bytes.is_empty() && are_digits(bytes)
}

/// The number of a kind that the bytes are, if they are one.
pub fn number_of_kind(kind: NameKind, bytes: &[u8]) -> Option<u32>
    ensures { result ≡ number_of_kind kind bytes.now }
{
    let number = whole_number(bytes, u64::from(kind.greatest()))?;
    Some(number as u32)
}
