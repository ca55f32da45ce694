//! What a line of a report says.
ghost use Rattle.std.specs.Prelude.{◌≡◌, ◌==◌, ◌<◌, ◌≤◌, ◌∷◌, None, Some, IfOk, IfSome, if◌then◌else◌, length};
ghost use Rattle.std.specs.List.{position_or_len};
ghost use Rattle.velo_claims.specs.Line.{number_after, numbers_onto, thread_or_verdict, verdict_of, words, words_behind};

use crate::claim::Part;
use velo_bytes::{after, whole_number};
use velo_events::growth::reserve;
use velo_events::{MAX_EVENTS, Memory};

/// The number up to [`MAX_EVENTS`] behind a word, if a line is both.
pub fn number_after(line: &[u8], word: &[u8]) -> Option<usize>
    ensures { result ≡ number_after word.now line.now }
{
    let rest = after(line, word)?;
    let number = whole_number(rest, u64::from(MAX_EVENTS))?;
    Some(number as usize)
}

/// What comes after the verdict on a line, if it has one.
fn verdict_of(line: &[u8]) -> Option<Part>
    ensures { result ≡ verdict_of line.now }
{
    if let Some(position) = number_after(line, b"verdict alarm ") {
        return Some(Part::Transaction(position));
    }
    let rest = after(line, b"verdict clean")?;
    if rest.is_empty() {
        Some(Part::Order)
    } else {
        None
    }
}

/// What comes after a thread, which is not looked at, or the verdict on a line, if it has one of
/// them.
pub fn thread_or_verdict(line: &[u8]) -> Option<Part>
    ensures { result ≡ thread_or_verdict line.now }
{
    match after(line, b"thread ") {
        Some(_) => Some(Part::Threads),
        None => verdict_of(line),
    }
}

/// The index of the first space, or the length.
fn word_end(bytes: &[u8]) -> usize
    ensures value { result ≡ position_or_len (λ b. b == 32) bytes.now }
    ensures within { result ≤ length bytes.now }
{
    for (i, byte) in bytes.iter().enumerate() {
        if *byte == b' ' {
            return i;
        }
    }
    bytes.len()
}

/// What is in front of the first space, and what is behind it, if there is one.
fn split_word(bytes: &[u8]) -> (&[u8], Option<&[u8]>)
    ensures words { words bytes.now ≡ result.0.now ∷ words_behind result.1 }
    ensures shorter { IfSome result.1 (λ rest. length rest.now < length bytes.now) }
{
    let (word, rest) = bytes.split_at(word_end(bytes));
    match rest.split_first() {
        Some((_, rest)) => (word, Some(rest)),
        None => (word, None),
    }
}

/// Appends numbers, with one space between two of them, to a list. Returns whether the bytes are
/// such numbers; if not, the list is of no use.
///
/// # Errors
/// `Memory` if an allocation failed.
pub fn append_numbers(list: &mut Vec<usize>, bytes: &[u8]) -> Result<bool, Memory>
    ensures { IfOk result (λ yes. numbers_onto list.old.items (words bytes.now)
        ≡ (if yes then Some list.new.items else None)) }
{
    let mut rest = Some(bytes);
    while let Some(bytes) = rest {
        let (word, behind) = split_word(bytes);
        let Some(number) = whole_number(word, u64::from(MAX_EVENTS)) else {
            return Ok(false);
        };
        reserve(list, 1)?;
        list.push_reserved(number as usize);
        rest = behind;
    }
    Ok(true)
}
