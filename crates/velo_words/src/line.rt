//! What is wrong with the line of an event.
ghost use Rattle.std.specs.Prelude.{◌≤◌};

use crate::header::begins;
use crate::lines::ends_in_return;
use velo_bytes::{after, number};

/// The most bytes that the line of an event has, without its newline.
const LONGEST: usize = 64;

/// The word of an event.
#[derive(Clone, Copy, PartialEq, Eq)]
pub enum Word {
    /// `rd`
    Read,
    /// `wr`
    Write,
    /// `acq`
    Acquire,
    /// `rel`
    Release,
    /// `begin`
    Begin,
    /// `end`
    End,
    /// `fork`
    Fork,
    /// `join`
    Join,
}

/// What is wrong with the line of an event.
#[derive(Clone, Copy, PartialEq, Eq)]
pub enum LineFault {
    /// It is empty.
    Blank,
    /// It begins as a comment.
    Comment,
    /// It has a tab.
    Tab,
    /// It ends in a carriage return.
    Returned,
    /// It has a space at its front, at its end or after another one.
    Spaces,
    /// It has more bytes than a line may have.
    Long,
    /// It does not begin with a thread and a space.
    Thread,
    /// It has a word that is no event's. It is likely that this one is meant.
    Unknown(Option<Word>),
    /// It is of a later version than the log.
    Later,
    /// It has no variable where one is to be.
    Variable,
    /// It has no value where one is to be.
    Value,
    /// It has no lock where one is to be.
    Lock,
    /// It has no label where one is to be.
    Label,
    /// It has no other thread where one is to be.
    Other,
    /// It goes on after its event.
    More,
    /// Nothing: it is the line of an event.
    Sound,
}

/// Whether a line has a tab.
fn has_tab(line: &[u8]) -> bool {
    line.contains(&b'\t')
}

/// Whether a line has a space at its front, at its end or after another one.
fn is_badly_spaced(line: &[u8]) -> bool {
    let mut before = b' ';
    for byte in line {
        if before == b' ' && *byte == b' ' {
            return true;
        }
        before = *byte;
    }
    before == b' '
}

/// The word of an event that is likely to be meant by a word at the front.
fn likely(bytes: &[u8]) -> Option<Word> {
    if begins(b"read", bytes) || begins(b"load", bytes) {
        return Some(Word::Read);
    }
    if begins(b"write", bytes) || begins(b"store", bytes) {
        return Some(Word::Write);
    }
    if begins(b"acquire", bytes) || begins(b"lock", bytes) {
        return Some(Word::Acquire);
    }
    if begins(b"release", bytes) || begins(b"unlock", bytes) {
        return Some(Word::Release);
    }
    if begins(b"enter", bytes) || begins(b"start", bytes) {
        return Some(Word::Begin);
    }
    if begins(b"leave", bytes) || begins(b"stop", bytes) {
        return Some(Word::End);
    }
    if begins(b"spawn", bytes) || begins(b"create", bytes) {
        return Some(Word::Fork);
    }
    if begins(b"wait", bytes) {
        return Some(Word::Join);
    }
    None
}

/// What stands after the word at the front and its space; nothing where the word is alone.
fn operand<'a>(bytes: &'a [u8], word: &[u8]) -> Option<&'a [u8]> {
    let rest = after(bytes, word)?;
    if rest.is_empty() {
        return Some(rest);
    }
    after(rest, b" ")
}

/// The fault where the bytes end here.
fn ends(bytes: &[u8], fault: LineFault) -> LineFault {
    if bytes.is_empty() {
        fault
    } else {
        LineFault::More
    }
}

/// What is wrong with a number up to `most` that ends the line.
fn number_fault(bytes: &[u8], most: u64, lacking: LineFault, otherwise: LineFault) -> LineFault
    requires { 9 ≤ most }
{
    match number(bytes, most) {
        None => lacking,
        Some((_, rest)) => ends(rest, otherwise),
    }
}

/// What is wrong with a variable and a value.
fn access_fault(bytes: &[u8]) -> LineFault {
    match number(bytes, u64::from(u16::MAX)) {
        None => LineFault::Variable,
        Some((_, rest)) => match after(rest, b" ") {
            None => LineFault::Value,
            Some(rest) => number_fault(rest, u64::MAX, LineFault::Value, LineFault::Sound),
        },
    }
}

/// What is wrong with forks, joins and exits.
fn thread_operation_fault(words: &[u8]) -> LineFault {
    if let Some(rest) = operand(words, b"fork") {
        return number_fault(rest, u64::from(u8::MAX), LineFault::Other, LineFault::Sound);
    }
    if let Some(rest) = operand(words, b"join") {
        return number_fault(rest, u64::from(u8::MAX), LineFault::Other, LineFault::Sound);
    }
    match operand(words, b"exit") {
        Some(rest) => ends(rest, LineFault::Sound),
        None => LineFault::Unknown(likely(words)),
    }
}

/// What is wrong with begins and ends, or the above.
fn block_fault(words: &[u8]) -> LineFault {
    if let Some(rest) = operand(words, b"begin") {
        return number_fault(
            rest,
            u64::from(u32::MAX),
            LineFault::Label,
            LineFault::Sound,
        );
    }
    match operand(words, b"end") {
        Some(rest) => ends(rest, LineFault::Sound),
        None => thread_operation_fault(words),
    }
}

/// What is wrong with operations on locks, or the above.
fn lock_fault(words: &[u8]) -> LineFault {
    if let Some(rest) = operand(words, b"acq") {
        return number_fault(rest, u64::from(u16::MAX), LineFault::Lock, LineFault::Sound);
    }
    if let Some(rest) = operand(words, b"rel") {
        return number_fault(rest, u64::from(u16::MAX), LineFault::Lock, LineFault::Sound);
    }
    if let Some(rest) = operand(words, b"acqs") {
        return number_fault(rest, u64::from(u16::MAX), LineFault::Lock, LineFault::Later);
    }
    if let Some(rest) = operand(words, b"rels") {
        return number_fault(rest, u64::from(u16::MAX), LineFault::Lock, LineFault::Later);
    }
    block_fault(words)
}

/// What is wrong with any operation.
fn operation_fault(words: &[u8]) -> LineFault {
    if let Some(rest) = operand(words, b"rd") {
        return access_fault(rest);
    }
    match operand(words, b"wr") {
        Some(rest) => access_fault(rest),
        None => lock_fault(words),
    }
}

/// What is wrong with the thread and the operation.
fn event_fault(line: &[u8]) -> LineFault {
    match number(line, u64::from(u8::MAX)) {
        None => LineFault::Thread,
        Some((_, rest)) => match after(rest, b" ") {
            None => LineFault::Thread,
            Some(words) => operation_fault(words),
        },
    }
}

/// What is wrong with a line, without its newline, that is no event's.
pub fn line_fault_of(line: &[u8]) -> LineFault {
    if line.is_empty() {
        return LineFault::Blank;
    }
    if begins(b"#", line) {
        return LineFault::Comment;
    }
    if has_tab(line) {
        return LineFault::Tab;
    }
    if ends_in_return(line) {
        return LineFault::Returned;
    }
    if is_badly_spaced(line) {
        return LineFault::Spaces;
    }
    if line.len() > LONGEST {
        return LineFault::Long;
    }
    event_fault(line)
}
