//! What is said of a text that is no schedule.

use crate::lines::{add_file, add_shown};
use crate::place::{Complaint, place_words};
use std::alloc::Global;
use velo_bytes::{after, number, whole_number};
use velo_events::{MAX_THREADS, Memory};
use velo_explain::{Page, Piece};
use velo_schedule_text::{MAX_SCHEDULE_BYTES, MAX_TURNS};

/// What is wrong with a word of a schedule.
#[derive(Clone, Copy, PartialEq, Eq)]
pub enum TurnsFault {
    /// It is empty.
    Blank,
    /// It is neither the number of a thread nor such a number, a star and a count.
    Thread,
    /// It has no count of 2 or more after its star.
    Count,
}

/// A word with which something is wrong.
#[derive(Clone, Copy)]
struct BadWord<'a> {
    /// Its place among the words, counted from 1.
    place: usize,
    /// The word.
    word: &'a [u8],
    /// What is wrong with it.
    fault: TurnsFault,
}

/// What is wrong with a number of turns.
fn count_fault(count: Option<u64>) -> Option<TurnsFault> {
    match count {
        Some(count) if count >= 2 => None,
        _ => Some(TurnsFault::Count),
    }
}

/// What is wrong with what stands after the number of a thread.
fn rest_fault(rest: &[u8]) -> Option<TurnsFault> {
    if rest.is_empty() {
        return None;
    }
    match after(rest, b"*") {
        Some(digits) => count_fault(whole_number(digits, MAX_TURNS as u64)),
        None => Some(TurnsFault::Thread),
    }
}

/// What is wrong with a word, if something is.
fn turns_fault(word: &[u8]) -> Option<TurnsFault> {
    if word.is_empty() {
        return Some(TurnsFault::Blank);
    }
    match number(word, u64::from(MAX_THREADS - 1)) {
        Some((_, rest)) => rest_fault(rest),
        None => Some(TurnsFault::Thread),
    }
}

/// What is wrong with a word, in words.
fn turns_reason(fault: TurnsFault) -> &'static str {
    match fault {
        TurnsFault::Blank => "one space parts words, and none stands at either end",
        TurnsFault::Thread => {
            "expected a thread's number from 0 to 63, or such a number, a star and a number of turns"
        }
        TurnsFault::Count => "expected a number of turns from 2 to 1000000 after the star",
    }
}

/// What is wrong with a word of thread numbers alone, in which no star stands.
fn numbers_reason(fault: TurnsFault) -> &'static str {
    match fault {
        TurnsFault::Thread => "expected a thread's number from 0 to 63",
        _ => turns_reason(fault),
    }
}

/// The index of the first space, or the length.
fn word_end(bytes: &[u8]) -> usize {
    for (i, byte) in bytes.iter().enumerate() {
        if *byte == b' ' {
            return i;
        }
    }
    bytes.len()
}

/// The first word, and what stands after its space, if it has one.
fn split_word(bytes: &[u8]) -> (&[u8], Option<&[u8]>) {
    let end = word_end(bytes);
    let word = bytes.get(..end).unwrap_or(bytes);
    (word, bytes.get(end.saturating_add(1)..))
}

/// The first word with which something is wrong.
fn first_bad(text: &[u8]) -> Option<BadWord<'_>> {
    let mut rest = text;
    for place in 1..text.len().saturating_add(2) {
        let (word, others) = split_word(rest);
        if let Some(fault) = turns_fault(word) {
            return Some(BadWord { place, word, fault });
        }
        rest = others?;
    }
    None
}

/// Adds what is said of a word.
fn add_bad_word(
    page: &mut Page,
    alloc: Global,
    place: &str,
    reason: &str,
    bad: BadWord,
) -> Result<(), Memory> {
    add_file(page, alloc, place)?;
    page.add(&[
        Piece::Text("word "),
        Piece::Number(bad.place as u64),
        Piece::Text(": "),
        Piece::Text(reason),
        Piece::Text("\n"),
    ])?;
    add_shown(page, alloc, bad.word)
}

/// What is said of a word.
fn bad_word_words(alloc: Global, place: &str, reason: &str, bad: BadWord) -> Result<Page, Memory> {
    let mut page = Page::new(alloc);
    add_bad_word(&mut page, alloc, place, reason, bad)?;
    Ok(page)
}

/// What is said of all of a text.
fn whole_words(alloc: Global, place: &str, reason: &str, help: &str) -> Result<Page, Memory> {
    let complaint = Complaint {
        line: 0,
        reason,
        help,
    };
    place_words(alloc, place, &[], complaint)
}

/// What is said of a text in which each word is one of turns.
fn many_words(alloc: Global, place: &str) -> Result<Page, Memory> {
    whole_words(alloc, place, "the schedule has more than 1000000 turns", "")
}

/// What is said of a text that says no turns.
///
/// # Errors
/// `Memory` if an allocation failed.
pub fn turns_words(alloc: Global, place: &str, text: &[u8]) -> Result<Page, Memory> {
    match first_bad(text) {
        Some(bad) => bad_word_words(alloc, place, turns_reason(bad.fault), bad),
        None => many_words(alloc, place),
    }
}

/// What is said of a text that is no schedule of thread numbers alone.
///
/// # Errors
/// `Memory` if an allocation failed.
pub fn numbers_words(alloc: Global, place: &str, text: &[u8]) -> Result<Page, Memory> {
    if text.contains(&b'*') {
        return whole_words(
            alloc,
            place,
            "there is a star in the text, which may have thread numbers alone",
            "help: for turns such as 0*3 there is --turns\n",
        );
    }
    match first_bad(text) {
        Some(bad) => bad_word_words(alloc, place, numbers_reason(bad.fault), bad),
        None => many_words(alloc, place),
    }
}

/// The bytes without a newline at their end.
fn without_newline(bytes: &[u8]) -> &[u8] {
    match bytes.split_last() {
        Some((last, front)) if *last == b'\n' => front,
        _ => bytes,
    }
}

/// What is said of the bytes of a file that say no turns.
///
/// # Errors
/// `Memory` if an allocation failed.
pub fn schedule_words(alloc: Global, path: &str, bytes: &[u8]) -> Result<Page, Memory> {
    if bytes.len() > MAX_SCHEDULE_BYTES {
        return whole_words(alloc, path, "the file has more than 3000000 bytes", "");
    }
    turns_words(alloc, path, without_newline(bytes))
}
