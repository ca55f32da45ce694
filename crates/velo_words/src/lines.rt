//! The lines of a text, and how one is shown.

use crate::escaped;
use std::alloc::Global;
use velo_bytes::append;
use velo_events::Memory;
use velo_explain::{Page, Piece};
use velo_names::split_line;

/// The most bytes of a line that are shown.
const SHOWN: usize = 64;

/// The first line of a text, without its newline, and what stands after it.
fn next_line(text: &[u8]) -> (&[u8], &[u8]) {
    if text.is_empty() {
        return (text, text);
    }
    split_line(text)
}

/// Line `n`, counted from 1, without its newline; nothing where there is none.
pub fn line_at(n: usize, text: &[u8]) -> &[u8] {
    let mut rest = text;
    for _ in 1..n {
        if rest.is_empty() {
            return rest;
        }
        let (_, others) = next_line(rest);
        rest = others;
    }
    let (line, _) = next_line(rest);
    line
}

/// The first line.
pub fn first_line(text: &[u8]) -> &[u8] {
    line_at(1, text)
}

/// Whether the last byte of a line is a carriage return.
pub fn ends_in_return(line: &[u8]) -> bool {
    match line.last() {
        None => false,
        Some(last) => *last == b'\r',
    }
}

/// A byte as it is shown.
fn shown_byte(byte: u8) -> u8 {
    if 32 <= byte && byte <= 126 {
        byte
    } else {
        b'?'
    }
}

/// A line as it is shown.
pub(crate) fn shown(alloc: Global, line: &[u8]) -> Result<Vec<u8>, Memory> {
    let front = &line[..line.len().min(SHOWN)];
    let mut text = Vec::new(alloc);
    for byte in front {
        append(&mut text, &[shown_byte(*byte)])?;
    }
    Ok(text)
}

/// Adds a text.
///
/// # Errors
/// `Memory` if an allocation failed.
pub fn add_text(page: &mut Page, text: &str) -> Result<(), Memory> {
    page.add(&[Piece::Text(text)])
}

/// Adds a line after four spaces.
///
/// # Errors
/// `Memory` if an allocation failed.
pub fn add_shown(page: &mut Page, alloc: Global, line: &[u8]) -> Result<(), Memory> {
    let text = shown(alloc, line)?;
    page.add(&[
        Piece::Text("   "),
        Piece::Name(Some(text.as_slice())),
        Piece::Text("\n"),
    ])
}

/// Adds which file it is, with its control characters escaped.
///
/// # Errors
/// `Memory` if an allocation failed.
pub fn add_file(page: &mut Page, alloc: Global, path: &str) -> Result<(), Memory> {
    let path = escaped(alloc, path.as_bytes())?;
    page.add(&[
        Piece::Text("velodrome:"),
        Piece::Name(Some(path.as_slice())),
        Piece::Text(": "),
    ])
}

/// Adds which line of a file it is, the same.
///
/// # Errors
/// `Memory` if an allocation failed.
pub fn add_line(page: &mut Page, alloc: Global, path: &str, n: usize) -> Result<(), Memory> {
    let path = escaped(alloc, path.as_bytes())?;
    page.add(&[
        Piece::Text("velodrome:"),
        Piece::Name(Some(path.as_slice())),
        Piece::Text(":"),
        Piece::Number(n as u64),
        Piece::Text(": "),
    ])
}
