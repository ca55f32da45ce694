//! What is said of a place of a file.

use crate::lines::{add_file, add_line, add_shown, add_text, line_at};
use std::alloc::Global;
use velo_events::Memory;
use velo_explain::{Page, Piece};

/// What is wrong with a place of a file, and what to do.
#[derive(Clone, Copy)]
pub struct Complaint<'a> {
    /// The line; 0 for all of the file.
    pub line: usize,
    /// What is wrong.
    pub reason: &'a str,
    /// What to do: lines, or nothing.
    pub help: &'a str,
}

/// Adds what is wrong with a file.
fn add_whole(
    page: &mut Page,
    alloc: Global,
    path: &str,
    reason: &str,
    help: &str,
) -> Result<(), Memory> {
    add_file(page, alloc, path)?;
    page.add(&[Piece::Text(reason), Piece::Text("\n"), Piece::Text(help)])
}

/// Adds what is wrong with a line.
fn add_line_words(
    page: &mut Page,
    alloc: Global,
    path: &str,
    bytes: &[u8],
    complaint: Complaint,
) -> Result<(), Memory> {
    add_line(page, alloc, path, complaint.line)?;
    add_text(page, complaint.reason)?;
    add_text(page, "\n")?;
    add_shown(page, alloc, line_at(complaint.line, bytes))?;
    add_text(page, complaint.help)?;
    Ok(())
}

/// Adds what is wrong with a place of a file, by its path and its bytes.
fn add_place(
    page: &mut Page,
    alloc: Global,
    path: &str,
    bytes: &[u8],
    complaint: Complaint,
) -> Result<(), Memory> {
    if complaint.line == 0 {
        return add_whole(page, alloc, path, complaint.reason, complaint.help);
    }
    add_line_words(page, alloc, path, bytes, complaint)
}

/// What is said of a place of a file, by its path and its bytes.
///
/// # Errors
/// `Memory` if an allocation failed.
pub fn place_words(
    alloc: Global,
    path: &str,
    bytes: &[u8],
    complaint: Complaint,
) -> Result<Page, Memory> {
    let mut page = Page::new(alloc);
    add_place(&mut page, alloc, path, bytes, complaint)?;
    Ok(page)
}
