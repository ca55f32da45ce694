//! What the program prints where the words of its command line ask for nothing to be done.

use crate::clash::{Clash, line_of_clash};
use crate::growth::text_of;
use clap::Error;
use clap::error::ErrorKind;
use std::alloc::Global;
use velo_bytes::{Sink, write_all};
use velo_check::status::{DONE, FAILED};
use velo_check::{Fate, end_with};
use velo_events::Memory;
use velo_words::escaped_lines;

/// The status of a fault of usage.
const BAD_USAGE: u8 = 2;

/// The text of an error. It may repeat words of the command line, whose control characters are escaped.
fn words_of(alloc: Global, error: &Error) -> Result<Vec<u8>, Memory> {
    let text = text_of(alloc, error)?;
    escaped_lines(alloc, text.as_bytes())
}

/// Reports an error of the words: help on the one sink, a fault of usage on the other. Returns the
/// status to end with.
pub fn tell_error<O: Sink, E: Sink>(alloc: Global, error: &Error, out: &mut O, err: &mut E) -> u8 {
    if error.kind() == ErrorKind::OutOfMemory {
        return end_with(&Fate::Memory, err);
    }
    let text = match words_of(alloc, error) {
        Ok(text) => text,
        Err(Memory) => return end_with(&Fate::Memory, err),
    };
    let status = tell_text(error.kind(), &text, out, err);
    drop(text);
    status
}

/// Reports an error of this kind by its text.
fn tell_text<O: Sink, E: Sink>(kind: ErrorKind, text: &[u8], out: &mut O, err: &mut E) -> u8 {
    match kind {
        ErrorKind::DisplayHelp | ErrorKind::DisplayVersion => show_help(text, out, err),
        _ => tell_fault(text, err),
    }
}

/// Prints help, or reports that it could not be written.
fn show_help<O: Sink, E: Sink>(text: &[u8], out: &mut O, err: &mut E) -> u8 {
    match write_all(out, text) {
        Ok(()) => DONE,
        Err(_) => end_with(&Fate::WriteFailed, err),
    }
}

/// Reports a fault of usage. If this fails, there is no other place to report it.
pub fn tell_fault<E: Sink>(text: &[u8], err: &mut E) -> u8 {
    match write_all(err, text) {
        Ok(()) => BAD_USAGE,
        Err(_) => FAILED,
    }
}

/// Reports why the options of a request do not go together, and returns the status to end with.
pub fn tell_clash<E: Sink>(clash: Clash, err: &mut E) -> u8 {
    tell_fault(line_of_clash(clash), err)
}
