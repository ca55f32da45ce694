//! What is said of a log that could not be read.

use crate::header::{HeaderFault, header_fault_of};
use crate::line::{LineFault, Word, line_fault_of};
use crate::lines::{add_file, add_line, add_shown, add_text, first_line, line_at};
use std::alloc::Global;
use velo_events::Memory;
use velo_explain::{Page, Piece};
use velo_logtext::LogFault;

/// Adds what is wrong with the first line.
fn add_header_reason(page: &mut Page, fault: HeaderFault) -> Result<(), Memory> {
    match fault {
        HeaderFault::Marked => page.add(&[Piece::Text(
            "a byte-order mark stands before the header",
        )]),
        HeaderFault::Workload => page.add(&[Piece::Text(
            "this is not a log: it looks like a workload",
        )]),
        HeaderFault::Returned => {
            page.add(&[Piece::Text("a carriage return stands at the end of the line")])
        }
        HeaderFault::Version(version) => page.add(&[
            Piece::Text("version "),
            Piece::Number(version),
            Piece::Text(" of a log; this program reads 1 and 2"),
        ]),
        HeaderFault::Threads(threads) => {
            page.add(&[
                Piece::Number(threads),
                Piece::Text(" threads; a log has 1 to 64"),
            ])
        }
        HeaderFault::Variables(variables) => {
            page.add(&[
                Piece::Number(variables),
                Piece::Text(" variables; a log has at most 65535"),
            ])
        }
        HeaderFault::Locks(locks) => {
            page.add(&[
                Piece::Number(locks),
                Piece::Text(" locks; a log has at most 4096"),
            ])
        }
        HeaderFault::Cut => page.add(&[Piece::Text("the line of the header has no newline")]),
        HeaderFault::Longer => page.add(&[Piece::Text(
            "the header goes on after its number of locks",
        )]),
        HeaderFault::Other => page.add(&[Piece::Text(
            "this is not a log: expected a first line `vlog 2 THREADS VARIABLES LOCKS`",
        )]),
    }
}

/// Adds what to do about the first line.
fn add_header_help(page: &mut Page, fault: HeaderFault) -> Result<(), Memory> {
    match fault {
        HeaderFault::Marked => page.add(&[Piece::Text(
            "help: save it without the mark: sed -i '1s/^\\xef\\xbb\\xbf//'\n",
        )]),
        HeaderFault::Workload => page.add(&[Piece::Text(
            "help: for a workload there are replay, run and explore\n",
        )]),
        HeaderFault::Returned => page.add(&[Piece::Text(
            "help: lines end in a newline alone: sed -i 's/\\r$//'\n",
        )]),
        _ => Ok(()),
    }
}

/// Adds that there is no byte.
fn add_empty(page: &mut Page, alloc: Global, path: &str) -> Result<(), Memory> {
    add_file(page, alloc, path)?;
    page.add(&[Piece::Text(
        "the log is empty\nhelp: did the program that records end before it wrote?\n",
    )])
}

/// Adds what is said of a first line that is no header.
fn add_first_line(page: &mut Page, alloc: Global, path: &str, bytes: &[u8]) -> Result<(), Memory> {
    let fault = header_fault_of(bytes);
    add_line(page, alloc, path, 1)?;
    add_header_reason(page, fault)?;
    page.add(&[Piece::Text("\n")])?;
    add_shown(page, alloc, first_line(bytes))?;
    add_header_help(page, fault)
}

/// Adds what is said of bytes in which no header stands.
fn add_header_words(
    page: &mut Page,
    alloc: Global,
    path: &str,
    bytes: &[u8],
) -> Result<(), Memory> {
    if bytes.is_empty() {
        return add_empty(page, alloc, path);
    }
    add_first_line(page, alloc, path, bytes)
}

/// The text of an event's word.
fn word_text(word: Word) -> &'static str {
    match word {
        Word::Read => "rd",
        Word::Write => "wr",
        Word::Acquire => "acq",
        Word::Release => "rel",
        Word::Begin => "begin",
        Word::End => "end",
        Word::Fork => "fork",
        Word::Join => "join",
    }
}

/// What is wrong with the line of an event.
fn plain_reason(fault: LineFault) -> &'static str {
    match fault {
        LineFault::Blank => "the line is empty",
        LineFault::Comment => "a log has no comments",
        LineFault::Tab => "a tab stands in the line",
        LineFault::Returned => "a carriage return stands at the end of the line",
        LineFault::Spaces => "one space parts words, and none stands at either end of the line",
        LineFault::Long => "the line has more than 64 bytes",
        LineFault::Thread => "expected a thread from 0 to 255 and an operation",
        LineFault::Unknown(_) => "unknown operation",
        LineFault::Later => "shared locks come with version 2, and this log is of version 1",
        LineFault::Variable => "expected a variable from 0 to 65535 after the operation",
        LineFault::Value => { "expected a value from 0 to 18446744073709551615 after the variable" }
        LineFault::Lock => "expected a lock from 0 to 65535 after the operation",
        LineFault::Label => "the label is no number from 0 to 4294967295",
        LineFault::Other => "expected another thread from 0 to 255 after the operation",
        LineFault::More => "the line goes on after its event",
        LineFault::Sound => "this line was another one when it was read",
    }
}

/// What to do about the line of an event.
fn line_help(fault: LineFault) -> &'static str {
    match fault {
        LineFault::Blank | LineFault::Comment => {
            "help: a log has a line for each event, and no other lines\n"
        }
        LineFault::Returned => "help: lines end in a newline alone: sed -i 's/\\r$//'\n",
        LineFault::Unknown(None) => {
            "help: the operations are rd, wr, acq, rel, acqs, rels, begin, end, fork, join and exit\n"
        }
        LineFault::Label => {
            "help: the names of labels stand in a file of their own: see --names\n"
        }
        _ => "",
    }
}

/// Adds the operation that is likely to be meant.
fn add_likely(page: &mut Page, word: Word) -> Result<(), Memory> {
    page.add(&[
        Piece::Text(": did you mean "),
        Piece::Text(word_text(word)),
        Piece::Text("?"),
    ])
}

/// Adds the operation that is likely to be meant, if there is one.
fn add_meant(page: &mut Page, fault: LineFault) -> Result<(), Memory> {
    match fault {
        LineFault::Unknown(Some(word)) => add_likely(page, word),
        _ => Ok(()),
    }
}

/// Adds what is wrong with the line of an event.
fn add_plain_reason(page: &mut Page, fault: LineFault) -> Result<(), Memory> {
    add_text(page, plain_reason(fault))?;
    Ok(())
}

/// Adds what to do about the line of an event.
fn add_line_help(page: &mut Page, fault: LineFault) -> Result<(), Memory> {
    add_text(page, line_help(fault))?;
    Ok(())
}

/// Adds what is said of a line with this fault.
fn add_faulty_line(
    page: &mut Page,
    alloc: Global,
    path: &str,
    n: usize,
    line: &[u8],
    fault: LineFault,
) -> Result<(), Memory> {
    add_line(page, alloc, path, n)?;
    add_plain_reason(page, fault)?;
    add_meant(page, fault)?;
    add_text(page, "\n")?;
    add_shown(page, alloc, line)?;
    add_line_help(page, fault)?;
    Ok(())
}

/// Adds what is said of a line that is no event's.
fn add_bad_line(
    page: &mut Page,
    alloc: Global,
    path: &str,
    bytes: &[u8],
    n: usize,
) -> Result<(), Memory> {
    let line = line_at(n, bytes);
    add_faulty_line(page, alloc, path, n, line, line_fault_of(line))
}

/// Adds what is said of a line in which a log ends.
fn add_cut_line(
    page: &mut Page,
    alloc: Global,
    path: &str,
    bytes: &[u8],
    n: usize,
) -> Result<(), Memory> {
    add_line(page, alloc, path, n)?;
    add_text(page, "the log is cut off in this line\n")?;
    add_shown(page, alloc, line_at(n, bytes))?;
    add_text(
        page,
        "help: did the program end while it wrote? Without this line the others can be read\n",
    )?;
    Ok(())
}

/// Adds that there are too many events.
fn add_too_long(page: &mut Page, alloc: Global, path: &str) -> Result<(), Memory> {
    add_file(page, alloc, path)?;
    page.add(&[Piece::Text("the log has more than 16777216 events\n")])
}

/// Adds what is said of a fault of a log.
fn add_log_words(
    page: &mut Page,
    alloc: Global,
    path: &str,
    bytes: &[u8],
    fault: LogFault,
) -> Result<(), Memory> {
    match fault {
        LogFault::BadHeader => add_header_words(page, alloc, path, bytes),
        LogFault::BadLine(n) => add_bad_line(page, alloc, path, bytes, n),
        LogFault::Truncated(n) => add_cut_line(page, alloc, path, bytes, n),
        LogFault::TooLong => add_too_long(page, alloc, path),
        LogFault::Read | LogFault::Memory => Ok(()),
    }
}

/// What is said of a fault of a log, by its path and its bytes.
///
/// # Errors
/// `Memory` if an allocation failed.
pub fn log_words(alloc: Global, path: &str, bytes: &[u8], fault: LogFault) -> Result<Page, Memory> {
    let mut page = Page::new(alloc);
    add_log_words(&mut page, alloc, path, bytes, fault)?;
    Ok(page)
}
