//! What is said of a text that is no workload.

use crate::lines::line_at;
use crate::place::{Complaint, place_words};
use std::alloc::Global;
use velo_bytes::after;
use velo_events::Memory;
use velo_explain::Page;
use velo_workload::WorkFault;

/// The line of a fault; 0 where it is one of the whole text, or none of the text.
fn work_line(fault: WorkFault) -> usize {
    match fault {
        WorkFault::BadLine(n) | WorkFault::Unknown(n) | WorkFault::Twice(n) => n,
        WorkFault::Unmatched(n) | WorkFault::TooMany(n) => n,
        WorkFault::Memory => 0,
    }
}

/// What is wrong with a line that is no statement.
fn bad_line_reason(line: &[u8]) -> &'static str {
    match after(line, b"vlog ") {
        Some(_) => "this is not a workload: it looks like a log",
        None => "this is not a statement, or not one for this place",
    }
}

/// What to do about such a line.
fn bad_line_help(line: &[u8]) -> &'static str {
    match after(line, b"vlog ") {
        Some(_) => "help: for a log there are check, explain, watch and audit\n",
        None => {
            "help: statements are read, write, set, add, acquire, release, share, unshare, begin, end, fork, join, repeat and done\n"
        }
    }
}

/// What is wrong with the line of a fault.
fn line_reason(fault: WorkFault, line: &[u8]) -> &'static str {
    match fault {
        WorkFault::BadLine(_) => bad_line_reason(line),
        WorkFault::Unknown(_) => "the variable, lock or thread is not declared",
        WorkFault::Twice(_) => "the variable, lock or thread is declared already",
        WorkFault::Unmatched(_) => "a repeat has no done, or a done no repeat",
        WorkFault::TooMany(_) =>
            "one too many of its kind, or the body of the thread costs too much",
        WorkFault::Memory => "",
    }
}

/// What is wrong with a text that is not too long.
fn text_reason(bytes: &[u8]) -> &'static str {
    if bytes.is_empty() {
        return "the workload is empty";
    }
    "this is not UTF-8, or has no thread"
}

/// What is wrong with all of the text.
fn whole_reason(fault: WorkFault, bytes: &[u8]) -> &'static str {
    match fault {
        WorkFault::TooMany(_) => "the workload has more than 16777216 bytes",
        _ => text_reason(bytes),
    }
}

/// What is wrong with the text, by the line of the fault.
fn work_reason(fault: WorkFault, line: &[u8], bytes: &[u8]) -> &'static str {
    if work_line(fault) == 0 {
        return whole_reason(fault, bytes);
    }
    line_reason(fault, line)
}

/// What to do about a line that is one too many.
fn many_help(line: &[u8]) -> &'static str {
    match after(line, b"thread ") {
        Some(_) => {
            "help: there may be 64 threads, and a body may cost 16777216: a statement costs 1, `repeat n` 1 + n * (1 + what it repeats)\n"
        }
        None => {
            "help: there may be 65535 variables, 4096 locks, 1000000 statements and 8 repeats in one another\n"
        }
    }
}

/// What to do about the line of a fault.
fn line_help(fault: WorkFault, line: &[u8]) -> &'static str {
    match fault {
        WorkFault::BadLine(_) => bad_line_help(line),
        WorkFault::TooMany(_) => many_help(line),
        _ => "",
    }
}

/// What to do about the text.
fn work_help(fault: WorkFault, line: &[u8]) -> &'static str {
    if work_line(fault) == 0 {
        return "";
    }
    line_help(fault, line)
}

/// What is said of a fault of a workload, by its path and its bytes.
///
/// # Errors
/// `Memory` if an allocation failed.
pub fn work_words(
    alloc: Global,
    path: &str,
    bytes: &[u8],
    fault: WorkFault,
) -> Result<Page, Memory> {
    let line = work_line(fault);
    let shown = line_at(line, bytes);
    let complaint = Complaint {
        line,
        reason: work_reason(fault, shown, bytes),
        help: work_help(fault, shown),
    };
    place_words(alloc, path, bytes, complaint)
}
