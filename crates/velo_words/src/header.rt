//! What is wrong with the first line of a log.

use crate::lines::{ends_in_return, first_line};
use velo_bytes::{after, number, spaced_number};
use velo_events::{MAX_LOCKS, MAX_THREADS};

/// What is wrong with the first line of a log.
#[derive(Clone, Copy, PartialEq, Eq)]
pub enum HeaderFault {
    /// It begins with a byte-order mark.
    Marked,
    /// It is the line of a workload.
    Workload,
    /// It ends in a carriage return.
    Returned,
    /// It is of this version, which is none that is read.
    Version(u64),
    /// It has this number of threads, which is 0 or too large.
    Threads(u64),
    /// It has this number of variables, which is too large.
    Variables(u64),
    /// It has this number of locks, which is too large.
    Locks(u64),
    /// The text ends after its numbers, without a newline.
    Cut,
    /// It goes on after its numbers.
    Longer,
    /// It is another line.
    Other,
}

/// Whether the bytes begin with the word.
pub(crate) fn begins(word: &[u8], bytes: &[u8]) -> bool {
    match after(bytes, word) {
        Some(_) => true,
        None => false,
    }
}

/// Whether the bytes begin with a byte-order mark.
fn looks_marked(bytes: &[u8]) -> bool {
    begins(&[239, 187, 191], bytes)
}

/// Whether the bytes begin as a workload.
fn looks_like_workload(bytes: &[u8]) -> bool {
    begins(b"var ", bytes) || begins(b"lock ", bytes) || begins(b"thread ", bytes)
}

/// What is wrong with what stands after the numbers.
fn end_fault(rest: &[u8]) -> HeaderFault {
    if rest.is_empty() {
        return HeaderFault::Cut;
    }
    if begins(b"\n", rest) {
        HeaderFault::Other
    } else {
        HeaderFault::Longer
    }
}

/// What is wrong with the number of locks, which stands at the front, or with what is after it.
fn locks_fault(bytes: &[u8]) -> HeaderFault {
    match number(bytes, u64::MAX) {
        None => HeaderFault::Other,
        Some((locks, rest)) => {
            if locks > u64::from(MAX_LOCKS) {
                HeaderFault::Locks(locks)
            } else {
                end_fault(rest)
            }
        }
    }
}

/// What is wrong with the numbers of variables and locks, which stand at the front.
fn variables_fault(bytes: &[u8]) -> HeaderFault {
    match spaced_number(bytes, u64::MAX) {
        None => HeaderFault::Other,
        Some((variables, rest)) => {
            if variables > u64::from(u16::MAX) {
                HeaderFault::Variables(variables)
            } else {
                locks_fault(rest)
            }
        }
    }
}

/// What is wrong with the bounds, which stand at the front.
fn bounds_fault(bytes: &[u8]) -> HeaderFault {
    match spaced_number(bytes, u64::MAX) {
        None => HeaderFault::Other,
        Some((threads, rest)) => {
            if threads == 0 || threads > u64::from(MAX_THREADS) {
                HeaderFault::Threads(threads)
            } else {
                variables_fault(rest)
            }
        }
    }
}

/// What is wrong with the version and the bounds, which stand at the front.
fn version_fault(bytes: &[u8]) -> HeaderFault {
    match spaced_number(bytes, u64::MAX) {
        None => HeaderFault::Other,
        Some((version, rest)) => {
            if version == 1 || version == 2 {
                bounds_fault(rest)
            } else {
                HeaderFault::Version(version)
            }
        }
    }
}

/// What is wrong with the first line of these bytes, in which no header stands.
pub fn header_fault_of(bytes: &[u8]) -> HeaderFault {
    if looks_marked(bytes) {
        return HeaderFault::Marked;
    }
    if looks_like_workload(bytes) {
        return HeaderFault::Workload;
    }
    if ends_in_return(first_line(bytes)) {
        return HeaderFault::Returned;
    }
    match after(bytes, b"vlog ") {
        Some(rest) => version_fault(rest),
        None => HeaderFault::Other,
    }
}
