//! What is said of a file that has a fault.

use crate::beside::{list_words, names_words, report_words, sites_words};
use crate::log::log_words;
use crate::work::work_words;
use std::alloc::Global;
use velo_claims::{MAX_REPORT_BYTES, ReportFault};
use velo_events::{MAX_EVENTS, Memory};
use velo_explain::Page;
use velo_logtext::LogFault;
use velo_names::{MAX_NAMES_BYTES, NamesFault};
use velo_sidecars::{ListFault, MAX_SITES_BYTES, SitesFault};
use velo_workload::{MAX_WORKLOAD_BYTES, WorkFault};

/// What is wrong with a file.
#[derive(Clone, Copy)]
pub enum FileFault {
    /// It is no log.
    Log(LogFault),
    /// It is no workload.
    Work(WorkFault),
    /// It says no names.
    Names(NamesFault),
    /// It gives no sites.
    Sites(SitesFault),
    /// It is no list of known labels.
    List(ListFault),
    /// It is no report.
    Report(ReportFault),
}

/// The most lines that a log has: its header, and one for each event.
const MAX_LINES: usize = MAX_EVENTS as usize + 1;

/// The most bytes of a log that are read to say what is wrong in a line of it: as many as the lines
/// up to it can have, and some more.
pub fn most_up_to(line: usize) -> usize {
    65 * line.min(MAX_LINES) + 128
}

/// The last line of a log that is read to say what its fault is.
fn last_line_for(fault: LogFault) -> usize {
    match fault {
        LogFault::BadLine(n) | LogFault::Truncated(n) => n,
        _ => 1,
    }
}

/// The most bytes of a file that are read to say what is wrong with it.
pub fn most_bytes_for(fault: FileFault) -> usize {
    match fault {
        FileFault::Log(fault) => most_up_to(last_line_for(fault)),
        FileFault::Work(_) => MAX_WORKLOAD_BYTES,
        FileFault::Names(_) | FileFault::List(_) => MAX_NAMES_BYTES,
        FileFault::Sites(_) => MAX_SITES_BYTES,
        FileFault::Report(_) => MAX_REPORT_BYTES,
    }
}

/// What is said of a fault of a file, by its path and its bytes.
///
/// # Errors
/// `Memory` if an allocation failed.
pub fn fault_words(
    alloc: Global,
    path: &str,
    bytes: &[u8],
    fault: FileFault,
) -> Result<Page, Memory> {
    match fault {
        FileFault::Log(fault) => log_words(alloc, path, bytes, fault),
        FileFault::Work(fault) => work_words(alloc, path, bytes, fault),
        FileFault::Names(fault) => names_words(alloc, path, bytes, fault),
        FileFault::Sites(fault) => sites_words(alloc, path, bytes, fault),
        FileFault::List(fault) => list_words(alloc, path, bytes, fault),
        FileFault::Report(fault) => report_words(alloc, path, bytes, fault),
    }
}
