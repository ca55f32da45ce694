//! Which file failed last, and why.

use std::cell::Cell;
use std::io::ErrorKind;
use velo_cli::{Recall, SystemReason};

/// Where the mark of a path begins, and what it is multiplied by at each byte: FNV-1a.
const FIRST_MARK: u64 = 0xcbf2_9ce4_8422_2325;

const MARK_FACTOR: u64 = 0x0100_0000_01b3;

/// A number that tells a path from others. A path itself could not be kept without memory.
fn mark_of(path: &str) -> u64 {
    let mut mark = FIRST_MARK;
    for byte in path.as_bytes() {
        mark = (mark ^ u64::from(*byte)).wrapping_mul(MARK_FACTOR);
    }
    mark
}

fn reason_of(kind: ErrorKind) -> SystemReason {
    match kind {
        ErrorKind::NotFound | ErrorKind::NotADirectory => SystemReason::NotFound,
        ErrorKind::PermissionDenied | ErrorKind::ReadOnlyFilesystem => SystemReason::Denied,
        ErrorKind::IsADirectory => SystemReason::IsDirectory,
        ErrorKind::StorageFull | ErrorKind::QuotaExceeded => SystemReason::Full,
        _ => SystemReason::Other,
    }
}

/// The paths at which a file was opened last to be read and to be written, and which of the two
/// failed last.
#[derive(Drop)]
pub struct Notes {
    read: Cell<u64>,
    written: Cell<u64>,
    failed: Cell<Option<(u64, SystemReason)>>,
}

impl Notes {
    /// Nothing was opened.
    pub fn new() -> Notes {
        Notes {
            read: Cell::new(FIRST_MARK),
            written: Cell::new(FIRST_MARK),
            failed: Cell::new(None),
        }
    }

    /// The file at the path is opened to be read.
    pub fn open_to_read(&self, path: &str) {
        self.read.set(mark_of(path));
    }

    /// The file at the path is opened to be written.
    pub fn open_to_write(&self, path: &str) {
        self.written.set(mark_of(path));
    }

    /// The file that is read failed.
    pub fn fail_read(&self, kind: ErrorKind) {
        self.fail(self.read.get(), kind);
    }

    /// The file that is written failed.
    pub fn fail_write(&self, kind: ErrorKind) {
        self.fail(self.written.get(), kind);
    }

    /// A call that was interrupted is made again, and has not failed.
    fn fail(&self, mark: u64, kind: ErrorKind) {
        if kind != ErrorKind::Interrupted {
            self.failed.set(Some((mark, reason_of(kind))));
        }
    }
}

impl Recall for Notes {
    fn failure_at(&self, path: &str) -> Option<SystemReason> {
        match self.failed.get() {
            Some((mark, reason)) if mark == mark_of(path) => Some(reason),
            _ => None,
        }
    }
}
