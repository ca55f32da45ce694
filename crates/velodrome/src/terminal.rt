//! Where the system shows standard input and standard error, and which of them is a terminal.

use std::fs;
use std::os::unix::fs::MetadataExt;

/// Where the system shows standard input and standard error.
pub const STANDARD_INPUT: &str = "/proc/self/fd/0";

pub const STANDARD_ERROR: &str = "/proc/self/fd/2";

/// Whether a file of this mode, for this device, is a terminal: a character device with the major
/// number of terminals, consoles or their pseudo ones, as Linux counts them.
fn is_terminal_device(mode: u32, device: u64) -> bool {
    let major = device >> 8 & 0xfff;
    mode & 0o170_000 == 0o020_000 && matches!(major, 4 | 5 | 136..=143)
}

/// Whether what the system shows at a path is a terminal, as far as this can be seen.
pub fn is_terminal(files: &impl fs::Files, path: &str) -> bool {
    match fs::metadata(files, path) {
        Ok(metadata) => is_terminal_device(metadata.mode(), metadata.rdev()),
        Err(_) => false,
    }
}
