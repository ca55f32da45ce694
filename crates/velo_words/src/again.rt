//! A file that is read once more, for words.

use std::alloc::Global;
use velo_check::{Files, is_standard_input, read_file};

/// Whether the file at a path may be read once more. Standard input would give what comes after that
/// which was read, and what is no regular file could keep its reader waiting.
fn may_be_read_again<F: Files>(path: &str, files: &F) -> bool {
    !is_standard_input(path) && files.are_one(path, path)
}

/// The bytes of the file at a path, where it may be read once more: all of them, or if there are more
/// than `most`, more than `most` of them.
pub(crate) fn read_again<F: Files>(
    alloc: Global,
    path: &str,
    most: usize,
    files: &F,
) -> Option<Vec<u8>> {
    if !may_be_read_again(path, files) {
        return None;
    }
    read_file(alloc, path, most, files).ok()
}
