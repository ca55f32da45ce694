//! Files of names.

use std::alloc::Global;
use velo_bytes::Sink;
use velo_check::{Fate, Files, read_file};
use velo_names::{MAX_NAMES_BYTES, Names};
use velo_report::Names as ReportNames;

/// The bytes of the file at a path, as `read_file`; none without a path.
///
/// # Errors
/// As `read_file`.
pub fn read_given<F: Files>(
    alloc: Global,
    path: Option<&str>,
    most: usize,
    files: &F,
) -> Result<Vec<u8>, Fate> {
    match path {
        Some(path) => read_file(alloc, path, most, files),
        None => Ok(Vec::new(alloc)),
    }
}

/// The names that the bytes of a file say, if one was given, and else none.
///
/// # Errors
/// `Names` with the fault by which they say none.
pub fn names_in<'a>(alloc: Global, path: Option<&str>, bytes: &'a [u8]) -> Result<Names<'a>, Fate> {
    if path.is_none() {
        return Ok(Names::new(alloc));
    }
    match Names::parse(alloc, bytes) {
        Ok(names) => Ok(names),
        Err(fault) => Err(Fate::Names(fault)),
    }
}

/// What a report calls threads and labels by the names of a file, if one was given.
pub fn shown_by<'a>(path: Option<&str>, names: &'a Names<'a>) -> ReportNames<'a> {
    match path {
        Some(_) => ReportNames::Listed(names),
        None => ReportNames::Numbers,
    }
}

/// What is done by the names of a file, if one is given.
pub trait ByNames {
    /// Does it by these names.
    fn do_by<F: Files, O: Sink>(
        &self,
        alloc: Global,
        names: &Names,
        files: &mut F,
        out: &mut O,
    ) -> Fate;
}

/// Does a command by the names of the file at a path, if one is given. The names are read first.
pub fn do_by_names<C: ByNames, F: Files, O: Sink>(
    alloc: Global,
    command: &C,
    path: Option<&str>,
    files: &mut F,
    out: &mut O,
) -> Fate {
    let bytes = match read_given(alloc, path, MAX_NAMES_BYTES, files) {
        Ok(bytes) => bytes,
        Err(fate) => return fate,
    };
    let fate = match names_in(alloc, path, &bytes) {
        Ok(names) => {
            let fate = command.do_by(alloc, &names, files, out);
            drop(names);
            fate
        }
        Err(fate) => fate,
    };
    drop(bytes);
    fate
}
