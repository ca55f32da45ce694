//! What the program does with the words of its command line, whatever its devices are.

use crate::arguments::command;
use crate::doing::do_request;
use crate::growth::matches_of;
use crate::progress::ExploreProgress;
use crate::telling::{tell_clash, tell_error, tell_fault};
use crate::together::read_request;
use clap::ArgMatches;
use std::alloc::Global;
use std::convert::AsStr;
use std::io;
use std::sync::Wait;
use std::thread::Threads;
use velo_bytes::Sink;
use velo_check::{Fate, Files, end_with};
use velo_events::Memory;
use velo_words::{Recall, end_in_words};

/// Does what the words ask for, with reports and help on the one sink and all else on the other,
/// and returns the status to end with. How far a search is goes to `progress`.
pub fn run<
    R: Threads + Wait + Sync,
    F: Files + Recall,
    W: AsStr,
    O: Sink,
    E: Sink,
    P: ExploreProgress,
>(
    rt: &R,
    alloc: Global,
    words: &[W],
    files: &mut F,
    out: &mut O,
    err: &mut E,
    progress: &mut P,
) -> u8 {
    let command = match command(alloc) {
        Ok(command) => command,
        Err(Memory) => return end_with(&Fate::Memory, err),
    };
    match matches_of(command, words) {
        Ok(matches) => {
            let status = do_asked(rt, alloc, &matches, files, out, err, progress);
            drop(matches);
            status
        }
        Err(error) => {
            let status = tell_error(alloc, &error, out, err);
            drop(error);
            status
        }
    }
}

/// Does what the matches ask for, if its options go together, and returns the status to end with.
/// If the words have no fault, they ask for something.
fn do_asked<R: Threads + Wait + Sync, F: Files + Recall, O: Sink, E: Sink, P: ExploreProgress>(
    rt: &R,
    alloc: Global,
    matches: &ArgMatches,
    files: &mut F,
    out: &mut O,
    err: &mut E,
    progress: &mut P,
) -> u8 {
    match read_request(matches) {
        Ok(request) => {
            let fate = do_request(rt, alloc, &request, files, out, progress);
            end_in_words(alloc, &request, &fate, files, err)
        }
        Err(clash) => tell_clash(clash, err),
    }
}

/// Reports why the words of the command line could not be had, and returns the status to end with.
/// Any kind but `InvalidData` is reported as out of memory.
pub fn end_without_words<E: Sink>(kind: io::ErrorKind, err: &mut E) -> u8 {
    if kind != io::ErrorKind::InvalidData {
        return end_with(&Fate::Memory, err);
    }
    tell_fault(b"error: a word of the command line is not UTF-8\n", err)
}
