//! Which file could not be opened, read or written, in words.

use crate::lines::add_file;
use crate::roles::{ROLES, Role, asks_for_words, path_of, word_of};
use std::alloc::Global;
use velo_check::{CheckFault, Fate, Request};
use velo_events::Memory;
use velo_explain::{Page, Piece};
use velo_logtext::LogFault;

/// Why a file could not be opened, read or written.
#[derive(Clone, Copy, PartialEq, Eq)]
pub enum SystemReason {
    /// No file is there, or no directory for it.
    NotFound,
    /// The system does not permit it.
    Denied,
    /// A directory is there.
    IsDirectory,
    /// No room is left.
    Full,
    /// The system gives another reason.
    Other,
}

/// Files that recall which of them failed last.
pub trait Recall {
    /// Why the file at a path could not be opened, read or written, if it is the one that failed
    /// last, and this is known.
    fn failure_at(&self, _path: &str) -> Option<SystemReason> {
        None
    }
}

/// A file of a request that failed.
#[derive(Clone, Copy)]
struct Failed<'a> {
    role: Role,
    path: &'a str,
    reason: SystemReason,
}

/// What was to be done with the file, where the fate is that it failed.
fn verb_of(fate: Fate) -> Option<&'static str> {
    match fate {
        Fate::CannotOpen => Some("open"),
        Fate::ReadFailed | Fate::Check(CheckFault::Log(LogFault::Read)) => Some("read"),
        Fate::WriteFailed => Some("write"),
        _ => None,
    }
}

/// A reason in words.
fn reason_of(reason: SystemReason) -> &'static str {
    match reason {
        SystemReason::NotFound => "there is no such file",
        SystemReason::Denied => "permission is denied",
        SystemReason::IsDirectory => "it is a directory",
        SystemReason::Full => "no room is left",
        SystemReason::Other => "the system refused it",
    }
}

/// The failure of the file of a role, if the request has one and it failed.
fn failure_of<'a, F: Recall>(role: Role, request: &Request<'a>, files: &F) -> Option<Failed<'a>> {
    let path = path_of(role, request)?;
    let reason = files.failure_at(path)?;
    Some(Failed { role, path, reason })
}

/// The file of a request that failed, if it is known.
fn failed_of<'a, F: Recall>(request: &Request<'a>, files: &F) -> Option<Failed<'a>> {
    for role in &ROLES {
        if let Some(failed) = failure_of(*role, request, files) {
            return Some(failed);
        }
    }
    None
}

/// Adds what is said of a file, by what was to be done, its word and the reason.
fn add_failure(
    page: &mut Page,
    alloc: Global,
    path: &str,
    verb: &str,
    word: &str,
    reason: &str,
) -> Result<(), Memory> {
    add_file(page, alloc, path)?;
    page.add(&[
        Piece::Text("cannot "),
        Piece::Text(verb),
        Piece::Text(" "),
        Piece::Text(word),
        Piece::Text(": "),
        Piece::Text(reason),
        Piece::Text("\n"),
    ])
}

/// What is said of a file that failed.
fn failure_words(alloc: Global, verb: &str, failed: &Failed) -> Result<Page, Memory> {
    let mut page = Page::new(alloc);
    let word = word_of(failed.role);
    let reason = reason_of(failed.reason);
    add_failure(&mut page, alloc, failed.path, verb, word, reason)?;
    Ok(page)
}

/// What is said where a file of a request could not be opened, read or written, if the request asks
/// for words and it is known which file it is.
pub fn words_of_failure<F: Recall>(
    alloc: Global,
    request: &Request,
    fate: Fate,
    files: &F,
) -> Option<Page> {
    if !asks_for_words(request) {
        return None;
    }
    let verb = verb_of(fate)?;
    let failed = failed_of(request, files)?;
    failure_words(alloc, verb, &failed).ok()
}
