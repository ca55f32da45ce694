//! What is known already, of a list.

use std::alloc::Global;
use velo_check::{Fate, Files, Ignored, read_file};
use velo_events::Memory;
use velo_names::{MAX_NAMES_BYTES, NameKind, Names};
use velo_sidecars::{Entry, Scope, has_all_locks, numbers_known, parse_list};

/// What a list means by the names of a file: numbers of labels, of locks and of variables, each
/// once.
#[derive(Drop)]
pub struct Listed {
    /// The labels.
    pub labels: Vec<u32>,
    /// The locks.
    pub locks: Vec<u32>,
    /// The variables.
    pub variables: Vec<u32>,
    /// Whether all locks are left out.
    pub all_locks: bool,
}

/// Nothing is known.
fn nothing_listed(alloc: Global) -> Listed {
    Listed {
        labels: Vec::new(alloc),
        locks: Vec::new(alloc),
        variables: Vec::new(alloc),
        all_locks: false,
    }
}

/// What the entries of a list mean by these names.
fn listed_by(alloc: Global, names: &Names, found: &[Entry]) -> Result<Listed, Memory> {
    let labels = numbers_known(alloc, names, NameKind::Label, found)?;
    let locks = numbers_known(alloc, names, NameKind::Lock, found)?;
    let variables = numbers_known(alloc, names, NameKind::Variable, found)?;
    Ok(Listed {
        labels,
        locks,
        variables,
        all_locks: has_all_locks(found),
    })
}

/// What the bytes of a list mean by these names.
///
/// # Errors
/// `List` with the fault by which they mean nothing, `Memory` if an allocation failed.
fn listed_in(alloc: Global, scope: Scope, names: &Names, bytes: &[u8]) -> Result<Listed, Fate> {
    let entries = match parse_list(alloc, scope, bytes) {
        Ok(entries) => entries,
        Err(fault) => return Err(Fate::List(fault)),
    };
    match listed_by(alloc, names, &entries) {
        Ok(listed) => Ok(listed),
        Err(Memory) => Err(Fate::Memory),
    }
}

/// What the list at a path means by these names.
fn listed_at<F: Files>(
    alloc: Global,
    scope: Scope,
    names: &Names,
    path: &str,
    files: &F,
) -> Result<Listed, Fate> {
    let bytes = match read_file(alloc, path, MAX_NAMES_BYTES, files) {
        Ok(bytes) => bytes,
        Err(fate) => return Err(fate),
    };
    listed_in(alloc, scope, names, &bytes)
}

/// What the lines of a list may speak of.
fn scope_of(is_wide: bool) -> Scope {
    if is_wide {
        Scope::Everything
    } else {
        Scope::Labels
    }
}

/// What the list means, if one was given, and else nothing.
///
/// # Errors
/// `CannotOpen` where it does not open, `ReadFailed` where it failed, `List` with its fault,
/// `Memory` if an allocation failed.
pub fn listed_of<F: Files>(
    alloc: Global,
    names: &Names,
    ignored: &Ignored,
    files: &F,
) -> Result<Listed, Fate> {
    match ignored.known {
        None => Ok(nothing_listed(alloc)),
        Some(path) => listed_at(alloc, scope_of(ignored.is_wide), names, path, files),
    }
}
