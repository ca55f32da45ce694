//! The labels, the locks and the variables that a command is asked to leave out: of a list, and then
//! of words.

use std::alloc::Global;
use velo_check::{Fate, Ignorable};
use velo_events::growth::reserve;
use velo_events::{Label, LockId, Memory, VarId};
use velo_names::{NameKind, Names};
use velo_sidecars::add_numbers;

fn kind_of(what: Ignorable) -> NameKind {
    match what {
        Ignorable::Lock => NameKind::Lock,
        Ignorable::Variable => NameKind::Variable,
        Ignorable::Label => NameKind::Label,
    }
}

/// Adds a number if it can be an id of this kind.
fn add_id(ids: &mut Vec<u32>, kind: NameKind, number: u32) -> Result<(), Memory> {
    if number > kind.greatest() {
        return Ok(());
    }
    reserve(ids, 1)?;
    ids.push_reserved(number);
    Ok(())
}

/// Adds the numbers that can be ids of this kind.
fn add_ids(ids: &mut Vec<u32>, kind: NameKind, numbers: &[u32]) -> Result<(), Memory> {
    for number in numbers {
        add_id(ids, kind, *number)?;
    }
    Ok(())
}

/// Adds the ids that a word means.
fn add_meant(
    alloc: Global,
    ids: &mut Vec<u32>,
    names: &Names,
    what: Ignorable,
    word: &str,
) -> Result<(), Memory> {
    let kind = kind_of(what);
    let numbers = names.meant_by(alloc, kind, word.as_bytes())?;
    add_ids(ids, kind, &numbers)
}

/// Adds the ids that a word means, of which there is to be one.
fn add_word(
    alloc: Global,
    ids: &mut Vec<u32>,
    names: &Names,
    what: Ignorable,
    word: &str,
) -> Result<(), Fate> {
    let before = ids.len();
    match add_meant(alloc, ids, names, what, word) {
        Ok(()) => (),
        Err(Memory) => return Err(Fate::Memory),
    }
    if ids.len() == before {
        return Err(Fate::Ignored(what));
    }
    Ok(())
}

/// The ids among these numbers.
fn ids_listed(alloc: Global, what: Ignorable, listed: &[u32]) -> Result<Vec<u32>, Memory> {
    let mut ids = Vec::new(alloc);
    add_ids(&mut ids, kind_of(what), listed)?;
    Ok(ids)
}

/// The ids among the numbers of a list, and then those that the words mean, one after another.
fn ids_asked(
    alloc: Global,
    names: &Names,
    what: Ignorable,
    listed: &[u32],
    words: &[&str],
) -> Result<Vec<u32>, Fate> {
    let mut ids = match ids_listed(alloc, what, listed) {
        Ok(ids) => ids,
        Err(Memory) => return Err(Fate::Memory),
    };
    for word in words {
        match add_word(alloc, &mut ids, names, what, word) {
            Ok(()) => (),
            Err(fate) => return Err(fate),
        }
    }
    Ok(ids)
}

/// The labels of these numbers.
fn labels_of(alloc: Global, numbers: &[u32]) -> Result<Vec<Label>, Memory> {
    let mut labels = Vec::new(alloc);
    for number in numbers {
        reserve(&mut labels, 1)?;
        labels.push_reserved(Label(*number));
    }
    Ok(labels)
}

/// The labels of the numbers of a list, and then those of these, each once.
fn labels_with(alloc: Global, listed: &mut Vec<u32>, ids: &[u32]) -> Result<Vec<Label>, Memory> {
    add_numbers(alloc, listed, ids)?;
    labels_of(alloc, listed)
}

/// The locks of these ids.
fn locks_of(alloc: Global, ids: &[u32]) -> Result<Vec<LockId>, Memory> {
    let mut locks = Vec::new(alloc);
    for id in ids {
        let Ok(id) = u16::try_from(*id) else {
            continue;
        };
        reserve(&mut locks, 1)?;
        locks.push_reserved(LockId(id));
    }
    Ok(locks)
}

/// The variables of these ids.
fn variables_of(alloc: Global, ids: &[u32]) -> Result<Vec<VarId>, Memory> {
    let mut variables = Vec::new(alloc);
    for id in ids {
        let Ok(id) = u16::try_from(*id) else {
            continue;
        };
        reserve(&mut variables, 1)?;
        variables.push_reserved(VarId(id));
    }
    Ok(variables)
}

/// The labels of a list, and then those that the words mean, each a number, a name or a pattern of
/// names; each label once. They are gathered in `listed`.
///
/// # Errors
/// `Ignored` where a word means none, `Memory` if an allocation failed.
pub fn ignored_labels(
    alloc: Global,
    names: &Names,
    listed: &mut Vec<u32>,
    words: &[&str],
) -> Result<Vec<Label>, Fate> {
    let ids = ids_asked(alloc, names, Ignorable::Label, &[], words)?;
    match labels_with(alloc, listed, &ids) {
        Ok(labels) => Ok(labels),
        Err(Memory) => Err(Fate::Memory),
    }
}

/// The locks of a list, and then those that the words mean, as `ignored_labels`, but each as often
/// as it is meant.
///
/// # Errors
/// As `ignored_labels`.
pub fn ignored_locks(
    alloc: Global,
    names: &Names,
    listed: &[u32],
    words: &[&str],
) -> Result<Vec<LockId>, Fate> {
    let ids = ids_asked(alloc, names, Ignorable::Lock, listed, words)?;
    match locks_of(alloc, &ids) {
        Ok(locks) => Ok(locks),
        Err(Memory) => Err(Fate::Memory),
    }
}

/// The variables of a list, and then those that the words mean, as `ignored_locks`.
///
/// # Errors
/// As `ignored_labels`.
pub fn ignored_variables(
    alloc: Global,
    names: &Names,
    listed: &[u32],
    words: &[&str],
) -> Result<Vec<VarId>, Fate> {
    let ids = ids_asked(alloc, names, Ignorable::Variable, listed, words)?;
    match variables_of(alloc, &ids) {
        Ok(variables) => Ok(variables),
        Err(Memory) => Err(Fate::Memory),
    }
}
