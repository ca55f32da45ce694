//! The lines of what was asked for, and of the counts.

use velo_events::{Label, LockId, Memory, VarId};
use velo_explain::{Page, Piece};
use velo_names::{NameKind, Names};

/// What was to be left out.
#[derive(Clone, Copy)]
pub struct Asked<'a> {
    /// The labels.
    pub labels: &'a [Label],
    /// The locks.
    pub locks: &'a [LockId],
    /// The variables.
    pub variables: &'a [VarId],
    /// Whether all locks are.
    pub all_locks: bool,
}

/// Adds a label that was to be left out.
fn add_left_out_label(page: &mut Page, names: &Names, label: Label) -> Result<(), Memory> {
    page.add(&[
        Piece::Text("left out label "),
        Piece::Number(u64::from(label.0)),
        Piece::Name(names.name_of(NameKind::Label, label.0)),
        Piece::Text("\n"),
    ])
}

/// Adds a lock that was to be left out.
fn add_left_out_lock(page: &mut Page, names: &Names, lock: LockId) -> Result<(), Memory> {
    page.add(&[
        Piece::Text("left out lock "),
        Piece::Number(u64::from(lock.0)),
        Piece::Name(names.name_of(NameKind::Lock, u32::from(lock.0))),
        Piece::Text("\n"),
    ])
}

/// Adds a variable that was to be left out.
fn add_left_out_variable(page: &mut Page, names: &Names, variable: VarId) -> Result<(), Memory> {
    page.add(&[
        Piece::Text("left out variable "),
        Piece::Number(u64::from(variable.0)),
        Piece::Name(names.name_of(NameKind::Variable, u32::from(variable.0))),
        Piece::Text("\n"),
    ])
}

/// Adds the labels that were to be left out.
fn add_left_out_labels(page: &mut Page, names: &Names, labels: &[Label]) -> Result<(), Memory> {
    for label in labels {
        add_left_out_label(page, names, *label)?;
    }
    Ok(())
}

/// Adds these locks, which were to be left out.
fn add_these_locks(page: &mut Page, names: &Names, locks: &[LockId]) -> Result<(), Memory> {
    for lock in locks {
        add_left_out_lock(page, names, *lock)?;
    }
    Ok(())
}

/// Adds that all locks were to be left out.
fn add_all_locks(page: &mut Page) -> Result<(), Memory> {
    page.add(&[Piece::Text("left out all locks\n")])
}

/// Adds the locks that were to be left out: all, or these.
fn add_left_out_locks(
    page: &mut Page,
    names: &Names,
    all: bool,
    locks: &[LockId],
) -> Result<(), Memory> {
    if all {
        return add_all_locks(page);
    }
    add_these_locks(page, names, locks)
}

/// Adds the variables that were to be left out.
fn add_left_out_variables(
    page: &mut Page,
    names: &Names,
    variables: &[VarId],
) -> Result<(), Memory> {
    for variable in variables {
        add_left_out_variable(page, names, *variable)?;
    }
    Ok(())
}

/// Adds what was to be left out.
///
/// # Errors
/// `Memory` if an allocation failed.
pub fn add_asked(page: &mut Page, names: &Names, asked: &Asked) -> Result<(), Memory> {
    add_left_out_labels(page, names, asked.labels)?;
    add_left_out_locks(page, names, asked.all_locks, asked.locks)?;
    add_left_out_variables(page, names, asked.variables)
}

/// Adds a label that is not atomic.
pub(crate) fn add_not_atomic(page: &mut Page, names: &Names, label: u32) -> Result<(), Memory> {
    page.add(&[
        Piece::Text("not atomic "),
        Piece::Number(u64::from(label)),
        Piece::Name(names.name_of(NameKind::Label, label)),
        Piece::Text("\n"),
    ])
}

/// Adds that no block is to blame, where none is.
pub(crate) fn add_mark(page: &mut Page, to_blame: bool) -> Result<(), Memory> {
    if to_blame {
        return Ok(());
    }
    page.add(&[Piece::Text("  no block alone is to blame\n")])
}

/// Adds how many labels are atomic, and how many rounds there were: one more than had an alarm.
pub(crate) fn add_counts(page: &mut Page, atomic: usize, alarms: usize) -> Result<(), Memory> {
    page.add(&[
        Piece::Text("atomic "),
        Piece::Number(atomic as u64),
        Piece::Text(" labels\nrounds "),
        Piece::Number((alarms as u64).saturating_add(1)),
        Piece::Text("\n"),
    ])
}
