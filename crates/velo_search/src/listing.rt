//! Lists of notes: those that access one variable, one lock or one thread are in one.
ghost use Rattle.std.specs.Prelude.{◌≡◌, ◌⊎◌, ◌↔◌, Contains, IsTrue, OnOk};
ghost use Rattle.std.specs.List.{list_all};
ghost use Rattle.velo_search.specs.declared.note.Note.{Note};
ghost use Rattle.velo_search.specs.Notes.{list_of, is_harmless, IsAmong, IsNoteOf};

use crate::held::Held;
use crate::note::Note;
use std::alloc::Global;
use velo_events::growth::reserve;
use velo_events::{Access, Kind, Memory};

/// In how many lists the notes are.
pub const LISTS: usize = 1_024;

/// In which list an operation is noted.
pub fn list_of(kind: Kind) -> usize
    ensures { result ≡ list_of kind }
{
    let target = match kind.access() {
        Access::Shared(c) | Access::Exclusive(c) => 2 * c.0 as usize,
        Access::Fork(u) | Access::Join(u) => 2 * usize::from(u.0) + 1,
        Access::Nothing => 1,
    };
    target % LISTS
}

/// Whether they are the same.
fn is_same_kind(one: Kind, other: Kind) -> bool
    ensures { IsTrue result ↔ (one ≡ other) }
{
    one == other
}

/// Whether it is the note of the operation.
fn is_note_of(note: &Note, thread: usize, kind: Kind, held: &Held) -> bool
    ensures { IsTrue result ↔ IsNoteOf thread kind held.now.locks.items note.now }
{
    note.thread == thread && is_same_kind(note.kind, kind) && note.held.is_same(held)
}

/// Whether the operation is noted in the list.
fn is_among(list: &[Note], thread: usize, kind: Kind, held: &Held) -> bool
    ensures { IsTrue result ↔ IsAmong list.now thread kind held.now.locks.items }
{
    for place in 0..list.len() {
        if is_note_of(&list[place], thread, kind, held) {
            return true;
        }
    }
    false
}

/// Notes the operation in the list, unless it is there.
///
/// # Errors
/// `Memory` where a growth was refused.
pub fn put(
    alloc: Global,
    list: &mut Vec<Note>,
    thread: usize,
    kind: Kind,
    held: &Held,
) -> Result<(), Memory>
    ensures before { OnOk result ((note : Note) → Contains list.old.items note → Contains list.new.items note) }
    ensures there { OnOk result (IsAmong list.new.items thread kind held.now.locks.items) }
    ensures only { OnOk result ((note : Note) → Contains list.new.items note →
        (Contains list.old.items note ⊎ IsNoteOf thread kind held.now.locks.items note)) }
{
    if is_among(list, thread, kind, held) {
        return Ok(());
    }
    let held = held.copy(alloc)?;
    reserve(list, 1)?;
    list.push_reserved(Note { thread, kind, held });
    Ok(())
}

/// Whether a note is of the same thread, or does not hinder the operation.
fn is_harmless(note: &Note, thread: usize, kind: Kind, held: &Held) -> bool
    ensures { result ≡ is_harmless held.now.locks.items thread kind note.now }
{
    note.thread == thread || !note.hinders(kind, held)
}

/// Whether no operation of another thread in the list hinders this one.
pub fn is_clear(list: &[Note], thread: usize, kind: Kind, held: &Held) -> bool
    ensures { result ≡ list_all (is_harmless held.now.locks.items thread kind) list.now }
{
    for place in 0..list.len() {
        if !is_harmless(&list[place], thread, kind, held) {
            return false;
        }
    }
    true
}
