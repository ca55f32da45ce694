//! Why a block is to blame: an event of another thread that no reordering moves out of it.
ghost use Rattle.std.specs.Prelude.{◌≡◌, ◌≢◌, ◌≤◌, ◌<◌, ◌+◌, ℕ, length, slice_index, vec_len, vec_capacity, IfOk, MatchOption, IsTrue};
ghost use Rattle.velo_traces.specs.Numbers.{HasNumbers};
ghost use Rattle.velo_traces.specs.Places.{AllHavePlaces, sizes};
ghost use Rattle.velo_certify.specs.Witness.{AreMarks, IsWitness};

use crate::numbered::table_of;
use std::alloc::Global;
use velo_events::growth::with_capacity;
use velo_events::{Event, Memory, conflicts};
use velo_traces::{ConflictTable, Trace};

/// Takes the next event in, and marks it where it is the begin or a marked one conflicts with it.
fn mark_next(
    events: &[Event],
    table: &mut ConflictTable,
    begin: usize,
    marks: &mut Vec<usize>,
    at: usize,
)
    requires at { length marks.old.items ≡ at }
    requires within { at < length events.now }
    requires room { vec_len marks.old < vec_capacity marks.old }
    requires names { AllHavePlaces (sizes table.old) events.now (length events.now) }
    requires numbers { HasNumbers events.now (slice_index marks.old.items) table.old }
    requires marks { AreMarks events.now begin marks.old.items }
    ensures names { sizes table.new ≡ sizes table.old }
    ensures numbers { HasNumbers events.now (slice_index marks.new.items) table.new }
    ensures marks { AreMarks events.now begin marks.new.items }
    ensures count { length marks.new.items ≡ at + 1 }
    ensures room { vec_capacity marks.new ≡ vec_capacity marks.old }
{
    let event = events[at];
    let greatest = table.look_up(event);
    let number = if at == begin { 1 } else { greatest };
    table.record(event, number);
    marks.push_reserved(number);
}

/// Marks the events before a position that happen after the begin, and the begin.
fn marks_before(
    alloc: Global,
    events: &[Event],
    begin: usize,
    position: usize,
) -> Result<Vec<usize>, Memory>
    requires { position ≤ length events.now }
    ensures marks { IfOk result (λ marks. AreMarks events.now begin marks.items) }
    ensures count { IfOk result (λ marks. length marks.items ≡ position) }
{
    let mut table = table_of(alloc, events)?;
    let mut marks = with_capacity(alloc, position)?;
    for at in 0..position {
        mark_next(events, &mut table, begin, &mut marks, at);
    }
    Ok(marks)
}

/// Whether the event before the position is a marked one of another thread and conflicts with the
/// one at the position.
fn is_witness(events: &[Event], marks: &[usize], begin: usize, position: usize, at: usize) -> bool
    requires within { position < length events.now }
    requires before { at < position }
    requires marks { AreMarks events.now begin marks.now }
    requires count { length marks.now ≡ position }
    ensures yes { IsTrue result → IsWitness events.now begin position at }
    ensures no { IsWitness events.now begin position at → IsTrue result }
{
    let event = events[at];
    let last = events[position];
    if marks[at] == 0 || at == begin || event.thread == last.thread {
        return false;
    }
    conflicts(&event, &last)
}

/// The first marked event of another thread that conflicts with the one at the position.
fn first_witness(events: &[Event], marks: &[usize], begin: usize, position: usize) -> Option<usize>
    requires within { position < length events.now }
    requires marks { AreMarks events.now begin marks.now }
    requires count { length marks.now ≡ position }
    ensures { MatchOption result
        ((w : ℕ) → ¬ IsWitness events.now begin position w) (IsWitness events.now begin position) }
{
    for at in 0..position {
        if is_witness(events, marks, begin, position, at) {
            return Some(at);
        }
    }
    None
}

/// An event of another thread that happens after the begin and conflicts with the event at the
/// later position, which has to be there: the first one, if there is one. Where both are of one
/// block, no reordering brings the block together then.
///
/// It takes two passes over the events up to the position, and one over all to make the table.
///
/// # Errors
/// `Memory` if an allocation failed.
pub fn witness_of(
    alloc: Global,
    trace: &Trace,
    begin: usize,
    position: usize,
) -> Result<Option<usize>, Memory>
    requires { position < length trace.now.events }
    ensures { IfOk result (λ found.
        MatchOption found ((w : ℕ) → ¬ IsWitness trace.now.events begin position w)
        (IsWitness trace.now.events begin position)) }
{
    let events = trace.as_slice();
    let marks = marks_before(alloc, events, begin, position)?;
    Ok(first_witness(events, &marks, begin, position))
}
