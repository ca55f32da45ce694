//! Positions that get numbers one after another, from the front or from the back.
ghost use Rattle.std.specs.Prelude.{◌≡◌, ◌<◌, length, IfOk};
ghost use Rattle.velo_traces.specs.Numbers.{AreBlank};
ghost use Rattle.velo_traces.specs.Places.{AllHavePlaces, sizes};
ghost use Rattle.velo_certify.specs.Table.{TakesIn, TakesChanges};

use std::alloc::Global;
use velo_events::{Event, Memory};
use velo_traces::{ConflictTable, counts_of};

/// A table for the events, without numbers.
///
/// # Errors
/// `Memory` if an allocation failed.
pub(crate) fn table_of(alloc: Global, events: &[Event]) -> Result<ConflictTable, Memory>
    ensures blank { IfOk result AreBlank }
    ensures places { IfOk result (λ table. AllHavePlaces (sizes table) events.now (length events.now)) }
{
    let counts = counts_of(events);
    ConflictTable::new(alloc, counts.threads, counts.cells)
}

/// Gives the event at a position its number. Returns the greatest number of those that conflict
/// with it and have one already.
pub(crate) fn take_in(
    table: &mut ConflictTable,
    events: &[Event],
    at: usize,
    number: usize,
) -> usize
    requires within { at < length events.now }
    requires places { AllHavePlaces (sizes table.old) events.now (length events.now) }
    ensures taken { TakesIn events.now at number table.old table.new result }
    ensures sizes { sizes table.new ≡ sizes table.old }
{
    let event = events[at];
    let greatest = table.look_up(event);
    table.record(event, number);
    greatest
}

/// Gives the event at a position its number. Returns the greatest number of those that change what
/// the event is about besides its thread and have one already.
pub(crate) fn take_change(
    table: &mut ConflictTable,
    events: &[Event],
    at: usize,
    number: usize,
) -> usize
    requires within { at < length events.now }
    requires places { AllHavePlaces (sizes table.old) events.now (length events.now) }
    ensures taken { TakesChanges events.now at number table.old table.new result }
    ensures sizes { sizes table.new ≡ sizes table.old }
{
    let event = events[at];
    let other = table.look_up_change(event);
    table.record(event, number);
    other
}
