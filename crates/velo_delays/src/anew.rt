//! The events of a log with values that tell where they come from.
ghost use Rattle.std.specs.Prelude.{◌≡◌, ◌≤◌, ◌<◌, ◌+◌, List, length, take, IfOk, OnOk};
ghost use Rattle.velo_events.specs.declared.limits.TheConstants.{MAX_EVENTS};
ghost use Rattle.velo_events.specs.declared.event.Event.{Event as EventOf};
ghost use Rattle.velo_events.specs.WellFormed.{IsWellFormed, NamesKnown};
ghost use Rattle.velo_heap.specs.Contents.{bounds_of, IsHeapOf};
ghost use Rattle.velo_delays.specs.Anew.{renewed, IsRenewed, IsRenewedSoFar};

use std::alloc::Global;
use velo_events::{Config, Event, Kind, Memory};
use velo_heap::Heap;
use velo_traces::Trace;

/// The event after those of the heap, of which there are so many.
fn renewed(heap: &Heap, event: Event, position: usize) -> Event
    requires names { NamesKnown (bounds_of heap.now) event.kind }
    requires few { position < MAX_EVENTS }
    ensures { (before : List EventOf) → IsHeapOf heap.now before → length before ≡ position → result ≡ renewed before event }
{
    let kind = match event.kind {
        Kind::Read(x, _) => Kind::Read(x, heap.value(x)),
        Kind::Write(x, _) => Kind::Write(x, position as u64 + 2),
        kind => kind,
    };
    Event {
        thread: event.thread,
        kind,
    }
}

/// Takes the event at the position in.
fn take_in(
    heap: &mut Heap,
    anew: &mut Trace,
    events: &[Event],
    position: usize,
) -> Result<(), Memory>
    requires within { position < length events.now }
    requires few { length events.now ≤ MAX_EVENTS }
    requires well_formed { IsWellFormed (bounds_of heap.old) events.now }
    requires stands { IsRenewedSoFar (take position events.now) heap.old anew.old.events }
    ensures bounds { bounds_of heap.new ≡ bounds_of heap.old }
    ensures stands { OnOk result (IsRenewedSoFar (take (position + 1) events.now) heap.new anew.new.events) }
{
    let event = renewed(heap, events[position], position);
    anew.push(event)?;
    heap.apply(&event);
    Ok(())
}

/// The same events in the same order, but a write writes the number of its line, and a read reads that of the write that it reads
/// from, or 0.
///
/// # Errors
/// `Memory` where a growth was refused.
pub fn with_lines(alloc: Global, config: &Config, log: &Trace) -> Result<Trace, Memory>
    requires few { length log.now.events ≤ MAX_EVENTS }
    requires well_formed { IsWellFormed config.now.bounds log.now.events }
    ensures anew { IfOk result (λ anew. IsRenewed log.now.events anew.events) }
    ensures well_formed { IfOk result (λ anew. IsWellFormed config.now.bounds anew.events) }
{
    let mut heap = Heap::new(alloc, config)?;
    let mut anew = Trace::new(alloc);
    let events = log.as_slice();
    for position in 0..events.len() {
        take_in(&mut heap, &mut anew, events, position)?;
    }
    Ok(anew)
}
