//! Whether the events of a log can come about, one after another.
ghost use Rattle.std.specs.Prelude.{◌≡◌, ◌≤◌, None, List, length, take, IfOk, IfSome, IfNone};
ghost use Rattle.velo_events.specs.declared.event.Event.{Event as EventOf};
ghost use Rattle.velo_events.specs.WellFormed.{IsWellFormed};
ghost use Rattle.velo_traces.specs.Flaws.{flaw_of, IsFirstFlaw};
ghost use Rattle.velo_heap.specs.Contents.{bounds_of, ForItsTraces};

use std::alloc::Global;
use velo_events::{Config, Event, Memory};
use velo_heap::Heap;
use velo_traces::{Flaw, Trace};

/// Why the event can't come next, by the heap.
#[inline(always)]
fn flaw_in(heap: &Heap, event: &Event) -> Option<Flaw>
    ensures { ForItsTraces heap.now (λ trace.
        result ≡ flaw_of (bounds_of heap.now) trace event.now) }
{
    match heap.refusal(event) {
        Some(refusal) => Some(Flaw::Refused(refusal)),
        None => {
            if heap.has_its_value(event) {
                None
            } else {
                Some(Flaw::WrongValue)
            }
        }
    }
}

/// The first event of a log that can't come about, by its position, and why; none where all can.
///
/// One pass, by the values, locks and threads alone.
///
/// # Errors
/// `Memory` where a growth was refused.
pub fn first_flaw(
    alloc: Global,
    config: &Config,
    log: &Trace,
) -> Result<Option<(usize, Flaw)>, Memory>
    ensures well_formed { IfOk result (λ found.
        IfNone found (IsWellFormed config.now.bounds log.now.events)) }
    ensures flaw { IfOk result (λ found.
        IfSome found (λ f. IsFirstFlaw config.now.bounds log.now.events f.0 f.1)) }
{
    let events = log.as_slice();
    let mut heap = Heap::new(alloc, config)?;
    for position in 0..events.len() {
        let event = events[position];
        if let Some(flaw) = flaw_in(&heap, &event) {
            return Ok(Some((position, flaw)));
        }
        heap.apply(&event);
    }
    Ok(None)
}
