//! Which event of a log each event of another trace is.
ghost use Rattle.std.specs.Prelude.{◌≡◌, ◌≢◌, ◌<◌, ◌≤◌, [], ◌∷◌, ◌++◌, length, List, MatchOption, IfOk};
ghost use Rattle.velo_events.specs.declared.event.Event.{Event as EventOf};
ghost use Rattle.velo_events.specs.Meaning.{action_of};
ghost use Rattle.velo_predict.specs.Sources.{AreSources, AreTrails, IsTrail, TellsSource};

use crate::judge::{are_of_one_action, next_of};
use std::alloc::Global;
use velo_events::growth::{filled, with_capacity};
use velo_events::{Event, Kind, Memory, ThreadId};
use velo_traces::Trace;

/// How far a thread has come along its events in the log.
#[derive(Clone, Copy)]
pub struct Trail {
    /// From this position on its next event is looked for.
    pub place: usize,
    /// Whether it did something else than in the log.
    pub is_lost: bool,
}

/// What an event comes to.
#[derive(Clone, Copy)]
struct Step {
    /// How far its thread has come.
    trail: Trail,
    /// The position in the log of the event that it is there, if it is one.
    source: Option<usize>,
}

/// The position, if the operations are of one action.
fn if_of_one_action(kind: Kind, next: Kind, place: usize) -> Option<usize>
    ensures { MatchOption result (action_of kind ≢ action_of next) (λ at. (at ≡ place) × (action_of kind ≡ action_of next)) }
{
    if are_of_one_action(kind, next) {
        Some(place)
    } else {
        None
    }
}

/// What the event comes to.
fn step_along(log: &[Event], trail: Trail, event: Event) -> Step
    requires { trail.place ≤ length log.now }
    ensures source { (trace : List EventOf) → IsTrail log.now trace event.thread.0 trail → TellsSource log.now trace event result.source }
    ensures trail { (trace : List EventOf) → IsTrail log.now trace event.thread.0 trail
        → IsTrail log.now (trace ++ event ∷ []) event.thread.0 result.trail }
{
    let lost = Step {
        trail: Trail {
            is_lost: true,
            ..trail
        },
        source: None,
    };
    if trail.is_lost {
        return lost;
    }
    let place = next_of(log, event.thread, trail.place);
    if place >= log.len() {
        return lost;
    }
    let next = log[place];
    Step {
        trail: Trail {
            place: place + 1,
            is_lost: event.kind != next.kind,
        },
        source: if_of_one_action(event.kind, next.kind, place),
    }
}

/// The place of a thread among the trails.
fn trail_of(thread: ThreadId) -> usize
    ensures trail { result ≡ thread.0 }
    ensures within { result < 256 }
{
    usize::from(thread.0)
}

/// Takes the next event of the trace in. At which position of the log it is, if it is one.
fn take_in(trails: &mut [Trail], log: &[Event], event: Event) -> Option<usize>
    requires stands { (trace : List EventOf) × AreTrails log.now trace trails.old }
    ensures source { (trace : List EventOf) → AreTrails log.now trace trails.old → TellsSource log.now trace event result }
    ensures trails { (trace : List EventOf) → AreTrails log.now trace trails.old
        → AreTrails log.now (trace ++ event ∷ []) trails.new }
{
    let thread = trail_of(event.thread);
    let step = step_along(log, trails[thread], event);
    trails[thread] = step.trail;
    step.source
}

/// For each event of the trace the position of that event of the log which it is, if it is one: its thread did the same before, and does
/// the same now. A read may have another value.
///
/// It goes once over the trace, and for each thread once over the log.
///
/// # Errors
/// `Memory` where a growth was refused.
pub fn sources_of(alloc: Global, log: &Trace, trace: &Trace) -> Result<Vec<Option<usize>>, Memory>
    ensures { IfOk result (λ sources. AreSources log.now.events trace.now.events sources.items) }
{
    let events = trace.as_slice();
    let start = Trail {
        place: 0,
        is_lost: false,
    };
    let mut trails = filled(alloc, start, 256)?;
    let mut sources = with_capacity(alloc, events.len())?;
    for position in 0..events.len() {
        sources.push_reserved(take_in(&mut trails, log.as_slice(), events[position]));
    }
    Ok(sources)
}
