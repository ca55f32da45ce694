//! A trace that was found, judged for a circle of waits.
ghost use Rattle.std.specs.Prelude.{◌≡◌, ◌<◌, length, map, slice_index, All, IfOk, IfSome};
ghost use Rattle.velo_delays.specs.Deadlock.{awaited, IsDeadlock};

use crate::judged::{Differing, differing_of};
use crate::sources::{place_at, sources_as_read};
use std::alloc::Global;
use velo_events::growth::with_capacity;
use velo_events::{Config, Event, Memory};
use velo_filter::Thinned;
use velo_predict::{Waiting, predicts_deadlock};
use velo_traces::Trace;

/// What a thread waits to do.
#[derive(Clone, Copy, PartialEq, Eq)]
pub struct Awaited {
    /// The event.
    pub event: Event,
    /// Its position in the log as read.
    pub position: usize,
}

/// A prediction of a log after which threads wait in a circle.
#[derive(Drop)]
pub struct Deadlock {
    /// Its events.
    pub trace: Trace,
    /// What each of the threads waits to do, in the order of the circle.
    pub waiting: Vec<Awaited>,
    /// The reads that have another value than in the log.
    pub differing: Vec<Differing>,
    /// For each event of the trace the position in the log as read, if it is one of that log.
    pub sources: Vec<Option<usize>>,
}

/// What the threads wait to do.
fn awaited_by(
    alloc: Global,
    log: &[Event],
    places: &[u32],
    circle: &[Waiting],
) -> Result<Vec<Awaited>, Memory>
    requires { All (λ w. w.next < length log.now) circle.now }
    ensures { IfOk result (λ waiting. waiting.items ≡ map (awaited log.now (slice_index places.now)) circle.now) }
{
    let mut waiting = with_capacity(alloc, circle.len())?;
    for one in circle {
        waiting.push_reserved(Awaited {
            event: log[one.next],
            position: place_at(places, one.next),
        });
    }
    Ok(waiting)
}

/// The trace with what is to be said of it, if it is a prediction of what is left of a log after which threads wait in a circle.
///
/// # Errors
/// `Memory` where a growth was refused.
pub(crate) fn judge_deadlock(
    alloc: Global,
    config: &Config,
    rest: &Thinned,
    trace: Trace,
) -> Result<Option<Deadlock>, Memory>
    ensures { IfOk result (λ found. IfSome found (λ deadlock. IsDeadlock config.now.bounds
        rest.now.trace.events (slice_index rest.now.places.items) deadlock)) }
{
    if trace.len() > config.events as usize {
        return Ok(None);
    }
    let waits = predicts_deadlock(alloc, config, &rest.trace, &trace)?;
    let Some(circle) = waits else {
        return Ok(None);
    };
    let reads = differing_of(alloc, config, &rest.trace, &trace)?;
    let Some(differing) = reads else {
        return Ok(None);
    };
    let waiting = awaited_by(alloc, rest.trace.as_slice(), &rest.places, &circle)?;
    let sources = sources_as_read(alloc, rest, &trace)?;
    Ok(Some(Deadlock {
        trace,
        waiting,
        differing,
        sources,
    }))
}
