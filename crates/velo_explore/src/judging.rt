//! What a run comes to, where its log is judged by what is left of it.
ghost use Rattle.std.specs.Prelude.{◌≡◌, ◌↔◌, IfOk, IsTrue};
ghost use Rattle.velo_explore.specs.Goals.{KnowsAlarm};
ghost use Rattle.velo_events.specs.Graph.{HasCycle};
ghost use Rattle.velo_filter.specs.Left.{rest_of};
ghost use Rattle.velo_filter.specs.Tables.{left_of};

use crate::outcome::RunOutcome;
use std::alloc::Global;
use velo_certify::{CertFault, serial_order};
use velo_events::Memory;
use velo_filter::{LeftOut, Thinned, thin};
use velo_traces::Trace;
use velo_worker::Ending;
use velo_world::Closed;

/// Whether a log has a cycle.
fn has_cycle(alloc: Global, log: &Trace) -> Result<bool, Memory>
    ensures { IfOk result (λ yes. IsTrue yes ↔ HasCycle log.now.events) }
{
    match serial_order(alloc, log) {
        Ok(order) => {
            drop(order);
            Ok(false)
        }
        Err(CertFault::HasCycle) => Ok(true),
        Err(CertFault::Memory) => Err(Memory),
        // The order of a log fails in no other way.
        Err(_) => unreachable!(),
    }
}

/// Whether what is left of the log of a closed world has a cycle.
fn has_cycle_left(alloc: Global, closed: &Closed, left: &LeftOut) -> Result<bool, Memory>
    ensures { IfOk result (λ yes. IsTrue yes ↔ HasCycle (rest_of (left_of left.now) closed.now.log)) }
{
    let Thinned { trace, places } = thin(alloc, closed.log(), left)?;
    drop(places);
    let found = has_cycle(alloc, &trace);
    drop(trace);
    found
}

/// What a run came to which left this world, and ended so: an alarm is one of what is left of its log.
///
/// # Errors
/// `Memory` where a growth was refused.
pub(crate) fn outcome_left(
    alloc: Global,
    closed: &Closed,
    ending: Ending,
    left: &LeftOut,
) -> Result<RunOutcome, Memory>
    ensures alarm { IfOk result (λ outcome. IsTrue outcome.alarm ↔ HasCycle (rest_of (left_of left.now) closed.now.log)) }
    ensures known { IfOk result (λ outcome. KnowsAlarm closed.now.log) }
    ensures ending { IfOk result (λ outcome. outcome.ending ≡ ending) }
{
    let whole = RunOutcome::of(closed, ending);
    // A cycle of what is left is one of the whole log.
    if !whole.alarm {
        return Ok(whole);
    }
    let alarm = has_cycle_left(alloc, closed, left)?;
    Ok(RunOutcome { alarm, ending })
}
