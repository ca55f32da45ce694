//! A delay is tried.
ghost use Rattle.velo_delays.specs.Stands.{Stands};

use crate::drawing::{Delay, WINDOW};
use crate::lookup::Lookup;
use crate::run::Run;
use std::alloc::Global;
use velo_events::{Event, Memory, ThreadId};
use velo_traces::Trace;

/// How many events a thread is forced to do, at most.
const FORCED: usize = 2_000;

/// All threads but one go on as recorded, up to the position.
pub(crate) fn go_on_without(
    run: &mut Run,
    events: &[Event],
    lookup: &Lookup,
    waiting: ThreadId,
    from: usize,
    to: usize,
) -> Result<(), Memory>
    requires { Stands run.old.heap }
    ensures { Stands run.new.heap }
{
    for position in from..to.min(events.len()) {
        if run.is_closed() {
            break;
        }
        let thread = events[position].thread;
        if thread != waiting {
            run.go_to(events, lookup, thread, position)?;
        }
    }
    Ok(())
}

/// Runs by the delay up to where the block's thread goes on. Returns whether it came so far.
fn delay_it(run: &mut Run, events: &[Event], lookup: &Lookup, delay: Delay) -> Result<bool, Memory>
    requires { Stands run.old.heap }
    ensures { Stands run.new.heap }
{
    let thread = delay.block.thread;
    let Some((other, until)) = delay.held else {
        let to = delay.from.saturating_add(WINDOW);
        go_on_without(run, events, lookup, thread, delay.from, to)?;
        return Ok(true);
    };
    let to = delay.cut.min(delay.from.saturating_add(4 * WINDOW));
    go_on_without(run, events, lookup, other, delay.from, to)?;
    if run.place(thread) < delay.cut.min(delay.block.last) {
        return Ok(false);
    }
    run.force_to(events, lookup, other, until, FORCED)?;
    Ok(true)
}

/// Runs by the delay, from where the log is left.
pub(crate) fn run_by(
    run: &mut Run,
    events: &[Event],
    lookup: &Lookup,
    delay: Delay,
) -> Result<(), Memory>
    requires { Stands run.old.heap }
    ensures { Stands run.new.heap }
{
    if delay_it(run, events, lookup, delay)? {
        let end = delay.block.last.saturating_add(1);
        run.force_to(events, lookup, delay.block.thread, end, FORCED)?;
    }
    Ok(())
}

/// The log up to a position, and then these events.
pub(crate) fn joined(
    alloc: Global,
    events: &[Event],
    from: usize,
    more: &[Event],
) -> Result<Trace, Memory> {
    let mut trace = Trace::new(alloc);
    for position in 0..from.min(events.len()) {
        trace.push(events[position])?;
    }
    for event in more {
        trace.push(*event)?;
    }
    Ok(trace)
}
