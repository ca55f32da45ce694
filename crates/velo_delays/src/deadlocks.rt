//! A search for deadlocks: a thread is stopped where it wants a second lock.
ghost use Rattle.std.specs.Prelude.{◌≡◌, ◌≤◌, [], length, option_map, slice_index, IfOk, IfSome, IsTrue, OnOk};
ghost use Rattle.velo_events.specs.declared.event.LockId.{LockId as LockOf};
ghost use Rattle.velo_events.specs.declared.limits.TheConstants.{MAX_EVENTS};
ghost use Rattle.velo_events.specs.WellFormed.{IsWellFormed};
ghost use Rattle.velo_filter.specs.Tables.{left_of};
ghost use Rattle.velo_delays.specs.Deadlock.{AreDeadlocks, AreDeadlocksIn, IsDeadlock, TakesIn, lock_acquired, locks_of, with_numbers};
ghost use Rattle.velo_delays.specs.Found.{HasNew};
ghost use Rattle.velo_delays.specs.Stands.{Stands};

use crate::drawing::WINDOW;
use crate::lookup::{Lookup, number_at, put_number};
use crate::rounds::follow_to;
use crate::run::{Run, held_after};
use crate::stuck::{Awaited, Deadlock, judge_deadlock};
use crate::trying::{go_on_without, joined};
use std::alloc::Global;
use velo_events::growth::{filled, reserve};
use velo_events::{Config, Event, Kind, LockId, Memory, ThreadId};
use velo_filter::{LeftOut, Thinned, thin};
use velo_traces::Trace;

/// Where a thread that holds a lock acquires another one.
#[derive(Clone, Copy)]
struct Want {
    lock: LockId,
    thread: ThreadId,
    position: usize,
}

/// What was found.
#[derive(Drop)]
pub struct Deadlocks {
    /// The predictions.
    pub found: Vec<Deadlock>,
    /// How many delays were tried.
    pub tries: u64,
}

/// The lock that the operation acquires, if it does.
fn lock_wanted(kind: Kind) -> Option<LockId>
    ensures { option_map (λ (m : LockOf). m.0) result ≡ lock_acquired kind }
{
    match kind {
        Kind::Acquire(lock) | Kind::AcquireShared(lock) => Some(lock),
        _ => None,
    }
}

/// Where threads that hold a lock acquire another one.
fn all_wants(alloc: Global, events: &[Event]) -> Result<Vec<Want>, Memory> {
    let mut held = filled(alloc, 0usize, 64)?;
    let mut wants = Vec::new(alloc);
    for position in 0..events.len() {
        let event = events[position];
        let thread = usize::from(event.thread.0);
        let before = number_at(&held, thread, 0);
        put_number(&mut held, thread, held_after(before, event.kind));
        let Some(lock) = lock_wanted(event.kind) else {
            continue;
        };
        if before > 0 {
            reserve(&mut wants, 1)?;
            wants.push_reserved(Want {
                lock,
                thread: event.thread,
                position,
            });
        }
    }
    Ok(wants)
}

/// How often each lock is wanted.
fn count_wants(alloc: Global, wants: &[Want]) -> Result<Vec<usize>, Memory> {
    let mut counts = filled(alloc, 0usize, 65_536)?;
    for want in wants {
        let lock = usize::from(want.lock.0);
        let count = number_at(&counts, lock, 0);
        put_number(&mut counts, lock, count.saturating_add(1));
    }
    Ok(counts)
}

/// Whether one of so many is among those that are spread evenly, of which there are at most `most`.
fn is_spread(number: usize, count: usize, most: usize) -> bool {
    let before = number.saturating_mul(most) / count.max(1);
    let after = number.saturating_add(1).saturating_mul(most) / count.max(1);
    count <= most || before != after
}

/// So many for each lock at most, spread evenly.
fn spread(alloc: Global, wants: &[Want], most: usize) -> Result<Vec<Want>, Memory> {
    let counts = count_wants(alloc, wants)?;
    let mut seen = filled(alloc, 0usize, 65_536)?;
    let mut kept = Vec::new(alloc);
    for want in wants {
        let lock = usize::from(want.lock.0);
        let number = number_at(&seen, lock, 0);
        put_number(&mut seen, lock, number.saturating_add(1));
        if is_spread(number, number_at(&counts, lock, 0), most) {
            reserve(&mut kept, 1)?;
            kept.push_reserved(*want);
        }
    }
    Ok(kept)
}

/// The first events of the log and those of the run in which the thread stops there, if it waits in a circle then.
fn try_one(
    alloc: Global,
    base: &Run,
    log: &Trace,
    lookup: &Lookup,
    want: Want,
) -> Result<Option<Trace>, Memory>
    requires { Stands base.now.heap }
{
    let mut run = base.branch(alloc, false)?;
    let events = log.as_slice();
    let to = want.position.saturating_add(WINDOW);
    go_on_without(&mut run, events, lookup, want.thread, want.position, to)?;
    if !run.is_in_circle(events, want.thread) {
        return Ok(None);
    }
    let trace = joined(alloc, events, want.position, run.trace().as_slice())?;
    Ok(Some(trace))
}

/// What the delay finds.
fn find_by(
    alloc: Global,
    config: &Config,
    base: &Run,
    rest: &Thinned,
    lookup: &Lookup,
    want: Want,
) -> Result<Option<Deadlock>, Memory>
    requires { Stands base.now.heap }
    ensures { IfOk result (λ found. IfSome found (λ found. IsDeadlock config.now.bounds
        rest.now.trace.events (slice_index rest.now.places.items) found)) }
{
    match try_one(alloc, base, &rest.trace, lookup, want)? {
        Some(trace) => judge_deadlock(alloc, config, rest, trace),
        None => Ok(None),
    }
}

/// Whether one of the threads waits for a lock that is not done.
fn has_new(waiting: &[Awaited], done: &LeftOut) -> bool
    ensures { IsTrue result → HasNew (left_of done.now).locks (locks_of waiting.now) }
{
    for one in waiting {
        if let Some(lock) = lock_wanted(one.event.kind) {
            if !done.has_lock(lock) {
                return true;
            }
        }
    }
    false
}

/// The locks that the threads wait for are done.
fn leave_out_wanted(done: &mut LeftOut, waiting: &[Awaited]) -> Result<(), Memory>
    ensures { OnOk result ((left_of done.new).locks ≡ with_numbers (left_of done.old).locks (locks_of waiting.now)) }
{
    for one in waiting {
        if let Some(lock) = lock_wanted(one.event.kind) {
            done.leave_out_lock(lock)?;
        }
    }
    Ok(())
}

/// Takes in what a delay found, if it found something and its threads wait for a lock that is not done: no more delays are tried for
/// its locks.
fn take_in(
    deadlocks: &mut Deadlocks,
    done: &mut LeftOut,
    found: Option<Deadlock>,
) -> Result<(), Memory>
    ensures { OnOk result (TakesIn (left_of done.old).locks (left_of done.new).locks
        deadlocks.old.found.items deadlocks.new.found.items found) }
{
    let Some(found) = found else {
        return Ok(());
    };
    if !has_new(&found.waiting, done) {
        return Ok(());
    }
    leave_out_wanted(done, &found.waiting)?;
    reserve(&mut deadlocks.found, 1)?;
    deadlocks.found.push_reserved(found);
    Ok(())
}

/// Tries the delays, which rise. Each lock is tried until something is found.
fn try_all(
    alloc: Global,
    config: &Config,
    rest: &Thinned,
    lookup: &Lookup,
    wants: &[Want],
    deadlocks: &mut Deadlocks,
) -> Result<(), Memory>
    requires none { deadlocks.old.found.items ≡ [] }
    ensures { OnOk result (AreDeadlocks config.now.bounds rest.now.trace.events
        (slice_index rest.now.places.items) deadlocks.new.found.items) }
{
    let mut base = Run::new(alloc, config, lookup, false)?;
    let mut done = LeftOut::new(alloc);
    let mut position = 0;
    for at in 0..wants.len() {
        let want = wants[at];
        if done.has_lock(want.lock) {
            continue;
        }
        follow_to(&mut base, &rest.trace, lookup, position, want.position)?;
        position = position.max(want.position);
        deadlocks.tries = deadlocks.tries.saturating_add(1);
        let found = find_by(alloc, config, &base, rest, lookup, want)?;
        take_in(deadlocks, &mut done, found)?;
    }
    Ok(())
}

/// Searches for predictions of the log without what is left out after which threads wait in a circle: one of them is stopped where it
/// holds a lock and acquires another one, and the others go on. So many such places are tried for each lock, spread evenly. What is not
/// found may be there all the same.
///
/// # Errors
/// `Memory` where a growth was refused.
pub fn search_deadlocks(
    alloc: Global,
    config: &Config,
    log: &Trace,
    most: u32,
    left: &LeftOut,
) -> Result<Deadlocks, Memory>
    requires few { length log.now.events ≤ MAX_EVENTS }
    requires well_formed { IsWellFormed config.now.bounds log.now.events }
    ensures { IfOk result (λ deadlocks. AreDeadlocksIn config.now.bounds log.now.events (left_of left.now) deadlocks.found.items) }
{
    let rest = thin(alloc, log, left)?;
    let events = rest.trace.as_slice();
    let lookup = Lookup::new(alloc, events)?;
    let wants = all_wants(alloc, events)?;
    let tried = spread(alloc, &wants, most as usize)?;
    let mut deadlocks = Deadlocks {
        found: Vec::new(alloc),
        tries: 0,
    };
    try_all(alloc, config, &rest, &lookup, &tried, &mut deadlocks)?;
    Ok(deadlocks)
}
