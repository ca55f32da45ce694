//! One try: a schedule is replayed, and taken up if it shows the goal and is simpler.
ghost use Rattle.std.specs.Prelude.{◌≡◌, ◌<◌, ◌≤◌, ℕ, true, All, length, IsTrue, IfOk, IfSome};
ghost use Rattle.velo_events.specs.declared.limits.TheConstants.{MAX_THREADS};
ghost use Rattle.velo_worker.specs.declared.ending.Ending.{Ending as EndingOf};
ghost use Rattle.velo_explore.specs.Goals.{KnowsAlarm, Reached, Reaches};
ghost use Rattle.velo_explore.specs.Simple.{IsAbove, IsLimited, Misses, ReachesWithin, stops};

use crate::budget::Budget;
use crate::threads::are_threads;
use crate::{Goal, replayed};
use std::alloc::Global;
use velo_events::growth::reserve;
use velo_events::{Config, Memory, ThreadId};
use velo_traces::Trace;
use velo_worker::Ending;
use velo_workload::Workload;
use velo_world::Closed;

/// The threads of the first events of a log, so many or as many as there are.
fn threads_of(alloc: Global, log: &Trace, count: usize) -> Result<Vec<ThreadId>, Memory>
    ensures { IfOk result (λ threads. length threads.items ≤ count) }
{
    let mut threads = Vec::new(alloc);
    for place in 0..count {
        let Some(event) = log.get(place) else {
            return Ok(threads);
        };
        reserve(&mut threads, 1)?;
        threads.push_reserved(event.thread);
    }
    Ok(threads)
}

/// A turn for each event of a run up to where it shows the goal: up to the event that closes the first cycle, or of the
/// whole log, and after that the turn that was refused.
fn own_turns(alloc: Global, goal: Goal, closed: &Closed) -> Result<Vec<ThreadId>, Memory>
    ensures { IfOk result (λ turns. (n : ℕ) (ending : EndingOf) →
        ReachesWithin n goal ending closed.now → length turns.items ≤ n) }
{
    let log = closed.log();
    match goal {
        Goal::Alarm => match closed.alarm() {
            Some(alarm) => threads_of(alloc, log, alarm.position.saturating_add(1)),
            None => threads_of(alloc, log, log.len()),
        },
        Goal::Stuck => threads_of(alloc, log, log.len()),
        Goal::Refused(thread, _) => {
            let mut turns = threads_of(alloc, log, log.len())?;
            reserve(&mut turns, 1)?;
            turns.push_reserved(thread);
            Ok(turns)
        }
    }
}

/// Whether a replay that looks for the goal ends at its alarm: where an alarm is looked for, or if this is asked for.
fn stops(goal: Goal, stop: bool) -> bool
    ensures { result ≡ stops goal stop }
{
    match goal {
        Goal::Alarm => true,
        Goal::Stuck | Goal::Refused(..) => stop,
    }
}

/// The same, but a replay ends soon after so many events, and where an alarm is looked for at the alarm.
pub(crate) fn config_of_try(goal: Goal, config: Config, events: usize) -> Config
    ensures { IsLimited events goal config result }
{
    let most = (events as u64).saturating_add(1);
    Config {
        run: config.run,
        bounds: config.bounds,
        events: most.min(u64::from(config.events)) as u32,
        nodes: config.nodes,
        stop: stops(goal, config.stop),
    }
}

/// The own turns of a run up to where it shows the goal, if it does.
fn turns_if_reached(
    alloc: Global,
    goal: Goal,
    closed: &Closed,
    ending: Ending,
) -> Result<Option<Vec<ThreadId>>, Memory>
    ensures reaches { IfOk result (λ found.
        IfSome found (λ turns. Reaches goal ending closed.now)) }
    ensures known { IfOk result (λ found. KnowsAlarm closed.now.log) }
    ensures misses { IfOk result (λ found. (n : ℕ) → IsAbove n found →
        ¬ ReachesWithin n goal ending closed.now) }
{
    if !goal.is_reached(closed, ending) {
        return Ok(None);
    }
    let turns = own_turns(alloc, goal, closed)?;
    Ok(Some(turns))
}

/// Replays a schedule, and answers the run's own turns up to where it shows the goal, if it does.
///
/// # Errors
/// `Memory` where a growth was refused.
pub(crate) fn tried(
    alloc: Global,
    workload: &Workload,
    goal: Goal,
    schedule: &[ThreadId],
    config: Config,
    budget: &mut Budget,
) -> Result<Option<Vec<ThreadId>>, Memory>
    requires bounds { config.bounds ≡ workload.now.bounds }
    ensures reached { IfOk result (λ found.
        IfSome found (λ turns. Reached workload.now config goal schedule.now)) }
    ensures misses { IfOk result (λ found. (n : ℕ) → IsAbove n found →
        Misses n workload.now config goal schedule.now) }
{
    let (closed, ending) = replayed(alloc, workload, schedule, config)?;
    budget.spend(schedule.len(), closed.log().len());
    let found = turns_if_reached(alloc, goal, &closed, ending);
    drop(closed);
    found
}

/// How often a turn is another thread's than the turn before it.
fn switches(schedule: &[ThreadId]) -> usize {
    let mut count = 0;
    for place in 1..schedule.len() {
        if schedule[place] != schedule[place - 1] {
            count += 1;
        }
    }
    count
}

/// Whether a schedule is shorter than another, or as long and with fewer switches of thread.
fn is_simpler(one: &[ThreadId], other: &[ThreadId]) -> bool
    ensures { IsTrue result → length one.now ≤ length other.now }
{
    if one.len() == other.len() {
        switches(one) < switches(other)
    } else {
        one.len() < other.len()
    }
}

/// Whether the turns are of threads that there may be, and their replay shows the goal.
///
/// # Errors
/// `Memory` where a growth was refused.
pub(crate) fn shows_again(
    alloc: Global,
    workload: &Workload,
    goal: Goal,
    turns: &[ThreadId],
    config: Config,
    budget: &mut Budget,
) -> Result<bool, Memory>
    requires bounds { config.bounds ≡ workload.now.bounds }
    ensures shows { IfOk result (λ again. again ≡ true → Reached workload.now config goal turns.now) }
    ensures threads { IfOk result (λ again. again ≡ true → All (λ t. t.0 < MAX_THREADS) turns.now) }
{
    if !are_threads(turns) {
        return Ok(false);
    }
    let found = tried(alloc, workload, goal, turns, config, budget)?;
    Ok(found.is_some())
}

/// Tries a schedule in place of the best one. What the run did up to where it shows the goal is answered, if it does, if that
/// is simpler than the best, and if it shows the goal again.
///
/// # Errors
/// `Memory` where a growth was refused.
pub(crate) fn simpler(
    alloc: Global,
    workload: &Workload,
    goal: Goal,
    best: &[ThreadId],
    candidate: &[ThreadId],
    config: Config,
    budget: &mut Budget,
) -> Result<Option<Vec<ThreadId>>, Memory>
    requires bounds { config.bounds ≡ workload.now.bounds }
    ensures shows { IfOk result (λ found.
        IfSome found (λ turns. Reached workload.now config goal turns.items)) }
    ensures shorter { IfOk result (λ found.
        IfSome found (λ turns. length turns.items ≤ length best.now)) }
    ensures threads { IfOk result (λ found.
        IfSome found (λ turns. All (λ t. t.0 < MAX_THREADS) turns.items)) }
{
    let in_try = config_of_try(goal, config, best.len());
    let Some(turns) = tried(alloc, workload, goal, candidate, in_try, budget)? else {
        return Ok(None);
    };
    if !is_simpler(&turns, best) {
        return Ok(None);
    }
    if shows_again(alloc, workload, goal, &turns, config, budget)? {
        Ok(Some(turns))
    } else {
        Ok(None)
    }
}
