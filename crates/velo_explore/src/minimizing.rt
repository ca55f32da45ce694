//! Leaving out single turns of a schedule, until none can be left out.
ghost use Rattle.std.specs.Prelude.{◌≡◌, ◌+◌, ◌<◌, ◌≤◌, All, length, IfNone, IfOk, IfSome};
ghost use Rattle.velo_events.specs.declared.limits.TheConstants.{MAX_THREADS};
ghost use Rattle.velo_explore.specs.Goals.{Reached};
ghost use Rattle.velo_explore.specs.Simple.{IsMinimal, IsNeeded};

use crate::Goal;
use crate::budget::Budget;
use crate::edit::without_turn;
use crate::trying::{config_of_try, shows_again, tried};
use std::alloc::Global;
use velo_events::{Config, Memory, ThreadId};
use velo_workload::Workload;

/// The most turns of a schedule of which each single one is tried to be left out.
pub const MAX_MINIMAL: usize = 256;

/// A shorter schedule that shows the goal, if the turn at the position can be left out: the run's own turns up to where it shows
/// the goal, or, if a limit is in their way, the other turns of the schedule.
fn leave_out(
    alloc: Global,
    workload: &Workload,
    goal: Goal,
    schedule: &[ThreadId],
    place: usize,
    config: Config,
    budget: &mut Budget,
) -> Result<Option<Vec<ThreadId>>, Memory>
    requires bounds { config.bounds ≡ workload.now.bounds }
    requires place { place < length schedule.now }
    requires threads { All (λ t. t.0 < MAX_THREADS) schedule.now }
    ensures shows { IfOk result (λ found. IfSome found (λ turns. Reached workload.now config goal turns.items)) }
    ensures shorter { IfOk result (λ found.
        IfSome found (λ turns. length turns.items < length schedule.now)) }
    ensures threads { IfOk result (λ found.
        IfSome found (λ turns. All (λ t. t.0 < MAX_THREADS) turns.items)) }
    ensures needed { IfOk result (λ found.
        IfNone found (IsNeeded workload.now config goal schedule.now place)) }
{
    let others = without_turn(alloc, schedule, place)?;
    let limits = config_of_try(goal, config, others.len());
    let Some(turns) = tried(alloc, workload, goal, &others, limits, budget)? else {
        return Ok(None);
    };
    if turns.len() > others.len() {
        return Ok(None);
    }
    if shows_again(alloc, workload, goal, &turns, config, budget)? {
        return Ok(Some(turns));
    }
    match tried(alloc, workload, goal, &others, config, budget)? {
        Some(_) => Ok(Some(others)),
        None => Ok(None),
    }
}

/// A shorter schedule that shows the goal, if some single turn can be left out.
fn leave_one_out(
    alloc: Global,
    workload: &Workload,
    goal: Goal,
    schedule: &[ThreadId],
    config: Config,
    budget: &mut Budget,
) -> Result<Option<Vec<ThreadId>>, Memory>
    requires bounds { config.bounds ≡ workload.now.bounds }
    requires threads { All (λ t. t.0 < MAX_THREADS) schedule.now }
    ensures shows { IfOk result (λ found. IfSome found (λ turns. Reached workload.now config goal turns.items)) }
    ensures shorter { IfOk result (λ found.
        IfSome found (λ turns. length turns.items < length schedule.now)) }
    ensures threads { IfOk result (λ found.
        IfSome found (λ turns. All (λ t. t.0 < MAX_THREADS) turns.items)) }
    ensures minimal { IfOk result (λ found.
        IfNone found (IsMinimal workload.now config goal schedule.now)) }
{
    for place in 0..schedule.len() {
        let left = leave_out(alloc, workload, goal, schedule, place, config, budget)?;
        if left.is_some() {
            return Ok(left);
        }
    }
    Ok(None)
}

/// Leaves out single turns of a schedule that shows the goal, as long as one can be left out.
///
/// # Errors
/// `Memory` where a growth was refused.
pub(crate) fn minimal(
    alloc: Global,
    workload: &Workload,
    goal: Goal,
    schedule: Vec<ThreadId>,
    config: Config,
    budget: &mut Budget,
) -> Result<Vec<ThreadId>, Memory>
    requires bounds { config.bounds ≡ workload.now.bounds }
    requires shows { Reached workload.now config goal schedule.items }
    requires threads { All (λ t. t.0 < MAX_THREADS) schedule.items }
    ensures shows { IfOk result (λ turns. Reached workload.now config goal turns.items) }
    ensures shorter { IfOk result (λ turns. length turns.items ≤ length schedule.items) }
    ensures threads { IfOk result (λ turns. All (λ t. t.0 < MAX_THREADS) turns.items) }
    ensures minimal { IfOk result (λ turns. IsMinimal workload.now config goal turns.items) }
{
    let mut best = schedule;
    while let Some(turns) = leave_one_out(alloc, workload, goal, &best, config, budget)? {
        best = turns;
    }
    Ok(best)
}
