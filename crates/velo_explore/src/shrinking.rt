//! Trying one change of a schedule after another.
ghost use Rattle.std.specs.Prelude.{◌≡◌, ◌<◌, ◌≤◌, All, length, IfOk};
ghost use Rattle.velo_events.specs.declared.limits.TheConstants.{MAX_THREADS};
ghost use Rattle.velo_explore.specs.Goals.{Reached};
ghost use Rattle.velo_explore.specs.Simple.{Simplifies};

use crate::Goal;
use crate::budget::Budget;
use crate::edit::edited;
use crate::minimizing::{MAX_MINIMAL, minimal};
use crate::plan::Plan;
use crate::threads::of_its_threads;
use crate::trying::simpler;
use std::alloc::Global;
use velo_events::{Config, Memory, ThreadId};
use velo_workload::Workload;

/// How many tries are enough for most schedules.
pub const MAX_TRIES: u32 = 4_000;

/// The most turns and events of all tries together.
const MAX_STEPS: u64 = 20_000_000;

/// The simplest schedule of so many tries, unless the budget is spent before.
fn simplest(
    alloc: Global,
    workload: &Workload,
    goal: Goal,
    schedule: Vec<ThreadId>,
    most_tries: u32,
    config: Config,
    budget: &mut Budget,
) -> Result<Vec<ThreadId>, Memory>
    requires bounds { config.bounds ≡ workload.now.bounds }
    requires shows { Reached workload.now config goal schedule.items }
    requires threads { All (λ t. t.0 < MAX_THREADS) schedule.items }
    ensures shows { IfOk result (λ turns. Reached workload.now config goal turns.items) }
    ensures shorter { IfOk result (λ turns. length turns.items ≤ length schedule.items) }
    ensures threads { IfOk result (λ turns. All (λ t. t.0 < MAX_THREADS) turns.items) }
{
    let mut best = schedule;
    let mut plan = Plan::new();
    for _ in 0..most_tries {
        if budget.is_spent() {
            return Ok(best);
        }
        let Some(edit) = plan.next(&best) else {
            return Ok(best);
        };
        let candidate = edited(alloc, &best, edit)?;
        match simpler(alloc, workload, goal, &best, &candidate, config, budget)? {
            Some(turns) => {
                plan.take_up(&best);
                best = turns;
            }
            None => plan.pass_by(&best),
        }
    }
    Ok(best)
}

/// Makes a schedule simple that shows a finding: a schedule that shows the same, and is shorter, or as long with fewer
/// switches of thread, or the same. The configuration has to have the workload's bounds.
///
/// Turns are left out, first whole stretches and then single ones, and turns of one thread are brought together, as long as the
/// replay shows the finding; this is delta debugging (Zeller and Hildebrandt, "Simplifying and Isolating Failure-Inducing
/// Input", IEEE Transactions on Software Engineering, 2002). Each try is a replay, and there are at most `most_tries`, in which
/// together some 20,000,000 turns and events are done. Where a try shows the finding, the threads of its own events up to
/// there are the next schedule, if they are simpler and show it again.
///
/// Turns of threads that the workload does not have are left out.
///
/// If at most [`MAX_MINIMAL`] turns are left then, single ones are left out until none can be, however many tries this takes:
/// without any one of them a replay does not come to the finding within as many turns as are left.
///
/// # Errors
/// `Memory` where a growth was refused.
pub fn shrink(
    alloc: Global,
    workload: &Workload,
    goal: Goal,
    schedule: Vec<ThreadId>,
    most_tries: u32,
    config: Config,
) -> Result<Vec<ThreadId>, Memory>
    requires bounds { config.bounds ≡ workload.now.bounds }
    requires shows { Reached workload.now config goal schedule.items }
    ensures shows { IfOk result (λ turns. Reached workload.now config goal turns.items) }
    ensures simple { IfOk result (λ turns.
        Simplifies workload.now config goal schedule.items turns.items) }
    ensures threads { IfOk result (λ turns. All (λ t. t.0 < MAX_THREADS) turns.items) }
{
    let own = of_its_threads(alloc, workload, &schedule)?;
    let mut budget = Budget::new(MAX_STEPS);
    let best = simplest(alloc, workload, goal, own, most_tries, config, &mut budget)?;
    if best.len() > MAX_MINIMAL {
        return Ok(best);
    }
    minimal(alloc, workload, goal, best, config, &mut budget)
}
