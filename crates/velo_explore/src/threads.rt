//! Turns of threads that there may be.
ghost use Rattle.std.specs.Prelude.{◌<◌, ◌≤◌, ◌↔◌, All, length, IfOk, IsTrue};
ghost use Rattle.velo_events.specs.declared.config.Config.{Config};
ghost use Rattle.velo_events.specs.declared.limits.TheConstants.{MAX_THREADS};
ghost use Rattle.velo_explore.specs.declared.goal.Goal.{Goal};
ghost use Rattle.velo_explore.specs.Goals.{Reached};

use std::alloc::Global;
use velo_events::growth::reserve;
use velo_events::{MAX_THREADS, Memory, ThreadId};
use velo_workload::Workload;

/// Whether all turns are of threads that there may be.
pub(crate) fn are_threads(schedule: &[ThreadId]) -> bool
    ensures { IsTrue result ↔ All (λ t. t.0 < MAX_THREADS) schedule.now }
{
    for turn in schedule {
        if turn.0 >= MAX_THREADS {
            return false;
        }
    }
    true
}

/// The turns of the workload's threads. The others pass in a replay, so these show whatever all show.
///
/// # Errors
/// `Memory` where a growth was refused.
pub(crate) fn of_its_threads(
    alloc: Global,
    workload: &Workload,
    schedule: &[ThreadId],
) -> Result<Vec<ThreadId>, Memory>
    ensures shows { IfOk result (λ turns. (config : Config) (goal : Goal) →
        Reached workload.now config goal schedule.now →
        Reached workload.now config goal turns.items) }
    ensures threads { IfOk result (λ turns. All (λ t. t.0 < MAX_THREADS) turns.items) }
    ensures fewer { IfOk result (λ turns. length turns.items ≤ length schedule.now) }
{
    let threads = workload.bounds().threads;
    let mut turns = Vec::new(alloc);
    for turn in schedule {
        if turn.0 < threads {
            reserve(&mut turns, 1)?;
            turns.push_reserved(*turn);
        }
    }
    Ok(turns)
}
