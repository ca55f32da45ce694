//! Noting what a run shows.
ghost use Rattle.std.specs.Prelude.{◌≡◌, ◌+◌, ◌-◌, ◌<◌, ◌^◌, ◌∷◌, ◌++◌, [], ℕ, List, Option, min, option_map, IfOk, if◌then◌else◌};
ghost use Rattle.std.specs.Option.{option_or};
ghost use Rattle.velo_events.specs.declared.event.ThreadId.{ThreadId as Turn};
ghost use Rattle.velo_search.specs.declared.fault.Fault.{Fault as FaultOf};
ghost use Rattle.velo_explore.specs.declared.goal.Goal.{Goal as GoalOf};
ghost use Rattle.velo_explore.specs.Goals.{finding_of, goal_in};
ghost use Rattle.velo_explore.specs.Runs.{Run, blocks_of, has_label};
ghost use Rattle.velo_explore.specs.Tallies.{AreCounts, ComesTo, IsFirst};

use crate::blaming::count_alarm;
use crate::tally::{BlamedLabel, RunTally};
use crate::{Fault, Finding, Findings, Goal, RunOutcome, Witness};
use std::alloc::Global;
use velo_events::growth::reserve;
use velo_events::{Memory, ThreadId};
use velo_worker::Ending;
use velo_world::Alarm;

/// A copy of a schedule.
fn copied(alloc: Global, schedule: &[ThreadId]) -> Result<Vec<ThreadId>, Memory>
    ensures { IfOk result (λ copy. copy.items ≡ schedule.now) }
{
    let mut copy = Vec::new(alloc);
    reserve(&mut copy, schedule.len())?;
    match copy.extend_from_slice(schedule) {
        Ok(()) => Ok(copy),
        Err(_) => unreachable!(),
    }
}

/// The finding of a fault with one more run by this schedule, which shows this of it: the first run
/// that has it is kept.
fn first_of(
    alloc: Global,
    kept: Finding,
    shows: Option<Goal>,
    schedule: &[ThreadId],
) -> Result<Finding, Memory>
    ensures { IfOk result (λ first. (seen : Option (GoalOf × List Turn)) → IsFirst seen kept →
        IsFirst (option_or seen (option_map (λ goal. (goal, schedule.now)) shows)) first) }
{
    match kept {
        Finding::Never => match shows {
            Some(goal) => {
                let schedule = copied(alloc, schedule)?;
                Ok(Finding::Shown(Witness { goal, schedule }))
            }
            None => Ok(Finding::Never),
        },
        Finding::Shown(witness) => Ok(Finding::Shown(witness)),
        Finding::Open => Ok(Finding::Open),
    }
}

/// What runs show with one more, by this schedule.
fn findings_with(
    alloc: Global,
    findings: Findings,
    outcome: RunOutcome,
    schedule: &[ThreadId],
) -> Result<Findings, Memory>
    ensures { IfOk result (λ after. (fault : FaultOf) (seen : Option (GoalOf × List Turn)) →
        IsFirst seen (finding_of findings fault) →
        IsFirst (option_or seen (option_map (λ goal. (goal, schedule.now))
        (goal_in fault outcome.alarm outcome.ending))) (finding_of after fault)) }
{
    let Findings {
        alarm,
        stuck,
        refused,
    } = findings;
    let alarm = first_of(alloc, alarm, outcome.goal(Fault::Cycle), schedule)?;
    let stuck = first_of(alloc, stuck, outcome.goal(Fault::Stuck), schedule)?;
    let refused = first_of(alloc, refused, outcome.goal(Fault::Refusing), schedule)?;
    Ok(Findings {
        alarm,
        stuck,
        refused,
    })
}

/// The labels, counted with those that the alarm blames, if there is one.
fn blamed_with(
    alloc: Global,
    blamed: Vec<BlamedLabel>,
    alarm: Option<&Alarm>,
) -> Result<Vec<BlamedLabel>, Memory>
    ensures { IfOk result (λ after. (count : ℕ → ℕ) → ((label : ℕ) → count label < 2 ^ 64 - 1) → AreCounts count blamed.items →
        AreCounts (λ label. count label + (if has_label label (blocks_of (option_map (λ a. a.now) alarm.entry)) then 1 else 0)) after.items) }
{
    match alarm {
        Some(alarm) => count_alarm(alloc, blamed, alarm.blamed.as_slice()),
        None => Ok(blamed),
    }
}

/// A count, with one more or not.
fn count_if(count: u64, one_more: bool) -> u64
    ensures { result ≡ min (count + (if one_more then 1 else 0)) (2 ^ 64 - 1) }
{
    if one_more {
        count.saturating_add(1)
    } else {
        count
    }
}

/// What runs come to with one more, by its schedule, with this ending and this alarm.
pub(crate) fn note(
    alloc: Global,
    tally: RunTally,
    schedule: &[ThreadId],
    ending: Ending,
    alarm: Option<&Alarm>,
) -> Result<RunTally, Memory>
    requires few { tally.runs < 2 ^ 64 - 1 }
    ensures comes_to { IfOk result (λ after. (runs : List Run) → ComesTo runs tally →
        ComesTo (runs ++ record { schedule = schedule.now; ending = ending; alarm = option_map (λ a. a.now) alarm.entry } ∷ []) after) }
    ensures runs { IfOk result (λ after. after.runs ≡ tally.runs + 1) }
{
    let RunTally {
        runs,
        findings,
        alarms,
        blamed,
    } = tally;
    let outcome = RunOutcome {
        alarm: alarm.is_some(),
        ending,
    };
    let findings = findings_with(alloc, findings, outcome, schedule)?;
    let blamed = blamed_with(alloc, blamed, alarm)?;
    Ok(RunTally {
        runs: runs + 1,
        findings,
        alarms: count_if(alarms, outcome.alarm),
        blamed,
    })
}
