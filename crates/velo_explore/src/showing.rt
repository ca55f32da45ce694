//! Replays, and the schedules whose replays show what was looked for.
ghost use Rattle.std.specs.Prelude.{◌≡◌, ◌↔◌, ◌<◌, ◌++◌, ◌∷◌, [], ℕ, true, false, is_some, length, IsTrue, IfNone, IfOk, IfSome};
ghost use Rattle.velo_events.specs.declared.event.ThreadId.{ThreadId as Turn};
ghost use Rattle.velo_worker.specs.Schedule.{Replays};
ghost use Rattle.velo_filter.specs.Left.{rest_of};
ghost use Rattle.velo_filter.specs.Tables.{left_of};
ghost use Rattle.velo_explore.specs.Goals.{IsWitnessIn, lacks_memory};
ghost use Rattle.velo_explore.specs.Told.{FollowsRun, IsMissed, HasOutcome, IsTold, LacksFault, NeverHas, OnOpen, IfShown};
ghost use Rattle.velo_explore.specs.Bodies.{all_scripts};
ghost use Rattle.velo_search.specs.declared.fault.Fault.TheVariants.{Refusing};
ghost use Rattle.velo_search.specs.Trail.{LeadsTo};
ghost use Rattle.velo_explore.specs.declared.finding.Finding.TheVariants.{Never};

use crate::finding::{Finding, Witness};
use crate::judging::outcome_left;
use crate::outcome::RunOutcome;
use std::alloc::Global;
use velo_events::growth::reserve;
use velo_events::{Config, Memory, Refusal, ThreadId};
use velo_filter::LeftOut;
use velo_search::Fault;
use velo_worker::{Ending, replay};
use velo_workload::Workload;
use velo_world::Closed;

/// The replay by a schedule: the world after its end, and how it ended. One that ends for want of
/// memory is none. The configuration has to have the workload's bounds.
///
/// # Errors
/// `Memory` where a growth was refused.
pub fn replayed(
    alloc: Global,
    workload: &Workload,
    schedule: &[ThreadId],
    config: Config,
) -> Result<(Closed, Ending), Memory>
    requires { config.bounds ≡ workload.now.bounds }
    ensures run { IfOk result (λ run. Replays workload.now schedule.now config run.1 run.0) }
    ensures memory { IfOk result (λ run. lacks_memory run.1 ≡ false) }
{
    let run = replay(alloc, workload, schedule, config)?;
    match run.1 {
        Ending::Refused(_, Refusal::Memory | Refusal::RuntimeMemory) => {
            drop(run);
            Err(Memory)
        }
        _ => Ok(run),
    }
}

/// What the replay by a schedule comes to: an alarm is one of what is left of its log.
fn outcome_of(
    alloc: Global,
    workload: &Workload,
    left: &LeftOut,
    schedule: &[ThreadId],
    config: Config,
) -> Result<RunOutcome, Memory>
    requires { config.bounds ≡ workload.now.bounds }
    ensures { IfOk result (HasOutcome (rest_of (left_of left.now)) workload.now config schedule.now) }
{
    let (closed, ending) = replayed(alloc, workload, schedule, config)?;
    let outcome = outcome_left(alloc, &closed, ending, left);
    drop(closed);
    outcome
}

/// The schedule, if its replay has the fault.
fn witness_by(
    alloc: Global,
    workload: &Workload,
    left: &LeftOut,
    config: Config,
    fault: Fault,
    schedule: Vec<ThreadId>,
) -> Result<Option<Witness>, Memory>
    requires { config.bounds ≡ workload.now.bounds }
    ensures shows { IfOk result (λ found. IfSome found (IsWitnessIn (rest_of (left_of left.now)) workload.now config fault)) }
    ensures none { IfOk result
        (λ found. IfNone found (LacksFault (rest_of (left_of left.now)) workload.now config fault schedule.items)) }
    ensures by { IfOk result (λ found.
        IfSome found (λ witness. witness.schedule.items ≡ schedule.items)) }
{
    let outcome = outcome_of(alloc, workload, left, &schedule, config)?;
    match outcome.goal(fault) {
        Some(goal) => Ok(Some(Witness { goal, schedule })),
        None => Ok(None),
    }
}

/// The schedule, and a turn of the thread after it.
fn with_turn(
    alloc: Global,
    schedule: &[ThreadId],
    thread: ThreadId,
) -> Result<Vec<ThreadId>, Memory>
    ensures { IfOk result (λ longer. longer.items ≡ schedule.now ++ thread ∷ []) }
{
    let mut longer = Vec::new(alloc);
    for turn in schedule {
        reserve(&mut longer, 1)?;
        longer.push_reserved(*turn);
    }
    reserve(&mut longer, 1)?;
    longer.push_reserved(thread);
    Ok(longer)
}

/// The schedule and a turn of the thread that is refused then, if there is one.
fn refused_after(
    alloc: Global,
    workload: &Workload,
    left: &LeftOut,
    config: Config,
    schedule: &[ThreadId],
) -> Result<Option<Witness>, Memory>
    requires { config.bounds ≡ workload.now.bounds }
    ensures shows { IfOk result (λ found. IfSome found (IsWitnessIn (rest_of (left_of left.now)) workload.now config Refusing)) }
    ensures none { IfOk result (λ found. IfNone found ((t : ℕ) → t < workload.now.bounds.threads →
        LacksFault (rest_of (left_of left.now)) workload.now config Refusing (schedule.now ++ record { 0 = t } ∷ []))) }
    ensures one_more { IfOk result (λ found. IfSome found
        (λ witness. (t : Turn) × (witness.schedule.items ≡ schedule.now ++ t ∷ []))) }
{
    for thread in 0..workload.bounds().threads {
        let longer = with_turn(alloc, schedule, ThreadId(thread))?;
        let found = witness_by(alloc, workload, left, config, Fault::Refusing, longer)?;
        if found.is_some() {
            return Ok(found);
        }
    }
    Ok(None)
}

/// The schedule whose replay has the fault to which these turns lead: they, or they and the turn of
/// the thread that is refused.
fn witness_of(
    alloc: Global,
    workload: &Workload,
    left: &LeftOut,
    config: Config,
    fault: Fault,
    turns: Vec<ThreadId>,
) -> Result<Option<Witness>, Memory>
    requires bounds { config.bounds ≡ workload.now.bounds }
    requires count { length workload.now.bodies ≡ workload.now.bounds.threads }
    requires leads { LeadsTo workload.now.bounds (all_scripts workload.now) (rest_of (left_of left.now)) fault turns.items }
    ensures shows { IfOk result (λ found. IfSome found (IsWitnessIn (rest_of (left_of left.now)) workload.now config fault)) }
    ensures none { IfOk result (λ found. IfNone found (IsMissed (rest_of (left_of left.now)) workload.now config fault)) }
    ensures follows { IfOk result (λ found. IfSome found (FollowsRun (rest_of (left_of left.now)) workload.now fault)) }
{
    match fault {
        Fault::Refusing => refused_after(alloc, workload, left, config, &turns),
        Fault::Cycle => witness_by(alloc, workload, left, config, Fault::Cycle, turns),
        Fault::Stuck => witness_by(alloc, workload, left, config, Fault::Stuck, turns),
    }
}

/// What is reported of a fault: that no schedule has it, or the schedule that was found, if its replay
/// has it.
pub(crate) fn tell(
    alloc: Global,
    workload: &Workload,
    left: &LeftOut,
    config: Config,
    fault: Fault,
    ruled_out: bool,
    found: Option<Vec<ThreadId>>,
) -> Result<Finding, Memory>
    requires bounds { config.bounds ≡ workload.now.bounds }
    requires count { length workload.now.bodies ≡ workload.now.bounds.threads }
    requires ruled_out { ruled_out ≡ true → NeverHas (rest_of (left_of left.now)) workload.now fault }
    requires leads { IfSome found
        (λ turns. LeadsTo workload.now.bounds (all_scripts workload.now) (rest_of (left_of left.now)) fault turns.items) }
    ensures told { IfOk result (IsTold (rest_of (left_of left.now)) workload.now config fault) }
    ensures never { IfOk result (λ f. (ruled_out ≡ true) ↔ (f ≡ Never)) }
    ensures missed { IfOk result (λ f. OnOpen f ((ruled_out ≡ false) × IfSome found
        (λ turns. IsMissed (rest_of (left_of left.now)) workload.now config fault))) }
    ensures follows { IfOk result (λ f. IfShown f (FollowsRun (rest_of (left_of left.now)) workload.now fault)) }
    ensures from { IfOk result (λ f. IfShown f (λ witness. IsTrue (is_some found))) }
{
    if ruled_out {
        return Ok(Finding::Never);
    }
    let Some(turns) = found else {
        return Ok(Finding::Open);
    };
    match witness_of(alloc, workload, left, config, fault, turns)? {
        Some(witness) => Ok(Finding::Shown(witness)),
        None => Ok(Finding::Open),
    }
}
