//! The schedules of findings, made simple, as far as their texts can say them.
ghost use Rattle.std.specs.Prelude.{◌≡◌, IfNone, IfOk, IfSome, None, false, true};
ghost use Rattle.velo_explore.specs.declared.finding.Finding.TheVariants.{Shown};
ghost use Rattle.velo_explore.specs.Goals.{DoesNotShow, Shows, finding_of};
ghost use Rattle.velo_search.specs.declared.fault.Fault.{Fault};
ghost use Rattle.velo_explore.specs.Told.{IfShown};
ghost use Rattle.velo_explore.specs.Simple.{IsReplayBy, IsShrunkFrom, IsToldBy, KeepsReplay};

use crate::shrinking::{MAX_TRIES, shrink};
use crate::{Finding, Findings, Goal, Witness, replayed};
use std::alloc::Global;
use velo_events::{Config, Memory};
use velo_schedule_text::MAX_TURNS;
use velo_workload::Workload;
use velo_world::Closed;

/// A replay that shows a goal.
#[derive(Drop)]
pub struct Replay {
    /// What it shows.
    pub goal: Goal,
    /// The world that it left.
    pub closed: Closed,
}

/// Findings whose schedules are simple, and the replay of the first of them.
#[derive(Drop)]
pub struct Shrunk {
    /// The findings.
    pub findings: Findings,
    /// The replay of the first of them, if one is shown: the alarm, else the deadlock, else the
    /// refusal.
    pub first: Option<Replay>,
}

/// The replay by a witness, if it shows its goal again.
fn replay_of(
    alloc: Global,
    workload: &Workload,
    witness: &Witness,
    config: Config,
) -> Result<Option<Replay>, Memory>
    requires { config.bounds ≡ workload.now.bounds }
    ensures shows { IfOk result
        (λ found. IfSome found (IsReplayBy workload.now config witness.now)) }
    ensures none { IfOk result (λ found. IfNone found
        (DoesNotShow workload.now config witness.now.goal witness.now.schedule.items)) }
{
    let goal = witness.goal;
    let (closed, ending) = replayed(alloc, workload, &witness.schedule, config)?;
    if goal.is_reached(&closed, ending) {
        Ok(Some(Replay { goal, closed }))
    } else {
        drop(closed);
        Ok(None)
    }
}

/// Keeps the replay by a witness, unless one is kept. Whether there is one then.
fn keep(
    alloc: Global,
    workload: &Workload,
    witness: &Witness,
    config: Config,
    first: &mut Option<Replay>,
) -> Result<bool, Memory>
    requires { config.bounds ≡ workload.now.bounds }
    ensures kept { IfOk result (λ kept. kept ≡ true →
        KeepsReplay workload.now config witness.now first.old first.new) }
    ensures none { IfOk result (λ kept. kept ≡ false → (first.new ≡ first.old)
        × DoesNotShow workload.now config witness.now.goal witness.now.schedule.items) }
{
    if first.is_some() {
        return Ok(true);
    }
    *first = replay_of(alloc, workload, witness, config)?;
    Ok(first.is_some())
}

/// A finding that is shown, by a simple schedule. The replay of the first one is kept.
fn shrink_witness(
    alloc: Global,
    workload: &Workload,
    witness: Witness,
    config: Config,
    first: &mut Option<Replay>,
) -> Result<Finding, Memory>
    requires bounds { config.bounds ≡ workload.now.bounds }
    requires shows { Shows workload.now config witness }
    ensures { IfOk result (λ told.
        IsToldBy workload.now config (Shown witness) told first.old first.new) }
{
    let Witness { goal, schedule } = witness;
    let schedule = shrink(alloc, workload, goal, schedule, MAX_TRIES, config)?;
    if schedule.len() > MAX_TURNS {
        return Ok(Finding::Open);
    }
    let simple = Witness { goal, schedule };
    if keep(alloc, workload, &simple, config, first)? {
        Ok(Finding::Shown(simple))
    } else {
        Ok(Finding::Open)
    }
}

/// A finding, by a simple schedule. The replay of the first one that is shown is kept.
fn shrink_finding(
    alloc: Global,
    workload: &Workload,
    finding: Finding,
    config: Config,
    first: &mut Option<Replay>,
) -> Result<Finding, Memory>
    requires bounds { config.bounds ≡ workload.now.bounds }
    requires shows { IfShown finding (Shows workload.now config) }
    ensures { IfOk result
        (λ told. IsToldBy workload.now config finding told first.old first.new) }
{
    match finding {
        Finding::Shown(witness) => shrink_witness(alloc, workload, witness, config, first),
        Finding::Never => Ok(Finding::Never),
        Finding::Open => Ok(Finding::Open),
    }
}

/// The findings, by simple schedules. The replay of the first one that is shown is kept.
fn shrink_each(
    alloc: Global,
    workload: &Workload,
    findings: Findings,
    config: Config,
    first: &mut Option<Replay>,
) -> Result<Findings, Memory>
    requires bounds { config.bounds ≡ workload.now.bounds }
    requires shows { (fault : Fault) →
        IfShown (finding_of findings fault) (Shows workload.now config) }
    requires none { first.old ≡ None }
    ensures { IfOk result (λ told. IsShrunkFrom workload.now config findings
        (record { findings = told; first = first.new })) }
{
    let Findings {
        alarm,
        stuck,
        refused,
    } = findings;
    let alarm = shrink_finding(alloc, workload, alarm, config, first)?;
    let stuck = shrink_finding(alloc, workload, stuck, config, first)?;
    let refused = shrink_finding(alloc, workload, refused, config, first)?;
    Ok(Findings {
        alarm,
        stuck,
        refused,
    })
}

/// Makes the schedule of each finding simple: see [`shrink`], and keeps the replay of the first of
/// them. One is left open whose simple schedule has more turns than a text can say, or that would be the first
/// and is not shown by one more replay; any other stays as it was. The configuration has to be that by which they
/// were found.
///
/// # Errors
/// `Memory` where a growth was refused.
pub fn shrink_findings(
    alloc: Global,
    workload: &Workload,
    findings: Findings,
    config: Config,
) -> Result<Shrunk, Memory>
    requires bounds { config.bounds ≡ workload.now.bounds }
    requires shows { (fault : Fault) →
        IfShown (finding_of findings fault) (Shows workload.now config) }
    ensures { IfOk result (IsShrunkFrom workload.now config findings) }
{
    let mut first = None;
    match shrink_each(alloc, workload, findings, config, &mut first) {
        Ok(findings) => Ok(Shrunk { findings, first }),
        Err(Memory) => {
            drop(first);
            Err(Memory)
        }
    }
}
