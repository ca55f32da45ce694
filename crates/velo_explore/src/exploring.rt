//! All schedules of a workload at once.
ghost use Rattle.std.specs.Prelude.{◌≡◌, ◌⊎◌, ◌<◌, ◌≤◌, ◌-◌, ◌^◌, ◌&&◌, [], true, false, is_some, length, map, min, sum_by, IfOk, IfSome, IsTrue};
ghost use Rattle.velo_worker.specs.Counts.{body_events};
ghost use Rattle.velo_filter.specs.Left.{rest_of};
ghost use Rattle.velo_filter.specs.Tables.{left_of};
ghost use Rattle.velo_search.specs.declared.fault.Fault.{Fault as FaultOf};
ghost use Rattle.velo_search.specs.Search.{has_fault};
ghost use Rattle.velo_search.specs.Told.{has_ended, shown_of};
ghost use Rattle.velo_search.specs.Trail.{LeadToCycles, LeadsTo, turns_for};
ghost use Rattle.velo_explore.specs.declared.finding.Finding.TheVariants.{Open};
ghost use Rattle.velo_explore.specs.Bodies.{all_scripts};
ghost use Rattle.velo_explore.specs.Goals.{finding_of};
ghost use Rattle.velo_explore.specs.Told.{AreAlarms, AreSpent, FollowsRun, IfShown, IsLeftOpen, IsSomewhere, IsTold, IsUntried, NeverHas, OnOpen};

use crate::exploration::Exploration;
use crate::finding::{Finding, Findings};
use crate::scripts::{count_all, scripts_of};
use crate::showing::tell;
use std::alloc::Global;
use velo_events::{Config, Memory};
use velo_filter::LeftOut;
use velo_search::{Fault, Progress, Schedules, Searched, search};
use velo_workload::Workload;

/// Tries all schedules of a workload, as long as no more than so many states are to be looked at,
/// and tells whether some schedule leads to a log that is not serializable, to a deadlock or to a
/// refusal. The configuration has to have the workload's bounds. Where its bodies have more events
/// than the configuration lets a log have, nothing is tried.
///
/// A log is judged by what is left of it: an alarm is a cycle there. The runs themselves leave nothing
/// out, so deadlocks and refusals are those of the workload.
///
/// With `first` it ends as soon as it finds one of the three, shows it, and reports the others as
/// open. Once `progress` says that the search is over, no more states are looked at, and what was not
/// found is reported as open.
///
/// What is shown was replayed. What is said never to be is so by no schedule. What is open is so as
/// not all schedules were tried, or as the replay by the schedule that leads there ends before: for
/// want of room, or halted at its first cycle. `progress` is called after each level of the search.
///
/// # Errors
/// `Memory` where a growth was refused.
pub fn explore<P: Progress>(
    alloc: Global,
    workload: &Workload,
    left: &LeftOut,
    most_states: u64,
    first: bool,
    config: Config,
    progress: &mut P,
) -> Result<Exploration, Memory>
    requires bounds { config.bounds ≡ workload.now.bounds }
    ensures events { IfOk result (λ x. x.events ≡ min (sum_by body_events workload.now.bodies) (2 ^ 64 - 1)) }
    ensures states { IfOk result (λ x. x.states ≤ most_states) }
    ensures told { IfOk result (λ x. (fault : FaultOf) →
        IsTold (rest_of (left_of left.now)) workload.now config fault (finding_of x.findings fault)) }
    ensures follows { IfOk result (λ x. (fault : FaultOf) →
        IfShown (finding_of x.findings fault) (FollowsRun (rest_of (left_of left.now)) workload.now fault)) }
    ensures left_open { IfOk result (λ x. (fault : FaultOf) → OnOpen (finding_of x.findings fault)
        (IsLeftOpen (rest_of (left_of left.now)) workload.now config most_states first
        (P.may_end progress.old && P.says_over progress.new) x.states x.findings fault)) }
    ensures untried { IfOk result (λ x. config.events < sum_by body_events workload.now.bodies →
        IsUntried x.states x.findings (map (λ v. v.items) x.alarms.items)) }
    ensures alarms { IfOk result (λ x. AreAlarms (rest_of (left_of left.now)) workload.now config first x.findings.alarm
        (map (λ v. v.items) x.alarms.items)) }
{
    let events = count_all(workload);
    if events > u64::from(config.events) {
        return Ok(untried(alloc, events));
    }
    let searched = search_all(alloc, workload, left, most_states, first, &config, progress)?;
    let no_alarm = searched.rules_out(Fault::Cycle);
    let no_deadlock = searched.rules_out(Fault::Stuck);
    let no_refusal = searched.rules_out(Fault::Refusing);
    let Searched {
        schedules,
        states,
        ..
    } = searched;
    let Schedules {
        alarm: to_alarm,
        stuck: to_deadlock,
        refused: to_refusal,
        alarms,
    } = schedules;
    let alarm = tell(
        alloc,
        workload,
        left,
        config,
        Fault::Cycle,
        no_alarm,
        to_alarm,
    )?;
    let stuck = tell(
        alloc,
        workload,
        left,
        config,
        Fault::Stuck,
        no_deadlock,
        to_deadlock,
    )?;
    let refused = tell(
        alloc,
        workload,
        left,
        config,
        Fault::Refusing,
        no_refusal,
        to_refusal,
    )?;
    Ok(Exploration {
        events,
        states,
        findings: Findings {
            alarm,
            stuck,
            refused,
        },
        alarms,
    })
}

/// What a workload comes to with so many events, of which no schedule is tried.
fn untried(alloc: Global, events: u64) -> Exploration
    ensures events { result.events ≡ events }
    ensures states { result.states ≡ 0 }
    ensures findings { (fault : FaultOf) → finding_of result.findings fault ≡ Open }
    ensures alarms { result.alarms.items ≡ [] }
{
    Exploration {
        events,
        states: 0,
        findings: Findings {
            alarm: Finding::Open,
            stuck: Finding::Open,
            refused: Finding::Open,
        },
        alarms: Vec::new(alloc),
    }
}

/// Searches the runs of the workload's scripts.
fn search_all<P: Progress>(
    alloc: Global,
    workload: &Workload,
    left: &LeftOut,
    most_states: u64,
    first: bool,
    config: &Config,
    progress: &mut P,
) -> Result<Searched, Memory>
    requires bounds { config.now.bounds ≡ workload.now.bounds }
    requires few { sum_by body_events workload.now.bodies ≤ config.now.events }
    ensures never { IfOk result (λ x. x.whole ≡ true → (fault : FaultOf) →
        has_fault x.found fault ≡ false → NeverHas (rest_of (left_of left.now)) workload.now fault) }
    ensures found { IfOk result (λ x. (fault : FaultOf) → has_fault x.found fault ≡ true →
        IsSomewhere (rest_of (left_of left.now)) workload.now fault) }
    ensures cut { IfOk result (λ x. x.whole ≡ false → (fault : FaultOf) →
        has_fault x.found fault ≡ false →
        ((has_ended first x.found ≡ true)
        ⊎ ((P.may_end progress.old && P.says_over progress.new) ≡ true)
        ⊎ AreSpent (rest_of (left_of left.now)) workload.now most_states x.states fault)) }
    ensures leads { IfOk result (λ x. (fault : FaultOf) → IfSome (turns_for x.schedules fault)
        (LeadsTo workload.now.bounds (all_scripts workload.now) (rest_of (left_of left.now)) fault)) }
    ensures each { IfOk result (λ x. x.whole ≡ true → (fault : FaultOf) →
        has_fault x.found fault ≡ true → IsTrue (is_some (turns_for x.schedules fault))) }
    ensures shown { IfOk result (λ x. (fault : FaultOf) →
        has_fault (shown_of first x.found) fault ≡ true →
        IsTrue (is_some (turns_for x.schedules fault))) }
    ensures alarms { IfOk result (λ x. LeadToCycles workload.now.bounds (all_scripts workload.now)
        (rest_of (left_of left.now)) first x.schedules) }
    ensures count { IfOk result (λ x. length workload.now.bodies ≡ workload.now.bounds.threads) }
    ensures states { IfOk result (λ x. x.states ≤ most_states) }
{
    let scripts = scripts_of(alloc, workload)?;
    let searched = search(alloc, config, &scripts, left, most_states, first, progress)?;
    Ok(searched)
}
