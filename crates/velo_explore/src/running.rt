//! Runs by schedules that are given, or drawn randomly.
ghost use Rattle.std.specs.Prelude.{◌≡◌, ◌+◌, ◌-◌, ◌<◌, ◌^◌, ◌∷◌, ◌++◌, [], ℕ, List, map, IfOk};
ghost use Rattle.std.specs.List.Sorted.{IsNonDecreasingBy};
ghost use Rattle.velo_events.specs.declared.config.Config.{Config as ConfigOf};
ghost use Rattle.velo_events.specs.declared.event.ThreadId.{ThreadId as Turn};
ghost use Rattle.velo_search.specs.declared.fault.Fault.{Fault as FaultOf};
ghost use Rattle.velo_explore.specs.Goals.{IsWitness, finding_of};
ghost use Rattle.velo_explore.specs.Told.{IfShown};
ghost use Rattle.velo_workload.specs.Program.{Program};
ghost use Rattle.velo_explore.specs.Tallies.{IsTried, IsTriedBy, rank};

use crate::blaming::put_in_order;
use crate::drawing::{draw, turns_for};
use crate::noting::note;
use crate::tally::RunTally;
use crate::{Finding, Findings, replayed};
use rand_core::SeedableRng;
use rand_xoshiro::Xoshiro256PlusPlus;
use std::alloc::Global;
use velo_events::{Config, Memory, ThreadId};
use velo_workload::Workload;

/// The seed where none is named.
pub const DEFAULT_SEED: u64 = 1;

/// What no runs come to.
fn no_runs(alloc: Global) -> RunTally
    ensures runs { result.runs ≡ 0 }
    ensures tried { (program : Program) (config : ConfigOf) → IsTriedBy program config [] result }
{
    RunTally {
        runs: 0,
        findings: Findings {
            alarm: Finding::Never,
            stuck: Finding::Never,
            refused: Finding::Never,
        },
        alarms: 0,
        blamed: Vec::new(alloc),
    }
}

/// What runs come to with one more.
fn run_once(
    alloc: Global,
    workload: &Workload,
    schedule: &[ThreadId],
    config: Config,
    tally: RunTally,
) -> Result<RunTally, Memory>
    requires bounds { config.bounds ≡ workload.now.bounds }
    requires few { tally.runs < 2 ^ 64 - 1 }
    ensures tried { IfOk result (λ after. (schedules : List (List Turn)) → IsTriedBy workload.now config schedules tally →
        IsTriedBy workload.now config (schedules ++ schedule.now ∷ []) after) }
    ensures runs { IfOk result (λ after. after.runs ≡ tally.runs + 1) }
{
    let (closed, ending) = replayed(alloc, workload, schedule, config)?;
    let noted = note(alloc, tally, schedule, ending, closed.alarm());
    drop(closed);
    noted
}

/// Makes a run by each of these schedules, and then in rounds, and tells what they come to. The
/// configuration has to have the workload's bounds.
///
/// # Errors
/// `Memory` where a growth was refused.
pub fn try_all(
    alloc: Global,
    workload: &Workload,
    schedules: &[Vec<ThreadId>],
    config: Config,
) -> Result<RunTally, Memory>
    requires bounds { config.bounds ≡ workload.now.bounds }
    ensures tried { IfOk result (IsTriedBy workload.now config (map (λ schedule. schedule.items) schedules.now)) }
    ensures order { IfOk result (λ tally. IsNonDecreasingBy rank tally.blamed.items) }
{
    let mut tally = no_runs(alloc);
    for place in 0..schedules.len() {
        tally = run_once(alloc, workload, &schedules[place], config, tally)?;
    }
    put_in_order(&mut tally.blamed);
    Ok(tally)
}

/// Makes so many runs, each by a schedule that is drawn randomly and then in rounds, and tells
/// what they come to. The configuration has to have the workload's bounds.
///
/// Each turn of a schedule is any thread's, all alike. A thread that cannot act in its turn passes,
/// so among those that can act each is as likely as any other. A schedule has as many turns as the
/// bodies have events, times the threads, and at most [`MAX_TURNS`](velo_schedule_text::MAX_TURNS). The
/// schedules are those that xoshiro256++ draws from the seed.
///
/// What is shown was replayed, and each count is of runs that were replayed. Where nothing is
/// shown, none of these runs shows it: of other schedules nothing is said.
///
/// # Errors
/// `Memory` where a growth was refused.
pub fn try_by_chance(
    alloc: Global,
    workload: &Workload,
    runs: u64,
    seed: u64,
    config: Config,
) -> Result<RunTally, Memory>
    requires bounds { config.bounds ≡ workload.now.bounds }
    ensures tried { IfOk result (IsTried workload.now config seed runs) }
    ensures order { IfOk result (λ tally. IsNonDecreasingBy rank tally.blamed.items) }
    ensures shows { IfOk result (λ tally. (fault : FaultOf) →
        IfShown (finding_of tally.findings fault) (IsWitness workload.now config fault)) }
{
    let mut random = Xoshiro256PlusPlus::seed_from_u64(seed);
    let turns = turns_for(workload);
    let mut tally = no_runs(alloc);
    for _ in 0..runs {
        let schedule = draw(alloc, &mut random, workload.bounds().threads, turns)?;
        tally = run_once(alloc, workload, &schedule, config, tally)?;
    }
    put_in_order(&mut tally.blamed);
    Ok(tally)
}
