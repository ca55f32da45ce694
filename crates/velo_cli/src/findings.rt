//! What the schedules of a workload come to.
ghost use Rattle.std.specs.Prelude.{◌≡◌};

use crate::blaming::blame_of;
use std::alloc::Global;
use velo_check::{ExploreOptions, RandomRuns};
use velo_events::{Config, Memory};
use velo_explore::{Exploration, Progress, RunTally, explore, shrink_findings, try_by_chance};
use velo_filter::LeftOut;
use velo_finding::{Survey, ToBlame, Tried};
use velo_workload::Workload;

/// What all schedules of the workload come to, by simple schedules, and who is to blame.
fn explore_all<P: Progress>(
    alloc: Global,
    workload: &Workload,
    options: &ExploreOptions,
    config: Config,
    progress: &mut P,
) -> Result<Survey, Memory>
    requires { config.bounds ≡ workload.now.bounds }
{
    let nothing = LeftOut::new(alloc);
    let most_states = u64::from(options.states);
    let first = options.first;
    let Exploration {
        events,
        states,
        findings,
        alarms,
    } = explore(
        alloc,
        workload,
        &nothing,
        most_states,
        first,
        config,
        progress,
    )?;
    let blame = blame_of(alloc, workload, &alarms, first, config)?;
    let shrunk = shrink_findings(alloc, workload, findings, config)?;
    Ok(Survey {
        tried: Tried::All { events, states },
        shrunk,
        blame,
    })
}

/// What so many random runs of the workload come to, by simple schedules, and who is to blame.
fn try_some(
    alloc: Global,
    workload: &Workload,
    random: RandomRuns,
    config: Config,
) -> Result<Survey, Memory>
    requires { config.bounds ≡ workload.now.bounds }
{
    let RandomRuns { runs, seed } = random;
    let RunTally {
        runs,
        findings,
        alarms,
        blamed,
    } = try_by_chance(alloc, workload, u64::from(runs), seed, config)?;
    let shrunk = shrink_findings(alloc, workload, findings, config)?;
    Ok(Survey {
        tried: Tried::ByChance { seed, runs },
        shrunk,
        blame: ToBlame {
            alarms,
            labels: blamed,
        },
    })
}

/// What all schedules of the workload come to, or random runs, where they are asked for; and who is
/// to blame. The configuration has to have the workload's bounds. `progress` is called after each level
/// of the search, and says when it is over.
///
/// # Errors
/// `Memory` where a growth was refused.
pub fn survey_of<P: Progress>(
    alloc: Global,
    workload: &Workload,
    options: &ExploreOptions,
    config: Config,
    progress: &mut P,
) -> Result<Survey, Memory>
    requires { config.bounds ≡ workload.now.bounds }
{
    match options.random {
        Some(random) => try_some(alloc, workload, random, config),
        None => explore_all(alloc, workload, options, config, progress),
    }
}
