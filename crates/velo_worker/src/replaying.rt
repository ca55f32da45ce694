//! Replaying a workload by a schedule.
ghost use Rattle.std.specs.Prelude.{◌≡◌, IfOk};
ghost use Rattle.velo_world.specs.World.{HoldsLiveShares, CompletesShares, opening};
ghost use Rattle.velo_worker.specs.Causes.{EndsByGrowth};
ghost use Rattle.velo_worker.specs.Schedule.{Replays, ReplaysTo, start};

use crate::ending::Ending;
use crate::progress::threads_of;
use crate::replay_state::ReplayState;
use std::alloc::Global;
use velo_events::{Config, Memory, ThreadId};
use velo_ledger::Shares;
use velo_workload::Workload;
use velo_world::{Closed, World};

/// Lets the threads of a workload act in turn: first in the order of the schedule, then in rounds
/// of all threads. Returns the world after its end, and how the run ended. The configuration has to
/// have the workload's bounds.
///
/// In its turn a thread does its statements without events up to its next event, and tries that. It
/// passes where it has exited, was not forked yet or is no thread of the workload, and where it has
/// to wait for a lock or for the end of another thread. The run is done once no thread is left that
/// could try anything, and stuck after a round without an event.
///
/// # Errors
/// `Memory` if an allocation failed before the first turn. One that fails later ends the run as
/// `Refused`.
pub fn replay(
    alloc: Global,
    workload: &Workload,
    schedule: &[ThreadId],
    config: Config,
) -> Result<(Closed, Ending), Memory>
    requires { config.bounds ≡ workload.now.bounds }
    ensures replays { IfOk result (λ run. Replays workload.now schedule.now config run.1 run.0) }
    ensures cause { IfOk result (λ run. EndsByGrowth run.1) }
{
    let mut state = open(alloc, workload, config)?;
    let ending = take_all_turns(&mut state, schedule);
    Ok((state.close(), ending))
}

/// The turns of the schedule, and then rounds up to the end.
fn take_all_turns(state: &mut ReplayState<'_>, schedule: &[ThreadId]) -> Ending
    ensures { ReplaysTo state.old schedule.now result state.new }
{
    match state.follow(schedule) {
        Some(ending) => ending,
        None => state.take_rounds(),
    }
}

/// A run of which nothing is done.
fn open<'a>(
    alloc: Global,
    workload: &'a Workload,
    config: Config,
) -> Result<ReplayState<'a>, Memory>
    requires { config.bounds ≡ workload.now.bounds }
    ensures { IfOk result (λ state. state ≡ start workload.now config) }
{
    let threads = threads_of(alloc, workload)?;
    let (world, shares) = open_world(alloc, config)?;
    Ok(ReplayState {
        world,
        shares,
        threads,
    })
}

/// A world without events, and a place for each thread's share.
fn open_world(alloc: Global, config: Config) -> Result<(World, Shares), Memory>
    ensures world { IfOk result (λ opened. opened.0 ≡ opening config) }
    ensures ready { IfOk result (λ opened. HoldsLiveShares opened.0 opened.1) }
    ensures complete { IfOk result (λ opened. CompletesShares opened.0 opened.1) }
{
    let mut shares = Shares::none(alloc, config.bounds.threads)?;
    let (world, share) = World::new(alloc, config)?;
    if shares.put(share).is_err() {
        unreachable!()
    }
    Ok((world, shares))
}
