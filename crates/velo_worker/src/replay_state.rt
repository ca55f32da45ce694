//! The state of a replay of a workload: its world, and how far each thread has come.
ghost use Rattle.std.specs.Prelude.{◌≡◌, ◌≢◌, ◌≤◌, ◌↔◌, true, false, length, slice_get, IfOk, IsTrue, ℕ};
ghost use Rattle.velo_events.specs.Heap.{status_in};
ghost use Rattle.velo_world.specs.World.{HoldsLiveShares, CompletesShares, opening};
ghost use Rattle.velo_worker.specs.Schedule.{AllIdle, IsIdle, RoundsOf, Tries, TurnOf, TurnsOf, all_threads, start};

use crate::ending::Ending;
use crate::progress::Progress;
use std::alloc::Global;
use std::marker::Model;
use velo_events::growth::reserve;
use velo_events::{Config, Memory, Refusal, Status, ThreadId};
use velo_ledger::Shares;
use velo_workload::Workload;
use velo_world::{Closed, World};

/// A world in which the threads of a workload act in turn.
#[derive(Drop)]
pub struct ReplayState<'a> {
    /// The world.
    pub world: World,
    /// The share of each thread that was forked, at its place.
    pub shares: Shares,
    /// How far each thread has come, by number.
    pub threads: Vec<Progress<'a>>,
}

impl<'a> Model for ReplayState<'a> {
    ghost use Rattle.velo_worker.specs.Schedule.{ReplayState};
    ghost use Rattle.velo_worker.specs.ReplayState.{replay_state_of, IsReplayState};

    ghost Value = { ReplayState };

    ghost view = { replay_state_of };

    ghost invariant = { IsReplayState };
}

impl<'a> ReplayState<'a> {
    /// A turn of a thread: it passes where it is idle, else it tries its next event. Some ending
    /// where that ends the run.
    pub fn take_turn(&mut self, thread: ThreadId) -> Option<Ending>
        ensures { TurnOf self.old thread result self.new }
    {
        if self.is_idle(thread) {
            return None;
        }
        let at = usize::from(thread.0);
        try_event(
            &mut self.world,
            &mut self.shares,
            thread,
            &mut self.threads[at],
        )
    }

    /// Whether a thread has nothing to try: it is not there, has exited, or was not forked yet.
    fn is_idle(&self, thread: ThreadId) -> bool
        ensures { IsTrue result ↔ IsIdle self.now.world.log thread.0 (slice_get self.now.threads thread.0) }
    {
        match self.threads.get(usize::from(thread.0)) {
            Some(progress) => {
                progress.done || self.world.heap().status(thread) == Status::Unborn
            }
            None => true,
        }
    }

    /// Turns one after another, up to the first that ends the run.
    pub fn follow(&mut self, schedule: &[ThreadId]) -> Option<Ending>
        ensures { TurnsOf self.old schedule.now result self.new }
    {
        for thread in schedule {
            if let Some(ending) = self.take_turn(*thread) {
                return Some(ending);
            }
        }
        None
    }

    /// Whether every thread has nothing to try.
    fn are_all_idle(&self) -> bool
        ensures { IsTrue result ↔ AllIdle self.now }
    {
        for thread in 0..self.world.threads() {
            if !self.is_idle(ThreadId(thread)) {
                return false;
            }
        }
        true
    }

    /// A turn of each thread, in their order, up to the first that ends the run.
    fn take_round(&mut self) -> Option<Ending>
        ensures { TurnsOf self.old (all_threads self.old) result self.new }
    {
        for thread in 0..self.world.threads() {
            if let Some(ending) = self.take_turn(ThreadId(thread)) {
                return Some(ending);
            }
        }
        None
    }

    /// Rounds up to the end of the run.
    pub fn take_rounds(&mut self) -> Ending
        ensures { RoundsOf self.old result self.new }
    {
        loop {
            if self.are_all_idle() {
                return Ending::Done;
            }
            let before = self.world.log().len();
            if let Some(ending) = self.take_round() {
                return ending;
            }
            if self.world.log().len() == before {
                return Ending::Stuck;
            }
        }
    }

    /// The world after its end.
    pub fn close(self) -> Closed
        ensures { result ≡ self.entry.world }
    {
        let ReplayState { world, shares, .. } = self;
        match world.close(shares) {
            Ok(closed) => closed,
            Err(_) => unreachable!(),
        }
    }
}

/// Lets a thread that is not idle try its next event.
fn try_event(
    world: &mut World,
    shares: &mut Shares,
    thread: ThreadId,
    progress: &mut Progress<'_>,
) -> Option<Ending>
    requires live { HoldsLiveShares world.old shares.old }
    requires complete { CompletesShares world.old shares.old }
    ensures live { HoldsLiveShares world.new shares.new }
    ensures complete { CompletesShares world.new shares.new }
    ensures config { world.new.config ≡ world.old.config }
    ensures tries { Tries world.old thread progress.old result world.new progress.new }
{
    progress.settle();
    match world.act_as(shares, thread, progress.wanted()) {
        Ok(reply) => {
            progress.go_on(reply.value);
            None
        }
        Err(Refusal::Busy | Refusal::NotExited) => None,
        Err(Refusal::Halted) => Some(Ending::Halted),
        Err(refusal) => Some(Ending::Refused(thread, refusal)),
    }
}
