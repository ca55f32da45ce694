//! One recorded event after the log of a world.
ghost use Rattle.std.specs.Prelude.{◌≡◌, ◌<◌, ◌∷◌, ◌++◌, ℕ, false, [], length, None, IfOk, IfErr, OnOk, OnErr};
ghost use Rattle.velo_events.specs.Meaning.{action_of};
ghost use Rattle.velo_ledger.specs.Book.{IsFilled};
ghost use Rattle.velo_world.specs.World.{CompletesShares, HoldsLiveShares};
ghost use Rattle.velo_world.specs.Faults.{IsFaultAtEvent};
ghost use Rattle.velo_world.specs.LoggedRun.{logged_state, AddsToLog, FollowsFromItsLog};
ghost use Rattle.velo_world.specs.Recorded.{Replays};

use crate::analysis::Reply;
use crate::log_replay::{LogReplayFault, judge};
use crate::logged_run::LoggedRun;
use crate::world::{World, hand_over};
use velo_events::{Event, Refusal};
use velo_ledger::Shares;

impl World {
    /// Lets a recorded event come about after the log, by the share at its thread's place. The world must not be halted.
    ///
    /// # Errors
    /// `Refused` or `WrongValue` where it can't: a refusal comes before a wrong value, and this before the limits of events and
    /// of nodes. `Memory` where a growth was refused. Nothing changes then, the shares neither.
    pub fn replay(&mut self, shares: &mut Shares, event: &Event) -> Result<Reply, LogReplayFault>
        requires live { self.old.halted ≡ false }
        requires ready { HoldsLiveShares self.old shares.old }
        ensures outcome { Replays self.old shares.old event.now result self.new shares.new }
        ensures ready { HoldsLiveShares self.new shares.new }
        ensures filled { (t : ℕ) → IsFilled shares.old t → IsFilled shares.new t }
        ensures complete { CompletesShares self.old shares.old → CompletesShares self.new shares.new }
    {
        match self.logged.replay(event) {
            Ok(reply) => {
                self.book.enter_at(shares, reply.position, event);
                hand_over(&mut self.kept, shares, event);
                Ok(reply)
            }
            Err(fault) => Err(fault),
        }
    }
}

impl LoggedRun {
    /// Adds a recorded event to the log, if it may come next.
    fn replay(&mut self, event: &Event) -> Result<Reply, LogReplayFault>
        requires live { self.old.halted ≡ false }
        requires stands { FollowsFromItsLog self.old }
        ensures stands { FollowsFromItsLog self.new }
        ensures adds { IfOk result (λ reply. AddsToLog (logged_state self.old)
            event.now.thread (action_of event.now.kind) event.now reply (logged_state self.new)) }
        ensures same { OnErr result (logged_state self.new ≡ logged_state self.old) }
        ensures fault { IfErr result (λ fault. IsFaultAtEvent self.old.config self.old.log.events event.now fault) }
    {
        judge(&self.analysis.heap, &self.config, self.log.len(), event)?;
        match self.make_room(event) {
            Ok(()) => Ok(self.commit(*event)),
            Err(Refusal::Memory) => Err(LogReplayFault::Memory),
            Err(refusal) => Err(LogReplayFault::Refused {
                position: self.log.len(),
                refusal,
            }),
        }
    }
}
