//! A world with the shares of its threads.
ghost use Rattle.std.specs.Prelude.{◌≡◌, false, IfOk, IfErr, OnOk, OnErr};
ghost use Rattle.velo_laws.specs.Renewal.{IsReasonAgainst, Renews};
ghost use Rattle.velo_world.specs.World.{StepsTo, opening};

use std::alloc::Global;
use std::marker::Model;
use velo_events::{Action, Config, Memory, Refusal, ThreadId};
use velo_laws::{NotRenewed, renew};
use velo_ledger::Shares;
use velo_traces::Trace;
use velo_world::{LogReplayFault, Reply, World};

/// A world with the shares of its threads: who has it acts as any of them.
#[derive(Drop)]
pub struct Watch {
    /// The world.
    pub world: World,
    /// The share of each thread that was born, at its place.
    pub shares: Shares,
}

impl Model for Watch {
    ghost use Rattle.velo_ffi.specs.Watch.{WatchState};
    ghost use Rattle.velo_ffi.specs.Inside.{watch_of, IsWatch};

    ghost Value = { WatchState };

    ghost view = { watch_of };

    ghost invariant = { IsWatch };
}

impl Watch {
    /// A watch without events.
    ///
    /// # Errors
    /// `Memory` if an allocation failed.
    pub fn start(alloc: Global, config: Config) -> Result<Watch, Memory>
        requires { config.stop ≡ false }
        ensures { IfOk result (λ watch. watch.world ≡ opening config) }
    {
        match World::from_log(alloc, config, Trace::new(alloc)) {
            Ok((world, shares)) => Ok(Watch { world, shares }),
            Err(LogReplayFault::Memory) => Err(Memory),
            Err(_) => unreachable!(),
        }
    }

    /// Does an action of a thread, which is one event at the end of the log.
    ///
    /// # Errors
    /// The first refusal that applies. Nothing changes then.
    pub fn act(&mut self, thread: ThreadId, action: Action) -> Result<Reply, Refusal>
        ensures { StepsTo self.old.world self.old.shares thread action result self.new.world self.new.shares }
    {
        self.world.act_as(&mut self.shares, thread, action)
    }

    /// Goes on in a new log.
    ///
    /// # Errors
    /// The first reason that applies. Nothing changes then.
    pub fn renew(&mut self, alloc: Global) -> Result<(), NotRenewed>
        ensures renews { OnOk result (Renews self.old.world self.new.world) }
        ensures reason { IfErr result (IsReasonAgainst self.old.world) }
        ensures same { OnErr result (self.new ≡ self.old) }
    {
        let (world, shares) = renew(alloc, &self.world)?;
        *self = Watch { world, shares };
        Ok(())
    }
}
