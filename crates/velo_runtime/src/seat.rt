//! A thread's seat: its right to act in a shared world.
ghost use Rattle.std.specs.Prelude.{◌≡◌, ◌≢◌, None, Err, IfOk, IfErr, OnErr};
ghost use Rattle.velo_events.specs.declared.event.Action.TheVariants as action;
ghost use Rattle.velo_events.specs.declared.event.Kind.TheVariants as kind;
ghost use Rattle.velo_events.specs.declared.refusal.Refusal.TheVariants as refusal;
ghost use Rattle.velo_events.specs.Refusals.{GrowthRefused};
ghost use Rattle.velo_ledger.specs.Shares.{opening_share};
ghost use Rattle.velo_world.specs.World.{IsNoFork};
ghost use Rattle.velo_runtime.specs.Seats.{GainsEvent, GainsEventBy, GainsEventOf, IsForkRefused, IsRefused};
ghost use Rattle.velo_runtime.specs.Turns.{wanted_by};

use crate::room::{fork_in, turn_in};
use crate::shared::Shared;
use crate::wait::Turn;
use std::marker::Model;
use std::sync::Wait;
use velo_events::{Action, Label, LockId, Refusal, ThreadId, VarId};
use velo_ledger::Share;
use velo_world::Reply;

/// A thread's place in a run: its share of the book. Whoever has the seat acts as the thread.
#[derive(Drop)]
pub struct Seat {
    /// The share of its thread.
    pub(crate) share: Share,
}

impl Model for Seat {
    ghost use Rattle.velo_ledger.specs.Views.{Holding};

    ghost Value = { Holding };

    ghost view = { λ seat. seat.share };
}

/// Each of the calls that are passed `rt` takes the room's lock, and does one action in one hold of
/// it. A refusal is the one that is due for the call's own action, in the room as it was in that
/// hold. `Memory` (19) is returned only if an allocation failed, and `RuntimeMemory` (21) never.
///
/// No call may be made by a thread that has the room's guard: it would wait for itself.
impl Seat {
    /// What the thread knows of its own events.
    pub fn share(&self) -> &Share
        ensures { result.now ≡ self.now }
    {
        &self.share
    }

    /// Reads a variable, and returns its value.
    ///
    /// # Errors
    /// The refusal of [`turn_in`]. The seat is as it was then.
    pub fn read<R: Wait>(&mut self, rt: &R, shared: &Shared, x: VarId) -> Result<u64, Refusal>
        ensures read { IfOk result (λ value. GainsEvent self.old self.new (kind.Read x value)) }
        ensures refused { IfErr result (IsRefused self.old (action.Read x)) }
        ensures unchanged { OnErr result (self.new ≡ self.old) }
        ensures memory { result ≡ Err refusal.Memory → GrowthRefused }
        ensures runtime { result ≢ Err refusal.RuntimeMemory }
    {
        let reply = self.turn(rt, shared, Action::Read(x))?;
        let Some(value) = reply.value else {
            unreachable!()
        };
        Ok(value)
    }

    /// Writes a value to a variable.
    ///
    /// # Errors
    /// The refusal of [`turn_in`]. The seat is as it was then.
    pub fn write<R: Wait>(
        &mut self,
        rt: &R,
        shared: &Shared,
        x: VarId,
        value: u64,
    ) -> Result<Reply, Refusal>
        ensures written { IfOk result (λ reply. GainsEventOf self.old self.new reply (kind.Write x value)) }
        ensures refused { IfErr result (IsRefused self.old (action.Write x value)) }
        ensures unchanged { OnErr result (self.new ≡ self.old) }
        ensures memory { result ≡ Err refusal.Memory → GrowthRefused }
        ensures runtime { result ≢ Err refusal.RuntimeMemory }
    {
        self.turn(rt, shared, Action::Write(x, value))
    }

    /// Acquires a lock. While another thread holds it, alone or with others, the call waits; it
    /// never returns `Busy` (6).
    ///
    /// # Errors
    /// The refusal of [`turn_in`]. The seat is as it was then.
    pub fn acquire<R: Wait>(
        &mut self,
        rt: &R,
        shared: &Shared,
        lock: LockId,
    ) -> Result<Reply, Refusal>
        ensures acquired { IfOk result (λ reply. GainsEventOf self.old self.new reply (kind.Acquire lock)) }
        ensures waits { result ≢ Err refusal.Busy }
        ensures refused { IfErr result (IsRefused self.old (action.Acquire lock)) }
        ensures unchanged { OnErr result (self.new ≡ self.old) }
        ensures memory { result ≡ Err refusal.Memory → GrowthRefused }
        ensures runtime { result ≢ Err refusal.RuntimeMemory }
    {
        self.turn(rt, shared, Action::Acquire(lock))
    }

    /// Releases a lock, and notifies the threads that wait.
    ///
    /// # Errors
    /// The refusal of [`turn_in`]. The seat is as it was then.
    pub fn release<R: Wait>(
        &mut self,
        rt: &R,
        shared: &Shared,
        lock: LockId,
    ) -> Result<Reply, Refusal>
        ensures released { IfOk result (λ reply. GainsEventOf self.old self.new reply (kind.Release lock)) }
        ensures refused { IfErr result (IsRefused self.old (action.Release lock)) }
        ensures unchanged { OnErr result (self.new ≡ self.old) }
        ensures memory { result ≡ Err refusal.Memory → GrowthRefused }
        ensures runtime { result ≢ Err refusal.RuntimeMemory }
    {
        self.turn(rt, shared, Action::Release(lock))
    }

    /// Acquires a share of a lock. While another thread holds it alone, the call waits; it never
    /// returns `Busy` (6).
    ///
    /// # Errors
    /// The refusal of [`turn_in`]. The seat is as it was then.
    pub fn acquire_shared<R: Wait>(
        &mut self,
        rt: &R,
        shared: &Shared,
        lock: LockId,
    ) -> Result<Reply, Refusal>
        ensures acquired { IfOk result (λ reply. GainsEventOf self.old self.new reply (kind.AcquireShared lock)) }
        ensures waits { result ≢ Err refusal.Busy }
        ensures refused { IfErr result (IsRefused self.old (action.AcquireShared lock)) }
        ensures unchanged { OnErr result (self.new ≡ self.old) }
        ensures memory { result ≡ Err refusal.Memory → GrowthRefused }
        ensures runtime { result ≢ Err refusal.RuntimeMemory }
    {
        self.turn(rt, shared, Action::AcquireShared(lock))
    }

    /// Releases a share of a lock, and notifies the threads that wait.
    ///
    /// # Errors
    /// The refusal of [`turn_in`]. The seat is as it was then.
    pub fn release_shared<R: Wait>(
        &mut self,
        rt: &R,
        shared: &Shared,
        lock: LockId,
    ) -> Result<Reply, Refusal>
        ensures released { IfOk result (λ reply. GainsEventOf self.old self.new reply (kind.ReleaseShared lock)) }
        ensures refused { IfErr result (IsRefused self.old (action.ReleaseShared lock)) }
        ensures unchanged { OnErr result (self.new ≡ self.old) }
        ensures memory { result ≡ Err refusal.Memory → GrowthRefused }
        ensures runtime { result ≢ Err refusal.RuntimeMemory }
    {
        self.turn(rt, shared, Action::ReleaseShared(lock))
    }

    /// Begins an atomic block.
    ///
    /// # Errors
    /// The refusal of [`turn_in`]. The seat is as it was then.
    pub fn begin<R: Wait>(
        &mut self,
        rt: &R,
        shared: &Shared,
        label: Label,
    ) -> Result<Reply, Refusal>
        ensures begun { IfOk result (λ reply. GainsEventOf self.old self.new reply (kind.Begin label)) }
        ensures refused { IfErr result (IsRefused self.old (action.Begin label)) }
        ensures unchanged { OnErr result (self.new ≡ self.old) }
        ensures memory { result ≡ Err refusal.Memory → GrowthRefused }
        ensures runtime { result ≢ Err refusal.RuntimeMemory }
    {
        self.turn(rt, shared, Action::Begin(label))
    }

    /// Ends the innermost open block.
    ///
    /// # Errors
    /// The refusal of [`turn_in`]. The seat is as it was then.
    pub fn end<R: Wait>(&mut self, rt: &R, shared: &Shared) -> Result<Reply, Refusal>
        ensures ended { IfOk result (λ reply. GainsEventOf self.old self.new reply kind.End) }
        ensures refused { IfErr result (IsRefused self.old action.End) }
        ensures unchanged { OnErr result (self.new ≡ self.old) }
        ensures memory { result ≡ Err refusal.Memory → GrowthRefused }
        ensures runtime { result ≢ Err refusal.RuntimeMemory }
    {
        self.turn(rt, shared, Action::End)
    }

    /// Forks a thread, and gives its seat.
    ///
    /// # Errors
    /// The refusal of [`fork_in`]. The seat is as it was then.
    pub fn fork<R: Wait>(
        &mut self,
        rt: &R,
        shared: &Shared,
        child: ThreadId,
    ) -> Result<Seat, Refusal>
        ensures forked { IfOk result (λ seat. GainsEvent self.old self.new (kind.Fork child)) }
        ensures child { IfOk result (λ seat. seat ≡ opening_share self.old.run child.0) }
        ensures refused { IfErr result (IsForkRefused self.old child) }
        ensures unchanged { OnErr result (self.new ≡ self.old) }
        ensures memory { result ≡ Err refusal.Memory → GrowthRefused }
        ensures runtime { result ≢ Err refusal.RuntimeMemory }
    {
        let mut room = shared.room.lock(rt);
        let (_, seat) = fork_in(&mut room, self, child)?;
        Ok(seat)
    }

    /// Joins a thread. Until it has exited, the call waits; it never returns `NotExited` (13).
    ///
    /// # Errors
    /// The refusal of [`turn_in`]. The seat is as it was then.
    pub fn join<R: Wait>(
        &mut self,
        rt: &R,
        shared: &Shared,
        thread: ThreadId,
    ) -> Result<Reply, Refusal>
        ensures joined { IfOk result (λ reply. GainsEventOf self.old self.new reply (kind.Join thread)) }
        ensures waits { result ≢ Err refusal.NotExited }
        ensures refused { IfErr result (IsRefused self.old (action.Join thread)) }
        ensures unchanged { OnErr result (self.new ≡ self.old) }
        ensures memory { result ≡ Err refusal.Memory → GrowthRefused }
        ensures runtime { result ≢ Err refusal.RuntimeMemory }
    {
        self.turn(rt, shared, Action::Join(thread))
    }

    /// Ends the thread, and notifies those that wait.
    ///
    /// # Errors
    /// The refusal of [`turn_in`]. The seat is as it was then.
    pub fn exit<R: Wait>(&mut self, rt: &R, shared: &Shared) -> Result<Reply, Refusal>
        ensures exited { IfOk result (λ reply. GainsEventOf self.old self.new reply kind.Exit) }
        ensures refused { IfErr result (IsRefused self.old action.Exit) }
        ensures unchanged { OnErr result (self.new ≡ self.old) }
        ensures memory { result ≡ Err refusal.Memory → GrowthRefused }
        ensures runtime { result ≢ Err refusal.RuntimeMemory }
    {
        self.turn(rt, shared, Action::Exit)
    }

    /// One action, in holds of the lock until one does not return that the thread has to wait.
    #[tactic(auto, using(std::proofs::lemmas::Grind::common_steps, crate::proofs::OnTurns::turns))]
    fn turn<R: Wait>(&mut self, rt: &R, shared: &Shared, action: Action) -> Result<Reply, Refusal>
        requires { IsNoFork action }
        ensures done { IfOk result (λ reply. GainsEventBy self.old self.new reply action) }
        ensures refused { IfErr result (IsRefused self.old action) }
        ensures unchanged { OnErr result (self.new ≡ self.old) }
        ensures lasting { IfErr result (λ refusal. wanted_by action refusal ≡ None) }
        ensures memory { result ≡ Err refusal.Memory → GrowthRefused }
        ensures runtime { result ≢ Err refusal.RuntimeMemory }
    {
        let mut room = shared.room.lock(rt);
        for _ in rt.forever() {
            match turn_in(&mut room, self, action) {
                Turn::Done(reply) => {
                    if lets_go(action) || room.is_halted() {
                        shared.wake_all();
                    }
                    return Ok(reply);
                }
                Turn::Refused(refusal) => return Err(refusal),
                Turn::Wait => room = shared.wait(rt, room),
            }
        }
        unreachable!()
    }
}

/// Whether a waiting thread may go on after the action.
fn lets_go(action: Action) -> bool {
    matches!(
        action,
        Action::Release(_) | Action::ReleaseShared(_) | Action::Exit
    )
}
