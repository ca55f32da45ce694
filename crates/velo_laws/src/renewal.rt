//! A world in which a run goes on, in a log of its own.
ghost use Rattle.std.specs.Prelude.{◌≡◌, ◌↔◌, List, false, IfOk, IfErr, IfSome, IfNone, IsTrue};
ghost use Rattle.velo_events.specs.declared.event.Event.{Event as EventOf};
ghost use Rattle.velo_events.specs.Graph.{HasCycle};
ghost use Rattle.velo_events.specs.WellFormed.{IsWellFormed};
ghost use Rattle.velo_heap.specs.Contents.{bounds_of, ForItsTraces, IsHeapOf};
ghost use Rattle.velo_laws.specs.Cut.{NoBlockOpen};
ghost use Rattle.velo_laws.specs.Restart.{HasNoBegin};
ghost use Rattle.velo_world.specs.Faults.{world_of};
ghost use Rattle.velo_world.specs.World.{CompletesShares, HoldsLiveShares};
ghost use Rattle.velo_laws.specs.Opening.{IsReasonToRefuse};
ghost use Rattle.velo_laws.specs.Renewal.{IsFirstOpen, IsReasonAgainst, Renews, Restarts, StandsInTheWay};

use crate::stages::prologue;
use std::alloc::Global;
use std::fmt;
use thiserror::Error;
use velo_events::{Bounds, Config, Memory, ThreadId};
use velo_heap::Heap;
use velo_ledger::Shares;
use velo_traces::Trace;
use velo_world::{LogReplayFault, World};

/// Why a run does not go on in a log of its own.
#[derive(Clone, Copy, PartialEq, Eq, Error)]
pub enum NotRenewed {
    /// An alarm is kept.
    #[error("an alarm is kept")]
    Alarm,
    /// This thread has a block open. No thread before it has.
    #[error("a block is open")]
    BlockOpen(ThreadId),
    /// What stands for the run has more events than its log may have.
    #[error("log full")]
    LogFull,
    /// An allocation failed.
    #[error("out of memory")]
    Memory,
}

impl fmt::Debug for NotRenewed {
    fn fmt<W: fmt::Write>(&self, f: &mut fmt::Formatter<W>) -> fmt::Result {
        fmt::Display::fmt(self, f)
    }
}

impl From<Memory> for NotRenewed {
    ghost use Rattle.std.specs.Prelude.{◌≡◌};
    ghost use Rattle.velo_laws.specs.declared.renewal.NotRenewed.TheVariants as not_renewed;

    ghost from_gives = { λ _ reason. reason ≡ not_renewed.Memory };

    fn from(_refused: Memory) -> NotRenewed {
        NotRenewed::Memory
    }
}

/// The world in which a run goes on, and the shares of its threads at their places. Its log is a
/// prologue: it leaves what the world's log left, and whatever comes after is judged as it would be
/// after all that came before. A thread that was joined is forgotten, and its number may be given
/// anew.
///
/// Positions count from 0 again: the event that would be the k-th after the world's log is the k-th after
/// the prologue. The world stays as it is, and is to be given up, since both are of one run. It
/// must not be halted, and its configuration's `stop` has to be off.
///
/// # Errors
/// The first that applies, in the order of the variants; `Memory` if an allocation failed.
pub fn renew(alloc: Global, world: &World) -> Result<(World, Shares), NotRenewed>
    requires live { world.now.halted ≡ false }
    requires goes_on { world.now.config.stop ≡ false }
    ensures renews { IfOk result (λ renewed. Renews world.now renewed.0) }
    ensures ready { IfOk result (λ renewed. HoldsLiveShares renewed.0 renewed.1) }
    ensures complete { IfOk result (λ renewed. CompletesShares renewed.0 renewed.1) }
    ensures reason { IfErr result (IsReasonAgainst world.now) }
{
    if has_alarm(world) {
        return Err(NotRenewed::Alarm);
    }
    restart(alloc, world.config(), world.heap())
}

/// The world in which a run goes on that has left the heap, for who knows that it has no cycle, and the shares of its threads at
/// their places. It is what `renew` returns of a world of that heap.
///
/// # Errors
/// The first that applies, in the order of the variants, but never `Alarm`; `Memory` where a growth was refused.
pub fn restart(alloc: Global, config: Config, heap: &Heap) -> Result<(World, Shares), NotRenewed>
    requires heap { (log : List EventOf) × IsHeapOf heap.now log }
    requires bounds { bounds_of heap.now ≡ config.bounds }
    requires goes_on { config.stop ≡ false }
    ensures world { IfOk result (λ opened. opened.0 ≡ world_of config opened.0.log) }
    ensures stands { IfOk result (λ opened. ForItsTraces heap.now (λ log. Restarts config.bounds log opened.0.log)) }
    ensures ready { IfOk result (λ opened. HoldsLiveShares opened.0 opened.1) }
    ensures complete { IfOk result (λ opened. CompletesShares opened.0 opened.1) }
    ensures reason { IfErr result (λ reason. ForItsTraces heap.now (λ log. StandsInTheWay config log reason)) }
{
    let bounds = config.bounds;
    if let Some(thread) = first_open(bounds, heap) {
        return Err(NotRenewed::BlockOpen(thread));
    }
    let made = prologue(alloc, bounds, heap)?;
    open_after(alloc, config, made)
}

/// Whether an alarm is kept.
fn has_alarm(world: &World) -> bool
    ensures { IsTrue result ↔ HasCycle world.now.log }
{
    match world.alarm() {
        Some(_) => true,
        None => false,
    }
}

/// The first thread that has a block open.
fn first_open(bounds: Bounds, heap: &Heap) -> Option<ThreadId>
    requires { bounds_of heap.now ≡ bounds }
    ensures none { IfNone result (ForItsTraces heap.now NoBlockOpen) }
    ensures some { IfSome result (λ thread. ForItsTraces heap.now (λ log. IsFirstOpen log thread)) }
{
    for thread in 0..bounds.threads {
        if heap.depth(ThreadId(thread)) != 0 {
            return Some(ThreadId(thread));
        }
    }
    None
}

/// The world of a prologue.
fn open_after(alloc: Global, config: Config, made: Trace) -> Result<(World, Shares), NotRenewed>
    requires goes_on { config.stop ≡ false }
    requires well_formed { IsWellFormed config.bounds made.events }
    requires no_begin { HasNoBegin made.events }
    ensures world { IfOk result (λ opened. opened.0 ≡ world_of config made.events) }
    ensures ready { IfOk result (λ opened. HoldsLiveShares opened.0 opened.1) }
    ensures complete { IfOk result (λ opened. CompletesShares opened.0 opened.1) }
    ensures reason { IfErr result (IsReasonToRefuse config made.events) }
{
    match World::from_log(alloc, config, made) {
        Ok(opened) => Ok(opened),
        Err(LogReplayFault::Refused { .. }) => Err(NotRenewed::LogFull),
        Err(LogReplayFault::WrongValue { .. }) => unreachable!(),
        Err(LogReplayFault::Memory) => Err(NotRenewed::Memory),
    }
}
