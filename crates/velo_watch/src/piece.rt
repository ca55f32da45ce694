//! The piece of a log that is kept, as the world of a log of its own.
ghost use Rattle.std.specs.Prelude.{◌≡◌, ◌≢◌, ◌≤◌, ◌↔◌, List, ℕ, [], ◌∷◌, ◌++◌, length, map, false, All, IfOk, IfErr, OnOk, OnErr, IsTrue};
ghost use Rattle.velo_events.specs.declared.event.Event.{Event as EventOf};
ghost use Rattle.velo_events.specs.Graph.{HasCycle};
ghost use Rattle.velo_events.specs.Refusals.{GrowthRefused};
ghost use Rattle.velo_events.specs.WellFormed.{IsWellFormed};
ghost use Rattle.velo_heap.specs.Contents.{bounds_of, ForItsTraces, IsHeapOf};
ghost use Rattle.velo_world.specs.declared.log_replay.LogReplayFault.TheVariants as log_replay_fault;
ghost use Rattle.velo_laws.specs.declared.renewal.NotRenewed.TheVariants as not_renewed;
ghost use Rattle.velo_watch.specs.declared.long.TheConstants.{MAX_WATCHED};
ghost use Rattle.velo_watch.specs.Piece.{AllLieBehind, CanFollow, Follows, IsCutInTime, CannotBeCutWhereLate, IsInWhole, IsJudged, IsLate, IsPieceOf, LiesBehind, block_in_whole, in_whole, moved_fault};

use smallvec::SmallVec;
use std::alloc::Global;
use velo_events::growth::with_capacity;
use velo_events::{Config, Event, Memory};
use velo_heap::Heap;
use velo_laws::{NotRenewed, restart};
use velo_ledger::Shares;
use velo_traces::{Block, Trace};
use velo_world::{Alarm, LogReplayFault, World};

/// The events of a log after its last cut, behind a prologue that stands for those before it.
#[derive(Drop)]
pub struct LogPiece {
    pub(crate) world: World,
    pub(crate) shares: Shares,
    /// How many events of the log were before the cut.
    pub(crate) before: usize,
    /// How many events of the world are its prologue.
    pub(crate) prologue: usize,
}

impl LogPiece {
    /// The piece of a log that has no event yet.
    ///
    /// # Errors
    /// `Memory` where a growth was refused.
    pub fn new(alloc: Global, config: Config) -> Result<LogPiece, LogReplayFault>
        requires { config.stop ≡ false }
        ensures config { IfOk result (λ piece. piece.world.config ≡ config) }
        ensures follows { IfOk result CanFollow }
        ensures none { IfOk result (IsPieceOf []) }
        ensures empty { IfOk result (λ piece. piece.world.log ≡ []) }
        ensures fault { IfErr result (λ fault. fault ≡ log_replay_fault.Memory) }
        ensures memory { OnErr result GrowthRefused }
    {
        match World::from_log(alloc, config, Trace::new(alloc)) {
            Ok((world, shares)) => Ok(LogPiece {
                world,
                shares,
                before: 0,
                prologue: 0,
            }),
            Err(LogReplayFault::Memory) => Err(LogReplayFault::Memory),
            Err(_) => unreachable!(),
        }
    }

    /// Lets the next event of the whole log come about, where no alarm was raised. The alarm that it raises, at its positions
    /// in the whole log, if it raises one.
    ///
    /// # Errors
    /// `Refused` at the limits of events and of nodes, of what is kept, at the event's position in the whole log; `Memory`
    /// where a growth was refused.
    pub fn follow(&mut self, alloc: Global, event: &Event) -> Result<Option<Alarm>, LogReplayFault>
        requires { CanFollow self.old }
        ensures follows { CanFollow self.new }
        ensures config { self.new.world.config ≡ self.old.world.config }
        ensures kept { length self.new.world.log ≤ self.new.world.config.events }
        ensures in_time { (whole : List EventOf) → IsCutInTime whole self.old → IsCutInTime whole self.new }
        ensures outcome { (whole : List EventOf) → ¬ HasCycle whole → IsPieceOf whole self.old
            → IsCutInTime whole self.old
            → IsWellFormed self.old.world.config.bounds (whole ++ event.now ∷ [])
            → Follows whole event.now self.old result self.new }
    {
        let came = self.world.replay(&mut self.shares, event);
        prove!(self.world.log().len() <= self.world.config().events as usize);
        match came {
            Ok(_) => self.alarm(alloc),
            Err(fault) => Err(self.fault_in_whole(fault)),
        }
    }

    /// Cuts the whole log, which has so many events, leaves the heap, and has no cycle, if half the room is used and a cut is
    /// possible.
    ///
    /// # Errors
    /// `Memory` where a growth was refused.
    pub fn cut(&mut self, alloc: Global, heap: &Heap, count: usize) -> Result<(), LogReplayFault>
        requires follows { CanFollow self.old }
        requires heap { (log : List EventOf) × IsHeapOf heap.now log }
        requires bounds { bounds_of heap.now ≡ self.old.world.config.bounds }
        requires few { count ≤ MAX_WATCHED }
        ensures follows { CanFollow self.new }
        ensures config { self.new.world.config ≡ self.old.world.config }
        ensures kept { length self.new.world.log ≤ self.new.world.config.events }
        ensures cut { OnOk result (ForItsTraces heap.now (λ whole. length whole ≡ count → ¬ HasCycle whole
            → IsPieceOf whole self.old → IsPieceOf whole self.new)) }
        ensures in_time { OnOk result (ForItsTraces heap.now (λ whole. (log : List EventOf) (event : EventOf)
            → whole ≡ log ++ event ∷ [] → length whole ≡ count → IsPieceOf whole self.old
            → IsCutInTime log self.old → IsCutInTime whole self.new)) }
        ensures late { OnOk result (ForItsTraces heap.now (λ whole. CannotBeCutWhereLate whole self.new)) }
        ensures fault { IfErr result (λ fault. fault ≡ log_replay_fault.Memory) }
        ensures memory { OnErr result GrowthRefused }
    {
        prove!(self.world.log().len() <= self.world.config().events as usize);
        if !self.is_late() {
            return Ok(());
        }
        match restart(alloc, self.world.config(), heap) {
            Ok((world, shares)) => {
                self.prologue = world.log().len();
                self.before = count;
                self.world = world;
                self.shares = shares;
                Ok(())
            }
            Err(reason) => unless_memory(reason),
        }
    }

    /// Whether half the room behind the prologue is used.
    fn is_late(&self) -> bool
        requires { CanFollow self.now }
        ensures { IsTrue result ↔ IsLate self.now }
    {
        let length = self.world.log().len();
        self.prologue + self.world.config().events as usize <= length + length
    }

    /// The fault of the next event, at its position in the whole log.
    fn fault_in_whole(&self, fault: LogReplayFault) -> LogReplayFault
        requires { CanFollow self.now }
        ensures { result ≡ moved_fault (in_whole self.now.before self.now.prologue (length self.now.world.log)) fault }
    {
        let position = self.in_whole(self.world.log().len());
        match fault {
            LogReplayFault::Refused { refusal, .. } => LogReplayFault::Refused {
                position,
                refusal,
            },
            LogReplayFault::WrongValue { .. } => LogReplayFault::WrongValue { position },
            LogReplayFault::Memory => LogReplayFault::Memory,
        }
    }

    /// The alarm, at its positions in the whole log, if there is one.
    fn alarm(&self, alloc: Global) -> Result<Option<Alarm>, LogReplayFault>
        requires { CanFollow self.now }
        ensures alarm { IfOk result (λ alarm. (whole : List EventOf) → IsPieceOf whole self.now → IsJudged whole self.now alarm) }
        ensures fault { IfErr result (λ fault. fault ≡ log_replay_fault.Memory) }
        ensures memory { OnErr result GrowthRefused }
    {
        prove!(self.world.log().len() <= self.world.config().events as usize);
        match self.world.alarm() {
            None => Ok(None),
            Some(alarm) => match self.moved(alloc, alarm) {
                Ok(moved) => Ok(Some(moved)),
                Err(Memory) => Err(LogReplayFault::Memory),
            },
        }
    }

    /// The same alarm at positions of the whole log.
    fn moved(&self, alloc: Global, alarm: &Alarm) -> Result<Alarm, Memory>
        requires follows { CanFollow self.now }
        requires behind { AllLieBehind self.now.prologue alarm.now }
        ensures { IfOk result (IsInWhole self.now.before self.now.prologue alarm.now) }
    {
        let blamed = self.moved_blocks(alloc, alarm.blamed.as_slice())?;
        Ok(Alarm {
            position: self.in_whole(alarm.position),
            transaction: self.in_whole(alarm.transaction),
            blamed: SmallVec::from_vec(blamed),
        })
    }

    /// The same blocks at positions of the whole log.
    fn moved_blocks(&self, alloc: Global, blocks: &[Block]) -> Result<Vec<Block>, Memory>
        requires follows { CanFollow self.now }
        requires behind { All (λ block. LiesBehind self.now.prologue block.first) blocks.now }
        ensures { IfOk result (λ moved.
            moved.items ≡ map (block_in_whole self.now.before self.now.prologue) blocks.now) }
    {
        let mut moved = with_capacity(alloc, blocks.len())?;
        for block in blocks {
            moved.push_reserved(Block {
                first: self.in_whole(block.first),
                label: block.label,
            });
        }
        Ok(moved)
    }

    /// The position in the whole log.
    fn in_whole(&self, position: usize) -> usize
        requires follows { self.now.before ≤ MAX_WATCHED }
        requires behind { LiesBehind self.now.prologue position }
        ensures { result ≡ in_whole self.now.before self.now.prologue position }
    {
        self.before + (position - self.prologue)
    }
}

/// Whether it is for want of memory that there is no new world.
fn unless_memory(reason: NotRenewed) -> Result<(), LogReplayFault>
    ensures other { OnOk result (reason ≢ not_renewed.Memory) }
    ensures fault { IfErr result (λ fault. fault ≡ log_replay_fault.Memory) }
    ensures memory { OnErr result (reason ≡ not_renewed.Memory) }
{
    match reason {
        NotRenewed::Memory => Err(LogReplayFault::Memory),
        NotRenewed::Alarm | NotRenewed::BlockOpen(_) | NotRenewed::LogFull => Ok(()),
    }
}
