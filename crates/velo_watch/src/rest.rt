//! What is left of a log so far, and what follows from it.
ghost use Rattle.std.specs.Prelude.{◌≡◌, ◌≤◌, ◌<◌, ◌+◌, [], ◌∷◌, ◌++◌, length, take, slice_index, false, IfOk, IfErr, OnOk};
ghost use Rattle.velo_events.specs.WellFormed.{IsWellFormed};
ghost use Rattle.velo_filter.specs.Left.{Omitted};
ghost use Rattle.velo_filter.specs.Tables.{left_of};
ghost use Rattle.velo_watch.specs.Alarm.{TellsOrFails};
ghost use Rattle.velo_watch.specs.UnderWay.{write_failures};
ghost use Rattle.velo_watch.specs.Faults.{IsFaultOfLast, IsMovedFault, fault_at};
ghost use Rattle.velo_watch.specs.RestUnderWay.{IsRestOf};

use crate::alarm::alarm_as_read;
use crate::fault::WatchFault;
use std::alloc::Global;
use velo_bytes::{Sink, WriteFault};
use velo_events::growth::reserve;
use velo_events::{Config, Event, Memory};
use velo_filter::{LeftOut, no_marks, stays_at};
use velo_report::alarm_line;
use velo_world::{Closed, LogReplayFault, RecordedWorld};

/// What is left of a log so far.
#[derive(Drop)]
pub struct Rest {
    /// Its events, and what follows from them.
    pub world: RecordedWorld,
    /// The position of each in the whole log.
    pub places: Vec<u32>,
    /// For each thread, which of its open blocks are left out.
    pub rows: Vec<u64>,
}

/// What is left of a log after its end.
#[derive(Drop)]
pub struct ClosedRest {
    /// The world of its events.
    pub closed: Closed,
    /// The position of each in the whole log.
    pub places: Vec<u32>,
}

/// The same fault at this position.
fn fault_at(position: usize, fault: LogReplayFault) -> LogReplayFault
    ensures { result ≡ fault_at position fault }
{
    match fault {
        LogReplayFault::Refused { refusal, .. } => LogReplayFault::Refused { position, refusal },
        LogReplayFault::WrongValue { .. } => LogReplayFault::WrongValue { position },
        LogReplayFault::Memory => LogReplayFault::Memory,
    }
}

impl Rest {
    /// What is left of no events.
    ///
    /// # Errors
    /// `Memory` where a growth was refused.
    pub fn new(alloc: Global, config: Config) -> Result<Rest, Memory>
        requires { config.stop ≡ false }
        ensures config { IfOk result (λ rest. rest.world.config ≡ config) }
        ensures none { IfOk result (λ rest. (omitted : Omitted) → IsRestOf omitted [] rest) }
    {
        let rows = no_marks(alloc)?;
        let world = RecordedWorld::new(alloc, config)?;
        Ok(Rest {
            world,
            places: Vec::new(alloc),
            rows,
        })
    }

    /// Lets the last event of the whole log, at this position, happen after what is left of those before
    /// it, unless it is left out.
    ///
    /// # Errors
    /// `Refused` where it finds no node in the graph of the rest; `Memory` where a growth was refused.
    pub fn follow(
        &mut self,
        left: &LeftOut,
        events: &[Event],
        position: usize,
    ) -> Result<(), LogReplayFault>
        requires last { length events.now ≡ position + 1 }
        requires few { length events.now ≤ self.old.world.config.events }
        requires well_formed { IsWellFormed self.old.world.config.bounds events.now }
        requires stands { IsRestOf (left_of left.now) (take position events.now) self.old }
        ensures stands { OnOk result (IsRestOf (left_of left.now) events.now self.new) }
        ensures config { self.new.world.config ≡ self.old.world.config }
        ensures fault { IfErr result (IsFaultOfLast (left_of left.now) self.old.world.config events.now position) }
    {
        if !stays_at(&mut self.rows, left, events, position) {
            return Ok(());
        }
        self.push(&events[position], position)
    }

    /// Lets an event happen that stands at this position of the whole log.
    ///
    /// # Errors
    /// Why it can't, at this position.
    fn push(&mut self, event: &Event, position: usize) -> Result<(), LogReplayFault>
        requires { position < 4294967296 }
        ensures log { OnOk result (self.new.world.log ≡ self.old.world.log ++ event.now ∷ []) }
        ensures config { self.new.world.config ≡ self.old.world.config }
        ensures places { OnOk result (self.new.places.items ≡ self.old.places.items ++ position ∷ []) }
        ensures rows { self.new.rows.items ≡ self.old.rows.items }
        ensures fault { IfErr result (IsMovedFault self.old.world.config self.old.world.log event.now position) }
    {
        if reserve(&mut self.places, 1).is_err() {
            return Err(LogReplayFault::Memory);
        }
        match self.world.replay(event) {
            Ok(()) => {
                self.places.push_reserved(position as u32);
                Ok(())
            }
            Err(fault) => Err(fault_at(position, fault)),
        }
    }

    /// Tells the alarm of what is left, at its positions in the whole log, if there is one.
    ///
    /// # Errors
    /// `Replay` with `Memory` where a growth was refused; `Write` where the sink failed.
    pub fn tell<O: Sink>(&self, alloc: Global, sink: &mut O) -> Result<(), WatchFault>
        requires { length self.now.places.items ≡ length self.now.world.log }
        ensures told { TellsOrFails self.now.world.log (slice_index self.now.places.items) (O.contents sink.old) (O.contents sink.new) result }
        ensures writes { O.failures sink.new ≡ write_failures result (O.failures sink.old) }
    {
        let Some(alarm) = self.world.alarm() else {
            return Ok(());
        };
        let Ok(moved) = alarm_as_read(alloc, alarm, &self.places) else {
            return Err(WatchFault::Replay(LogReplayFault::Memory));
        };
        match alarm_line(&moved, sink) {
            Ok(()) => Ok(()),
            Err(WriteFault) => Err(WatchFault::Write),
        }
    }

    /// What is left, to which no event comes any more.
    pub fn close(self) -> ClosedRest
        ensures closed { result.closed ≡ self.world }
        ensures places { result.places.items ≡ self.places.items }
    {
        let Rest { world, places, .. } = self;
        ClosedRest {
            closed: world.close(),
            places,
        }
    }
}
