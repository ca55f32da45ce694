//! The world of a recorded log whose events come one by one.
ghost use Rattle.std.specs.Prelude.{◌≡◌, ◌≤◌, ◌<◌, [], ◌∷◌, ◌++◌, None, length, false, IfOk, IfErr, IfSome, IfNone, OnOk, OnErr};
ghost use Rattle.velo_events.specs.Graph.{HasCycle};
ghost use Rattle.velo_events.specs.WellFormed.{IsWellFormed};
ghost use Rattle.velo_tables.specs.LastAccesses.{HasRoomFor};
ghost use Rattle.velo_traces.specs.Flaws.{flaw_of};
ghost use Rattle.velo_world.specs.World.{IsAlarm, opening};
ghost use Rattle.velo_world.specs.Faults.{world_of, IsFaultAtEvent};
ghost use Rattle.velo_world.specs.FirstCycle.{ClosesFirst};
ghost use Rattle.velo_world.specs.LogReplay.{IsLogReplayOf};
ghost use Rattle.velo_world.specs.NodeRoom.{HasSlot};
ghost use Rattle.velo_world.specs.RecordedRun.{recorded_state, FollowsFromItsEvents};

use crate::analysis::Alarm;
use crate::closed::Closed;
use crate::first_cycle::{Closing, alarm_at, clocks_of};
use crate::log_replay::{LogReplay, LogReplayFault, judge};
use std::alloc::Global;
use std::marker::Model;
use velo_events::{Config, Event, Kind, Memory, Resolved};
use velo_traces::Trace;

/// The world of a recorded log whose events come one by one. Nobody acts in it, so it has no shares, and clocks are made only
/// where an event closes the first cycle.
#[derive(Drop)]
pub struct RecordedWorld {
    run: RecordedRun,
}

/// A recorded log so far, and what follows from it.
#[derive(Drop)]
pub struct RecordedRun {
    /// What it was opened with.
    pub config: Config,
    /// The events so far.
    pub log: Trace,
    /// What follows from them. After an alarm no monitor does.
    pub parts: LogReplay,
    /// Their alarm.
    pub alarm: Option<Alarm>,
    /// Where an alarm takes what it needs.
    pub alloc: Global,
}

impl Model for RecordedWorld {
    ghost use Rattle.velo_world.specs.World.{WorldState};

    ghost Value = { WorldState };

    ghost use Rattle.velo_world.specs.InsideRecorded.{state_in, KeepsRun};

    ghost view = { state_in };

    ghost invariant = { KeepsRun };
}

impl RecordedWorld {
    /// The world of a log without events. The configuration's `stop` has to be off.
    ///
    /// # Errors
    /// `Memory` where a growth was refused.
    pub fn new(alloc: Global, config: Config) -> Result<RecordedWorld, Memory>
        requires goes_on { config.stop ≡ false }
        ensures { IfOk result (λ world. world ≡ opening config) }
    {
        let parts = LogReplay::new(alloc, &config)?;
        Ok(RecordedWorld {
            run: RecordedRun {
                config,
                log: Trace::new(alloc),
                parts,
                alarm: None,
                alloc,
            },
        })
    }

    /// Lets the next event of the log come about.
    ///
    /// # Errors
    /// `Refused` or `WrongValue` where it can't: a refusal comes before a wrong value, and this before the limits of events and
    /// of nodes. `Memory` where a growth was refused. Nothing changes then.
    pub fn replay(&mut self, event: &Event) -> Result<(), LogReplayFault>
        ensures ok { OnOk result (self.new ≡ world_of self.old.config (self.old.log ++ event.now ∷ [])) }
        ensures same { OnErr result (self.new ≡ self.old) }
        ensures fault { IfErr result (λ fault. IsFaultAtEvent self.old.config self.old.log event.now fault) }
    {
        self.run.replay(event)
    }

    /// What the world was opened with.
    pub fn config(&self) -> Config
        ensures { result ≡ self.now.config }
    {
        self.run.config
    }

    /// The events so far.
    pub fn log(&self) -> &Trace
        ensures events { result.now.events ≡ self.now.log }
        ensures well_formed { IsWellFormed self.now.config.bounds self.now.log }
        ensures limit { length self.now.log ≤ self.now.config.events }
    {
        &self.run.log
    }

    /// The alarm, if the log has a cycle: that of the first event that closed one.
    pub fn alarm(&self) -> Option<&Alarm>
        ensures none { IfNone result (¬ HasCycle self.now.log) }
        ensures some { IfSome result (λ alarm. IsAlarm self.now.log alarm.now) }
    {
        self.run.alarm.as_ref()
    }

    /// The world, to which no event comes any more.
    pub fn close(self) -> Closed
        ensures { result ≡ self }
    {
        let RecordedRun {
            config,
            log,
            parts,
            alarm,
            ..
        } = self.run;
        parts.into_closed(config, log, alarm)
    }
}

impl RecordedRun {
    /// Lets the next event come about.
    ///
    /// # Errors
    /// Why it can't. Nothing changes then.
    fn replay(&mut self, event: &Event) -> Result<(), LogReplayFault>
        requires stands { FollowsFromItsEvents self.old }
        ensures stands { FollowsFromItsEvents self.new }
        ensures ok { OnOk result (recorded_state self.new ≡ world_of self.old.config (self.old.log.events ++ event.now ∷ [])) }
        ensures same { OnErr result (recorded_state self.new ≡ recorded_state self.old) }
        ensures fault { IfErr result (λ fault. IsFaultAtEvent self.old.config self.old.log.events event.now fault) }
    {
        if self.alarm.is_some() {
            return self.follow(event);
        }
        let event = Resolved::of(event);
        // reads and writes have a path each, on which nothing asks for their kind again
        match event.kind() {
            Kind::Read(..) => self.replay_resolved(&event),
            Kind::Write(..) => self.replay_resolved(&event),
            _ => self.replay_resolved(&event),
        }
    }

    /// Lets the next event, resolved, come about, where those before it have no cycle.
    ///
    /// # Errors
    /// Why it can't. Nothing changes then.
    #[inline(always)]
    fn replay_resolved(&mut self, event: &Resolved<'_>) -> Result<(), LogReplayFault>
        requires quiet { self.old.alarm ≡ None }
        requires stands { FollowsFromItsEvents self.old }
        ensures stands { FollowsFromItsEvents self.new }
        ensures ok { OnOk result (recorded_state self.new ≡ world_of self.old.config (self.old.log.events ++ event.now ∷ [])) }
        ensures same { OnErr result (recorded_state self.new ≡ recorded_state self.old) }
        ensures fault { IfErr result (λ fault. IsFaultAtEvent self.old.config self.old.log.events event.now fault) }
    {
        match self.make_room(event) {
            Ok(()) => self.take_in(event),
            Err(fault) => Err(fault),
        }
    }

    /// Makes room for the next event, if it may come next.
    ///
    /// # Errors
    /// Why it may not. Nothing changes then.
    #[inline(always)]
    fn make_room(&mut self, event: &Resolved<'_>) -> Result<(), LogReplayFault>
        requires quiet { self.old.alarm ≡ None }
        requires stands { FollowsFromItsEvents self.old }
        ensures stands { FollowsFromItsEvents self.new }
        ensures quiet { self.new.alarm ≡ None }
        ensures same { recorded_state self.new ≡ recorded_state self.old }
        ensures flawless { OnOk result (flaw_of self.new.config.bounds self.new.log.events event.now ≡ None) }
        ensures short { OnOk result (length self.new.log.events < self.new.config.events) }
        ensures log { OnOk result (0 < self.new.log.room) }
        ensures slot { OnOk result (HasSlot self.new.parts.monitor self.new.log.events event.now) }
        ensures room { OnOk result (HasRoomFor self.new.parts.monitor.kept event.now) }
        ensures fault { IfErr result (λ fault. IsFaultAtEvent self.old.config self.old.log.events event.now fault) }
    {
        self.parts
            .make_room(&self.config, self.log.as_slice(), event)?;
        match self.log.reserve_one() {
            Ok(()) => Ok(()),
            Err(Memory) => Err(LogReplayFault::Memory),
        }
    }

    /// Takes in the next event, for which there is room.
    ///
    /// # Errors
    /// `Memory` where it closes the first cycle and a growth for the clocks was refused. Nothing changes then.
    #[inline(always)]
    fn take_in(&mut self, event: &Resolved<'_>) -> Result<(), LogReplayFault>
        requires quiet { self.old.alarm ≡ None }
        requires stands { FollowsFromItsEvents self.old }
        requires flawless { flaw_of self.old.config.bounds self.old.log.events event.now ≡ None }
        requires short { length self.old.log.events < self.old.config.events }
        requires log { 0 < self.old.log.room }
        requires slot { HasSlot self.old.parts.monitor self.old.log.events event.now }
        requires room { HasRoomFor self.old.parts.monitor.kept event.now }
        ensures stands { FollowsFromItsEvents self.new }
        ensures ok { OnOk result (recorded_state self.new ≡ world_of self.old.config (self.old.log.events ++ event.now ∷ [])) }
        ensures same { OnErr result (recorded_state self.new ≡ recorded_state self.old) }
        ensures fault { IfErr result (λ fault. IsFaultAtEvent self.old.config self.old.log.events event.now fault) }
    {
        let closing = self.parts.observe(&self.config, self.log.as_slice(), event);
        match closing {
            None => {
                self.append(event.event());
                Ok(())
            }
            Some(closing) => self.raise_alarm(event.event(), closing),
        }
    }

    /// Takes in the next event, which closes the first cycle, and raises its alarm. It stands out of line, as most logs have no
    /// such event.
    ///
    /// # Errors
    /// `Memory` where a growth for the clocks was refused. Nothing changes then.
    #[inline(never)]
    fn raise_alarm(&mut self, event: &Event, closing: Closing) -> Result<(), LogReplayFault>
        requires stands { FollowsFromItsEvents self.old }
        requires closes { ClosesFirst (self.old.log.events ++ event.now ∷ []) closing }
        requires last { closing.position ≡ length self.old.log.events }
        requires flawless { flaw_of self.old.config.bounds self.old.log.events event.now ≡ None }
        requires short { length self.old.log.events < self.old.config.events }
        requires log { 0 < self.old.log.room }
        ensures stands { FollowsFromItsEvents self.new }
        ensures ok { OnOk result (recorded_state self.new ≡ world_of self.old.config (self.old.log.events ++ event.now ∷ [])) }
        ensures same { OnErr result (recorded_state self.new ≡ recorded_state self.old) }
        ensures fault { IfErr result (λ fault. IsFaultAtEvent self.old.config self.old.log.events event.now fault) }
    {
        let Ok(clocks) = clocks_of(self.alloc, &self.config, self.log.as_slice()) else {
            return Err(LogReplayFault::Memory);
        };
        self.append(event);
        let alarm = alarm_at(self.alloc, &clocks, self.log.as_slice(), closing);
        self.alarm = Some(alarm);
        Ok(())
    }

    /// Lets the next event come about, where those before it have a cycle.
    ///
    /// # Errors
    /// Why it can't. Nothing changes then.
    fn follow(&mut self, event: &Event) -> Result<(), LogReplayFault>
        requires alarmed { ¬ (self.old.alarm ≡ None) }
        requires stands { FollowsFromItsEvents self.old }
        ensures stands { FollowsFromItsEvents self.new }
        ensures ok { OnOk result (recorded_state self.new ≡ world_of self.old.config (self.old.log.events ++ event.now ∷ [])) }
        ensures same { OnErr result (recorded_state self.new ≡ recorded_state self.old) }
        ensures fault { IfErr result (λ fault. IsFaultAtEvent self.old.config self.old.log.events event.now fault) }
    {
        judge(&self.parts.heap, &self.config, self.log.len(), event)?;
        match self.log.reserve_one() {
            Ok(()) => {
                self.append(event);
                Ok(())
            }
            Err(Memory) => Err(LogReplayFault::Memory),
        }
    }

    /// Appends the event, for which there is room, and lets heap and book follow it.
    #[inline(always)]
    fn append(&mut self, event: &Event)
        requires stands { IsLogReplayOf self.old.config self.old.parts self.old.log.events 0 }
        requires flawless { flaw_of self.old.config.bounds self.old.log.events event.now ≡ None }
        requires short { length self.old.log.events < self.old.config.events }
        requires log { 0 < self.old.log.room }
        ensures stands { IsLogReplayOf self.new.config self.new.parts self.new.log.events 0 }
        ensures log { self.new.log.events ≡ self.old.log.events ++ event.now ∷ [] }
        ensures config { self.new.config ≡ self.old.config }
        ensures alarm { self.new.alarm ≡ self.old.alarm }
        ensures monitor { self.new.parts.monitor ≡ self.old.parts.monitor }
    {
        self.parts.enter(&self.config, self.log.as_slice(), event);
        self.log.push_reserved(*event);
    }
}
