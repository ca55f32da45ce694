//! A recorded log, whose events come about again one after another.
ghost use Rattle.std.specs.Prelude.{◌≡◌, ◌<◌, ◌+◌, [], ◌∷◌, ◌++◌, List, None, Some, false, length, take, slice_get, IfOk, OnOk, IfErr};
ghost use Rattle.velo_events.specs.declared.event.Event.{Event as EventOf};
ghost use Rattle.velo_heap.specs.Contents.{bounds_of, ForItsTraces, IsHeapOf};
ghost use Rattle.velo_tables.specs.LastAccesses.{HasRoomFor};
ghost use Rattle.velo_traces.specs.Flaws.{flaw_of};
ghost use Rattle.velo_world.specs.World.{AlarmOf, CompletesShares, HoldsLiveShares};
ghost use Rattle.velo_world.specs.Faults.{world_of, IsFaultAtEvent, IsFaultOfLog};
ghost use Rattle.velo_world.specs.FirstCycle.{AreNoted, ClosesFirst, events_watched};
ghost use Rattle.velo_world.specs.NodeRoom.{HasSlot, IsLimitedMonitorOf};
ghost use Rattle.velo_world.specs.LogReplay.{ComesTo, ComesToCycle, HasSeen, IsLogReplayOf, IsQuiet, IsReplayed};

use crate::analysis::{Alarm, Analysis};
use crate::closed::Closed;
use crate::first_cycle::{Closing, alarm_of, noted};
use crate::logged_run::LoggedRun;
use crate::node_room::make_node_room;
use crate::world::World;
use std::alloc::Global;
use thiserror::Error;
use velo_blame::Clocks;
use velo_events::{Config, Event, Kind, Memory, Refusal, Resolved, ThreadId};
use velo_heap::Heap;
use velo_ledger::{Book, Shares};
use velo_monitor::{Monitor, Seen};
use velo_traces::{Flaw, Trace};

/// Why a recorded log can't come about again. Positions count the events from 0.
#[derive(Clone, Copy, Debug, PartialEq, Eq, Error)]
pub enum LogReplayFault {
    /// The event at the position is refused.
    #[error("refused {} at {position}", *.refusal as u8)]
    Refused { position: usize, refusal: Refusal },
    /// The event at the position reads a value that the variable does not have.
    #[error("wrong value at {position}")]
    WrongValue { position: usize },
    /// A growth was refused.
    #[error("out of memory")]
    Memory,
}

/// The parts of a world, but for its log, its alarm and the clocks, which an alarm alone asks for.
#[derive(Drop)]
pub struct LogReplay {
    pub heap: Heap,
    /// The monitor of the events before the one that closes the first cycle.
    monitor: Monitor,
    book: Book,
    /// The shares that are not handed out yet. None is while events come about: each would have to follow its row.
    kept: Shares,
    shares: Shares,
}

impl World {
    /// The world of a recorded log, whose events came about again one after another, with the threads' shares at their
    /// places. The log becomes the world's. The configuration's `stop` has to be off.
    ///
    /// # Errors
    /// `Refused` or `WrongValue` for the first event that can't come about: a refusal comes before a wrong value, and
    /// this before the limits of events and of nodes. `Memory` where a growth was refused.
    pub fn from_log(
        alloc: Global,
        config: Config,
        log: Trace,
    ) -> Result<(World, Shares), LogReplayFault>
        requires goes_on { config.stop ≡ false }
        ensures world { IfOk result (λ replayed. replayed.0 ≡ world_of config log.events) }
        ensures ready { IfOk result (λ replayed. HoldsLiveShares replayed.0 replayed.1) }
        ensures complete { IfOk result (λ replayed. CompletesShares replayed.0 replayed.1) }
        ensures fault { IfErr result (λ fault. IsFaultOfLog config log.events fault) }
    {
        let (mut replay, closing) = replayed(alloc, &config, log.as_slice())?;
        match noted(alloc, &config, log.as_slice(), closing) {
            Ok((clocks, alarm)) => {
                replay.hand_out(&config);
                Ok(replay.into_world(alloc, config, log, (clocks, alarm)))
            }
            Err(Memory) => {
                drop((replay, log));
                Err(LogReplayFault::Memory)
            }
        }
    }
}

impl Closed {
    /// The world of a recorded log, whose events came about again one after another, after its end. The log becomes the
    /// world's. The configuration's `stop` has to be off. Clocks are made only where a cycle is closed.
    ///
    /// # Errors
    /// Those of [`World::from_log`].
    pub fn of_log(alloc: Global, config: Config, log: Trace) -> Result<Closed, LogReplayFault>
        requires goes_on { config.stop ≡ false }
        ensures closed { IfOk result (λ closed. closed ≡ world_of config log.events) }
        ensures fault { IfErr result (λ fault. IsFaultOfLog config log.events fault) }
    {
        let (replay, closing) = replayed(alloc, &config, log.as_slice())?;
        match alarm_of(alloc, &config, log.as_slice(), closing) {
            Ok(alarm) => Ok(replay.into_closed(config, log, alarm)),
            Err(Memory) => {
                drop((replay, log));
                Err(LogReplayFault::Memory)
            }
        }
    }
}

/// Lets all events of a log come about, and returns with their parts the one that closes the first cycle, if one does.
fn replayed(
    alloc: Global,
    config: &Config,
    events: &[Event],
) -> Result<(LogReplay, Option<Closing>), LogReplayFault>
    ensures ok { IfOk result (λ replayed. IsReplayed config.now events.now replayed.0 replayed.1) }
    ensures fault { IfErr result (λ fault. IsFaultOfLog config.now events.now fault) }
{
    let Ok(mut replay) = LogReplay::new(alloc, config) else {
        return Err(LogReplayFault::Memory);
    };
    match replay.replay_events(config, events) {
        Ok(closing) => Ok((replay, closing)),
        Err(fault) => {
            drop(replay);
            Err(fault)
        }
    }
}

impl LogReplay {
    /// No event has come about yet.
    pub fn new(alloc: Global, config: &Config) -> Result<LogReplay, Memory>
        ensures { IfOk result (λ replay. IsQuiet config.now replay []) }
    {
        let (book, kept) = Book::open(alloc, config.run, config.bounds.threads)?;
        let shares = Shares::none(alloc, config.bounds.threads)?;
        let heap = Heap::new(alloc, config)?;
        let monitor = Monitor::new(alloc, config)?;
        Ok(LogReplay {
            heap,
            monitor,
            book,
            kept,
            shares,
        })
    }

    /// Lets all events of a log come about. The one that closes the first cycle, if one does.
    fn replay_events(
        &mut self,
        config: &Config,
        events: &[Event],
    ) -> Result<Option<Closing>, LogReplayFault>
        requires start { IsQuiet config.now self.old [] }
        ensures ok { IfOk result (IsReplayed config.now events.now self.new) }
        ensures fault { IfErr result (λ fault. IsFaultOfLog config.now events.now fault) }
    {
        match self.replay_to_cycle(config, events)? {
            None => Ok(None),
            Some(closing) => {
                self.replay_rest(config, events, closing)?;
                Ok(Some(closing))
            }
        }
    }

    /// Lets the events come about up to the one that closes the first cycle, or all.
    fn replay_to_cycle(
        &mut self,
        config: &Config,
        events: &[Event],
    ) -> Result<Option<Closing>, LogReplayFault>
        requires start { IsQuiet config.now self.old [] }
        ensures ok { IfOk result (ComesTo config.now events.now (length events.now) self.new) }
        ensures fault { IfErr result (λ fault. IsFaultOfLog config.now events.now fault) }
    {
        for position in 0..events.len() {
            if let Some(closing) = self.replay_next(config, events, position)? {
                return Ok(Some(closing));
            }
        }
        Ok(None)
    }

    /// Lets the event at the position come about, where those before it did and have no cycle.
    #[inline(always)]
    fn replay_next(
        &mut self,
        config: &Config,
        events: &[Event],
        position: usize,
    ) -> Result<Option<Closing>, LogReplayFault>
        requires within { position < length events.now }
        requires stands { IsQuiet config.now self.old (take position events.now) }
        ensures ok { IfOk result (ComesTo config.now events.now (position + 1) self.new) }
        ensures fault { IfErr result (λ fault. IsFaultOfLog config.now events.now fault) }
    {
        let event = Resolved::of(&events[position]);
        // reads and writes have a path each, on which nothing asks for their kind again
        match event.kind() {
            Kind::Read(..) => self.replay_resolved(config, events, position, &event),
            Kind::Write(..) => self.replay_resolved(config, events, position, &event),
            _ => self.replay_resolved(config, events, position, &event),
        }
    }

    /// Lets the event at the position, resolved, come about, where those before it did and have no cycle.
    #[inline(always)]
    fn replay_resolved(
        &mut self,
        config: &Config,
        events: &[Event],
        position: usize,
        event: &Resolved<'_>,
    ) -> Result<Option<Closing>, LogReplayFault>
        requires here { slice_get events.now position ≡ Some event.now }
        requires stands { IsQuiet config.now self.old (take position events.now) }
        ensures ok { IfOk result (ComesTo config.now events.now (position + 1) self.new) }
        ensures fault { IfErr result (λ fault. IsFaultOfLog config.now events.now fault) }
    {
        let past = &events[..position];
        match self.make_room(config, past, event) {
            Ok(()) => Ok(self.take_in(config, past, event)),
            Err(fault) => Err(fault),
        }
    }

    /// Makes room for the event after these, which have no cycle, if it may come next.
    ///
    /// # Errors
    /// Why it can't. What follows from these events is as before then.
    #[inline(always)]
    pub fn make_room(
        &mut self,
        config: &Config,
        past: &[Event],
        event: &Resolved<'_>,
    ) -> Result<(), LogReplayFault>
        requires stands { IsQuiet config.now self.old past.now }
        ensures stands { IsQuiet config.now self.new past.now }
        ensures flawless { OnOk result (flaw_of config.now.bounds past.now event.now ≡ None) }
        ensures short { OnOk result (length past.now < config.now.events) }
        ensures slot { OnOk result (HasSlot self.new.monitor past.now event.now) }
        ensures room { OnOk result (HasRoomFor self.new.monitor.kept event.now) }
        ensures fault { IfErr result (λ fault. IsFaultAtEvent config.now past.now event.now fault) }
    {
        let recorded = event.event();
        judge(&self.heap, config, past.len(), recorded)?;
        if make_node_room(&mut self.monitor, past, recorded, config).is_err() {
            return Err(LogReplayFault::Refused {
                position: past.len(),
                refusal: Refusal::GraphFull,
            });
        }
        if self.monitor.has_room_for(event) {
            return Ok(());
        }
        match self.monitor.reserve(recorded) {
            Ok(()) => Ok(()),
            Err(Memory) => Err(LogReplayFault::Memory),
        }
    }

    /// Takes in the event after these, for which there is room. The event itself, if it closes the first cycle.
    #[inline(always)]
    fn take_in(&mut self, config: &Config, past: &[Event], event: &Resolved<'_>) -> Option<Closing>
        requires stands { IsQuiet config.now self.old past.now }
        requires flawless { flaw_of config.now.bounds past.now event.now ≡ None }
        requires short { length past.now < config.now.events }
        requires slot { HasSlot self.old.monitor past.now event.now }
        requires room { HasRoomFor self.old.monitor.kept event.now }
        ensures entered { IsLogReplayOf config.now self.new (past.now ++ event.now ∷ []) 0 }
        ensures seen { HasSeen config.now self.new.monitor past.now event.now result }
    {
        let closing = self.observe(config, past, event);
        self.enter(config, past, event.event());
        closing
    }

    /// Lets the monitor see the event after these, for which there is room. The event itself, if it closes the first cycle:
    /// the monitor is still that of the events before it then.
    #[inline(always)]
    pub fn observe(
        &mut self,
        config: &Config,
        past: &[Event],
        event: &Resolved<'_>,
    ) -> Option<Closing>
        requires stands { IsQuiet config.now self.old past.now }
        requires flawless { flaw_of config.now.bounds past.now event.now ≡ None }
        requires short { length past.now < config.now.events }
        requires slot { HasSlot self.old.monitor past.now event.now }
        requires room { HasRoomFor self.old.monitor.kept event.now }
        ensures seen { HasSeen config.now self.new.monitor past.now event.now result }
        ensures entered { IsLogReplayOf config.now self.new past.now 0 }
    {
        let position = past.len();
        match self.monitor.observe_resolved(position, event) {
            Seen::Quiet => None,
            Seen::Closes { transaction } => Some(Closing {
                position,
                transaction,
            }),
        }
    }

    /// Lets heap and book follow the event after these, which may come next.
    #[inline(always)]
    pub fn enter(&mut self, config: &Config, past: &[Event], event: &Event)
        requires stands { IsLogReplayOf config.now self.old past.now 0 }
        requires flawless { flaw_of config.now.bounds past.now event.now ≡ None }
        requires short { length past.now < config.now.events }
        ensures stands { IsLogReplayOf config.now self.new (past.now ++ event.now ∷ []) 0 }
        ensures monitor { self.new.monitor ≡ self.old.monitor }
    {
        self.heap.apply(event);
        self.book.count(past.len(), event);
    }

    /// Lets the events behind the one that closes the first cycle come about. No monitor sees them.
    fn replay_rest(
        &mut self,
        config: &Config,
        events: &[Event],
        closing: Closing,
    ) -> Result<(), LogReplayFault>
        requires stands { ComesToCycle config.now events.now self.old closing }
        ensures stands { OnOk result (IsLogReplayOf config.now self.new events.now 0) }
        ensures monitor { self.new.monitor ≡ self.old.monitor }
        ensures fault { IfErr result (λ fault. IsFaultOfLog config.now events.now fault) }
    {
        for position in closing.position + 1..events.len() {
            self.follow(config, events, position)?;
        }
        Ok(())
    }

    /// Lets the event at the position come about, where those before it did and have a cycle.
    #[inline(always)]
    fn follow(
        &mut self,
        config: &Config,
        events: &[Event],
        position: usize,
    ) -> Result<(), LogReplayFault>
        requires within { position < length events.now }
        requires stands { IsLogReplayOf config.now self.old (take position events.now) 0 }
        ensures stands { OnOk result (IsLogReplayOf config.now self.new (take (position + 1) events.now) 0) }
        ensures monitor { self.new.monitor ≡ self.old.monitor }
        ensures fault { IfErr result (λ fault. IsFaultOfLog config.now events.now fault) }
    {
        let event = &events[position];
        judge(&self.heap, config, position, event)?;
        self.enter(config, &events[..position], event);
        Ok(())
    }

    /// Hands out the share of each thread that was born, and lets it say what its row does.
    fn hand_out(&mut self, config: &Config)
        requires { (trace : List EventOf) × IsLogReplayOf config.now self.old trace 0 }
        ensures stands { (trace : List EventOf) → IsLogReplayOf config.now self.old trace 0
            → IsLogReplayOf config.now self.new trace config.now.bounds.threads }
        ensures monitor { self.new.monitor ≡ self.old.monitor }
    {
        for thread in 0..config.bounds.threads {
            self.hand_to(config, ThreadId(thread));
        }
    }

    /// Hands out the share of the thread, if it was born, where those of the threads before it were handed out.
    fn hand_to(&mut self, config: &Config, thread: ThreadId)
        requires known { thread.0 < config.now.bounds.threads }
        requires stands { (trace : List EventOf) × IsLogReplayOf config.now self.old trace thread.0 }
        ensures stands { (trace : List EventOf) → IsLogReplayOf config.now self.old trace thread.0
            → IsLogReplayOf config.now self.new trace (thread.0 + 1) }
        ensures monitor { self.new.monitor ≡ self.old.monitor }
    {
        if self.heap.status(thread).is_unborn() {
            return;
        }
        let Some(mut share) = self.kept.take(thread) else {
            unreachable!()
        };
        self.book.settle(&mut share);
        let Ok(()) = self.shares.put(share) else {
            unreachable!()
        };
    }

    /// The world of the log that came about, with its clocks and its alarm.
    fn into_world(
        self,
        alloc: Global,
        config: Config,
        log: Trace,
        noted: (Clocks, Option<Alarm>),
    ) -> (World, Shares)
        requires stands { IsLogReplayOf config self log.events config.bounds.threads }
        requires noted { AreNoted config.bounds log.events noted }
        requires watched { IsLimitedMonitorOf config self.monitor (events_watched log.events noted.1) }
        ensures world { result.0 ≡ world_of config log.events }
        ensures ready { HoldsLiveShares result.0 result.1 }
        ensures complete { CompletesShares result.0 result.1 }
    {
        let LogReplay {
            heap,
            monitor,
            book,
            kept,
            shares,
        } = self;
        let (clocks, alarm) = noted;
        let analysis = Analysis {
            heap,
            monitor,
            clocks,
            alarm,
            alloc,
        };
        let logged = LoggedRun {
            config,
            halted: false,
            log,
            analysis,
        };
        (
            World {
                logged,
                book,
                kept,
                alloc,
            },
            shares,
        )
    }

    /// The closed world of the log that came about, with its alarm.
    pub fn into_closed(self, config: Config, log: Trace, alarm: Option<Alarm>) -> Closed
        requires stands { IsLogReplayOf config self log.events 0 }
        requires alarm { AlarmOf log.events alarm }
        ensures { result ≡ world_of config log.events }
    {
        Closed {
            config,
            halted: false,
            log,
            heap: self.heap,
            alarm,
            book: self.book,
        }
    }
}

/// Whether the event may come next at the position, by the heap and the limit of events.
#[inline(always)]
pub fn judge(
    heap: &Heap,
    config: &Config,
    position: usize,
    event: &Event,
) -> Result<(), LogReplayFault>
    requires { bounds_of heap.now ≡ config.now.bounds }
    ensures flawless { OnOk result (ForItsTraces heap.now (λ trace.
        flaw_of (bounds_of heap.now) trace event.now ≡ None)) }
    ensures short { OnOk result (position < config.now.events) }
    ensures fault { IfErr result (λ fault. ForItsTraces heap.now (λ trace.
        position ≡ length trace → IsFaultAtEvent config.now trace event.now fault)) }
{
    match flaw_in(heap, event) {
        Some(Flaw::Refused(refusal)) => return Err(LogReplayFault::Refused { position, refusal }),
        Some(Flaw::WrongValue) => return Err(LogReplayFault::WrongValue { position }),
        None => {}
    }
    if position >= config.events as usize {
        return Err(LogReplayFault::Refused {
            position,
            refusal: Refusal::LogFull,
        });
    }
    Ok(())
}

/// Why the event can't come next, by the heap.
#[inline(always)]
fn flaw_in(heap: &Heap, event: &Event) -> Option<Flaw>
    ensures { (trace : List EventOf) → IsHeapOf heap.now trace → result ≡ flaw_of (bounds_of heap.now) trace event.now }
{
    match heap.refusal(event) {
        Some(refusal) => Some(Flaw::Refused(refusal)),
        None => {
            if heap.has_its_value(event) {
                None
            } else {
                Some(Flaw::WrongValue)
            }
        }
    }
}
