//! What follows from the events of a run.
ghost use Rattle.std.specs.Prelude.{◌≡◌, [], ◌∷◌, ◌++◌, List, Some, take, slice_get, IsTrue, IfOk, OnOk, OnErr};
ghost use Rattle.velo_events.specs.declared.event.Event.{Event as EventOf};
ghost use Rattle.velo_events.specs.Block.{owner};
ghost use Rattle.velo_events.specs.Graph.{HasCycle};
ghost use Rattle.velo_events.specs.WellFormed.{IsWellFormed, MayFollow};
ghost use Rattle.velo_arena.specs.Slots.{limit_of};
ghost use Rattle.velo_heap.specs.Contents.{bounds_of};
ghost use Rattle.velo_tables.specs.Clocks.{AreClocksOf};
ghost use Rattle.velo_world.specs.World.{FindsNoNode};
ghost use Rattle.velo_world.specs.Analysis.{ComesNext, HasRoomForNext, FindsRoom, HasSlotFor, IsAnalysisOf, IsWatched, Raises};

use crate::first_cycle::{Closing, alarm_at};
use crate::node_room::make_node_room;
use smallvec::SmallVec;
use std::alloc::Global;
use velo_arena::GraphFull;
use velo_blame::Clocks;
use velo_events::{Config, Event, MAX_OPEN_BLOCKS, Memory, Resolved};
use velo_heap::Heap;
use velo_monitor::{Monitor, Seen};
use velo_traces::Block;

/// The first event that closed a cycle.
#[derive(Drop, PartialEq, Eq)]
pub struct Alarm {
    /// Its position in the log.
    pub position: usize,
    /// The first position of its transaction.
    pub transaction: usize,
    /// The blocks to blame: those that its thread has open there and that are not self-serializable in the events up to
    /// it, outermost first.
    pub blamed: SmallVec<Block, MAX_OPEN_BLOCKS>,
}

/// What an action came to.
#[derive(Clone, Copy, PartialEq, Eq)]
pub struct Reply {
    /// The position of its event.
    pub position: usize,
    /// The value that a read read.
    pub value: Option<u64>,
    /// Whether an alarm is kept after it.
    pub alarmed: bool,
}

/// What follows from the events of a run: heap, graph, clocks and alarm.
#[derive(Drop)]
pub struct Analysis {
    /// The heap that the events leave.
    pub heap: Heap,
    /// The monitor of the events before the alarm.
    pub monitor: Monitor,
    /// The clocks of the events before the alarm.
    pub clocks: Clocks,
    /// The alarm, once an event has closed a cycle.
    pub alarm: Option<Alarm>,
    /// Where an alarm takes what it needs.
    pub alloc: Global,
}

impl Analysis {
    /// The analysis of no events.
    ///
    /// # Errors
    /// `Memory` where a growth was refused.
    pub fn new(alloc: Global, config: &Config) -> Result<Analysis, Memory>
        ensures bounds { IfOk result (λ analysis. bounds_of analysis.heap ≡ config.now.bounds) }
        ensures nodes { IfOk result (λ analysis. limit_of analysis.monitor.nodes.slots ≡ config.now.nodes) }
        ensures follows { IfOk result (λ analysis. IsAnalysisOf analysis []) }
    {
        let heap = Heap::new(alloc, config)?;
        let monitor = Monitor::new(alloc, config)?;
        let clocks = Clocks::new(alloc, config)?;
        Ok(Analysis {
            heap,
            monitor,
            clocks,
            alarm: None,
            alloc,
        })
    }

    /// Makes room for the node of the next event, if it needs one. After an alarm no event needs one. The events are those so
    /// far.
    ///
    /// # Errors
    /// `GraphFull` where there may be too few nodes for a compaction. Nothing changes then.
    #[inline]
    pub fn make_node_room(
        &mut self,
        events: &[Event],
        event: &Event,
        config: &Config,
    ) -> Result<(), GraphFull>
        requires limit { limit_of self.old.monitor.nodes.slots ≡ config.now.nodes }
        requires bounds { bounds_of self.old.heap ≡ config.now.bounds }
        requires stands { IsAnalysisOf self.old events.now }
        requires follows { MayFollow (bounds_of self.old.heap) events.now event.now }
        ensures heap { self.new.heap ≡ self.old.heap }
        ensures limit { limit_of self.new.monitor.nodes.slots ≡ config.now.nodes }
        ensures stands { IsAnalysisOf self.new events.now }
        ensures slot { OnOk result (HasSlotFor self.new events.now event.now) }
        ensures full { OnErr result (FindsNoNode config.now.bounds.threads events.now event.now config.now.nodes) }
        ensures same { OnErr result (self.new ≡ self.old) }
    {
        if self.alarm.is_some() {
            return Ok(());
        }
        make_node_room(&mut self.monitor, events, event, config)
    }

    /// Makes room for the next event, which finds a slot for its node if it needs one. After an alarm no event needs room.
    ///
    /// # Errors
    /// `Memory` where a growth was refused. What follows from the events is as before then.
    #[inline(always)]
    pub fn reserve_for(&mut self, event: &Resolved<'_>) -> Result<(), Memory>
        ensures heap { self.new.heap ≡ self.old.heap }
        ensures nodes { self.new.monitor.nodes ≡ self.old.monitor.nodes }
        ensures follows { (trace : List EventOf) → IsAnalysisOf self.old trace → IsAnalysisOf self.new trace }
        ensures room { OnOk result (FindsRoom self.old self.new event.now) }
    {
        if self.alarm.is_some() {
            return Ok(());
        }
        if self.has_room_for(event) {
            return Ok(());
        }
        self.grow_for(event.event())
    }

    /// Whether monitor and clocks have room for the next event. It makes no call, so that an event that finds room, as most
    /// do, pays for a few comparisons alone.
    #[inline(always)]
    fn has_room_for(&self, event: &Resolved<'_>) -> bool
        ensures { IsTrue result → FindsRoom self.now self.now event.now }
    {
        self.clocks.has_room_for(event) && self.monitor.has_room_for(event)
    }

    /// Makes the room. It stands out of line, for the events that find none.
    #[inline(never)]
    fn grow_for(&mut self, event: &Event) -> Result<(), Memory>
        ensures heap { self.new.heap ≡ self.old.heap }
        ensures nodes { self.new.monitor.nodes ≡ self.old.monitor.nodes }
        ensures follows { (trace : List EventOf) → IsAnalysisOf self.old trace → IsAnalysisOf self.new trace }
        ensures room { OnOk result (FindsRoom self.old self.new event.now) }
    {
        self.clocks.reserve_for(event)?;
        self.monitor.reserve(event)
    }

    /// Takes in the event at the position, which may follow those before it and for which there is room.
    #[inline(always)]
    pub fn take_in(&mut self, events: &[Event], position: usize, event: &Resolved<'_>)
        requires here { slice_get events.now position ≡ Some event.now }
        requires next { ComesNext self.old (take position events.now) event.now }
        requires room { HasRoomForNext self.old (take position events.now) event.now }
        ensures bounds { bounds_of self.new.heap ≡ bounds_of self.old.heap }
        ensures nodes { limit_of self.new.monitor.nodes.slots ≡ limit_of self.old.monitor.nodes.slots }
        ensures follows { IsAnalysisOf self.new (take position events.now ++ event.now ∷ []) }
    {
        self.watch(events, position, event);
        self.heap.apply(event.event());
    }

    /// Lets monitor and clocks see the event, unless an alarm is kept already, and raises the alarm if it closes a cycle.
    #[inline(always)]
    fn watch(&mut self, events: &[Event], position: usize, event: &Resolved<'_>)
        requires here { slice_get events.now position ≡ Some event.now }
        requires next { ComesNext self.old (take position events.now) event.now }
        requires room { HasRoomForNext self.old (take position events.now) event.now }
        ensures heap { self.new.heap ≡ self.old.heap }
        ensures nodes { limit_of self.new.monitor.nodes.slots ≡ limit_of self.old.monitor.nodes.slots }
        ensures watched { IsWatched self.new (bounds_of self.old.heap) (take position events.now ++ event.now ∷ []) }
    {
        if self.alarm.is_some() {
            return;
        }
        match self.monitor.observe_resolved(position, event) {
            Seen::Quiet => self.clocks.note_resolved(position, event),
            Seen::Closes { transaction } => {
                self.raise_alarm(events, position, event.event(), transaction);
            }
        }
    }

    /// Raises the alarm of the event at the position, which closes the first cycle. It stands out of line: an event that
    /// raises none does not pay for the list of blocks.
    #[inline(never)]
    fn raise_alarm(&mut self, events: &[Event], position: usize, event: &Event, transaction: usize)
        requires here { slice_get events.now position ≡ Some event.now }
        requires clocks { AreClocksOf self.old.clocks.state (take position events.now) }
        requires well_formed { IsWellFormed self.old.clocks.bounds (take position events.now ++ event.now ∷ []) }
        requires acyclic { ¬ HasCycle (take position events.now) }
        requires closes { HasCycle (take position events.now ++ event.now ∷ []) }
        requires transaction { transaction ≡ owner (take position events.now ++ event.now ∷ []) position }
        ensures { Raises self.old (take position events.now ++ event.now ∷ []) position self.new }
    {
        let so_far = &events[..position + 1];
        let closing = Closing {
            position,
            transaction,
        };
        self.alarm = Some(alarm_at(self.alloc, &self.clocks, so_far, closing));
    }
}
