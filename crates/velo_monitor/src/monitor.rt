//! The monitor: finds the event that closes the first cycle.
ghost use Rattle.std.specs.Prelude.{◌≡◌, ◌*◌, ◌≤◌, ◌<◌, ℕ, [], ◌∷◌, ◌++◌, List, length, IsTrue, IsFalse, IfOk, IfSome, OnOk, OnErr, ◌↔◌, Some};
ghost use Rattle.std.specs.Option.{ForSome, option_to_list};
ghost use Rattle.velo_events.specs.declared.config.Bounds.{Bounds as BoundsOf};
ghost use Rattle.velo_events.specs.declared.event.Event.{Event as EventOf};
ghost use Rattle.velo_events.specs.Event.{thread_of};
ghost use Rattle.velo_events.specs.Heap.{depth_in};
ghost use Rattle.velo_events.specs.WellFormed.{MayFollow};
ghost use Rattle.velo_merge.specs.Merge.{GetsNew};
ghost use Rattle.velo_events.specs.Block.{IsTransaction};
ghost use Rattle.velo_monitor.specs.Collection.{HasManyLive, IsAccountedFor, IsGivenUp, IsHarmless};
ghost use Rattle.velo_arena.specs.declared.step.Step.{Step as StepOf};
ghost use Rattle.velo_arena.specs.Slots.{used_in, limit_of};
ghost use Rattle.velo_arena.specs.Stamps.{stamps_in};
ghost use Rattle.velo_graph.specs.Nodes.{IsSound, AddsEdges};
ghost use Rattle.velo_graph.specs.Collects.{HasNothingLeft};
ghost use Rattle.velo_merge.specs.Named.{Bears, live_stamps, HasFinished, IsAncestor};
ghost use Rattle.velo_events.specs.Place.{Place as PlaceOf, LastOf};
ghost use Rattle.velo_tables.specs.LastAccesses.{entry, steps_looked_up, HasRoomFor};
ghost use Rattle.velo_tables.specs.Others.{accesses_but_for};
ghost use Rattle.velo_monitor.specs.Watched.{IsMonitorOf, ForItsTraces};
ghost use Rattle.velo_monitor.specs.Answers.{NeedsNode, GetsNewNode, ForNext, IsNext, IsSeen};
ghost use Rattle.velo_monitor.specs.Steps.{live_slots, ReachesSome};
ghost use Rattle.velo_monitor.specs.Changed.{depth_of, CanCount, AfterInside, EndsBlock, CountsBlocks, BeginsBlock, IsPlaced, AfterOutside, ForgetsDead};

use crate::edges::{add_edges, closes_or_adds, closes_or_adds_some, open_after, reaches_some};
use crate::heirs::Heirs;
use smallvec::SmallVec;
use std::alloc::Global;
use std::marker::Model;
use velo_arena::Step;
use velo_collect::{Freed, collect};
use velo_events::growth::filled;
use velo_events::{Access, Cell, Config, Event, Kind, Memory, Resolved, ThreadId};
use velo_graph::Graph;
use velo_merge::{Placed, place};
use velo_rows::BitRow;
use velo_tables::{MAX_PREDECESSORS, Tables};

/// What one more event does to the graph.
#[derive(Clone, Copy, PartialEq, Eq)]
pub enum Seen {
    /// It closes no cycle.
    Quiet,
    /// It closes a cycle, and its transaction is on it.
    Closes { transaction: usize },
}

/// The transactions of a run that can still be on a cycle, and the last accesses.
///
/// A monitor keeps no log. It is that of the trace of the events that it took in.
#[derive(Drop)]
pub struct Monitor {
    graph: Graph<BitRow>,
    tables: Tables,
    /// How many blocks each thread has open.
    depths: Vec<u8>,
    /// The steps that the present event looks up.
    steps: SmallVec<Step, MAX_PREDECESSORS>,
    freed: Freed,
    /// Which nodes give way to which, as found by the last compaction.
    heirs: Heirs,
}

impl Model for Monitor {
    ghost use Rattle.std.specs.Prelude.{◌≡◌, ◌≤◌, length};
    ghost use Rattle.velo_arena.specs.Slots.{limit_of};
    ghost use Rattle.velo_tables.specs.declared.tables.TheConstants.{MAX_PREDECESSORS};
    ghost use Rattle.velo_monitor.specs.Watched.{Watched};
    ghost use Rattle.velo_monitor.specs.Codes.{watched_code};

    ghost Value = { Watched };

    ghost coded = { watched_code };

    ghost view = { λ m. record { nodes = m.graph; kept = m.tables; depths = m.depths.items } };

    ghost invariant = { λ m. (MAX_PREDECESSORS ≤ m.steps.capacity) × (limit_of m.graph.slots ≤ m.freed.room) × (length m.heirs ≡ limit_of m.graph.slots) };
}

impl Monitor {
    /// The monitor of the empty trace.
    ///
    /// # Errors
    /// `Memory` where a growth was refused.
    pub fn new(alloc: Global, config: &Config) -> Result<Monitor, Memory>
        ensures start { IfOk result (λ monitor. IsMonitorOf config.now.bounds monitor []) }
        ensures limit { IfOk result (λ monitor. limit_of monitor.nodes.slots ≡ config.now.nodes) }
    {
        let graph = Graph::new(alloc, config.nodes)?;
        let freed = Freed::new(alloc, config.nodes)?;
        let heirs = Heirs::new(alloc, config.nodes)?;
        let tables = Tables::new(alloc, config)?;
        let depths = filled(alloc, 0, config.bounds.threads as usize)?;
        Ok(Monitor {
            graph,
            tables,
            depths,
            steps: SmallVec::new(alloc),
            freed,
            heirs,
        })
    }

    /// Makes room for what the next event leaves. Nodes and trace stay as they are, also where it is refused.
    ///
    /// # Errors
    /// `Memory` where a growth was refused.
    pub fn reserve(&mut self, event: &Event) -> Result<(), Memory>
        ensures nodes { self.new.nodes ≡ self.old.nodes }
        ensures entries { (p : PlaceOf) → entry self.new.kept p ≡ entry self.old.kept p }
        ensures same { ForItsTraces self.old (λ bounds trace. IsMonitorOf bounds self.new trace) }
        ensures room { OnOk result (ForNext self.old event.now (λ bounds trace.
            HasRoomFor self.new.kept event.now)) }
        ensures full { OnErr result (¬ HasRoomFor self.old.kept event.now) }
    {
        self.tables.reserve_for(event)
    }

    /// Whether there is room for what the next event leaves.
    #[inline(always)]
    pub fn has_room_for(&self, event: &Resolved<'_>) -> bool
        ensures { ForNext self.now event.now (λ bounds trace.
            IsTrue result ↔ HasRoomFor self.now.kept event.now) }
    {
        self.tables.has_room_for(event)
    }

    /// Whether the next event needs a slot of its own.
    pub fn needs_node(&self, event: &Event) -> bool
        ensures exact { ForNext self.now event.now (λ bounds trace.
            IsTrue result ↔ NeedsNode self.now trace event.now) }
        ensures outside { ForNext self.now event.now (λ bounds trace.
            IsTrue result → depth_in trace (thread_of event.now) ≡ 0) }
    {
        if self.depth(event.thread) > 0 {
            return false;
        }
        match event.kind {
            Kind::Begin(_) => true,
            _ => {
                let steps = self.tables.predecessors(event);
                place(&self.graph, &steps) == Placed::New
            }
        }
    }

    /// Takes in the next event, unless it closes a cycle. Afterwards nothing is left that could be collected.
    ///
    /// The position has to be the number of the events before it, below [`MAX_EVENTS`](velo_events::MAX_EVENTS), and
    /// the event one that may follow them. There has to be room for it, as after `reserve`, and a free slot where
    /// `needs_node` says so.
    #[inline(always)]
    pub fn observe(&mut self, position: usize, event: &Event) -> Seen
        requires { IsNext self.old position event.now }
        ensures limit { limit_of self.new.nodes.slots ≡ limit_of self.old.nodes.slots }
        ensures seen { ForItsTraces self.old (λ bounds trace.
            position ≡ length trace → MayFollow bounds trace event.now
            → IsSeen bounds self.old trace event.now result self.new) }
        ensures nothing_left { HasNothingLeft self.new.nodes }
    {
        self.observe_resolved(position, &Resolved::of(event))
    }

    /// As `observe`, of an event that is resolved.
    #[inline(always)]
    pub fn observe_resolved(&mut self, position: usize, event: &Resolved<'_>) -> Seen
        requires { IsNext self.old position event.now }
        ensures limit { limit_of self.new.nodes.slots ≡ limit_of self.old.nodes.slots }
        ensures seen { ForItsTraces self.old (λ bounds trace.
            position ≡ length trace → MayFollow bounds trace event.now
            → IsSeen bounds self.old trace event.now result self.new) }
        ensures nothing_left { HasNothingLeft self.new.nodes }
    {
        self.forget_dead(event);
        self.take_in(position, event)
    }

    /// Lets finished nodes of one thread that the same unfinished ones reach become the earliest of them. The events are those
    /// taken in so far. It takes no memory.
    pub fn compact(&mut self, events: &[Event])
        requires { (bounds : BoundsOf) × IsMonitorOf bounds self.old events.now }
        ensures same { (bounds : BoundsOf) → IsMonitorOf bounds self.old events.now → IsMonitorOf bounds self.new events.now }
        ensures limit { limit_of self.new.nodes.slots ≡ limit_of self.old.nodes.slots }
        ensures room { (e : EventOf) → HasRoomFor self.old.kept e → HasRoomFor self.new.kept e }
        ensures few { (bounds : BoundsOf) (t : ℕ) → IsMonitorOf bounds self.old events.now
            → t < bounds.threads → depth_in events.now t ≡ 0
            → used_in self.new.nodes.slots < bounds.threads * bounds.threads }
    {
        self.heirs.find(&self.graph, events, self.depths.len());
        self.graph.leave_out(self.heirs.list());
        self.tables.rename(self.heirs.list());
    }

    /// How many slots are in use: at most as many as there are live transactions. Every transaction founds the node of one,
    /// is covered by one, or is not live, and no continuation brings one that is given up into a cycle.
    pub fn used(&self) -> u16
        ensures used { result ≡ used_in self.now.nodes.slots }
        ensures live { ForItsTraces self.now (λ bounds trace. HasManyLive trace result) }
        ensures accounted { ForItsTraces self.now (λ bounds trace. (a : ℕ) →
            IsTransaction trace a → IsAccountedFor trace (stamps_in self.now.nodes.slots) a) }
        ensures given_up { ForItsTraces self.now (λ bounds trace. (a : ℕ) →
            IsGivenUp trace (stamps_in self.now.nodes.slots) a → IsHarmless bounds trace a) }
    {
        self.graph.used()
    }
}

/// Where an event outside blocks goes by the merge rule: the step that stands for it, if any does.
#[inline(always)]
fn place_operation(graph: &mut Graph<BitRow>, steps: &[Step], position: u32) -> Option<Step>
    requires stamp { ForSome graph.old.slots.newest (λ newest. newest < position) }
    requires slot { GetsNew graph.old (live_stamps graph.old steps.now) → used_in graph.old.slots < limit_of graph.old.slots }
    ensures placed { IsPlaced graph.old steps.now position result graph.new }
    ensures limit { limit_of graph.new.slots ≡ limit_of graph.old.slots }
{
    match place(graph, steps) {
        Placed::None => None,
        Placed::In(step) => Some(step),
        Placed::New => {
            let own = open_after(graph, steps, position);
            graph.finish(own);
            Some(own)
        }
    }
}

/// Where an event outside blocks goes after the one step, the other, both or none.
#[inline(always)]
fn place_after_both(
    graph: &mut Graph<BitRow>,
    own: Option<Step>,
    beside: Option<Step>,
    position: u32,
) -> Option<Step>
    requires stamp { ForSome graph.old.slots.newest (λ newest. newest < position) }
    requires slot { GetsNew graph.old
        (live_stamps graph.old (option_to_list own ++ option_to_list beside))
        → used_in graph.old.slots < limit_of graph.old.slots }
    ensures placed { IsPlaced graph.old (option_to_list own ++ option_to_list beside) position result graph.new }
    ensures limit { limit_of graph.new.slots ≡ limit_of graph.old.slots }
{
    match (own, beside) {
        (Some(own), Some(beside)) => place_operation(graph, &[own, beside], position),
        (Some(only), None) | (None, Some(only)) => place_operation(graph, &[only], position),
        (None, None) => place_operation(graph, &[], position),
    }
}

impl Monitor {
    /// How many blocks the thread has open.
    fn depth(&self, t: ThreadId) -> u8
        ensures { result ≡ depth_of self.now t.0 }
    {
        match self.depths.get(t.0 as usize) {
            Some(depth) => *depth,
            None => 0,
        }
    }

    /// Forgets what a write need not look up: the last reads of its cell whose nodes are gone.
    #[inline(always)]
    fn forget_dead(&mut self, event: &Resolved<'_>)
        ensures forgets { ForgetsDead self.old.nodes self.old.kept self.new.kept }
        ensures nodes { self.new.nodes ≡ self.old.nodes }
        ensures depths { self.new.depths ≡ self.old.depths }
    {
        if let Access::Exclusive(cell) = event.access() {
            self.forget_dead_reads(cell);
        }
    }

    /// Forgets those last reads of a cell whose nodes are gone, so that no later write looks them up.
    fn forget_dead_reads(&mut self, cell: Cell)
        ensures forgets { ForgetsDead self.old.nodes self.old.kept self.new.kept }
        ensures nodes { self.new.nodes ≡ self.old.nodes }
        ensures depths { self.new.depths ≡ self.old.depths }
    {
        let mut rest = self.tables.readers(cell);
        while rest != 0 {
            self.forget_dead_read(cell, ThreadId(rest.trailing_zeros() as u8));
            rest &= rest - 1;
        }
    }

    /// Forgets the last read of a cell by the thread, if its node is gone.
    fn forget_dead_read(&mut self, cell: Cell, t: ThreadId)
        ensures forgets { ForgetsDead self.old.nodes self.old.kept self.new.kept }
        ensures nodes { self.new.nodes ≡ self.old.nodes }
        ensures depths { self.new.depths ≡ self.old.depths }
    {
        if let Some(step) = self.tables.last_read(cell, t)
            && self.graph.resolve(step).is_none()
        {
            self.tables.forget_read(cell, t);
        }
    }

    /// Takes in the next event, unless it closes a cycle.
    #[inline(always)]
    fn take_in(&mut self, position: usize, event: &Resolved<'_>) -> Seen
        requires { IsNext self.old position event.now }
        ensures limit { limit_of self.new.nodes.slots ≡ limit_of self.old.nodes.slots }
        ensures seen { ForItsTraces self.old (λ bounds trace.
            position ≡ length trace → MayFollow bounds trace event.now
            → IsSeen bounds self.old trace event.now result self.new) }
        ensures nothing_left { HasNothingLeft self.new.nodes }
    {
        if self.depth(event.thread()) > 0 {
            return self.observe_inside(event);
        }
        let event = event.event();
        match event.kind {
            Kind::Begin(_) => self.begin_block(position as u32, event),
            _ => self.observe_outside(position as u32, event),
        }
        Seen::Quiet
    }

    /// Takes in an event of a thread that has blocks open, unless it closes a cycle.
    #[inline(always)]
    fn observe_inside(&mut self, event: &Resolved<'_>) -> Seen
        requires room { HasRoomFor self.old.kept event.now }
        requires sound { IsSound self.old.nodes }
        requires nothing { HasNothingLeft self.old.nodes }
        requires current { (own : StepOf)
            × (entry self.old.kept (LastOf (thread_of event.now)) ≡ Some own)
            × Bears self.old.nodes own.slot own.stamp }
        requires depth { CanCount self.old (thread_of event.now) event.now.kind }
        ensures inside { AfterInside self.old event.now result self.new }
        ensures limit { limit_of self.new.nodes.slots ≡ limit_of self.old.nodes.slots }
    {
        let Some(own) = self.tables.last_of(event.thread()) else {
            unreachable!()
        };
        if self.closes_or_extends(event, own) {
            return Seen::Closes {
                transaction: own.stamp as usize,
            };
        }
        self.tables.record_inside(event, own);
        self.count_blocks(event, own);
        Seen::Quiet
    }

    /// Adds the event's edges into the node of the step, unless one of them closes a cycle.
    #[inline(always)]
    fn closes_or_extends(&mut self, event: &Resolved<'_>, own: Step) -> bool
        requires current { entry self.old.kept (LastOf (thread_of event.now)) ≡ Some own }
        requires borne { Bears self.old.nodes own.slot own.stamp }
        requires sound { IsSound self.old.nodes }
        ensures closes { IsTrue result ↔ ReachesSome self.old.nodes own.slot (steps_looked_up self.old.kept event.now) }
        ensures same { IsTrue result → self.new ≡ self.old }
        ensures adds { IsFalse result
            → AddsEdges self.old.nodes self.new.nodes
            (live_slots self.old.nodes (steps_looked_up self.old.kept event.now)) own.slot }
        ensures kept { self.new.kept ≡ self.old.kept }
        ensures depths { self.new.depths ≡ self.old.depths }
        ensures sound { IsSound self.new.nodes }
    {
        match event.access() {
            Access::Exclusive(cell) => self.closes_or_follows(cell, own),
            _ => match self.tables.step_beside(event) {
                Some(step) => closes_or_adds(&mut self.graph, step, own.slot),
                None => false,
            },
        }
    }

    /// Adds the edges from the nodes of the cell's other last accesses into this, unless one of them closes a cycle.
    #[inline(always)]
    fn closes_or_follows(&mut self, cell: Cell, own: Step) -> bool
        requires borne { Bears self.old.nodes own.slot own.stamp }
        requires sound { IsSound self.old.nodes }
        ensures closes { IsTrue result ↔ ReachesSome self.old.nodes own.slot (accesses_but_for self.old.kept cell.0 own.slot) }
        ensures same { IsTrue result → self.new ≡ self.old }
        ensures adds { IsFalse result
            → AddsEdges self.old.nodes self.new.nodes
            (live_slots self.old.nodes (accesses_but_for self.old.kept cell.0 own.slot)) own.slot }
        ensures kept { self.new.kept ≡ self.old.kept }
        ensures depths { self.new.depths ≡ self.old.depths }
        ensures sound { IsSound self.new.nodes }
    {
        if self.tables.reads_are_of(cell, own.slot) {
            let step = self.tables.write_but_for(cell, own.slot);
            return closes_or_adds_some(&mut self.graph, step, own.slot);
        }
        self.tables.accesses_into(cell, own.slot, &mut self.steps);
        if reaches_some(&self.graph, own.slot, &self.steps) {
            return true;
        }
        add_edges(&mut self.graph, &self.steps, own.slot);
        false
    }

    /// Counts a begin or an end inside a block. The end of the outermost one finishes its node.
    #[inline(always)]
    fn count_blocks(&mut self, event: &Resolved<'_>, own: Step)
        requires borne { Bears self.old.nodes own.slot own.stamp }
        requires nothing { HasNothingLeft self.old.nodes }
        requires depth { CanCount self.old (thread_of event.now) event.now.kind }
        ensures counts { CountsBlocks self.old event.now.kind (thread_of event.now) own self.new }
        ensures kept { self.new.kept ≡ self.old.kept }
        ensures limit { limit_of self.new.nodes.slots ≡ limit_of self.old.nodes.slots }
    {
        let t = event.thread().0 as usize;
        match event.kind() {
            Kind::Begin(_) => self.depths[t] += 1,
            Kind::End => {
                self.depths[t] -= 1;
                if self.depths[t] == 0 {
                    self.end_block(own);
                }
            }
            _ => {}
        }
    }

    /// Finishes the node of the step. Without ancestors it is unneeded, and so may be others that it leads to.
    fn end_block(&mut self, own: Step)
        requires borne { Bears self.old.nodes own.slot own.stamp }
        requires nothing { HasNothingLeft self.old.nodes }
        ensures ends { EndsBlock self.old.nodes self.new.nodes own }
        ensures kept { self.new.kept ≡ self.old.kept }
        ensures depths { self.new.depths ≡ self.old.depths }
        ensures limit { limit_of self.new.nodes.slots ≡ limit_of self.old.nodes.slots }
    {
        let is_root = self.graph.is_root(own.slot);
        let may_have_descendants = self.graph.may_have_descendants(own.slot);
        self.graph.finish(own);
        if !is_root {
            return;
        }
        if may_have_descendants {
            collect(&mut self.graph, &mut self.freed);
        } else {
            self.graph.free(own.slot);
        }
    }

    /// Takes in an outermost begin. As all that is called out of line, it resolves the event for itself: a resolved one that is
    /// lent would have to stand in memory for all events.
    fn begin_block(&mut self, position: u32, event: &Event)
        requires room { HasRoomFor self.old.kept event.now }
        requires stamp { ForSome self.old.nodes.slots.newest (λ newest. newest < position) }
        requires slot { used_in self.old.nodes.slots < limit_of self.old.nodes.slots }
        requires depth { CanCount self.old (thread_of event.now) (Kind.Begin (record { 0 = 0 })) }
        ensures begins { BeginsBlock self.old position event.now self.new }
        ensures limit { limit_of self.new.nodes.slots ≡ limit_of self.old.nodes.slots }
    {
        let resolved = Resolved::of(event);
        self.tables.predecessors_into(&resolved, &mut self.steps);
        let own = open_after(&mut self.graph, &self.steps, position);
        self.tables.record_resolved(&resolved, Some(own));
        self.depths[event.thread.0 as usize] += 1;
    }

    /// Takes in an event outside blocks.
    fn observe_outside(&mut self, position: u32, event: &Event)
        requires room { HasRoomFor self.old.kept event.now }
        requires stamp { ForSome self.old.nodes.slots.newest (λ newest. newest < position) }
        requires slot { GetsNewNode self.old event.now → used_in self.old.nodes.slots < limit_of self.old.nodes.slots }
        ensures outside { AfterOutside self.old position event.now self.new }
        ensures limit { limit_of self.new.nodes.slots ≡ limit_of self.old.nodes.slots }
    {
        let resolved = Resolved::of(event);
        let step = match self.one_beside(&resolved) {
            Some(beside) => {
                let own = self.tables.last_of(event.thread);
                place_after_both(&mut self.graph, own, beside, position)
            }
            None => {
                self.tables.predecessors_into(&resolved, &mut self.steps);
                place_operation(&mut self.graph, &self.steps, position)
            }
        };
        self.tables.record_resolved(&resolved, step);
    }

    /// The one step looked up beside that of the thread's last event, if any; `None` for a write of a cell that may have reads.
    #[inline(always)]
    fn one_beside(&self, event: &Resolved<'_>) -> Option<Option<Step>>
        ensures { IfSome result (λ beside. steps_looked_up self.now.kept event.now
            ≡ option_to_list (entry self.now.kept (LastOf (thread_of event.now)))
            ++ option_to_list beside) }
    {
        match event.access() {
            Access::Exclusive(cell) => {
                if self.tables.readers(cell) != 0 {
                    return None;
                }
                Some(self.tables.last_write(cell))
            }
            _ => Some(self.tables.step_beside(event)),
        }
    }
}

#[cfg(test)]
mod tests;
