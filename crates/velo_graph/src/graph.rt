//! The graph of transactions: nodes in slots, each with its ancestors.
ghost use Rattle.std.specs.Prelude.{◌≡◌, ◌≢◌, ◌↔◌, ℕ, ◌<◌, ◌≤◌, false, Some, None, length, replicate, is_some, IfOk, OnErr, IsErr, IsTrue, IsFalse, true, vec_capacity, if◌then◌else◌};
ghost use Rattle.std.specs.Option.{ForSome};
ghost use Rattle.velo_arena.specs.Slots.{limit_of, is_used, used_in, bears, stamp_in, is_finished_in, with_node, Opens};
ghost use Rattle.velo_arena.specs.Heirs.{heir_in};
ghost use Rattle.velo_graph.specs.Leaves.{LeavesOut};
ghost use Rattle.velo_graph.specs.Collects.{Collects, TellsFreed, HasNothingLeft};
ghost use Rattle.velo_graph.specs.Nodes.{Nodes, is_ancestor, reaches, IsRoot, IsAlone, IsSound, AddsEdge, LosesAncestor};

use crate::leave::leave;
use crate::rows::{carry, empty_rows, leave_out_first, take_away_first, take_out};
use crate::vacate::vacate;
use std::alloc::Global;
use std::marker::Model;
use velo_arena::{Arena, GraphFull, Heir, Step};
use velo_events::Memory;
use velo_events::growth::filled;
use velo_rows::Ancestors;

/// What adding an edge came to.
#[derive(Clone, Copy, PartialEq, Eq)]
pub enum Edge {
    /// Both ends are one node.
    Same,
    /// The first reaches the second already.
    Known,
    /// The edge was added.
    Added,
    /// The second reaches the first, so the edge would close a cycle. It was not added.
    Closes,
}

/// Nodes in slots, each with the set of its ancestors. Every call but `new` takes no memory.
#[derive(Drop)]
pub struct Graph<A: Ancestors> {
    arena: Arena,
    rows: Vec<A>,
    /// The slots that an edge carries on, or that are freed at once.
    carried: A,
    /// The slots in use whose nodes have not finished.
    unfinished: A,
    /// Whether a slot may be an ancestor of some other.
    may_have_descendants: Vec<bool>,
}

impl<A: Ancestors> Model for Graph<A> {
    ghost use Rattle.std.specs.Prelude.{map};
    ghost use Rattle.velo_graph.specs.Nodes.{Nodes};
    ghost use Rattle.velo_graph.specs.Kept.{KeepsAll};
    ghost use Rattle.velo_graph.specs.Codes.{nodes_code};

    ghost Value = { Nodes };

    ghost coded = { nodes_code };

    ghost view = { λ g. record { slots = g.arena; ancestors = map A.members g.rows.items } };

    ghost invariant = { λ g. KeepsAll (record { slots = g.arena; ancestors = map A.members g.rows.items }) (map A.capacity g.rows.items) (A.capacity g.carried) g.may_have_descendants.items (A.members g.unfinished) (A.capacity g.unfinished) };
}

impl<A: Ancestors> Graph<A> {
    /// All slots below the limit are free.
    ///
    /// # Errors
    /// `Memory` where a growth was refused.
    pub fn new(alloc: Global, limit: u16) -> Result<Graph<A>, Memory>
        ensures nodes { IfOk result (λ graph. graph.slots.nodes ≡ replicate limit None) }
        ensures newest { IfOk result (λ graph. graph.slots.newest ≡ None) }
        ensures no_ancestors { IfOk result (λ graph. (m n : ℕ) → is_ancestor graph m n ≡ false) }
        ensures sound { IfOk result IsSound }
    {
        let may_have_descendants = filled(alloc, false, limit as usize)?;
        let carried = A::empty(alloc, limit)?;
        let unfinished = A::empty(alloc, limit)?;
        let rows = empty_rows(alloc, limit)?;
        let arena = Arena::new(alloc, limit)?;
        Ok(Graph {
            arena,
            rows,
            carried,
            unfinished,
            may_have_descendants,
        })
    }

    /// Puts a new node, which has not finished and has neither ancestors nor descendants, into a free slot. The stamp
    /// has to be later than the newest, if there is one.
    ///
    /// # Errors
    /// `GraphFull` exactly where all slots are in use. Nothing changes then.
    pub fn open(&mut self, stamp: u32) -> Result<Step, GraphFull>
        requires { ForSome self.old.slots.newest (λ newest. newest < stamp) }
        ensures opens { IfOk result (λ step. Opens self.old.slots self.new.slots step.slot stamp) }
        ensures stamp { IfOk result (λ step. step.stamp ≡ stamp) }
        ensures alone { IfOk result (λ step. IsAlone self.new step.slot) }
        ensures ancestors { self.new.ancestors ≡ self.old.ancestors }
        ensures full { IsErr result ↔ (used_in self.old.slots ≡ limit_of self.old.slots) }
        ensures unchanged { OnErr result (self.new ≡ self.old) }
        ensures sound { IsSound self.new }
    {
        let step = self.arena.open(stamp)?;
        self.unfinished.insert(step.slot);
        Ok(step)
    }

    /// Marks the node of a step as finished. The step has to name a node in use.
    pub fn finish(&mut self, step: Step)
        requires { IsTrue (bears self.old.slots step.slot step.stamp) }
        ensures finished { self.new.slots
            ≡ with_node self.old.slots step.slot (Some (record { stamp = step.stamp; finished = true })) }
        ensures ancestors { self.new.ancestors ≡ self.old.ancestors }
        ensures sound { IsSound self.new }
    {
        self.arena.finish(step);
        self.unfinished.remove(step.slot);
    }

    /// Takes a node without ancestors out of its slot and out of the ancestors of all others.
    pub fn free(&mut self, slot: u16)
        requires used { IsTrue (is_used self.old.slots slot) }
        requires root { IsRoot self.old slot }
        ensures freed { self.new.slots ≡ with_node self.old.slots slot None }
        ensures ancestors { LosesAncestor self.old self.new slot }
        ensures sound { IsSound self.new }
    {
        let count = self.descendants_end(slot);
        take_out(&mut self.rows, count, slot);
        self.may_have_descendants[slot as usize] = false;
        self.unfinished.remove(slot);
        self.arena.free(slot);
    }

    /// Frees exactly the finished nodes without an unfinished ancestor, and reports their stamps in place of what the
    /// list had. There has to be room for as many as there are slots.
    pub fn free_unneeded(&mut self, freed: &mut Vec<u32>)
        requires room { limit_of self.old.slots ≤ vec_capacity freed.old }
        ensures collects { Collects self.old self.new }
        ensures nothing_left { HasNothingLeft self.new }
        ensures tells { TellsFreed self.old.slots self.new.slots freed.new.items }
        ensures room { vec_capacity freed.new ≡ vec_capacity freed.old }
        ensures sound { IsSound self.new }
    {
        let end = self.arena.extent();
        let roots = vacate(
            &mut self.arena,
            &self.rows,
            &self.unfinished,
            &mut self.carried,
            &mut self.may_have_descendants,
            freed,
            end,
        );
        take_away_first(&mut self.rows, end, roots, &self.carried);
    }

    /// Frees exactly the nodes with an heir in the list, which is by slot. They have to be finished.
    pub fn leave_out(&mut self, heirs: &[Option<Heir>])
        requires heirs { length heirs.now ≡ limit_of self.old.slots }
        requires finished { (k : ℕ) → IsTrue (is_some (heir_in heirs.now k)) →
            IsTrue (is_finished_in self.old.slots k) }
        ensures leaves { LeavesOut self.old self.new heirs.now }
        ensures sound { IsSound self.new }
    {
        let end = self.arena.extent();
        leave(
            &mut self.arena,
            heirs,
            &mut self.carried,
            &mut self.may_have_descendants,
            end,
        );
        leave_out_first(&mut self.rows, end, &self.carried);
    }

    /// The slot of a step, where that slot is in use and bears the stamp.
    pub fn resolve(&self, step: Step) -> Option<u16>
        ensures { result ≡ (if bears self.now.slots step.slot step.stamp then Some step.slot else None) }
    {
        self.arena.resolve(step)
    }

    /// How many slots there are.
    pub fn limit(&self) -> u16
        ensures { result ≡ limit_of self.now.slots }
    {
        self.arena.limit()
    }

    /// How many slots are in use.
    pub fn used(&self) -> u16
        ensures { result ≡ used_in self.now.slots }
    {
        self.arena.used()
    }

    /// The latest stamp given, if any was.
    pub fn newest(&self) -> Option<u32>
        ensures newest { result ≡ self.now.slots.newest }
        ensures sound { IsSound self.now }
    {
        self.arena.newest()
    }

    /// For its clause alone: what every graph keeps. The call does nothing.
    pub fn soundness(&self)
        ensures { IsSound self.now }
    {
        // the clause is known once a field is read
        let _extent = self.arena.extent();
    }

    /// Every slot in use is below it. It stays low, as slots that were used before are given out first.
    pub fn extent(&self) -> u16
        ensures within { result ≤ limit_of self.now.slots }
        ensures used_below { (slot : ℕ) → IsTrue (is_used self.now.slots slot) → slot < result }
    {
        self.arena.extent()
    }

    /// Whether the slot has a node. One that is not there has none.
    pub fn is_used(&self, slot: u16) -> bool
        ensures { result ≡ is_used self.now.slots slot }
    {
        self.arena.is_used(slot)
    }

    /// The stamp of the node in a slot in use.
    pub fn stamp_of(&self, slot: u16) -> u32
        requires { IsTrue (is_used self.now.slots slot) }
        ensures { result ≡ stamp_in self.now.slots slot }
    {
        self.arena.stamp_of(slot)
    }

    /// Whether the slot is in use and its node has finished.
    pub fn finished(&self, slot: u16) -> bool
        ensures { result ≡ is_finished_in self.now.slots slot }
    {
        self.arena.finished(slot)
    }

    /// Whether the node of a slot in use has no ancestors.
    pub fn is_root(&self, slot: u16) -> bool
        requires { IsTrue (is_used self.now.slots slot) }
        ensures { IsTrue result ↔ IsRoot self.now slot }
    {
        self.rows[slot as usize].is_empty()
    }

    /// Whether the node of a slot in use may be an ancestor of another one. Where not, it is none.
    pub fn may_have_descendants(&self, slot: u16) -> bool
        requires { IsTrue (is_used self.now.slots slot) }
        ensures { IsFalse result → (n : ℕ) → is_ancestor self.now slot n ≡ false }
    {
        self.descendants_end(slot) > 0
    }

    /// Whether the first node is the second or an ancestor of it.
    pub fn reaches(&self, a: u16, b: u16) -> bool
        requires a { IsTrue (is_used self.now.slots a) }
        requires b { IsTrue (is_used self.now.slots b) }
        ensures reaches { result ≡ reaches self.now a b }
        ensures sound { IsSound self.now }
    {
        let row = &self.rows[b as usize];
        a == b || row.contains(a)
    }

    /// Adds the edge between two nodes, unless it is known or would close a cycle.
    pub fn add_edge(&mut self, from: u16, to: u16) -> Edge
        requires from { IsTrue (is_used self.old.slots from) }
        requires to { IsTrue (is_used self.old.slots to) }
        ensures same { (result ≡ Edge.Same) ↔ (from ≡ to) }
        ensures known { (result ≡ Edge.Known) ↔ ((from ≢ to) × IsTrue (reaches self.old from to)) }
        ensures closes { (result ≡ Edge.Closes) ↔ ((from ≢ to) × IsTrue (reaches self.old to from)) }
        ensures added { result ≡ Edge.Added → AddsEdge self.old self.new from to }
        ensures unchanged { result ≢ Edge.Added → self.new ≡ self.old }
        ensures sound { IsSound self.new }
    {
        let edge = self.edge_between(from, to);
        if edge == Edge::Added {
            self.carry_edge(from, to);
        }
        edge
    }

    /// What adding the edge comes to.
    fn edge_between(&self, from: u16, to: u16) -> Edge
        requires from { IsTrue (is_used self.now.slots from) }
        requires to { IsTrue (is_used self.now.slots to) }
        ensures same { (result ≡ Edge.Same) ↔ (from ≡ to) }
        ensures known { (result ≡ Edge.Known) ↔ ((from ≢ to) × IsTrue (reaches self.now from to)) }
        ensures closes { (result ≡ Edge.Closes) ↔ ((from ≢ to) × IsTrue (reaches self.now to from)) }
        ensures added { result ≡ Edge.Added →
            (from ≢ to) × (reaches self.now from to ≡ false) × (reaches self.now to from ≡ false) }
        ensures sound { IsSound self.now }
    {
        let known = self.reaches(from, to);
        if from == to {
            Edge::Same
        } else if known {
            Edge::Known
        } else if self.reaches(to, from) {
            Edge::Closes
        } else {
            Edge::Added
        }
    }

    /// Makes from and its ancestors ancestors of to and of its descendants.
    fn carry_edge(&mut self, from: u16, to: u16)
        requires from { IsTrue (is_used self.old.slots from) }
        requires to { IsTrue (is_used self.old.slots to) }
        requires acyclic { reaches self.old to from ≡ false }
        ensures added { AddsEdge self.old self.new from to }
        ensures sound { IsSound self.new }
    {
        let count = self.descendants_end(to);
        carry(&mut self.rows, &mut self.carried, count, from, to);
        self.may_have_descendants[from as usize] = true;
    }

    /// Every descendant of a slot in use is below it.
    fn descendants_end(&self, slot: u16) -> u16
        requires { IsTrue (is_used self.now.slots slot) }
        ensures within { result ≤ limit_of self.now.slots }
        ensures below { (n : ℕ) → IsTrue (is_ancestor self.now slot n) → n < result }
    {
        if self.may_have_descendants[slot as usize] {
            self.arena.extent()
        } else {
            0
        }
    }
}
