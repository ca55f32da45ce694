//! Slots for nodes, used again after they are freed.
ghost use Rattle.std.specs.Prelude.{◌≡◌, ℕ, ◌<◌, ◌≤◌, ◌↔◌, Some, None, replicate, IfOk, OnErr, IsErr, IsTrue, true, vec_capacity, if◌then◌else◌};
ghost use Rattle.velo_arena.specs.Slots.{limit_of, is_used, used_in, bears, stamp_in, is_finished_in, with_node, Opens, HasOwnStamps};
ghost use Rattle.std.specs.Option.{ForSome};
ghost use Rattle.velo_arena.specs.Kept.{CountsDown};

use crate::step::{Node, Step};
use std::alloc::Global;
use std::marker::Model;
use thiserror::Error;
use velo_events::Memory;
use velo_events::growth::{filled, with_capacity};

/// All slots are in use.
#[derive(Clone, Copy, Debug, PartialEq, Eq, Error)]
#[error("graph full")]
pub struct GraphFull;

/// A fixed number of slots for nodes. Every call but `new` takes constant time and no memory.
#[derive(Drop)]
pub struct Arena {
    nodes: Vec<Option<Node>>,
    /// The free slots; the last one is given out next.
    free: Vec<u16>,
    newest: Option<u32>,
    /// No slot from here on has ever been used.
    extent: u16,
}

impl Model for Arena {
    ghost use Rattle.std.specs.Prelude.{vec_capacity};
    ghost use Rattle.velo_arena.specs.Slots.{Slots};
    ghost use Rattle.velo_arena.specs.Kept.{TracksSlots};

    ghost Value = { Slots };

    ghost view = { λ a. record { nodes = a.nodes.items; newest = a.newest } };

    ghost invariant = { λ a. TracksSlots a.nodes.items a.newest a.free.items (vec_capacity a.free) a.extent };
}

impl Arena {
    /// All slots below the limit are free.
    ///
    /// # Errors
    /// `Memory` where a growth was refused.
    pub fn new(alloc: Global, limit: u16) -> Result<Arena, Memory>
        ensures nodes { IfOk result (λ arena. arena.nodes ≡ replicate limit None) }
        ensures newest { IfOk result (λ arena. arena.newest ≡ None) }
    {
        let nodes = filled(alloc, None, limit as usize)?;
        let free = slots_below(alloc, limit)?;
        Ok(Arena {
            nodes,
            free,
            newest: None,
            extent: 0,
        })
    }

    /// Puts a new node, which has not finished, into a free slot. The stamp has to be later than the newest, if there
    /// is one.
    ///
    /// # Errors
    /// `GraphFull` exactly where all slots are in use. Nothing changes then.
    pub fn open(&mut self, stamp: u32) -> Result<Step, GraphFull>
        requires { ForSome self.old.newest (λ newest. newest < stamp) }
        ensures opens { IfOk result (λ step. Opens self.old self.new step.slot stamp) }
        ensures stamp { IfOk result (λ step. step.stamp ≡ stamp) }
        ensures full { IsErr result ↔ (used_in self.old ≡ limit_of self.old) }
        ensures unchanged { OnErr result (self.new ≡ self.old) }
        ensures own_stamps { HasOwnStamps self.new }
    {
        let Some(slot) = self.free.pop() else {
            return Err(GraphFull);
        };
        self.nodes[slot as usize] = Some(Node {
            stamp,
            finished: false,
        });
        self.newest = Some(stamp);
        self.extent = self.extent.max(slot + 1);
        Ok(Step { slot, stamp })
    }

    /// Marks the node of a step as finished. The step has to name a node in use.
    pub fn finish(&mut self, step: Step)
        requires { IsTrue (bears self.old step.slot step.stamp) }
        ensures finished { self.new ≡ with_node self.old step.slot (Some (record { stamp = step.stamp; finished = true })) }
        ensures own_stamps { HasOwnStamps self.new }
    {
        self.nodes[step.slot as usize] = Some(Node {
            stamp: step.stamp,
            finished: true,
        });
    }

    /// Takes the node out of a slot in use.
    pub fn free(&mut self, slot: u16)
        requires { IsTrue (is_used self.old slot) }
        ensures freed { self.new ≡ with_node self.old slot None }
        ensures own_stamps { HasOwnStamps self.new }
    {
        self.nodes[slot as usize] = None;
        self.free.push_reserved(slot);
    }

    /// The slot of a step, where that slot is in use and bears the stamp.
    pub fn resolve(&self, step: Step) -> Option<u16>
        ensures { result ≡ (if bears self.now step.slot step.stamp then Some step.slot else None) }
    {
        match self.nodes.get(step.slot as usize) {
            Some(Some(node)) if node.stamp == step.stamp => Some(step.slot),
            _ => None,
        }
    }

    /// How many slots there are.
    pub fn limit(&self) -> u16
        ensures { result ≡ limit_of self.now }
    {
        self.nodes.len() as u16
    }

    /// How many slots are in use.
    pub fn used(&self) -> u16
        ensures { result ≡ used_in self.now }
    {
        (self.nodes.len() - self.free.len()) as u16
    }

    /// The latest stamp given, if any was.
    pub fn newest(&self) -> Option<u32>
        ensures newest { result ≡ self.now.newest }
        ensures own_stamps { HasOwnStamps self.now }
    {
        self.newest
    }

    /// Every slot in use is below it. It stays low, as slots that were used before are given out first.
    pub fn extent(&self) -> u16
        ensures within { result ≤ limit_of self.now }
        ensures used_below { (slot : ℕ) → IsTrue (is_used self.now slot) → slot < result }
    {
        self.extent
    }

    /// Whether the slot has a node. One that is not there has none.
    pub fn is_used(&self, slot: u16) -> bool
        ensures { result ≡ is_used self.now slot }
    {
        match self.nodes.get(slot as usize) {
            Some(node) => node.is_some(),
            None => false,
        }
    }

    /// The stamp of the node in a slot in use.
    pub fn stamp_of(&self, slot: u16) -> u32
        requires { IsTrue (is_used self.now slot) }
        ensures { result ≡ stamp_in self.now slot }
    {
        match self.nodes[slot as usize] {
            Some(node) => node.stamp,
            None => unreachable!(),
        }
    }

    /// Whether the slot is in use and its node has finished.
    pub fn finished(&self, slot: u16) -> bool
        ensures { result ≡ is_finished_in self.now slot }
    {
        match self.nodes.get(slot as usize) {
            Some(Some(node)) => node.finished,
            _ => false,
        }
    }
}

/// The slots below the limit, the least one last.
fn slots_below(alloc: Global, limit: u16) -> Result<Vec<u16>, Memory>
    ensures falling { IfOk result (λ slots. CountsDown slots.items limit limit) }
    ensures room { IfOk result (λ slots. limit ≤ vec_capacity slots) }
{
    let mut slots = with_capacity(alloc, limit as usize)?;
    for taken in 0..limit {
        slots.push_reserved(limit - 1 - taken);
    }
    Ok(slots)
}
