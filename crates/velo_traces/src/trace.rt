//! The trace of a run: its events, in order.
ghost use Rattle.velo_events.specs.declared.limits.TheConstants.{MAX_OPEN_BLOCKS};
ghost use Rattle.velo_events.specs.Block.{owner, open_blocks};
ghost use Rattle.velo_traces.specs.Blocks.{block_at};
ghost use Rattle.std.specs.Prelude.{◌≤◌, ◌+◌, ◌≡◌, ◌∷◌, [], ◌++◌, ◌<◌, length, map, slice_get, OnOk, OnErr, IsOk, option_copied, IsTrue, ◌↔◌};

use crate::block::Block;
use crate::open::open_blocks_in;
use crate::scanned::{ThreadBlocks, blocks_after};
use smallvec::SmallVec;
use std::alloc::Global;
use std::marker::Model;
use velo_events::growth::reserve;
use velo_events::{Event, MAX_OPEN_BLOCKS, Memory, ThreadId};

/// The events that threads performed over a shared heap, in order. It stores whatever is pushed: `well_formed` judges it.
#[derive(Drop)]
pub struct Trace {
    items: Vec<Event>,
}

impl Model for Trace {
    ghost use Rattle.std.specs.Prelude.{◌-◌, vec_len, vec_capacity};
    ghost use Rattle.velo_traces.specs.Recorded.{Recorded};

    ghost Value = { Recorded };

    ghost view = { λ t. record { events = t.items.items; room = vec_capacity t.items - vec_len t.items } };
}

impl Trace {
    /// The trace without events. It takes no memory yet.
    pub fn new(alloc: Global) -> Trace
        ensures { result.events ≡ [] }
    {
        Trace {
            items: Vec::new(alloc),
        }
    }

    /// Makes room for one more event.
    ///
    /// # Errors
    /// `Memory` where there was no room and a growth was refused. The trace is as it was then.
    #[inline(always)]
    pub fn reserve_one(&mut self) -> Result<(), Memory>
        ensures events { self.new.events ≡ self.old.events }
        ensures ok { OnOk result (0 < self.new.room) }
        ensures full { OnErr result (self.old.room ≡ 0) }
        ensures err { OnErr result (self.new ≡ self.old) }
    {
        if self.len() < self.items.capacity() {
            return Ok(());
        }
        self.grow()
    }

    /// Makes room for one more event. It stands out of line, for the few events that find none.
    #[inline(never)]
    fn grow(&mut self) -> Result<(), Memory>
        ensures events { self.new.events ≡ self.old.events }
        ensures ok { OnOk result (0 < self.new.room) }
        ensures full { OnErr result (self.old.room ≡ 0) }
        ensures err { OnErr result (self.new ≡ self.old) }
    {
        reserve(&mut self.items, 1)
    }

    /// Appends an event. There is room for it, as after `reserve_one`, so it takes no memory.
    #[inline(always)]
    pub fn push_reserved(&mut self, event: Event)
        requires { 0 < self.old.room }
        ensures { self.new.events ≡ self.old.events ++ event ∷ [] }
    {
        self.items.push_reserved(event);
    }

    /// Appends an event.
    ///
    /// # Errors
    /// `Memory` where there was no room and a growth was refused. The trace is as it was then.
    #[inline(always)]
    pub fn push(&mut self, event: Event) -> Result<(), Memory>
        ensures ok { OnOk result (self.new.events ≡ self.old.events ++ event ∷ []) }
        ensures full { OnErr result (self.old.room ≡ 0) }
        ensures err { OnErr result (self.new ≡ self.old) }
    {
        self.reserve_one()?;
        self.push_reserved(event);
        Ok(())
    }

    /// The number of events.
    #[inline(always)]
    pub fn len(&self) -> usize
        ensures { result ≡ length self.now.events }
    {
        self.items.len()
    }

    /// Whether there are no events.
    pub fn is_empty(&self) -> bool
        ensures { IsTrue result ↔ (self.now.events ≡ []) }
    {
        self.items.is_empty()
    }

    /// The event at a position, counted from 0, if it is there.
    pub fn get(&self, i: usize) -> Option<&Event>
        ensures { option_copied result ≡ slice_get self.now.events i }
    {
        self.items.get(i)
    }

    /// All events, in order.
    pub fn as_slice(&self) -> &[Event]
        ensures { result.now ≡ self.now.events }
    {
        self.items.as_slice()
    }

    /// The blocks of a thread that are open at the end, outermost first. So few are open that they fit, as in every trace
    /// that is well-formed. It takes no memory, and one pass over the trace.
    pub fn open_blocks(&self, t: ThreadId) -> SmallVec<Block, MAX_OPEN_BLOCKS>
        requires { length (open_blocks self.now.events t.0) ≤ MAX_OPEN_BLOCKS }
        ensures { result.items ≡ map (block_at self.now.events) (open_blocks self.now.events t.0) }
    {
        open_blocks_in(self.as_slice(), t, *self.items.allocator())
    }

    /// The transaction of the event at position i, named by its first position: the begin of the outermost block that the
    /// event is in, or i itself outside all blocks. It takes no memory, and one pass over the events before i.
    pub fn owner_of(&self, i: usize) -> usize
        requires { i < length self.now.events }
        ensures { result ≡ owner self.now.events i }
    {
        owner_in(self.as_slice(), i)
    }
}

/// The first position of the transaction of i.
fn owner_in(events: &[Event], i: usize) -> usize
    requires { i < length events.now }
    ensures { result ≡ owner events.now i }
{
    let thread = events[i].thread;
    let mut blocks = ThreadBlocks { depth: 0, first: i };
    for j in 0..i {
        blocks = blocks_after(events, thread, j, blocks);
    }
    if blocks.depth > 0 { blocks.first } else { i }
}
