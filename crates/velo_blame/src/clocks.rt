//! Blame from clocks, which note how far the events of a run know each thread as they come.
ghost use Rattle.std.specs.Prelude.{◌≡◌, ℕ, ◌+◌, ◌<◌, ◌≤◌, ◌^◌, ◌++◌, ◌∷◌, [], List, length, map, filter, nat_lt, IfOk, OnOk, OnErr, IsTrue, IsFalse};
ghost use Rattle.velo_events.specs.declared.event.Event.{Event};
ghost use Rattle.velo_events.specs.Event.{thread_of};
ghost use Rattle.velo_events.specs.Block.{is_open_at, open_blocks};
ghost use Rattle.velo_events.specs.Graph.{HasCycle};
ghost use Rattle.velo_events.specs.WellFormed.{IsWellFormed};
ghost use Rattle.velo_traces.specs.Blocks.{block_at};
ghost use Rattle.velo_tables.specs.Clocks.{AreClocksSince, HasRoomToNote, IsOfThreads};
ghost use Rattle.velo_blame.specs.Blamed.{begins_of, AreBlamedAt};

use smallvec::SmallVec;
use std::alloc::Global;
use std::marker::Model;
use velo_events::{Bounds, Config, Event, MAX_OPEN_BLOCKS, Memory, Resolved};
use velo_tables::ClockTables;
use velo_traces::Block;

/// Which open blocks are to blame where an event closes the first cycle, without a look at the
/// events before it. They were noted as they came.
#[derive(Drop)]
pub struct Clocks {
    tables: ClockTables,
    bounds: Bounds,
    alloc: Global,
}

impl Model for Clocks {
    ghost use Rattle.std.specs.Prelude.{◌≡◌, ◌≤◌};
    ghost use Rattle.velo_events.specs.declared.limits.TheConstants.{MAX_THREADS};
    ghost use Rattle.velo_blame.specs.Clocks.{RunClocks};

    ghost Value = { RunClocks };

    ghost view = { λ c. record { state = c.tables; bounds = c.bounds } };

    ghost invariant = { λ c. (c.tables.count ≡ c.bounds.threads) × (c.bounds.threads ≤ MAX_THREADS) };
}

/// The blocks that begin below the bound.
fn blocks_below(alloc: Global, blocks: &[Block], bound: usize) -> SmallVec<Block, MAX_OPEN_BLOCKS>
    requires { length blocks.now ≤ MAX_OPEN_BLOCKS }
    ensures { result.items ≡ filter (λ block. nat_lt block.first bound) blocks.now }
{
    let mut below = SmallVec::new(alloc);
    for block in blocks {
        if block.first < bound {
            below.push_reserved(*block);
        }
    }
    below
}

impl Clocks {
    /// Clocks of a run with no event. They may stand for the events of a run from any position on,
    /// if the first that they note is the one there.
    ///
    /// # Errors
    /// `Memory` if an allocation failed.
    pub fn new(alloc: Global, config: &Config) -> Result<Clocks, Memory>
        ensures bounds { IfOk result (λ clocks. clocks.bounds ≡ config.now.bounds) }
        ensures start { IfOk result (λ clocks. (trace : List Event) → AreClocksSince (length trace) clocks.state trace) }
    {
        let tables = ClockTables::new(alloc, config)?;
        Ok(Clocks {
            tables,
            bounds: config.bounds,
            alloc,
        })
    }

    /// Makes room for what the event notes. The clocks are those of the same events, also where it
    /// is refused.
    ///
    /// # Errors
    /// `Memory` if an allocation failed.
    pub fn reserve_for(&mut self, event: &Event) -> Result<(), Memory>
        ensures bounds { self.new.bounds ≡ self.old.bounds }
        ensures same { (first : ℕ) (trace : List Event) → AreClocksSince first self.old.state trace
            → AreClocksSince first self.new.state trace }
        ensures ok { OnOk result (IsOfThreads self.old.bounds.threads event.now
            → HasRoomToNote self.new.bounds.threads self.new.state event.now) }
        ensures err { OnErr result (¬ HasRoomToNote self.old.bounds.threads self.old.state event.now) }
    {
        self.tables.reserve_for(event)
    }

    /// Whether there is room for what the event notes, where its threads are the run's.
    #[inline(always)]
    pub fn has_room_for(&self, event: &Resolved<'_>) -> bool
        ensures { IsTrue result → IsOfThreads self.now.bounds.threads event.now
            → HasRoomToNote self.now.bounds.threads self.now.state event.now }
    {
        self.tables.has_room_for(event)
    }

    /// Notes the event at the position, which comes next in the trace whose clocks these are. The
    /// position has to be below 2^32 - 1, and there has to be room, as after `reserve_for`. It
    /// takes no memory.
    #[inline(always)]
    pub fn note(&mut self, position: usize, event: &Event)
        requires room { HasRoomToNote self.old.bounds.threads self.old.state event.now }
        requires fits { position + 1 < 2 ^ 32 }
        ensures bounds { self.new.bounds ≡ self.old.bounds }
        ensures next { (first : ℕ) (trace : List Event) → AreClocksSince first self.old.state trace → length trace ≡ position
            → IsWellFormed self.old.bounds (trace ++ event.now ∷ []) → AreClocksSince first self.new.state (trace ++ event.now ∷ []) }
    {
        self.note_resolved(position, &Resolved::of(event));
    }

    /// As `note`, of an event that is resolved.
    #[inline(always)]
    pub fn note_resolved(&mut self, position: usize, event: &Resolved<'_>)
        requires room { HasRoomToNote self.old.bounds.threads self.old.state event.now }
        requires fits { position + 1 < 2 ^ 32 }
        ensures bounds { self.new.bounds ≡ self.old.bounds }
        ensures next { (first : ℕ) (trace : List Event) → AreClocksSince first self.old.state trace → length trace ≡ position
            → IsWellFormed self.old.bounds (trace ++ event.now ∷ []) → AreClocksSince first self.new.state (trace ++ event.now ∷ []) }
    {
        self.tables.note_resolved(position as u32, event);
    }

    /// Those of the open blocks of the event's thread that are to blame where the event, at this
    /// position, closes the first cycle: they are not self-serializable in the events up to it.
    /// They come outermost first, as the open blocks do. The clocks need to stand for no event
    /// before the outermost of them. It takes no memory, and returns what `Scan::blamed` returns.
    pub fn blamed(
        &self,
        blocks: &[Block],
        position: usize,
        event: &Event,
    ) -> SmallVec<Block, MAX_OPEN_BLOCKS>
        requires few { length blocks.now ≤ MAX_OPEN_BLOCKS }
        ensures blamed { (first : ℕ) (trace : List Event) → AreClocksSince first self.now.state trace → length trace ≡ position
            → IsWellFormed self.now.bounds (trace ++ event.now ∷ []) → ¬ HasCycle trace
            → ((b : ℕ) → b < first → IsFalse (is_open_at (trace ++ event.now ∷ []) (thread_of event.now) b (length (trace ++ event.now ∷ []))))
            → blocks.now ≡ map (block_at (trace ++ event.now ∷ [])) (open_blocks (trace ++ event.now ∷ []) (thread_of event.now))
            → AreBlamedAt (trace ++ event.now ∷ []) position (begins_of result.items) }
        ensures blocks { (trace : List Event) → blocks.now ≡ map (block_at trace) (begins_of blocks.now)
            → result.items ≡ map (block_at trace) (begins_of result.items) }
    {
        let bound = self.tables.bound(event);
        blocks_below(self.alloc, blocks, bound)
    }
}
