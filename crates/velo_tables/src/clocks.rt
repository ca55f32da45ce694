//! The clocks of a run: how far the last events at each place know each thread.
//!
//! What an event knows of each thread is what the literature calls a vector clock (Fidge, 1988; Mattern, 1989), with positions
//! plus one in place of counts.
ghost use Rattle.std.specs.Prelude.{◌≡◌, ◌+◌, ◌<◌, ◌^◌, IsTrue, IfOk, OnOk, OnErr};
ghost use Rattle.velo_tables.specs.Clocks.{blame_bound, known_at, OfLast, KnowsNothing, IsNoted, KnowsTheSame, HasRoomToNote, IsOfThreads};

use crate::place_rows::PlaceRows;
use std::alloc::Global;
use std::marker::Model;
use velo_events::growth::filled;
use velo_events::{Config, Event, Memory, Resolved, ThreadId};

/// How far the events at each place know each thread: the last event of each thread, the last write of each variable or lock,
/// and its reads since then. To take or leave a lock alone is to write it, to do so beside others to read it.
#[derive(Drop)]
pub struct ClockTables {
    /// For the clock of an event, so that noting takes no memory.
    clock: Vec<u32>,
    /// A clock that knows nothing.
    blank: Vec<u32>,
    /// What the events at the places know of each thread.
    known: PlaceRows,
    /// What those of other threads than this know of it.
    by_others: PlaceRows,
}

impl Model for ClockTables {
    ghost use Rattle.std.specs.Prelude.{length};
    ghost use Rattle.velo_tables.specs.Clocks.{ClockState};
    ghost use Rattle.velo_tables.specs.ClockRows.{numbers_of, AreTables};

    ghost Value = { ClockState };

    ghost view = { λ t. record { count = length t.clock.items; known = numbers_of t.known; by_others = numbers_of t.by_others } };

    ghost invariant = { λ t. AreTables (length t.clock.items) t.blank.items t.known t.by_others };
}

impl ClockTables {
    /// Tables of a run's threads, at which nothing is known.
    ///
    /// # Errors
    /// `Memory` where a growth was refused.
    pub fn new(alloc: Global, config: &Config) -> Result<ClockTables, Memory>
        ensures blank { IfOk result KnowsNothing }
        ensures threads { IfOk result (λ tables. tables.count ≡ config.now.bounds.threads) }
    {
        let threads = config.bounds.threads as usize;
        let clock = filled(alloc, 0u32, threads)?;
        let blank = filled(alloc, 0u32, threads)?;
        let known = PlaceRows::new(alloc, threads)?;
        let by_others = PlaceRows::new(alloc, threads)?;
        Ok(ClockTables {
            clock,
            blank,
            known,
            by_others,
        })
    }

    /// Whether there is room for what the event notes already.
    #[inline(always)]
    pub fn has_room_for(&self, event: &Resolved<'_>) -> bool
        ensures { IsTrue result → IsOfThreads self.now.count event.now → HasRoomToNote self.now.count self.now event.now }
    {
        let count = self.clock.len();
        let access = event.access();
        self.known.has_room_for(count, access) && self.by_others.has_room_for(count, access)
    }

    /// Makes room for what the event notes. Nothing that is known changes, also where it is refused.
    ///
    /// # Errors
    /// `Memory` where there was too little room and a growth was refused.
    pub fn reserve_for(&mut self, event: &Event) -> Result<(), Memory>
        ensures unchanged { KnowsTheSame self.old self.new }
        ensures threads { self.new.count ≡ self.old.count }
        ensures ok { OnOk result (IsOfThreads self.old.count event.now → HasRoomToNote self.new.count self.new event.now) }
        ensures err { OnErr result (¬ HasRoomToNote self.old.count self.old event.now) }
    {
        let count = self.clock.len();
        let access = event.kind.access();
        self.known.reserve_for(count, access)?;
        self.by_others.reserve_for(count, access)
    }

    /// Notes the event at the position, which has to be below 2^32 - 1. There has to be room for it, as after
    /// `reserve_for`.
    #[inline(never)]
    pub fn note(&mut self, position: u32, event: &Event)
        requires room { HasRoomToNote self.old.count self.old event.now }
        requires fits { position + 1 < 2 ^ 32 }
        ensures noted { IsNoted self.old position event.now self.new }
        ensures threads { self.new.count ≡ self.old.count }
    {
        let thread = event.thread;
        let access = event.kind.access();
        self.known.join(&mut self.clock, thread, access);
        self.clock[thread.0 as usize] = 0;
        self.by_others
            .note(&self.clock, &self.blank, thread, access);
        self.clock[thread.0 as usize] = position + 1;
        self.known.note(&self.clock, &self.blank, thread, access);
    }

    /// As `note`, of an event that is resolved.
    #[inline(always)]
    pub fn note_resolved(&mut self, position: u32, event: &Resolved<'_>)
        requires room { HasRoomToNote self.old.count self.old event.now }
        requires fits { position + 1 < 2 ^ 32 }
        ensures noted { IsNoted self.old position event.now self.new }
        ensures threads { self.new.count ≡ self.old.count }
    {
        self.note(position, event.event());
    }

    /// How far the last event of a thread, or its fork while it has none, knows another thread: the position plus one of the
    /// latest event of the other that is this one or happens before it, or 0.
    #[inline]
    pub fn known(&self, thread: ThreadId, other: ThreadId) -> u32
        ensures { result ≡ known_at self.now (OfLast thread.0) other.0 }
    {
        self.known.of_last(self.clock.len(), thread, other)
    }

    /// The open blocks of the event's thread that begin below it are to blame.
    pub fn bound(&self, event: &Event) -> usize
        ensures { result ≡ blame_bound self.now event.now }
    {
        let bound = self
            .by_others
            .of_beside(self.clock.len(), event.thread, event.kind.access());
        bound as usize
    }
}
