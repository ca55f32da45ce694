//! The steps of the last events of threads, variables and locks.
ghost use Rattle.std.specs.Prelude.{◌≡◌, ◌+◌, ◌^◌, ◌<◌, ◌≤◌, ◌++◌, ◌∷◌, None, Some, length, map, slice_index_or, slice_set, IsTrue, IsFalse, ◌↔◌, IfOk, OnOk, OnErr};
ghost use Rattle.std.specs.List.{filter_map};
ghost use Rattle.std.specs.Option.{option_to_list};
ghost use Rattle.smallvec.specs.SmallVec.{HasRoomFor as HasSpace};
ghost use Rattle.velo_events.specs.declared.limits.TheConstants.{MAX_THREADS};
ghost use Rattle.velo_tables.specs.declared.tables.TheConstants.{MAX_PREDECESSORS};
ghost use Rattle.velo_events.specs.Place.{LastOf, LastWrite, LastRead, thread_numbers};
ghost use Rattle.velo_tables.specs.LastAccesses.{entry, no_accesses, steps_looked_up, HasItsThreads, HasRoomFor, HasRoomToRead, HasRoomBeside, CoverReaders, IsBlank, IsUnchanged, IsRecorded, IsReadForgotten, IsRenamed, accesses_of};
ghost use Rattle.velo_tables.specs.Others.{but_for, accesses_but_for};
ghost use Rattle.velo_events.specs.Event.{thread_of, access_of, is_exclusive};
ghost use Rattle.velo_tables.specs.Recorded.{kept_after, kept_after_beside, kept_by, with_cell, with_read};

use crate::cells::{Cells, but_for, push_step};
use crate::entry::{Entry, entry_at, rename_entries};
use smallvec::SmallVec;
use std::alloc::Global;
use std::marker::Model;
use velo_arena::{Heir, Step};
use velo_events::growth::resize;
use velo_events::{Access, Cell, Config, Event, MAX_THREADS, Memory, Resolved, ThreadId};

/// The most steps that an event looks up: of its thread, of the last write, and of a read by each thread.
pub const MAX_PREDECESSORS: usize = MAX_THREADS as usize + 2;

/// The step of the last event at each place: of each thread, the last write of each cell, and its last read by each thread.
/// A variable is written and read; a lock is written by who takes or leaves it alone, and read by who does so beside others.
/// There is room for what was accessed, and for the threads.
#[derive(Drop)]
pub struct Tables {
    threads: Vec<Entry>,
    cells: Cells,
}

impl Model for Tables {
    ghost use Rattle.std.specs.Prelude.{◌≤◌, length};
    ghost use Rattle.velo_events.specs.declared.limits.TheConstants.{MAX_THREADS};
    ghost use Rattle.velo_tables.specs.LastAccesses.{LastAccesses};

    ghost Value = { LastAccesses };

    ghost view = { λ s. record { threads = s.threads.items; cells = s.cells } };

    ghost invariant = { λ s. length s.threads.items ≤ MAX_THREADS };
}

/// Puts the step, or none, in the place of the entry with this number.
fn put_entry(entries: &mut Vec<Entry>, number: usize, step: Option<Step>)
    requires { number < length entries.old.items }
    ensures { entries.new.items ≡ slice_set entries.old.items number step }
{
    entries[number] = Entry::new(step);
}

impl Tables {
    /// Tables of a run's threads, without a step.
    ///
    /// # Errors
    /// `Memory` where a growth was refused.
    pub fn new(alloc: Global, config: &Config) -> Result<Tables, Memory>
        ensures threads { IfOk result (λ tables. length tables.threads ≡ config.now.bounds.threads) }
        ensures blank { IfOk result IsBlank }
    {
        let mut threads = Vec::new(alloc);
        resize(
            &mut threads,
            config.bounds.threads as usize,
            Entry::new(None),
        )?;
        Ok(Tables {
            threads,
            cells: Cells::new(alloc),
        })
    }

    /// The step of the thread's last event, or of its fork while it has none.
    pub fn last_of(&self, t: ThreadId) -> Option<Step>
        ensures { result ≡ entry self.now (LastOf t.0) }
    {
        entry_at(&self.threads, t.0 as usize)
    }

    /// The step of the cell's last write.
    pub fn last_write(&self, c: Cell) -> Option<Step>
        ensures { result ≡ entry self.now (LastWrite c.0) }
    {
        self.cells.last_write(c)
    }

    /// The step of the cell's last read by the thread.
    pub fn last_read(&self, c: Cell, t: ThreadId) -> Option<Step>
        ensures { result ≡ entry self.now (LastRead c.0 t.0) }
    {
        self.cells.last_read(c, t)
    }

    /// A bit for each thread whose last read of the cell has a step, and perhaps for others that read it: no other
    /// thread's read has to be looked up.
    pub fn readers(&self, c: Cell) -> u64
        ensures { CoverReaders self.now c.0 result }
    {
        self.cells.readers(c)
    }
}

impl Tables {
    /// Makes room for what the event records. No step changes, also where it is refused.
    ///
    /// # Errors
    /// `Memory` where there was too little room and a growth was refused.
    pub fn reserve_for(&mut self, event: &Event) -> Result<(), Memory>
        ensures unchanged { IsUnchanged self.old self.new }
        ensures threads { length self.new.threads ≡ length self.old.threads }
        ensures ok { OnOk result (HasItsThreads self.old event.now → HasRoomFor self.new event.now) }
        ensures err { OnErr result (¬ HasRoomFor self.old event.now) }
    {
        let event = Resolved::of(event);
        if self.has_room_for(&event) {
            Ok(())
        } else {
            self.grow_for(&event)
        }
    }

    /// Whether there is room for what the event records. For the last event of a thread of the tables there always is.
    #[inline(always)]
    pub fn has_room_for(&self, event: &Resolved<'_>) -> bool
        ensures { IsTrue result ↔ HasRoomBeside self.now (thread_of event.now) (access_of event.now.kind) }
    {
        match event.access() {
            Access::Shared(c) => self.cells.has_room_to_read(c, event.thread()),
            Access::Exclusive(c) => self.cells.has_room_to_write(c),
            Access::Fork(u) => (u.0 as usize) < self.threads.len(),
            _ => true,
        }
    }

    /// Makes room for what the event records, where there was none.
    #[inline(never)]
    fn grow_for(&mut self, event: &Resolved<'_>) -> Result<(), Memory>
        requires { ¬ HasRoomBeside self.old (thread_of event.now) (access_of event.now.kind) }
        ensures unchanged { IsUnchanged self.old self.new }
        ensures threads { length self.new.threads ≡ length self.old.threads }
        ensures ok { OnOk result (HasItsThreads self.old event.now → HasRoomFor self.new event.now) }
    {
        match event.access() {
            Access::Shared(c) => self.reserve_reads(c),
            Access::Exclusive(c) => self.reserve_cell(c),
            _ => Ok(()),
        }
    }

    /// Makes room for a write of the cell.
    fn reserve_cell(&mut self, c: Cell) -> Result<(), Memory>
        ensures same { IsUnchanged self.old self.new }
        ensures threads { length self.new.threads ≡ length self.old.threads }
        ensures ok { OnOk result (c.0 < length self.new.cells) }
        ensures err { OnErr result (length self.old.cells ≤ c.0) }
    {
        self.cells.reserve(c)
    }

    /// Makes room for a read of the cell by each thread.
    fn reserve_reads(&mut self, c: Cell) -> Result<(), Memory>
        ensures same { IsUnchanged self.old self.new }
        ensures threads { length self.new.threads ≡ length self.old.threads }
        ensures ok { OnOk result (HasRoomToRead (length self.old.threads) self.new c.0) }
    {
        self.reserve_cell(c)?;
        self.cells.reserve_reads(c, self.threads.len())
    }

    /// Records the step, or none, as the last at each place that the event touches. There has to be room
    /// for it, as after `reserve_for`.
    pub fn record(&mut self, event: &Event, step: Option<Step>)
        requires { HasRoomFor self.old event.now }
        ensures recorded { IsRecorded self.old event.now step self.new }
        ensures threads { length self.new.threads ≡ length self.old.threads }
    {
        self.record_resolved(&Resolved::of(event), step);
    }

    /// As `record`, of an event that is resolved.
    #[inline(always)]
    #[tactic(auto, unfolding(crate::specs::Recorded::kept_after))]
    pub fn record_resolved(&mut self, event: &Resolved<'_>, step: Option<Step>)
        requires { HasRoomFor self.old event.now }
        ensures recorded { IsRecorded self.old event.now step self.new }
        ensures threads { length self.new.threads ≡ length self.old.threads }
    {
        self.record_in_place(event, step);
    }

    #[inline(always)]
    #[tactic(auto, unfolding(crate::specs::Recorded::kept_after))]
    fn record_in_place(&mut self, event: &Resolved<'_>, step: Option<Step>)
        requires { HasRoomFor self.old event.now }
        ensures { self.new ≡ kept_after self.old event.now step }
    {
        put_entry(&mut self.threads, event.thread().0 as usize, step);
        self.record_beside(event, step);
    }

    /// Keeps the step as that of the last event at each place that the event records, where it is that of the thread's
    /// last event already. There has to be room for it too.
    #[inline(always)]
    pub fn record_inside(&mut self, event: &Resolved<'_>, step: Step)
        requires room { HasRoomFor self.old event.now }
        requires current { entry self.old (LastOf (thread_of event.now)) ≡ Some step }
        ensures recorded { IsRecorded self.old event.now (Some step) self.new }
        ensures threads { length self.new.threads ≡ length self.old.threads }
    {
        self.record_beside(event, Some(step));
    }

    /// Keeps the step at the places that the event records beside the last event of its thread.
    #[inline(always)]
    fn record_beside(&mut self, event: &Resolved<'_>, step: Option<Step>)
        requires { HasRoomBeside self.old (thread_of event.now) (access_of event.now.kind) }
        ensures { self.new ≡ kept_after_beside self.old (thread_of event.now) (access_of event.now.kind) step }
    {
        match event.access() {
            Access::Shared(c) => self.cells.record_read(c, event.thread(), step),
            Access::Exclusive(c) => self.cells.record_write(c, step),
            Access::Fork(u) => put_entry(&mut self.threads, u.0 as usize, step),
            _ => {}
        }
    }

    /// Forgets the step of the cell's last read by the thread.
    pub fn forget_read(&mut self, c: Cell, t: ThreadId)
        ensures forgotten { IsReadForgotten self.old c.0 t.0 self.new }
        ensures threads { length self.new.threads ≡ length self.old.threads }
    {
        self.forget_in_place(c, t);
    }

    fn forget_in_place(&mut self, c: Cell, t: ThreadId)
        ensures { self.new ≡ with_cell self.old c.0 (with_read (accesses_of self.old c.0) t.0 None) }
    {
        self.cells.forget_read(c, t);
    }

    /// Puts each step by its heir, where its node has one in the list, which is by slot.
    pub fn rename(&mut self, heirs: &[Option<Heir>])
        ensures renamed { IsRenamed self.old heirs.now self.new }
        ensures threads { length self.new.threads ≡ length self.old.threads }
    {
        self.rename_in_place(heirs);
    }

    fn rename_in_place(&mut self, heirs: &[Option<Heir>])
        ensures { self.new ≡ kept_by heirs.now self.old }
    {
        rename_entries(&mut self.threads, heirs);
        self.cells.rename(heirs);
    }

    /// Puts the steps that the event looks up into the list, in place of what it had: first that of the thread's last
    /// event, and a write's reads in the order of their threads.
    #[inline(always)]
    #[tactic(auto, unfolding(crate::specs::LastAccesses::steps_looked_up))]
    pub fn predecessors_into(
        &self,
        event: &Resolved<'_>,
        list: &mut SmallVec<Step, MAX_PREDECESSORS>,
    )
        requires { MAX_PREDECESSORS ≤ list.old.capacity }
        ensures items { list.new.items ≡ steps_looked_up self.now event.now }
        ensures capacity { list.new.capacity ≡ list.old.capacity }
    {
        list.clear();
        push_step(list, self.last_of(event.thread()));
        match event.access() {
            Access::Exclusive(c) => self.push_accesses(c, None, list),
            _ => push_step(list, self.step_beside(event)),
        }
    }

    /// The one step that an event but a write looks up beside that of its thread's last event, if there is one.
    #[inline(always)]
    #[tactic(auto, unfolding(crate::specs::LastAccesses::steps_looked_up))]
    pub fn step_beside(&self, event: &Resolved<'_>) -> Option<Step>
        requires { IsFalse (is_exclusive (access_of event.now.kind)) }
        ensures { steps_looked_up self.now event.now
            ≡ option_to_list (entry self.now (LastOf (thread_of event.now)))
            ++ option_to_list result }
    {
        match event.access() {
            Access::Shared(c) => self.last_write(c),
            Access::Join(u) => self.last_of(u),
            _ => None,
        }
    }

    /// Puts the steps that a write of the cell looks up beside that of its thread into the list, in place of what it
    /// had, but for those of the slot.
    #[tactic(auto, unfolding(crate::specs::Others::accesses_but_for))]
    pub fn accesses_into(&self, c: Cell, slot: u16, list: &mut SmallVec<Step, MAX_PREDECESSORS>)
        requires { MAX_PREDECESSORS ≤ list.old.capacity }
        ensures items { list.new.items ≡ accesses_but_for self.now c.0 slot }
        ensures capacity { list.new.capacity ≡ list.old.capacity }
    {
        list.clear();
        self.push_accesses(c, Some(slot), list);
    }

    /// Whether the last write's step is the only one that a write of the cell looks up beside that of its thread, but for
    /// those of the slot: all steps of its reads are of this.
    #[inline(always)]
    #[tactic(auto, unfolding(crate::specs::Others::accesses_but_for))]
    pub fn reads_are_of(&self, c: Cell, slot: u16) -> bool
        ensures { IsTrue result
            ↔ (accesses_but_for self.now c.0 slot
            ≡ option_to_list (but_for (Some slot) (entry self.now (LastWrite c.0)))) }
    {
        self.cells.reads_are_of(c, slot)
    }

    /// The step of the cell's last write, unless it is of the slot.
    #[inline(always)]
    pub fn write_but_for(&self, c: Cell, slot: u16) -> Option<Step>
        ensures { result ≡ but_for (Some slot) (entry self.now (LastWrite c.0)) }
    {
        but_for(Some(slot), self.last_write(c))
    }

    /// Appends the steps of the cell's last write and reads, but for those of the slot.
    #[inline]
    fn push_accesses(&self, c: Cell, slot: Option<u16>, list: &mut SmallVec<Step, MAX_PREDECESSORS>)
        requires { HasSpace list.old (1 + MAX_THREADS) }
        ensures items { list.new.items ≡ list.old.items
            ++ filter_map (λ p. but_for slot (entry self.now p))
            (LastWrite c.0 ∷ map (LastRead c.0) thread_numbers) }
        ensures capacity { list.new.capacity ≡ list.old.capacity }
    {
        self.cells.push_accesses(c, slot, list);
    }

    /// The steps that the event looks up: first that of the thread's last event, and a write's reads in the order of their
    /// threads.
    pub fn predecessors(&self, event: &Event) -> SmallVec<Step, MAX_PREDECESSORS>
        ensures { result.items ≡ steps_looked_up self.now event.now }
    {
        let mut list = SmallVec::new(*self.threads.allocator());
        self.predecessors_into(&Resolved::of(event), &mut list);
        list
    }
}
