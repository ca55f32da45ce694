//! The last accesses of each variable and lock.
ghost use Rattle.std.specs.Prelude.{◌≡◌, ◌<◌, ◌≤◌, ◌+◌, ◌++◌, List, [], Option, None, length, slice_index_or, slice_set, map, vec_capacity, IsTrue, ◌↔◌, OnOk, OnErr};
ghost use Rattle.std.specs.List.{filter_map};
ghost use Rattle.std.specs.Option.{option_to_list};
ghost use Rattle.smallvec.specs.SmallVec.{HasRoomFor};
ghost use Rattle.velo_events.specs.declared.limits.TheConstants.{MAX_THREADS};
ghost use Rattle.velo_arena.specs.declared.step.Step.{Step as StepOf};
ghost use Rattle.velo_events.specs.Place.{thread_numbers};
ghost use Rattle.velo_tables.specs.Readers.{AreReaders};
ghost use Rattle.velo_events.specs.Growth.{filled_up};
ghost use Rattle.velo_tables.specs.LastAccesses.{no_accesses};
ghost use Rattle.velo_tables.specs.Others.{but_for, steps_of};
ghost use Rattle.velo_tables.specs.Cells.{reads_in};
ghost use Rattle.velo_arena.specs.Heirs.{renamed};
ghost use Rattle.velo_tables.specs.Recorded.{with_write, with_read, with_reads_of, with_heirs, with_write_by};

use crate::entry::{Entry, entry_at, rename_entries};
use crate::tables::MAX_PREDECESSORS;
use smallvec::SmallVec;
use std::alloc::Global;
use std::marker::Model;
use velo_arena::{Heir, Step};
use velo_events::growth::{fill_up_to, reserve};
use velo_events::{Cell, Memory, ThreadId};

/// Where the last reads of one cell stand among those of all.
#[derive(Clone, Copy)]
pub(crate) struct ReadSpan {
    start: usize,
    count: usize,
}

/// The last accesses of one cell.
#[derive(Clone, Copy)]
pub(crate) struct CellAccesses {
    write: Entry,
    /// A bit for each thread whose last read has a step, so that a write looks at no other thread.
    readers: u64,
    /// Its last read by each thread. There are none until the first read.
    reads: ReadSpan,
}

/// The last accesses of each cell, by number. The last reads of all stand in one list, so that none has memory of its
/// own, and a cell that nobody read takes nothing there.
#[derive(Drop)]
pub(crate) struct Cells {
    cells: Vec<CellAccesses>,
    reads: Vec<Entry>,
}

impl Model for Cells {
    ghost use Rattle.std.specs.Prelude.{List};
    ghost use Rattle.velo_tables.specs.LastAccesses.{Accesses};

    ghost Value = { List Accesses };

    ghost use Rattle.std.specs.Prelude.{map};
    ghost use Rattle.velo_tables.specs.Cells.{accesses_in, AreReadsLaidOut};

    ghost view = { λ v. map (accesses_in v.reads.items) v.cells.items };

    ghost invariant = { λ v. AreReadsLaidOut v.reads.items v.cells.items };
}

/// Appends the step, if there is one.
pub(crate) fn push_step(list: &mut SmallVec<Step, MAX_PREDECESSORS>, step: Option<Step>)
    requires { HasRoomFor list.old 1 }
    ensures items { list.new.items ≡ list.old.items ++ option_to_list step }
    ensures capacity { list.new.capacity ≡ list.old.capacity }
{
    if let Some(step) = step {
        list.push_reserved(step);
    }
}

/// The step, unless it is of the slot that is left out.
#[inline(always)]
pub(crate) fn but_for(slot: Option<u16>, step: Option<Step>) -> Option<Step>
    ensures { result ≡ but_for slot step }
{
    match (slot, step) {
        (Some(slot), Some(step)) if step.slot == slot => None,
        _ => step,
    }
}

/// Appends the steps of the reads but for those of the slot, in the order of their threads.
#[inline]
fn push_reads_of(
    reads: &[Entry],
    readers: u64,
    slot: Option<u16>,
    list: &mut SmallVec<Step, MAX_PREDECESSORS>,
)
    requires covered { AreReaders readers reads.now }
    requires room { HasRoomFor list.old MAX_THREADS }
    ensures items { list.new.items ≡ list.old.items
        ++ filter_map (λ t. but_for slot (slice_index_or reads.now t None)) thread_numbers }
    ensures capacity { list.new.capacity ≡ list.old.capacity }
{
    let mut rest = readers;
    let mut thread: u32 = 0;
    while rest != 0 {
        let skipped = rest.trailing_zeros();
        thread += skipped;
        push_step(list, but_for(slot, entry_at(reads, thread as usize)));
        thread += 1;
        rest = (rest >> skipped) >> 1;
    }
}

/// Whether all steps of the reads are of the slot.
#[inline(always)]
fn are_of(reads: &[Entry], readers: u64, slot: u16) -> bool
    requires { AreReaders readers reads.now }
    ensures { IsTrue result ↔ (filter_map (λ t. but_for (Some slot) (slice_index_or reads.now t None)) thread_numbers ≡ []) }
{
    let mut left = readers;
    let mut thread: u32 = 0;
    while left != 0 {
        let skipped = left.trailing_zeros();
        thread += skipped;
        let other = but_for(Some(slot), entry_at(reads, thread as usize));
        if other.is_some() {
            return false;
        }
        thread += 1;
        left = (left >> skipped) >> 1;
    }
    true
}

/// The bits of the readers with that of the thread, if its read has a step.
fn with_reader(readers: u64, t: ThreadId, step: Option<Step>) -> u64
    requires { t.0 < MAX_THREADS }
    ensures { (reads : List (Option StepOf)) → t.0 < length reads → AreReaders readers reads
        → AreReaders result (slice_set reads t.0 step) }
{
    match step {
        Some(_) => readers | 1 << t.0,
        None => readers,
    }
}

/// The bits of the readers without that of the thread.
fn without_reader(readers: u64, t: ThreadId) -> u64
    requires { t.0 < MAX_THREADS }
    ensures { (reads : List (Option StepOf)) → t.0 < length reads → AreReaders readers reads
        → AreReaders result (slice_set reads t.0 None) }
{
    readers & !(1 << t.0)
}

/// The read by the thread with this number, or none where there is no room for it.
fn read_in(entries: &[Entry], reads: ReadSpan, thread: usize) -> Entry
    requires { reads.start + reads.count ≤ length entries.now }
    ensures { result ≡ slice_index_or (reads_in entries.now reads) thread None }
{
    if thread < reads.count {
        entries[reads.start + thread]
    } else {
        Entry::new(None)
    }
}

/// Appends these reads once more, with blanks up to so many.
fn append_longer(entries: &mut Vec<Entry>, reads: ReadSpan, count: usize)
    requires inside { reads.start + reads.count ≤ length entries.old.items }
    requires longer { reads.count ≤ count }
    requires room { length entries.old.items + count ≤ vec_capacity entries.old }
    ensures { entries.new.items ≡ entries.old.items ++ filled_up None count (reads_in entries.old.items reads) }
{
    let end = entries.len() + count;
    let Ok(()) = entries.extend_from_within(reads.start..reads.start + reads.count) else {
        unreachable!()
    };
    let Ok(()) = entries.resize(end, Entry::new(None)) else {
        unreachable!()
    };
}

impl CellAccesses {
    /// The accesses with the step of the last write by its heir.
    fn renamed(self, heirs: &[Option<Heir>]) -> CellAccesses
        ensures { result ≡ with_write_by heirs.now self }
    {
        CellAccesses {
            write: self.write.renamed(heirs),
            ..self
        }
    }
}

/// Puts the step of each last write by its heir.
fn rename_writes(cells: &mut [CellAccesses], heirs: &[Option<Heir>])
    ensures { cells.new ≡ map (with_write_by heirs.now) cells.old }
{
    for number in 0..cells.len() {
        let cell = cells[number];
        cells[number] = cell.renamed(heirs);
    }
}

impl Cells {
    /// No cell.
    pub fn new(alloc: Global) -> Cells
        ensures { result ≡ [] }
    {
        Cells {
            cells: Vec::new(alloc),
            reads: Vec::new(alloc),
        }
    }

    /// The step of the last write.
    pub fn last_write(&self, c: Cell) -> Option<Step>
        ensures { result ≡ (slice_index_or self.now c.0 no_accesses).write }
    {
        if (c.0 as usize) < self.cells.len() {
            let write = self.cells[c.0 as usize].write;
            write.step()
        } else {
            None
        }
    }

    /// The step of the thread's last read.
    pub fn last_read(&self, c: Cell, t: ThreadId) -> Option<Step>
        ensures { result ≡ slice_index_or (slice_index_or self.now c.0 no_accesses).reads t.0 None }
    {
        if (c.0 as usize) < self.cells.len() {
            let reads = self.cells[c.0 as usize].reads;
            let read = read_in(&self.reads, reads, t.0 as usize);
            read.step()
        } else {
            None
        }
    }

    /// The last reads of the cell, by number of their threads.
    fn reads_of(&self, c: Cell) -> &[Entry]
        ensures { result.now ≡ (slice_index_or self.now c.0 no_accesses).reads }
    {
        if (c.0 as usize) < self.cells.len() {
            let reads = self.cells[c.0 as usize].reads;
            &self.reads[reads.start..reads.start + reads.count]
        } else {
            &[]
        }
    }

    /// A bit for each thread whose last read has a step, and perhaps for others that read.
    pub fn readers(&self, c: Cell) -> u64
        ensures { AreReaders result (slice_index_or self.now c.0 no_accesses).reads }
    {
        if (c.0 as usize) < self.cells.len() {
            self.cells[c.0 as usize].readers
        } else {
            0
        }
    }

    /// Whether there is room for a read of the cell by the thread.
    #[inline(always)]
    pub fn has_room_to_read(&self, c: Cell, t: ThreadId) -> bool
        ensures { IsTrue result ↔ ((c.0 < length self.now) × (t.0 < length (slice_index_or self.now c.0 no_accesses).reads)) }
    {
        (c.0 as usize) < self.cells.len() && (t.0 as usize) < self.cells[c.0 as usize].reads.count
    }

    /// Whether there is room for a write of the cell.
    #[inline(always)]
    pub fn has_room_to_write(&self, c: Cell) -> bool
        ensures { IsTrue result ↔ (c.0 < length self.now) }
    {
        (c.0 as usize) < self.cells.len()
    }

    /// Whether the steps of the cell's last reads are all of the slot.
    #[inline(always)]
    pub fn reads_are_of(&self, c: Cell, slot: u16) -> bool
        ensures { IsTrue result ↔ (steps_of (Some slot) (slice_index_or self.now c.0 no_accesses)
            ≡ option_to_list (but_for (Some slot) (slice_index_or self.now c.0 no_accesses).write)) }
    {
        are_of(self.reads_of(c), self.readers(c), slot)
    }

    /// Appends the steps of the cell's last write and reads but for those of the slot, the reads in the order of their
    /// threads.
    #[inline]
    pub fn push_accesses(
        &self,
        c: Cell,
        slot: Option<u16>,
        list: &mut SmallVec<Step, MAX_PREDECESSORS>,
    )
        requires { HasRoomFor list.old (1 + MAX_THREADS) }
        ensures items { list.new.items ≡ list.old.items ++ steps_of slot (slice_index_or self.now c.0 no_accesses) }
        ensures capacity { list.new.capacity ≡ list.old.capacity }
    {
        push_step(list, but_for(slot, self.last_write(c)));
        push_reads_of(self.reads_of(c), self.readers(c), slot, list);
    }
}

impl Cells {
    /// Makes room for the cell.
    ///
    /// # Errors
    /// `Memory` where there was no room for it and a growth was refused. Nothing changes then.
    pub fn reserve(&mut self, c: Cell) -> Result<(), Memory>
        ensures ok { OnOk result (self.new ≡ filled_up no_accesses (c.0 + 1) self.old) }
        ensures err { OnErr result (self.new ≡ self.old) }
        ensures refused { OnErr result (length self.old ≤ c.0) }
    {
        let blank = CellAccesses {
            write: Entry::new(None),
            readers: 0,
            reads: ReadSpan { start: 0, count: 0 },
        };
        fill_up_to(&mut self.cells, c.0 as usize, blank)
    }

    /// Makes room for the reads of the cell by that many threads.
    ///
    /// # Errors
    /// `Memory` where a growth was refused. Nothing changes then.
    pub fn reserve_reads(&mut self, c: Cell, threads: usize) -> Result<(), Memory>
        requires there { c.0 < length self.old }
        requires few { threads ≤ MAX_THREADS }
        ensures ok { OnOk result (self.new
            ≡ slice_set self.old c.0 (with_reads_of threads (slice_index_or self.old c.0 no_accesses))) }
        ensures err { OnErr result (self.new ≡ self.old) }
    {
        let reads = self.cells[c.0 as usize].reads;
        if threads <= reads.count {
            return Ok(());
        }
        reserve(&mut self.reads, threads)?;
        let start = self.reads.len();
        append_longer(&mut self.reads, reads, threads);
        self.cells[c.0 as usize].reads = ReadSpan {
            start,
            count: threads,
        };
        Ok(())
    }

    /// Records the step, or none, as the cell's last write, for which there is room.
    pub fn record_write(&mut self, c: Cell, step: Option<Step>)
        requires { c.0 < length self.old }
        ensures { self.new ≡ slice_set self.old c.0 (with_write (slice_index_or self.old c.0 no_accesses) step) }
    {
        self.cells[c.0 as usize].write = Entry::new(step);
    }

    /// Records the step, or none, as the thread's last read of the cell, for which there is room.
    pub fn record_read(&mut self, c: Cell, t: ThreadId, step: Option<Step>)
        requires there { c.0 < length self.old }
        requires room { t.0 < length (slice_index_or self.old c.0 no_accesses).reads }
        ensures { self.new ≡ slice_set self.old c.0 (with_read (slice_index_or self.old c.0 no_accesses) t.0 step) }
    {
        let readers = with_reader(self.readers(c), t, step);
        self.put_read(c, t, readers, step);
    }

    /// Forgets the step of the thread's last read of the cell.
    pub fn forget_read(&mut self, c: Cell, t: ThreadId)
        ensures { self.new ≡ slice_set self.old c.0 (with_read (slice_index_or self.old c.0 no_accesses) t.0 None) }
    {
        if self.has_room_to_read(c, t) {
            let readers = without_reader(self.readers(c), t);
            self.put_read(c, t, readers, None);
        }
    }

    /// Puts each step by its heir.
    pub fn rename(&mut self, heirs: &[Option<Heir>])
        ensures { self.new ≡ map (with_heirs heirs.now) self.old }
    {
        rename_writes(&mut self.cells, heirs);
        rename_entries(&mut self.reads, heirs);
    }

    /// Puts the step, or none, in the place of the thread's last read, and these bits in that of the cell's readers.
    #[inline(always)]
    fn put_read(&mut self, c: Cell, t: ThreadId, readers: u64, step: Option<Step>)
        requires there { c.0 < length self.old }
        requires room { t.0 < length (slice_index_or self.old c.0 no_accesses).reads }
        requires covered { AreReaders readers (slice_set (slice_index_or self.old c.0 no_accesses).reads t.0 step) }
        ensures { self.new ≡ slice_set self.old c.0 (with_read (slice_index_or self.old c.0 no_accesses) t.0 step) }
    {
        let start = self.cells[c.0 as usize].reads.start;
        self.cells[c.0 as usize].readers = readers;
        self.reads[start + t.0 as usize] = Entry::new(step);
    }
}
