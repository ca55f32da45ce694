//! Numbers of events, kept by what the events are about.
ghost use Rattle.std.specs.Prelude.{◌≡◌, ◌<◌, length, max, slice_index, slice_set, IfOk};
ghost use Rattle.velo_traces.specs.Numbers.{IsBlank, AreBlank, IsLookedUp, IsChangeLookedUp, IsRecorded};
ghost use Rattle.velo_traces.specs.Places.{sizes, sizes_of, HasPlaces};
ghost use Rattle.velo_traces.specs.Raised.{recorded_in};

use std::alloc::Global;
use std::marker::Model;
use velo_events::growth::filled;
use velo_events::{Access, Event, Memory};

/// The greatest numbers of events, 0 where there is none. Events may be recorded in any order.
#[derive(Drop)]
pub struct ConflictTable {
    /// Of the events of each thread.
    threads: Vec<usize>,
    /// Of the forks and joins of each thread.
    handles: Vec<usize>,
    /// Of the writes of each cell.
    writes: Vec<usize>,
    /// Of its reads.
    reads: Vec<usize>,
}

impl Model for ConflictTable {
    ghost use Rattle.velo_traces.specs.Numbers.{Rows};

    ghost Value = { Rows };

    ghost view = { λ t. record { threads = t.threads.items; handles = t.handles.items; writes = t.writes.items; reads = t.reads.items } };
}

/// A row without numbers.
fn blank_row(alloc: Global, count: usize) -> Result<Vec<usize>, Memory>
    ensures blank { IfOk result (λ row. IsBlank row.items) }
    ensures count { IfOk result (λ row. length row.items ≡ count) }
{
    filled(alloc, 0, count)
}

/// Takes all numbers out of a row.
fn clear(row: &mut [usize])
    ensures blank { IsBlank row.new }
    ensures size { length row.new ≡ length row.old }
{
    for number in row.iter_mut() {
        *number = 0;
    }
}

/// Raises the number at a place to at least the given one.
fn raise_at(row: &mut [usize], place: usize, number: usize)
    requires { place < length row.old }
    ensures { row.new ≡ slice_set row.old place (max (slice_index row.old place) number) }
{
    row[place] = row[place].max(number);
}

impl ConflictTable {
    /// A table for these numbers of threads and cells, with no number recorded.
    ///
    /// # Errors
    /// `Memory` if an allocation failed.
    pub fn new(alloc: Global, threads: usize, cells: usize) -> Result<ConflictTable, Memory>
        ensures blank { IfOk result AreBlank }
        ensures sizes { IfOk result (λ table. sizes table ≡ sizes_of threads cells) }
    {
        Ok(ConflictTable {
            threads: blank_row(alloc, threads)?,
            handles: blank_row(alloc, threads)?,
            writes: blank_row(alloc, cells)?,
            reads: blank_row(alloc, cells)?,
        })
    }

    /// Takes all numbers out.
    pub fn clear(&mut self)
        ensures blank { AreBlank self.new }
        ensures sizes { sizes self.new ≡ sizes self.old }
    {
        clear(&mut self.threads);
        clear(&mut self.handles);
        clear(&mut self.writes);
        clear(&mut self.reads);
    }

    /// The greatest number of an event that conflicts with the given one. The event's threads and
    /// cell have to have places.
    pub fn look_up(&self, event: Event) -> usize
        requires { HasPlaces (sizes self.now) event }
        ensures { IsLookedUp self.now event result }
    {
        let thread = event.thread.0 as usize;
        let near = self.threads[thread].max(self.handles[thread]);
        match event.kind.access() {
            Access::Shared(c) => near.max(self.writes[c.0 as usize]),
            Access::Exclusive(c) => near
                .max(self.writes[c.0 as usize])
                .max(self.reads[c.0 as usize]),
            Access::Fork(u) | Access::Join(u) => near.max(self.threads[u.0 as usize]),
            Access::Nothing => near,
        }
    }

    /// The greatest number of an event that changes what the given one is about beside its own
    /// thread: that writes its cell, or is of the thread that it forks or joins. It conflicts with
    /// it, and any two such events conflict.
    pub fn look_up_change(&self, event: Event) -> usize
        requires { HasPlaces (sizes self.now) event }
        ensures { IsChangeLookedUp self.now event result }
    {
        match event.kind.access() {
            Access::Shared(c) | Access::Exclusive(c) => self.writes[c.0 as usize],
            Access::Fork(u) | Access::Join(u) => self.threads[u.0 as usize],
            Access::Nothing => 0,
        }
    }

    /// Gives an event its number. The event's threads and cell have to have places.
    pub fn record(&mut self, event: Event, number: usize)
        requires { HasPlaces (sizes self.old) event }
        ensures recorded { IsRecorded self.old event number self.new }
        ensures sizes { sizes self.new ≡ sizes self.old }
    {
        self.raise(event, number);
    }

    /// Raises the numbers of what the event is about.
    fn raise(&mut self, event: Event, number: usize)
        requires { HasPlaces (sizes self.old) event }
        ensures { self.new ≡ recorded_in self.old event number }
    {
        raise_at(&mut self.threads, event.thread.0 as usize, number);
        match event.kind.access() {
            Access::Shared(c) => raise_at(&mut self.reads, c.0 as usize, number),
            Access::Exclusive(c) => raise_at(&mut self.writes, c.0 as usize, number),
            Access::Fork(u) | Access::Join(u) => raise_at(&mut self.handles, u.0 as usize, number),
            Access::Nothing => {}
        }
    }
}
