//! What the events at the places of a run know of each thread, by number of the place.
ghost use Rattle.std.specs.Prelude.{◌≡◌, ◌<◌, ◌≤◌, ◌*◌, ℕ, map, ◌∷◌, length, replicate, slice_index_or, IsTrue, IfOk, OnOk, OnErr};
ghost use Rattle.velo_tables.specs.Clocks.{ClockPlace, OfLast, number_at, greatest_of, beside, ForksOneOf, HasRoomBeside};
ghost use Rattle.velo_tables.specs.ClockRows.{numbers_of, IsNotedBy, KeepsNumbers, HasThreads};

use crate::rows::{number_of, raise, raise_row, row, write_row};
use std::alloc::Global;
use velo_events::growth::{fill_up_to, filled};
use velo_events::{Access, Memory, ThreadId};

/// Rows of numbers, one for each thread: what the last event of each thread and the last write of each cell know, and what the
/// reads of each cell since then do. A variable is written and read; a lock is written by who takes or leaves it alone, and read
/// by who does so beside others.
#[derive(Drop)]
pub(crate) struct PlaceRows {
    /// The rows of the threads.
    pub threads: Vec<u32>,
    /// The rows of the last writes.
    pub writes: Vec<u32>,
    /// The rows of the reads since then.
    pub reads: Vec<u32>,
}

impl PlaceRows {
    /// Rows of that many threads, at which nothing is known.
    ///
    /// # Errors
    /// `Memory` where a growth was refused.
    pub fn new(alloc: Global, threads: usize) -> Result<PlaceRows, Memory>
        requires { threads ≤ 64 }
        ensures threads { IfOk result (λ rows. HasThreads threads (numbers_of rows)) }
        ensures blank { IfOk result (λ rows. (n : ℕ) (p : ClockPlace) (u : ℕ) → number_at n (numbers_of rows) p u ≡ 0) }
    {
        let rows = filled(alloc, 0u32, threads * threads)?;
        Ok(PlaceRows {
            threads: rows,
            writes: Vec::new(alloc),
            reads: Vec::new(alloc),
        })
    }

    /// Whether there is room for what the access notes.
    #[inline(always)]
    pub fn has_room_for(&self, count: usize, access: Access) -> bool
        requires { count ≤ 64 }
        ensures { IsTrue result → ForksOneOf count access → HasRoomBeside count (numbers_of self.now) access }
    {
        match access {
            Access::Shared(c) | Access::Exclusive(c) => {
                let rows = (c.0 as usize + 1) * count;
                rows <= self.writes.len() && rows <= self.reads.len()
            }
            _ => true,
        }
    }

    /// Makes room for what the access notes. Nothing that is known changes, also where it is refused.
    ///
    /// # Errors
    /// `Memory` where there was too little room and a growth was refused.
    pub fn reserve_for(&mut self, count: usize, access: Access) -> Result<(), Memory>
        requires few { count ≤ 64 }
        requires some { 0 < count }
        ensures kept { KeepsNumbers count (numbers_of self.old) (numbers_of self.new) }
        ensures ok { OnOk result (ForksOneOf count access → HasRoomBeside count (numbers_of self.new) access) }
        ensures err { OnErr result (¬ HasRoomBeside count (numbers_of self.old) access) }
    {
        match access {
            Access::Shared(c) | Access::Exclusive(c) => {
                let last = (c.0 as usize + 1) * count - 1;
                fill_up_to(&mut self.writes, last, 0)?;
                fill_up_to(&mut self.reads, last, 0)
            }
            _ => Ok(()),
        }
    }

    /// Writes down what is known by the last event of the thread, and by the events that the access conflicts with.
    pub fn join(&self, clock: &mut [u32], thread: ThreadId, access: Access)
        requires few { length clock.old ≤ 64 }
        requires threads { HasThreads (length clock.old) (numbers_of self.now) }
        requires own { thread.0 < length clock.old }
        ensures { (u : ℕ) → slice_index_or clock.new u 0
            ≡ greatest_of (map (λ p. number_at (length clock.old) (numbers_of self.now) p u) (OfLast thread.0 ∷ beside access)) }
    {
        let count = clock.len();
        clock.copy_from_slice(row(&self.threads, count, thread.0 as usize));
        match access {
            Access::Shared(c) => raise(clock, row(&self.writes, count, c.0 as usize)),
            Access::Exclusive(c) => {
                raise(clock, row(&self.writes, count, c.0 as usize));
                raise(clock, row(&self.reads, count, c.0 as usize));
            }
            Access::Join(u) => raise(clock, row(&self.threads, count, u.0 as usize)),
            _ => {}
        }
    }

    /// Notes the access of a thread that knows so much. The other list is a row of zeros.
    pub fn note(&mut self, clock: &[u32], blank: &[u32], thread: ThreadId, access: Access)
        requires few { length clock.now ≤ 64 }
        requires blank { blank.now ≡ replicate (length clock.now) 0 }
        requires threads { HasThreads (length clock.now) (numbers_of self.old) }
        requires own { thread.0 < length clock.now }
        requires beside { HasRoomBeside (length clock.now) (numbers_of self.old) access }
        ensures { IsNotedBy (length clock.now) (numbers_of self.old) clock.now thread.0 access (numbers_of self.new) }
    {
        write_row(&mut self.threads, thread.0 as usize, clock);
        match access {
            Access::Shared(c) => raise_row(&mut self.reads, c.0 as usize, clock),
            Access::Exclusive(c) => {
                write_row(&mut self.writes, c.0 as usize, clock);
                write_row(&mut self.reads, c.0 as usize, blank);
            }
            Access::Fork(u) => write_row(&mut self.threads, u.0 as usize, clock),
            _ => {}
        }
    }

    /// How far the last event of a thread knows another.
    #[inline]
    pub fn of_last(&self, count: usize, thread: ThreadId, other: ThreadId) -> u32
        requires { count ≤ 64 }
        ensures { result ≡ number_at count (numbers_of self.now) (OfLast thread.0) other.0 }
    {
        number_of(row(&self.threads, count, thread.0 as usize), other)
    }

    /// How far the events know the thread that the access conflicts with.
    pub fn of_beside(&self, count: usize, thread: ThreadId, access: Access) -> u32
        requires { count ≤ 64 }
        ensures { result ≡ greatest_of (map (λ p. number_at count (numbers_of self.now) p thread.0) (beside access)) }
    {
        match access {
            Access::Shared(c) => number_of(row(&self.writes, count, c.0 as usize), thread),
            Access::Exclusive(c) => {
                let written = number_of(row(&self.writes, count, c.0 as usize), thread);
                written.max(number_of(row(&self.reads, count, c.0 as usize), thread))
            }
            Access::Join(u) => self.of_last(count, u, thread),
            _ => 0,
        }
    }
}
