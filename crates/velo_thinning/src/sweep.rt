//! One pass over the events of a log, from the first on.
ghost use Rattle.std.specs.Prelude.{◌≡◌, ◌↔◌, List, ◌≤◌, ◌<◌, ◌+◌, ◌*◌, ◌^◌, ◌&&◌, ◌||◌, ◌==◌, ℕ, nat_le, if◌then◌else◌, true, false, not, length, slice_index_or, slice_set, IfOk, OnOk, IsTrue, IsFalse};
ghost use Rattle.velo_events.specs.declared.limits.TheConstants.{MAX_EVENTS};
ghost use Rattle.velo_events.specs.declared.event.Event.{Event};
ghost use Rattle.velo_events.specs.WellFormed.{IsWellFormed};
ghost use Rattle.velo_tables.specs.Clocks.{ClockState, IsOfThreads};
ghost use Rattle.velo_thinning.specs.Sweep.{is_known, KnowsWrite, KnowsReads, IsJudged, IsNotedAfterRoom, IsSwept};

use std::alloc::Global;
use velo_events::growth::filled;
use velo_events::{Bounds, Config, Event, Kind, Memory, ThreadId};
use velo_tables::ClockTables;

/// The stamps of a variable's reads: one for each number that a thread can have.
const WIDTH: usize = 64;

/// The last write of a variable.
///
/// The stamp of an access is the number of synchronizing events before it, plus one.
#[derive(Clone, Copy)]
pub(crate) struct LastWrite {
    /// Its thread.
    pub by: ThreadId,
    /// Its stamp, or 0 where there is no write.
    pub stamp: u32,
}

/// What is kept of the events so far.
#[derive(Drop)]
pub(crate) struct Sweep {
    /// How many threads and variables there are.
    pub bounds: Bounds,
    /// How far each thread knows the others, by the synchronizing events alone.
    pub clocks: ClockTables,
    /// How many of them came.
    pub count: u32,
    /// The last write of each variable.
    pub writes: Vec<LastWrite>,
    /// The stamp of the last read of each variable by each thread, or 0.
    pub reads: Vec<u32>,
    /// Whether all accesses to the variable came in order.
    pub ordered: Vec<bool>,
}

impl Sweep {
    /// Nothing came yet.
    ///
    /// # Errors
    /// `Memory` where a growth was refused.
    pub fn new(alloc: Global, config: &Config) -> Result<Sweep, Memory>
        ensures bounds { IfOk result (λ sweep. sweep.bounds ≡ config.now.bounds) }
        ensures swept { IfOk result (λ sweep. (log : List Event) → IsSwept log 0 sweep) }
    {
        let variables = usize::from(config.bounds.variables);
        let nobody = LastWrite {
            by: ThreadId(0),
            stamp: 0,
        };
        let clocks = ClockTables::new(alloc, config)?;
        let writes = filled(alloc, nobody, variables)?;
        let reads = filled(alloc, 0u32, variables * WIDTH)?;
        let ordered = filled(alloc, true, variables)?;
        Ok(Sweep {
            bounds: config.bounds,
            clocks,
            count: 0,
            writes,
            reads,
            ordered,
        })
    }

    /// Whether the thread did the access with this stamp itself, or knows an event that its thread did after it.
    #[inline]
    fn knows(&self, thread: ThreadId, by: ThreadId, stamp: u32) -> bool
        ensures { result ≡ is_known self.now.clocks thread.0 by.0 stamp }
    {
        by.0 == thread.0 || stamp <= self.clocks.known(thread, by)
    }

    /// Whether it knows the last write of the variable.
    #[inline]
    fn knows_write(&self, thread: ThreadId, variable: usize) -> bool
        requires { variable < length self.now.writes.items }
        ensures { IsTrue result ↔ KnowsWrite self.now thread.0 variable }
    {
        let last = self.writes[variable];
        self.knows(thread, last.by, last.stamp)
    }

    /// Whether it knows each thread's last read of the variable.
    fn knows_reads(&self, thread: ThreadId, variable: usize) -> bool
        requires few { self.now.bounds.threads ≤ 64 }
        requires within { variable * 64 + 64 ≤ length self.now.reads.items }
        ensures { IsTrue result ↔ KnowsReads self.now thread.0 variable }
    {
        for u in 0..self.bounds.threads {
            let stamp = self.reads[variable * WIDTH + usize::from(u)];
            if !self.knows(thread, ThreadId(u), stamp) {
                return false;
            }
        }
        true
    }

    /// The thread reads the variable.
    #[inline]
    fn read(&mut self, thread: ThreadId, variable: usize)
        requires count { self.old.count + 1 < 2 ^ 32 }
        requires thread { thread.0 < 64 }
        requires writes { variable < length self.old.writes.items }
        requires reads { variable * 64 + 64 ≤ length self.old.reads.items }
        requires ordered { variable < length self.old.ordered.items }
        ensures bounds { self.new.bounds ≡ self.old.bounds }
        ensures clocks { self.new.clocks ≡ self.old.clocks }
        ensures count { self.new.count ≡ self.old.count }
        ensures writes { self.new.writes.items ≡ self.old.writes.items }
        ensures reads { self.new.reads.items
            ≡ slice_set self.old.reads.items (variable * 64 + thread.0) (self.old.count + 1) }
        ensures ordered { IsJudged self.old.ordered.items self.new.ordered.items variable
            (KnowsWrite self.old thread.0 variable) }
    {
        let known = self.knows_write(thread, variable);
        judge(&mut self.ordered, variable, known);
        self.reads[variable * WIDTH + usize::from(thread.0)] = self.count + 1;
    }

    /// The thread writes the variable.
    #[inline]
    fn write(&mut self, thread: ThreadId, variable: usize)
        requires few { self.old.bounds.threads ≤ 64 }
        requires count { self.old.count + 1 < 2 ^ 32 }
        requires writes { variable < length self.old.writes.items }
        requires reads { variable * 64 + 64 ≤ length self.old.reads.items }
        requires ordered { variable < length self.old.ordered.items }
        ensures bounds { self.new.bounds ≡ self.old.bounds }
        ensures clocks { self.new.clocks ≡ self.old.clocks }
        ensures count { self.new.count ≡ self.old.count }
        ensures writes { self.new.writes.items
            ≡ slice_set self.old.writes.items variable (record { by = thread; stamp = self.old.count + 1 }) }
        ensures reads { self.new.reads.items ≡ self.old.reads.items }
        ensures ordered { IsJudged self.old.ordered.items self.new.ordered.items variable
            (KnowsWrite self.old thread.0 variable × KnowsReads self.old thread.0 variable) }
    {
        let known = self.knows_write(thread, variable) && self.knows_reads(thread, variable);
        judge(&mut self.ordered, variable, known);
        self.writes[variable] = LastWrite {
            by: thread,
            stamp: self.count + 1,
        };
    }

    /// The event synchronizes.
    ///
    /// # Errors
    /// `Memory` where a growth was refused.
    fn synchronize(&mut self, event: &Event) -> Result<(), Memory>
        requires count { self.old.count + 2 < 2 ^ 32 }
        requires threads { IsOfThreads self.old.clocks.count event.now }
        ensures bounds { self.new.bounds ≡ self.old.bounds }
        ensures noted { OnOk result (IsNotedAfterRoom self.old.clocks self.old.count event.now self.new.clocks) }
        ensures count { OnOk result (self.new.count ≡ self.old.count + 1) }
        ensures writes { self.new.writes.items ≡ self.old.writes.items }
        ensures reads { self.new.reads.items ≡ self.old.reads.items }
        ensures ordered { self.new.ordered.items ≡ self.old.ordered.items }
    {
        self.clocks.reserve_for(event)?;
        self.clocks.note(self.count, event);
        self.count += 1;
        Ok(())
    }

    /// The event at the position comes next.
    ///
    /// # Errors
    /// `Memory` where a growth was refused.
    pub fn take_in(&mut self, events: &[Event], position: usize) -> Result<(), Memory>
        requires within { position < length events.now }
        requires few { length events.now ≤ MAX_EVENTS }
        requires well { IsWellFormed self.old.bounds events.now }
        requires swept { IsSwept events.now position self.old }
        ensures bounds { self.new.bounds ≡ self.old.bounds }
        ensures swept { OnOk result (IsSwept events.now (position + 1) self.new) }
    {
        let event = events[position];
        match event.kind {
            Kind::Read(x, _) => self.read(event.thread, usize::from(x.0)),
            Kind::Write(x, _) => self.write(event.thread, usize::from(x.0)),
            Kind::Begin(_) | Kind::End => {}
            _ => self.synchronize(&event)?,
        }
        Ok(())
    }
}

/// The variable is in order no more where an access to it is not known.
#[inline]
fn judge(ordered: &mut [bool], variable: usize, known: bool)
    requires { variable < length ordered.old }
    ensures { IsJudged ordered.old ordered.new variable (IsTrue known) }
{
    if !known {
        ordered[variable] = false;
    }
}
