//! A world after its end.
ghost use Rattle.std.specs.Prelude.{◌≡◌, ◌≤◌, ◌<◌, length, IfSome, IfNone};
ghost use Rattle.velo_events.specs.Graph.{HasCycle};
ghost use Rattle.velo_events.specs.Reordering.{IsSerializable};
ghost use Rattle.velo_events.specs.WellFormed.{IsWellFormed};
ghost use Rattle.velo_heap.specs.Contents.{bounds_of, IsHeapOf};
ghost use Rattle.velo_ledger.specs.Logs.{tally_of, events_below};
ghost use Rattle.velo_world.specs.World.{IsAlarm, IsBookOf};

use crate::analysis::Alarm;
use std::marker::Model;
use velo_events::{Bounds, Config, ThreadId};
use velo_heap::Heap;
use velo_ledger::{Book, Tally};
use velo_traces::Trace;

/// A world after its end, in which nobody acts any more.
#[derive(Drop)]
pub struct Closed {
    /// What it was opened with.
    pub(crate) config: Config,
    /// Whether it was halted.
    pub(crate) halted: bool,
    /// All events.
    pub(crate) log: Trace,
    /// The heap that they leave.
    pub(crate) heap: Heap,
    /// Their alarm.
    pub(crate) alarm: Option<Alarm>,
    /// A row for each thread.
    pub(crate) book: Book,
}

impl Model for Closed {
    ghost use Rattle.velo_world.specs.World.{WorldState};

    ghost Value = { WorldState };

    ghost use Rattle.velo_world.specs.InsideClosed.{closed_state, FollowsFromItsEvents};

    ghost view = { closed_state };

    ghost invariant = { FollowsFromItsEvents };
}

impl Closed {
    /// How many threads, variables and locks there are.
    pub fn bounds(&self) -> Bounds
        ensures { result ≡ self.now.config.bounds }
    {
        self.config.bounds
    }

    /// All events.
    pub fn log(&self) -> &Trace
        ensures events { result.now.events ≡ self.now.log }
        ensures well_formed { IsWellFormed self.now.config.bounds self.now.log }
        ensures limit { length self.now.log ≤ self.now.config.events }
    {
        &self.log
    }

    /// The heap that the log leaves.
    pub fn heap(&self) -> &Heap
        ensures stands { IsHeapOf result.now self.now.log }
        ensures bounds { bounds_of result.now ≡ self.now.config.bounds }
    {
        &self.heap
    }

    /// The alarm, if the log has a cycle, that is, if no reordering of it is serial.
    pub fn alarm(&self) -> Option<&Alarm>
        ensures none { IfNone result (¬ HasCycle self.now.log) }
        ensures some { IfSome result (λ alarm. IsAlarm self.now.log alarm.now) }
        ensures serial_none { IfNone result (IsSerializable self.now.log) }
        ensures serial_some { IfSome result (λ alarm. ¬ IsSerializable self.now.log) }
    {
        self.alarm.as_ref()
    }

    /// The book of the log, with a row for each thread.
    pub fn book(&self) -> &Book
        ensures { IsBookOf self.now result.now }
    {
        &self.book
    }

    /// What the events of a thread come to.
    pub fn tally(&self, thread: ThreadId) -> Tally
        requires { thread.0 < self.now.config.bounds.threads }
        ensures { result ≡ tally_of self.now.log thread.0 }
    {
        self.book.tally(thread)
    }

    /// How many events there are, which is the sum of the tallies' counts.
    pub fn total(&self) -> u64
        ensures log { result ≡ length self.now.log }
        ensures tallies { result ≡ events_below self.now.log self.now.config.bounds.threads }
    {
        self.log.len() as u64
    }
}
