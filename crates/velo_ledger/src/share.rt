//! A thread's share of the book.
ghost use Rattle.std.specs.Prelude.{◌≡◌};

use crate::tally::Tally;
use std::marker::Model;
use velo_events::{Event, ThreadId};

/// What one thread knows of its own row. It has no copy, and only `Book::open` makes shares.
#[derive(Drop)]
pub struct Share {
    /// The number of its run.
    pub(crate) run: u64,
    /// Its thread.
    pub(crate) thread: ThreadId,
    /// What the thread knows of its row.
    pub(crate) tally: Tally,
}

impl Model for Share {
    ghost use Rattle.velo_ledger.specs.Views.{Holding};

    ghost Value = { Holding };

    ghost view = { λ share. record { run = share.run; thread = share.thread; tally = share.tally } };
}

impl Share {
    /// The number of the run.
    pub fn run(&self) -> u64
        ensures { result ≡ self.now.run }
    {
        self.run
    }

    /// The thread whose events are counted.
    pub fn thread(&self) -> ThreadId
        ensures { result ≡ self.now.thread }
    {
        self.thread
    }

    /// How many events the thread has.
    pub fn events(&self) -> u64
        ensures { result ≡ self.now.tally.events }
    {
        self.tally.events
    }

    /// The position of its last event plus one, or 0.
    pub fn next(&self) -> u64
        ensures { result ≡ self.now.tally.next }
    {
        self.tally.next
    }

    /// Its last event.
    pub fn last(&self) -> Option<Event>
        ensures { result ≡ self.now.tally.last }
    {
        self.tally.last
    }

    /// The sum of the values that it read.
    pub fn read_total(&self) -> u128
        ensures { result ≡ self.now.tally.read_total }
    {
        self.tally.read_total
    }

    /// The sum of the values that it wrote.
    pub fn written_total(&self) -> u128
        ensures { result ≡ self.now.tally.written_total }
    {
        self.tally.written_total
    }
}
