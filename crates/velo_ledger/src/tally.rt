//! Counts and sums over the events of one thread.
ghost use Rattle.std.specs.Prelude.{◌≡◌, ◌<◌, ◌≤◌, ◌↔◌, IsTrue};
ghost use Rattle.velo_events.specs.declared.limits.TheConstants.{MAX_EVENTS};

use velo_events::{Event, Kind};

/// Counts and sums over the events of one thread.
#[derive(Clone, Copy, PartialEq, Eq)]
pub struct Tally {
    /// How many events there are.
    pub events: u64,
    /// The position of the last event plus one, or 0.
    pub next: u64,
    /// The last event.
    pub last: Option<Event>,
    /// The sum of the values that were read.
    pub read_total: u128,
    /// The sum of the values that were written.
    pub written_total: u128,
}

ghost use Rattle.velo_ledger.specs.Tally.{blank, with_event, IsSmall};

impl Tally {
    /// The tally of no event.
    pub(crate) fn blank() -> Tally
        ensures { result ≡ blank }
    {
        Tally {
            events: 0,
            next: 0,
            last: None,
            read_total: 0,
            written_total: 0,
        }
    }

    /// Takes in one event more.
    #[inline(always)]
    pub(crate) fn add(&mut self, position: u64, event: &Event)
        requires small { IsSmall self.old }
        requires later { self.old.next ≤ position }
        requires room { position < MAX_EVENTS }
        ensures event { self.new ≡ with_event self.old position event.now }
        ensures small { IsSmall self.new }
    {
        self.events += 1;
        self.next = position + 1;
        self.last = Some(*event);
        match event.kind {
            Kind::Read(_, value) => self.read_total += u128::from(value),
            Kind::Write(_, value) => self.written_total += u128::from(value),
            _ => {}
        }
    }

    /// Whether all five parts are the same.
    pub(crate) fn is_same(&self, other: &Tally) -> bool
        ensures { IsTrue result ↔ (self.now ≡ other.now) }
    {
        *self == *other
    }
}
