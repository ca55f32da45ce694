//! The latest accesses of a transaction.
ghost use Rattle.std.specs.Prelude.{◌≡◌, ◌<◌, ◌+◌, ℕ, List, IfOk, length};
ghost use Rattle.velo_events.specs.declared.event.Event.{Event as EventOf};
ghost use Rattle.velo_events.specs.Block.{owner};
ghost use Rattle.velo_certify.specs.Owners.{AreOwners};
ghost use Rattle.velo_explain.specs.Latest.{AreLatest, HavePlaces, IsNoted};
ghost use Rattle.velo_explain.specs.Pairs.{latest_for};

use std::alloc::Global;
use velo_events::growth::filled;
use velo_events::{Event, Kind, Memory};

/// How many variables a log can name.
const VARIABLES: usize = 65_536;

/// For each variable the number after the position of the latest access of a transaction, and of its
/// latest write; 0 where there is none.
#[derive(Drop)]
pub struct LatestAccesses {
    accesses: Vec<usize>,
    writes: Vec<usize>,
}

impl LatestAccesses {
    /// No access.
    ///
    /// # Errors
    /// `Memory` if an allocation failed.
    pub fn new(alloc: Global) -> Result<LatestAccesses, Memory>
        ensures places { IfOk result HavePlaces }
        ensures none { IfOk result (λ latest. (log : List EventOf) (a : ℕ) → AreLatest log a 0 latest) }
    {
        Ok(LatestAccesses {
            accesses: filled(alloc, 0, VARIABLES)?,
            writes: filled(alloc, 0, VARIABLES)?,
        })
    }

    /// Notes an operation of the transaction, by the number after its position.
    fn note(&mut self, kind: Kind, number: usize)
        requires { HavePlaces self.old }
        ensures { IsNoted kind number self.old self.new }
    {
        match kind {
            Kind::Read(x, _) => self.accesses[usize::from(x.0)] = number,
            Kind::Write(x, _) => {
                self.accesses[usize::from(x.0)] = number;
                self.writes[usize::from(x.0)] = number;
            }
            _ => {}
        }
    }

    /// Takes the event at a position in, if it is of the transaction.
    pub fn take_in(&mut self, events: &[Event], owners: &[usize], transaction: usize, at: usize)
        requires within { at < length events.now }
        requires owners { AreOwners owners.now events.now }
        requires places { HavePlaces self.old }
        requires latest { AreLatest events.now transaction at self.old }
        ensures places { HavePlaces self.new }
        ensures latest { AreLatest events.now transaction (at + 1) self.new }
    {
        if owners[at] == transaction {
            self.note(events[at].kind, at + 1);
        }
    }

    /// The number after the latest access that conflicts with the event at a position, if no later one
    /// was taken in; 0 where there is none.
    pub fn latest_for(&self, kind: Kind) -> usize
        requires { HavePlaces self.now }
        ensures { (log : List EventOf) (a n : ℕ) → AreLatest log a n self.now
            → result ≡ latest_for log a n kind }
    {
        match kind {
            Kind::Read(x, _) => self.writes[usize::from(x.0)],
            Kind::Write(x, _) => self.accesses[usize::from(x.0)],
            _ => 0,
        }
    }
}
