//! The book of a run: a row of counts and sums for each thread.
ghost use Rattle.velo_events.specs.declared.limits.TheConstants.{MAX_EVENTS};
ghost use Rattle.std.specs.Prelude.{◌≡◌, ◌<◌, ◌≤◌, ◌+◌, ◌↔◌, Some, IfOk, IfSome, IsTrue, length, slice_get, sum_by, option_copied};
ghost use Rattle.std.specs.Option.{SomeIff};
ghost use Rattle.velo_ledger.specs.Tally.{with_event};
ghost use Rattle.velo_ledger.specs.Shares.{AreInPlace, AreOpening, events_in, events_in_all};
ghost use Rattle.velo_ledger.specs.Book.{FitsBook, PlacesFit, HasAllShares, HaveAllShares, with_row, with_tally, opening_accounts, CanEnterAt, EntersAt, CanCount, CountsIn};

use crate::share::Share;
use crate::shares::Shares;
use crate::tally::Tally;
use std::alloc::Global;
use std::marker::Model;
use velo_events::growth::with_capacity;
use velo_events::{Event, Memory, ThreadId};

/// A row for each thread of a run.
#[derive(Drop)]
pub struct Book {
    run: u64,
    rows: Vec<Tally>,
}

impl Model for Book {
    ghost use Rattle.std.specs.Prelude.{◌≤◌, All, length};
    ghost use Rattle.velo_ledger.specs.Views.{Accounts};
    ghost use Rattle.velo_ledger.specs.Tally.{IsSmall};

    ghost Value = { Accounts };

    ghost view = { λ book. record { run = book.run; rows = book.rows.items } };

    ghost invariant = { λ book. (length book.rows.items ≤ 255) × All IsSmall book.rows.items };
}

impl Book {
    /// A book without events, and a fitting share of each of its threads.
    ///
    /// Books that are alive together need different numbers of their runs. With the same number, a
    /// share of one book fits another where the other's row says the same.
    ///
    /// # Errors
    /// `Memory` if an allocation failed.
    pub fn open(alloc: Global, run: u64, threads: u8) -> Result<(Book, Shares), Memory>
        ensures book { IfOk result (λ opened. opened.0 ≡ opening_accounts run threads) }
        ensures shares { IfOk result (λ opened. AreOpening run threads opened.1) }
        ensures fit { IfOk result (λ opened. HasAllShares opened.0 opened.1) }
    {
        let mut rows = with_capacity(alloc, usize::from(threads))?;
        let mut places = with_capacity(alloc, usize::from(threads))?;
        for thread in 0..threads {
            rows.push_reserved(Tally::blank());
            places.push_reserved(Some(Share {
                run,
                thread: ThreadId(thread),
                tally: Tally::blank(),
            }));
        }
        Ok((Book { run, rows }, Shares { places }))
    }

    /// The row of a thread of the book.
    pub fn tally(&self, thread: ThreadId) -> Tally
        requires { thread.0 < length self.now.rows }
        ensures { slice_get self.now.rows thread.0 ≡ Some result }
    {
        self.rows[usize::from(thread.0)]
    }

    /// Whether the share is of this run and of a thread of the book, and says what the row says.
    pub fn fits(&self, share: &Share) -> bool
        ensures { IsTrue result ↔ FitsBook self.now share.now }
    {
        let place = usize::from(share.thread.0);
        if self.run != share.run || place >= self.rows.len() {
            return false;
        }
        self.rows[place].is_same(&share.tally)
    }

    /// Adds an event to the row and to the share of its thread. The share has to fit and to be of
    /// the event's thread, and the position has to be after that of the thread's last event and
    /// below [`MAX_EVENTS`](velo_events::MAX_EVENTS).
    #[inline]
    pub fn enter(&mut self, share: &mut Share, position: usize, event: &Event)
        requires fits { FitsBook self.old share.old }
        requires thread { event.now.thread ≡ share.old.thread }
        requires later { share.old.tally.next ≤ position }
        requires room { position < MAX_EVENTS }
        ensures book { self.new ≡ with_row self.old share.old.thread (with_event share.old.tally position event.now) }
        ensures share { share.new ≡ with_tally share.old (with_event share.old.tally position event.now) }
        ensures fit { FitsBook self.new share.new }
    {
        let row = &mut self.rows[usize::from(share.thread.0)];
        // made once and written to both: a copy of the one to the other would stall on store forwarding
        let mut tally = share.tally;
        tally.add(position as u64, event);
        *row = tally;
        share.tally = tally;
    }

    /// Adds an event to the row of its thread and to the share at its thread's place, which stays
    /// there. A share has to be there, and the rest is asked for as by [`Book::enter`].
    #[inline]
    pub fn enter_at(&mut self, shares: &mut Shares, position: usize, event: &Event)
        requires there { CanEnterAt self.old shares.old position event.now }
        requires room { position < MAX_EVENTS }
        ensures entered { EntersAt self.old shares.old position event.now self.new shares.new }
    {
        let place = usize::from(event.thread.0);
        match &mut shares.places[place] {
            Some(share) => self.enter(share, position, event),
            None => unreachable!(),
        }
    }

    /// Adds an event to the row of its thread alone. The thread's share says what the row says only
    /// once it is settled again. The thread has to be one of the book's, and the position has to be
    /// after that of its last event and below [`MAX_EVENTS`](velo_events::MAX_EVENTS).
    #[inline]
    pub fn count(&mut self, position: usize, event: &Event)
        requires there { CanCount self.old position event.now }
        requires room { position < MAX_EVENTS }
        ensures counted { CountsIn self.old position event.now self.new }
    {
        self.rows[usize::from(event.thread.0)].add(position as u64, event);
    }

    /// Copies the row of the share's thread into the share, which has to be of this run and of a
    /// thread of the book.
    pub fn settle(&self, share: &mut Share)
        requires run { share.old.run ≡ self.now.run }
        requires thread { share.old.thread.0 < length self.now.rows }
        ensures share { share.new ≡ with_tally share.old share.new.tally }
        ensures fit { FitsBook self.now share.new }
    {
        share.tally = self.rows[usize::from(share.thread.0)];
    }

    /// The events of the one share at a place of two lists, where it fits, or none where no thread
    /// has this place.
    fn events_at(&self, place: usize, kept: Option<&Share>, given: Option<&Share>) -> Option<u64>
        ensures sum { SomeIff result (PlacesFit self.now place (option_copied kept.entry) (option_copied given.entry))
            (events_in (option_copied kept.entry) + events_in (option_copied given.entry)) }
        ensures few { IfSome result (λ events. events ≤ MAX_EVENTS) }
    {
        match (kept, given) {
            (Some(share), None) | (None, Some(share)) if self.fits(share) => Some(
                share.tally.events,
            ),
            (None, None) if place >= self.rows.len() => Some(0),
            _ => None,
        }
    }
}

/// The sum of the shares' events, where the share of each thread is there and all fit.
pub fn gather(book: &Book, shares: &Shares) -> Option<u64>
    ensures sum { SomeIff result (HasAllShares book.now shares.now) (events_in_all shares.now) }
    ensures rows { IfSome result (λ events. events ≡ sum_by (λ row. row.events) book.now.rows) }
{
    gather_both(book, &Shares::nowhere(*shares.places.allocator()), shares)
}

/// The sum of the shares' events, where the share of each thread is in one of the two lists, no
/// place has a share in both, and all fit.
pub fn gather_both(book: &Book, kept: &Shares, given: &Shares) -> Option<u64>
    ensures sum { SomeIff result (HaveAllShares book.now kept.now given.now) (events_in_all kept.now + events_in_all given.now) }
    ensures rows { IfSome result (λ events. events ≡ sum_by (λ row. row.events) book.now.rows) }
    ensures in_place { AreInPlace kept.now × AreInPlace given.now }
{
    let places = book
        .rows
        .len()
        .max(kept.places.len())
        .max(given.places.len());
    let mut sum = 0;
    for place in 0..places {
        sum += book.events_at(place, kept.at(place), given.at(place))?;
    }
    Some(sum)
}
