//! Tests of the book and its shares.
use crate::words::event;
use std::alloc::Global;
use std::process::Abort;
use velo_events::{Event, MAX_EVENTS, ThreadId};
use velo_ledger::{Book, Shares, Tally, gather, gather_both};

/// Enters the event by the share of its thread.
fn enter(rt: &impl Abort, book: &mut Book, shares: &mut Shares, position: usize, event: &Event) {
    let mut share = shares.take(event.thread).expect(rt, "a share");
    assert!(rt; book.fits(&share));
    assert!(rt; share.next() <= position as u64 && position < MAX_EVENTS as usize);
    book.enter(&mut share, position, event);
    assert!(rt; shares.put(share).is_ok());
}

/// The row of a thread, which is also what its share says.
fn row(rt: &impl Abort, book: &Book, shares: &Shares, thread: u8) -> Tally {
    let share = shares.get(ThreadId(thread)).expect(rt, "a share");
    assert!(rt; book.fits(share));
    let row = book.tally(share.thread());
    let said = Tally {
        events: share.events(),
        next: share.next(),
        last: share.last(),
        read_total: share.read_total(),
        written_total: share.written_total(),
    };
    assert!(rt; said == row);
    row
}

fn judge_rows(rt: &impl Abort, book: &Book, shares: &Shares, rows: &[Tally; 2]) {
    assert!(rt; row(rt, book, shares, 0) == rows[0]);
    assert!(rt; row(rt, book, shares, 1) == rows[1]);
}

static EVENTS: [Event; 9] = [
    event!(0 fork 1),
    event!(0 begin 0),
    event!(0 rd 0 0),
    event!(1 wr 0 5),
    event!(0 wr 0 1),
    event!(0 end),
    event!(1 exit),
    event!(0 join 1),
    event!(0 exit),
];

/// The rows of the two threads after five of the events.
static AFTER_FIVE: [Tally; 2] = [
    Tally {
        events: 4,
        next: 5,
        last: Some(event!(0 wr 0 1)),
        read_total: 0,
        written_total: 1,
    },
    Tally {
        events: 1,
        next: 4,
        last: Some(event!(1 wr 0 5)),
        read_total: 0,
        written_total: 5,
    },
];

static AFTER_ALL: [Tally; 2] = [
    Tally {
        events: 7,
        next: 9,
        last: Some(event!(0 exit)),
        read_total: 0,
        written_total: 1,
    },
    Tally {
        events: 2,
        next: 7,
        last: Some(event!(1 exit)),
        read_total: 0,
        written_total: 5,
    },
];

#[test]
fn counts_the_events_of_two_threads(rt: HostRuntime) {
    let (mut book, mut shares) = Book::open(rt.alloc(), 7, 2).expect(&rt, "memory");
    for (position, event) in EVENTS.iter().enumerate() {
        enter(&rt, &mut book, &mut shares, position, event);
        if position == 4 {
            judge_rows(&rt, &book, &shares, &AFTER_FIVE);
        }
    }
    judge_rows(&rt, &book, &shares, &AFTER_ALL);
    assert!(rt; gather(&book, &shares) == Some(9));
}

/// Compares whether the share of a thread fits.
fn judge_share(rt: &impl Abort, book: &Book, shares: &Shares, thread: u8, fits: bool) {
    let share = shares.get(ThreadId(thread)).expect(rt, "a share");
    assert!(rt; book.fits(share) == fits);
}

#[test]
fn foreign_shares_do_not_fit(rt: HostRuntime) {
    let (mut book, mut shares) = Book::open(rt.alloc(), 7, 2).expect(&rt, "memory");
    let (_, of_another_run) = Book::open(rt.alloc(), 8, 2).expect(&rt, "memory");
    let (_, of_another_book) = Book::open(rt.alloc(), 7, 3).expect(&rt, "memory");
    enter(&rt, &mut book, &mut shares, 0, &event!(0 rd 0 0));
    judge_share(&rt, &book, &shares, 0, true);
    judge_share(&rt, &book, &of_another_run, 0, false);
    judge_share(&rt, &book, &of_another_run, 1, false);
    judge_share(&rt, &book, &of_another_book, 0, false);
    judge_share(&rt, &book, &of_another_book, 1, true);
    judge_share(&rt, &book, &of_another_book, 2, false);
    assert!(rt; gather(&book, &of_another_run).is_none());
    assert!(rt; gather(&book, &of_another_book).is_none());
    assert!(rt; gather(&book, &shares) == Some(1));
}

#[test]
fn a_share_is_taken_once(rt: HostRuntime) {
    let (book, mut shares) = Book::open(rt.alloc(), 7, 2).expect(&rt, "memory");
    assert!(rt; gather(&book, &shares) == Some(0));
    assert!(rt; shares.take(ThreadId(0)).is_some());
    assert!(rt; shares.take(ThreadId(0)).is_none());
    assert!(rt; shares.take(ThreadId(2)).is_none());
    assert!(rt; gather(&book, &shares).is_none());
}

#[test]
fn a_place_takes_one_share(rt: HostRuntime) {
    let (_, mut shares) = Book::open(rt.alloc(), 7, 2).expect(&rt, "memory");
    let (_, mut others) = Book::open(rt.alloc(), 8, 2).expect(&rt, "memory");
    let first = shares.take(ThreadId(0)).expect(&rt, "a share");
    let back = others.put(first).err().expect(&rt, "one share at a place");
    assert!(rt; (back.run(), back.thread()) == (7, ThreadId(0)));
    assert!(rt; shares.put(back).is_ok());
}

#[test]
fn a_place_is_of_one_thread(rt: HostRuntime) {
    let (_, mut shares) = Book::open(rt.alloc(), 7, 2).expect(&rt, "memory");
    let mut places = Shares::none(rt.alloc(), 1).expect(&rt, "memory");
    let second = shares.take(ThreadId(1)).expect(&rt, "a share");
    assert!(rt; places.put(second).is_err());
    assert!(rt; places.get(ThreadId(0)).is_none());
}

/// A book of three threads and their shares, by which two events were entered.
fn two_entered(rt: &impl Abort, alloc: Global) -> (Book, Shares) {
    let (mut book, mut shares) = Book::open(alloc, 7, 3).expect(rt, "memory");
    enter(rt, &mut book, &mut shares, 0, &event!(0 rd 0 0));
    enter(rt, &mut book, &mut shares, 1, &event!(2 rd 0 0));
    (book, shares)
}

/// Moves the share of a thread from one list to the other.
fn hand_over(rt: &impl Abort, from: &mut Shares, to: &mut Shares, thread: u8) {
    let share = from.take(ThreadId(thread)).expect(rt, "a share");
    assert!(rt; to.put(share).is_ok());
}

/// Compares the number of events by two lists of shares.
fn judge_both(rt: &impl Abort, book: &Book, kept: &Shares, given: &Shares, events: Option<u64>) {
    assert!(rt; gather_both(book, kept, given) == events);
}

#[test]
fn one_share_of_each_thread_in_two_lists(rt: HostRuntime) {
    let (book, mut given) = two_entered(&rt, rt.alloc());
    let mut kept = Shares::none(rt.alloc(), 2).expect(&rt, "memory");
    judge_both(&rt, &book, &kept, &given, Some(2));
    hand_over(&rt, &mut given, &mut kept, 0);
    judge_both(&rt, &book, &kept, &given, Some(2));
    judge_both(&rt, &book, &given, &kept, Some(2));
}

#[test]
fn two_shares_of_a_thread_or_none(rt: HostRuntime) {
    let (book, mut given) = two_entered(&rt, rt.alloc());
    let (_, mut others) = Book::open(rt.alloc(), 7, 3).expect(&rt, "memory");
    let mut kept = Shares::none(rt.alloc(), 2).expect(&rt, "memory");
    // thread 1 has done nothing, so another share of it fits as well
    hand_over(&rt, &mut others, &mut kept, 1);
    judge_both(&rt, &book, &kept, &given, None);
    assert!(rt; given.take(ThreadId(1)).is_some());
    judge_both(&rt, &book, &kept, &given, Some(2));
    assert!(rt; given.take(ThreadId(2)).is_some());
    judge_both(&rt, &book, &kept, &given, None);
    // and that of thread 2 is of another book
    hand_over(&rt, &mut others, &mut given, 2);
    judge_both(&rt, &book, &kept, &given, None);
}
