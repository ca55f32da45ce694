//! Why an event of a log is refused, in words.

use crate::events::{Sought, last_of};
use crate::lines::add_text;
use velo_events::{Bounds, Event, Kind, LockId, Memory, Refusal, ThreadId};
use velo_explain::{Page, Piece};

/// Adds how many of something the header has.
fn add_bound(page: &mut Page, count: u64, what: &str) -> Result<(), Memory> {
    page.add(&[
        Piece::Text(", but the header has "),
        Piece::Number(count),
        Piece::Text(" "),
        Piece::Text(what),
    ])
}

/// Adds words and a line, or those without one.
fn add_at_line(
    page: &mut Page,
    words: &str,
    last: Option<(u64, Event)>,
    without: &str,
) -> Result<(), Memory> {
    match last {
        Some((line, _)) => page.add(&[Piece::Text(words), Piece::Number(line)]),
        None => add_text(page, without),
    }
}

/// Adds what a line did, or the words without one.
fn add_by_line(
    page: &mut Page,
    last: Option<(u64, Event)>,
    words: &str,
    without: &str,
) -> Result<(), Memory> {
    match last {
        Some((line, _)) => page.add(&[
            Piece::Text(", which line "),
            Piece::Number(line),
            Piece::Text(words),
        ]),
        None => add_text(page, without),
    }
}

/// Adds which thread holds a lock since when.
fn add_since(page: &mut Page, line: u64, thread: ThreadId) -> Result<(), Memory> {
    page.add(&[
        Piece::Text(", which thread "),
        Piece::Number(u64::from(thread.0)),
        Piece::Text(" holds since line "),
        Piece::Number(line),
    ])
}

/// Adds who holds a lock since when, by the last operation on it, or the words where nobody does.
fn add_by_acquire(
    page: &mut Page,
    line: u64,
    thread: ThreadId,
    kind: Kind,
    without: &str,
) -> Result<(), Memory> {
    match kind {
        Kind::Acquire(_) => add_since(page, line, thread),
        _ => add_text(page, without),
    }
}

/// Adds who holds a lock since when, by the last operation on it, or the words where there is none.
fn add_holder(page: &mut Page, last: Option<(u64, Event)>, without: &str) -> Result<(), Memory> {
    match last {
        Some((line, event)) => add_by_acquire(page, line, event.thread, event.kind, without),
        None => add_text(page, without),
    }
}

/// Adds why a thread is not running.
fn add_not_live(
    page: &mut Page,
    bounds: Bounds,
    before: &[Event],
    thread: ThreadId,
) -> Result<(), Memory> {
    if bounds.threads <= thread.0 {
        return add_bound(page, u64::from(bounds.threads), "threads");
    }
    let last = last_of(before, Sought::Exit(thread));
    add_at_line(
        page,
        ", but exited in line ",
        last,
        ", but no line before forks it",
    )
}

/// Adds who holds the lock that is acquired, or the words where nobody holds it alone.
fn add_held(page: &mut Page, before: &[Event], kind: Kind, without: &str) -> Result<(), Memory> {
    match kind {
        Kind::Acquire(m) | Kind::AcquireShared(m) => {
            add_holder(page, last_of(before, Sought::OnLock(m)), without)
        }
        _ => add_text(page, without),
    }
}

/// What is said of a lock that a thread does not hold alone, by its last acquire of it. A share may
/// still be held.
fn unheld_after(kind: Kind) -> &'static str {
    match kind {
        Kind::AcquireShared(_) => ", which it does not hold alone",
        _ => ", which it does not hold",
    }
}

/// The same, where a thread may have acquired it never.
fn unheld(last: Option<(u64, Event)>) -> &'static str {
    match last {
        Some((_, event)) => unheld_after(event.kind),
        None => ", which it does not hold",
    }
}

/// Adds how a thread does not hold what it releases.
fn add_not_holder(
    page: &mut Page,
    before: &[Event],
    thread: ThreadId,
    kind: Kind,
) -> Result<(), Memory> {
    match kind {
        Kind::Release(m) => {
            let own = last_of(before, Sought::Acquire(thread, m));
            add_holder(page, last_of(before, Sought::OnLock(m)), unheld(own))
        }
        Kind::ReleaseShared(_) => add_text(page, ", of which it holds no share"),
        _ => Ok(()),
    }
}

/// The lock that an operation acquires, if it acquires one.
fn lock_acquired(kind: Kind) -> Option<LockId> {
    match kind {
        Kind::Acquire(m) | Kind::AcquireShared(m) => Some(m),
        _ => None,
    }
}

/// Adds since when a thread holds a lock.
fn add_own(
    page: &mut Page,
    before: &[Event],
    thread: ThreadId,
    lock: Option<LockId>,
) -> Result<(), Memory> {
    match lock {
        Some(m) => {
            let last = last_of(before, Sought::Acquire(thread, m));
            add_at_line(
                page,
                ", which it holds since line ",
                last,
                ", which it holds",
            )
        }
        None => add_text(page, ", which it holds"),
    }
}

/// Adds which line forks the thread of a fork.
fn add_forked(page: &mut Page, before: &[Event], kind: Kind) -> Result<(), Memory> {
    match kind {
        Kind::Fork(u) => {
            let last = last_of(before, Sought::Fork(u));
            add_by_line(page, last, " forks", ", which runs from the start")
        }
        _ => Ok(()),
    }
}

/// Adds which line joins the thread of a join.
fn add_joined(page: &mut Page, before: &[Event], kind: Kind) -> Result<(), Memory> {
    match kind {
        Kind::Join(u) => add_by_line(page, last_of(before, Sought::Join(u)), " joins", ""),
        _ => Ok(()),
    }
}

/// Adds how many events the log may have.
fn add_full(page: &mut Page, count: usize) -> Result<(), Memory> {
    page.add(&[
        Piece::Text(", but the log may have no more than "),
        Piece::Number(count as u64),
        Piece::Text(" events"),
    ])
}

/// The reason of a refusal that needs no other line.
fn plain_refusal(refusal: Refusal) -> &'static str {
    match refusal {
        Refusal::NoOpenBlock => ", but has no block open",
        Refusal::TooDeep => ", but has 32 blocks open, as many as there may be",
        Refusal::NotForked => ", which no line before forks",
        Refusal::NotExited => ", which has not exited",
        Refusal::BlockOpen => ", but has a block open",
        Refusal::LockHeld => ", but holds a lock",
        Refusal::GraphFull => ", but no node of the graph is free",
        _ => "",
    }
}

/// Adds the reason of a refusal that needs no other line.
fn add_plain_refusal(page: &mut Page, refusal: Refusal) -> Result<(), Memory> {
    add_text(page, plain_refusal(refusal))?;
    Ok(())
}

/// Adds why an event is refused after those before it.
pub(crate) fn add_reason(
    page: &mut Page,
    bounds: Bounds,
    before: &[Event],
    event: Event,
    refusal: Refusal,
) -> Result<(), Memory> {
    match refusal {
        Refusal::NotLive => add_not_live(page, bounds, before, event.thread),
        Refusal::NoSuchVariable => add_bound(page, u64::from(bounds.variables), "variables"),
        Refusal::NoSuchLock => add_bound(page, u64::from(bounds.locks), "locks"),
        Refusal::NoSuchThread => add_bound(page, u64::from(bounds.threads), "threads"),
        Refusal::Busy => add_held(page, before, event.kind, ", of which others hold a share"),
        Refusal::AlreadyHeld => add_own(page, before, event.thread, lock_acquired(event.kind)),
        Refusal::NotHolder => add_not_holder(page, before, event.thread, event.kind),
        Refusal::AlreadyForked => add_forked(page, before, event.kind),
        Refusal::AlreadyJoined => add_joined(page, before, event.kind),
        Refusal::LogFull => add_full(page, before.len()),
        _ => add_plain_refusal(page, refusal),
    }
}
