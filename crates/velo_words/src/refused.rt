//! What is said of an event of a log that is refused, or reads a wrong value.

use crate::events::{Sought, last_of};
use crate::lines::{add_line, add_text};
use crate::reasons::add_reason;
use std::alloc::Global;
use velo_events::{Bounds, Event, Kind, Memory, Refusal, ThreadId};
use velo_explain::{Page, Piece};

/// Adds what a thread does.
fn add_kind(page: &mut Page, kind: Kind) -> Result<(), Memory> {
    match kind {
        Kind::Read(x, value) => page.add(&[
            Piece::Text("reads "),
            Piece::Number(value),
            Piece::Text(" from variable "),
            Piece::Number(u64::from(x.0)),
        ]),
        Kind::Write(x, value) => page.add(&[
            Piece::Text("writes "),
            Piece::Number(value),
            Piece::Text(" to variable "),
            Piece::Number(u64::from(x.0)),
        ]),
        Kind::Acquire(m) => {
            page.add(&[Piece::Text("acquires lock "), Piece::Number(u64::from(m.0))])
        }
        Kind::Release(m) => {
            page.add(&[Piece::Text("releases lock "), Piece::Number(u64::from(m.0))])
        }
        Kind::AcquireShared(m) => {
            page.add(&[
                Piece::Text("acquires a share of lock "),
                Piece::Number(u64::from(m.0)),
            ])
        }
        Kind::ReleaseShared(m) => {
            page.add(&[
                Piece::Text("releases a share of lock "),
                Piece::Number(u64::from(m.0)),
            ])
        }
        Kind::Begin(label) => {
            page.add(&[
                Piece::Text("begins block "),
                Piece::Number(u64::from(label.0)),
            ])
        }
        Kind::End => page.add(&[Piece::Text("ends a block")]),
        Kind::Fork(u) => page.add(&[Piece::Text("forks thread "), Piece::Number(u64::from(u.0))]),
        Kind::Join(u) => page.add(&[Piece::Text("joins thread "), Piece::Number(u64::from(u.0))]),
        Kind::Exit => page.add(&[Piece::Text("exits")]),
    }
}

/// Adds which thread it is.
fn add_thread(page: &mut Page, thread: ThreadId) -> Result<(), Memory> {
    page.add(&[
        Piece::Text("thread "),
        Piece::Number(u64::from(thread.0)),
        Piece::Text(" "),
    ])
}

/// What to do about a refusal that needs no other line.
fn refusal_help(refusal: Refusal) -> &'static str {
    match refusal {
        Refusal::NoSuchVariable | Refusal::NoSuchLock | Refusal::NoSuchThread => {
            "help: the header is `vlog 2 THREADS VARIABLES LOCKS`\n"
        }
        Refusal::AlreadyHeld => "help: write down the outermost acquire and release only\n",
        Refusal::LogFull => "help: raise the limit with --events, up to 16777216\n",
        Refusal::GraphFull => "help: raise the limit with --nodes, up to 4096\n",
        _ => "",
    }
}

/// What to do about a thread that is not running. One that exited has no help.
fn not_live_help(bounds: Bounds, before: &[Event], thread: ThreadId) -> &'static str {
    if bounds.threads <= thread.0 {
        return "help: the header is `vlog 2 THREADS VARIABLES LOCKS`\n";
    }
    match last_of(before, Sought::Exit(thread)) {
        Some(_) => "",
        None => "help: write a line `T fork U` before the first event of thread U\n",
    }
}

/// What to do about a refusal after these events.
fn help_after(
    bounds: Bounds,
    before: &[Event],
    thread: ThreadId,
    refusal: Refusal,
) -> &'static str {
    match refusal {
        Refusal::NotLive => not_live_help(bounds, before, thread),
        _ => refusal_help(refusal),
    }
}

/// Adds what to do about a refusal after these events.
fn add_help(
    page: &mut Page,
    bounds: Bounds,
    before: &[Event],
    thread: ThreadId,
    refusal: Refusal,
) -> Result<(), Memory> {
    add_text(page, help_after(bounds, before, thread, refusal))?;
    Ok(())
}

/// Adds the line of an event after four spaces.
fn add_event(page: &mut Page, event: Event) -> Result<(), Memory> {
    page.add(&[
        Piece::Text("\n    "),
        Piece::Words(event),
        Piece::Text("\n"),
    ])
}

/// Adds what is said of an event that is refused after those before it.
fn add_refused(
    page: &mut Page,
    alloc: Global,
    path: &str,
    bounds: Bounds,
    before: &[Event],
    event: Event,
    refusal: Refusal,
) -> Result<(), Memory> {
    add_line(page, alloc, path, before.len().saturating_add(2))?;
    add_thread(page, event.thread)?;
    add_kind(page, event.kind)?;
    add_reason(page, bounds, before, event, refusal)?;
    add_event(page, event)?;
    add_help(page, bounds, before, event.thread, refusal)?;
    Ok(())
}

/// What is said of an event that is refused after those before it.
///
/// # Errors
/// `Memory` if an allocation failed.
pub fn refused_words(
    alloc: Global,
    path: &str,
    bounds: Bounds,
    before: &[Event],
    event: Event,
    refusal: Refusal,
) -> Result<Page, Memory> {
    let mut page = Page::new(alloc);
    add_refused(&mut page, alloc, path, bounds, before, event, refusal)?;
    Ok(page)
}

/// The value that an operation reads or writes, or 0.
fn value_of(kind: Kind) -> u64 {
    match kind {
        Kind::Read(_, value) | Kind::Write(_, value) => value,
        _ => 0,
    }
}

/// Adds which value a variable has since when, by its last write.
fn add_value(page: &mut Page, last: Option<(u64, Event)>) -> Result<(), Memory> {
    match last {
        Some((line, event)) => page.add(&[
            Piece::Text(", but its value is "),
            Piece::Number(value_of(event.kind)),
            Piece::Text(" since line "),
            Piece::Number(line),
        ]),
        None => page.add(&[Piece::Text(", but its value is 0, as no line before writes it")]),
    }
}

/// Adds the value that a variable has in place of the one that was read.
fn add_read(page: &mut Page, before: &[Event], kind: Kind) -> Result<(), Memory> {
    match kind {
        Kind::Read(x, _) => add_value(page, last_of(before, Sought::Write(x))),
        _ => Ok(()),
    }
}

/// Adds what to do about a wrong value.
fn add_read_help(page: &mut Page) -> Result<(), Memory> {
    page.add(&[Piece::Text(
        "help: is a write missing, or do an access and its line stand in two holds of the recorder's lock?\n",
    )])
}

/// Adds what is said of an event that reads a wrong value after the events before it.
fn add_wrong_value(
    page: &mut Page,
    alloc: Global,
    path: &str,
    before: &[Event],
    event: Event,
) -> Result<(), Memory> {
    add_line(page, alloc, path, before.len().saturating_add(2))?;
    add_thread(page, event.thread)?;
    add_kind(page, event.kind)?;
    add_read(page, before, event.kind)?;
    add_event(page, event)?;
    add_read_help(page)?;
    Ok(())
}

/// What is said of an event that reads a value that its variable does not have after the events
/// before it.
///
/// # Errors
/// `Memory` if an allocation failed.
pub fn wrong_value_words(
    alloc: Global,
    path: &str,
    before: &[Event],
    event: Event,
) -> Result<Page, Memory> {
    let mut page = Page::new(alloc);
    add_wrong_value(&mut page, alloc, path, before, event)?;
    Ok(page)
}
