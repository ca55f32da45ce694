//! The report of what is left of a log, at the positions of the whole log.

use std::alloc::Global;
use velo_events::{Memory, ThreadId};
use velo_explain::{Page, Piece};
use velo_names::{NameKind, Names};
use velo_traces::Block;
use velo_world::{Alarm, Closed};

/// The name that a file of names gives, if there is one.
fn name_of<'a>(names: Option<&'a Names<'a>>, kind: NameKind, number: u32) -> Option<&'a [u8]> {
    match names {
        Some(names) => names.name_of(kind, number),
        None => None,
    }
}

/// Adds a line of words and a number.
fn add_number(page: &mut Page, words: &str, number: u64) -> Result<(), Memory> {
    page.add(&[
        Piece::Text(words),
        Piece::Text(" "),
        Piece::Number(number),
        Piece::Text("\n"),
    ])
}

/// Adds the line of a thread of which so many events are left.
fn add_thread(
    page: &mut Page,
    names: Option<&Names>,
    thread: u8,
    count: u64,
) -> Result<(), Memory> {
    page.add(&[
        Piece::Text("thread "),
        Piece::Number(u64::from(thread)),
        Piece::Text(" "),
        Piece::Number(count),
        Piece::Name(name_of(names, NameKind::Thread, u32::from(thread))),
        Piece::Text("\n"),
    ])
}

/// Adds the line of each thread.
fn add_threads(page: &mut Page, names: Option<&Names>, closed: &Closed) -> Result<(), Memory> {
    for thread in 0..closed.bounds().threads {
        add_thread(page, names, thread, closed.tally(ThreadId(thread)).events)?;
    }
    Ok(())
}

/// The position in the whole log of the event at this one of what is left.
fn position_of(places: &[u32], at: usize) -> u64 {
    u64::from(places.get(at).copied().unwrap_or(0))
}

/// Adds the line of a block to blame.
fn add_block(
    page: &mut Page,
    names: Option<&Names>,
    places: &[u32],
    block: Block,
) -> Result<(), Memory> {
    page.add(&[
        Piece::Text("blame "),
        Piece::Number(position_of(places, block.first)),
        Piece::Text(" "),
        Piece::Number(u64::from(block.label.0)),
        Piece::Name(name_of(names, NameKind::Label, block.label.0)),
        Piece::Text("\n"),
    ])
}

/// Adds the line of each block to blame, or the one that says that there is none.
fn add_blame(
    page: &mut Page,
    names: Option<&Names>,
    places: &[u32],
    blamed: &[Block],
) -> Result<(), Memory> {
    if blamed.is_empty() {
        return page.add_bytes(b"blame none\n");
    }
    for block in blamed {
        add_block(page, names, places, *block)?;
    }
    Ok(())
}

/// Adds the lines of an alarm.
fn add_alarm(
    page: &mut Page,
    names: Option<&Names>,
    places: &[u32],
    alarm: &Alarm,
) -> Result<(), Memory> {
    add_number(page, "verdict alarm", position_of(places, alarm.position))?;
    add_number(page, "transaction", position_of(places, alarm.transaction))?;
    add_blame(page, names, places, alarm.blamed.as_slice())
}

/// Adds the verdict, and what belongs to an alarm.
fn add_verdict(
    page: &mut Page,
    names: Option<&Names>,
    places: &[u32],
    alarm: Option<&Alarm>,
) -> Result<(), Memory> {
    match alarm {
        None => page.add_bytes(b"verdict clean\n"),
        Some(alarm) => add_alarm(page, names, places, alarm),
    }
}

/// The report of a closed world of what is left of a log, whose events stand at these places of the
/// whole log.
///
/// # Errors
/// `Memory` if an allocation failed.
pub fn page_of_rest(
    alloc: Global,
    names: Option<&Names>,
    closed: &Closed,
    places: &[u32],
) -> Result<Page, Memory> {
    let mut page = Page::new(alloc);
    add_number(&mut page, "events", closed.total())?;
    add_threads(&mut page, names, closed)?;
    add_verdict(&mut page, names, places, closed.alarm())?;
    Ok(page)
}
