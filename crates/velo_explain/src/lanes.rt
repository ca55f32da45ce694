//! A cycle as a picture in text: a lane for each thread, a row for each event that is shown.

use crate::fitting::{add_right, add_shortened, add_spaces, characters, room_of};
use crate::order::{in_order, push};
use crate::pieces::{Page, Piece};
use crate::words::line_of;
use std::alloc::Global;
use velo_events::{Event, Memory, ThreadId};
use velo_names::Names;

/// How many threads a log can name.
const THREAD_NUMBERS: usize = 256;

/// The threads of some positions.
fn threads_of(alloc: Global, events: &[Event], shown: &[usize]) -> Result<Vec<usize>, Memory> {
    let mut threads = Vec::new(alloc);
    for position in shown {
        if let Some(event) = events.get(*position) {
            push(&mut threads, usize::from(event.thread.0))?;
        }
    }
    Ok(threads)
}

/// The threads that have lanes, where these positions are shown: those that act there, least first.
pub(crate) fn lanes_of(
    alloc: Global,
    events: &[Event],
    shown: &[usize],
) -> Result<Vec<usize>, Memory> {
    let threads = threads_of(alloc, events, shown)?;
    in_order(alloc, &threads, THREAD_NUMBERS)
}

/// The thread of a lane.
fn thread_of(lane: usize) -> ThreadId {
    ThreadId((lane % THREAD_NUMBERS) as u8)
}

/// The heading of a lane.
fn lane_heading(
    alloc: Global,
    names: &Names,
    room: usize,
    thread: ThreadId,
) -> Result<Page, Memory> {
    let mut heading = Page::new(alloc);
    heading.add(&[Piece::Text("thread "), Piece::Number(u64::from(thread.0))])?;
    let left = room.saturating_sub(heading.as_slice().len());
    let mut name = Page::new(alloc);
    name.add(&[Piece::ThreadName(names, thread)])?;
    add_shortened(&mut heading, left, name.as_slice())?;
    Ok(heading)
}

/// Adds the heading of a lane; returns how many characters of the lane are left.
fn add_heading_cell(
    page: &mut Page,
    alloc: Global,
    names: &Names,
    room: usize,
    lane: usize,
) -> Result<usize, Memory> {
    page.add_bytes(b"  ")?;
    let heading = lane_heading(alloc, names, room, thread_of(lane))?;
    page.add_bytes(heading.as_slice())?;
    Ok(room.saturating_sub(characters(heading.as_slice())))
}

/// Adds the headings of the lanes.
fn add_heading_cells(
    page: &mut Page,
    alloc: Global,
    names: &Names,
    lanes: &[usize],
) -> Result<(), Memory> {
    let room = room_of(lanes.len());
    let mut left = 0;
    for lane in lanes {
        add_spaces(page, left)?;
        left = add_heading_cell(page, alloc, names, room, *lane)?;
    }
    Ok(())
}

/// Adds the first line.
fn add_heading(
    page: &mut Page,
    alloc: Global,
    names: &Names,
    lanes: &[usize],
) -> Result<(), Memory> {
    page.add_bytes(b"    line")?;
    add_heading_cells(page, alloc, names, lanes)?;
    page.add_bytes(b"\n")
}

/// Fills the lanes of threads with smaller numbers with spaces.
fn add_indent(page: &mut Page, lanes: &[usize], thread: ThreadId) -> Result<(), Memory> {
    let width = room_of(lanes.len()).saturating_add(2);
    for lane in lanes {
        if *lane < usize::from(thread.0) {
            add_spaces(page, width)?;
        }
    }
    Ok(())
}

/// Adds the row of an event.
fn add_row(
    page: &mut Page,
    alloc: Global,
    names: &Names,
    events: &[Event],
    lanes: &[usize],
    position: usize,
) -> Result<(), Memory> {
    let Some(event) = events.get(position) else {
        return Ok(());
    };
    let mut operation = Page::new(alloc);
    operation.add(&[
        Piece::Operation(event.kind),
        Piece::KindName(names, event.kind),
    ])?;
    add_right(page, line_of(position))?;
    add_indent(page, lanes, event.thread)?;
    page.add_bytes(b"  ")?;
    add_shortened(page, room_of(lanes.len()), operation.as_slice())?;
    page.add_bytes(b"\n")
}

/// How many lines lie before this position that were not shown: from the next one on, if one was shown.
fn lines_before(position: usize, next: Option<usize>) -> usize {
    match next {
        Some(next) => position.saturating_sub(next),
        None => 0,
    }
}

/// Adds how many lines lie between two rows.
fn add_between(page: &mut Page, count: usize) -> Result<(), Memory> {
    if count == 0 {
        return Ok(());
    }
    if count == 1 {
        return page.add_bytes(b"      .. 1 line ..\n");
    }
    page.add(&[
        Piece::Text("      .. "),
        Piece::Number(count as u64),
        Piece::Text(" lines ..\n"),
    ])
}

/// Adds the rows of the events, with what lies between.
fn add_steps(
    page: &mut Page,
    alloc: Global,
    names: &Names,
    events: &[Event],
    lanes: &[usize],
    shown: &[usize],
) -> Result<(), Memory> {
    let mut next = None;
    for position in shown {
        add_between(page, lines_before(*position, next))?;
        add_row(page, alloc, names, events, lanes, *position)?;
        next = Some(position.saturating_add(1));
    }
    Ok(())
}

/// Adds the picture of some positions.
///
/// # Errors
/// `Memory` if an allocation failed.
pub(crate) fn add_rows(
    page: &mut Page,
    alloc: Global,
    names: &Names,
    events: &[Event],
    lanes: &[usize],
    shown: &[usize],
) -> Result<(), Memory> {
    add_heading(page, alloc, names, lanes)?;
    add_steps(page, alloc, names, events, lanes, shown)
}
