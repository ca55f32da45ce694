//! Which events a picture in lanes shows.

use crate::evidence::{Blame as BlameOf, Evidence};
use crate::fitting::{SCREEN_LANES, SCREEN_LINES, lines_in};
use crate::lanes::{add_rows, lanes_of};
use crate::order::{in_order, push};
use crate::pieces::Page;
use crate::spans::Span as SpanOf;
use std::alloc::Global;
use velo_certify::EdgeEvents;
use velo_events::{Event, Memory};
use velo_names::Names;

/// The events of the edges of the cycle.
pub(crate) fn cycle_marks(alloc: Global, edges: &[EdgeEvents]) -> Result<Vec<usize>, Memory> {
    let mut marks = Vec::new(alloc);
    for edge in edges {
        push(&mut marks, edge.from)?;
        push(&mut marks, edge.to)?;
    }
    Ok(marks)
}

/// Adds the events that part the blocks to blame.
fn add_witnesses(marks: &mut Vec<usize>, blames: &[BlameOf]) -> Result<(), Memory> {
    for blame in blames {
        push(marks, blame.witness)?;
    }
    Ok(())
}

/// Adds the first events of the transactions.
fn add_firsts(marks: &mut Vec<usize>, spans: &[SpanOf]) -> Result<(), Memory> {
    for span in spans {
        push(marks, span.first)?;
    }
    Ok(())
}

/// Adds the first events of the blocks to blame.
fn add_begins(marks: &mut Vec<usize>, blames: &[BlameOf]) -> Result<(), Memory> {
    for blame in blames {
        push(marks, blame.block.first)?;
    }
    Ok(())
}

/// What is shown where there is room.
pub(crate) fn other_marks(alloc: Global, evidence: &Evidence) -> Result<Vec<usize>, Memory> {
    let mut marks = Vec::new(alloc);
    add_witnesses(&mut marks, &evidence.blames)?;
    add_firsts(&mut marks, &evidence.spans)?;
    add_begins(&mut marks, &evidence.blames)?;
    Ok(marks)
}

/// Whether the picture of marked positions is at most a screen.
fn fits(alloc: Global, names: &Names, events: &[Event], marks: &[usize]) -> Result<bool, Memory> {
    let shown = in_order(alloc, marks, events.len())?;
    let lanes = lanes_of(alloc, events, &shown)?;
    if lanes.len() > SCREEN_LANES {
        return Ok(false);
    }
    let mut page = Page::new(alloc);
    add_rows(&mut page, alloc, names, events, &lanes, &shown)?;
    Ok(lines_in(page.as_slice()) <= SCREEN_LINES)
}

/// Marks one more position, if there is room for it.
fn add_mark(
    alloc: Global,
    names: &Names,
    events: &[Event],
    marks: &mut Vec<usize>,
    position: usize,
) -> Result<(), Memory> {
    let before = marks.len();
    push(marks, position)?;
    if !fits(alloc, names, events, marks)? {
        marks.truncate(before);
    }
    Ok(())
}

/// Marks those of some positions that have room, one after the other.
fn add_marks(
    alloc: Global,
    names: &Names,
    events: &[Event],
    marks: &mut Vec<usize>,
    positions: &[usize],
) -> Result<(), Memory> {
    for position in positions {
        add_mark(alloc, names, events, marks, *position)?;
    }
    Ok(())
}

/// The positions that are marked.
fn marks_of(
    alloc: Global,
    names: &Names,
    events: &[Event],
    evidence: &Evidence,
) -> Result<Vec<usize>, Memory> {
    let mut marks = cycle_marks(alloc, &evidence.edges)?;
    let others = other_marks(alloc, evidence)?;
    add_marks(alloc, names, events, &mut marks, &others)?;
    Ok(marks)
}

/// Adds the picture of marked positions.
fn add_marked(
    page: &mut Page,
    alloc: Global,
    names: &Names,
    events: &[Event],
    marks: &[usize],
) -> Result<(), Memory> {
    let shown = in_order(alloc, marks, events.len())?;
    let lanes = lanes_of(alloc, events, &shown)?;
    add_rows(page, alloc, names, events, &lanes, &shown)
}

/// Adds the picture of a cycle.
///
/// # Errors
/// `Memory` if an allocation failed.
pub(crate) fn add_lanes(
    page: &mut Page,
    alloc: Global,
    names: &Names,
    events: &[Event],
    evidence: &Evidence,
) -> Result<(), Memory> {
    let marks = marks_of(alloc, names, events, evidence)?;
    add_marked(page, alloc, names, events, &marks)
}
