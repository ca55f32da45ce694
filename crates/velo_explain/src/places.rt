//! Where in the source the events happened that an explanation mentions.

use crate::evidence::Evidence;
use crate::fitting::add_right;
use crate::marks::{cycle_marks, other_marks};
use crate::order::{in_order, push};
use crate::pieces::Page;
use crate::spans::Span as SpanOf;
use crate::words::line_of;
use std::alloc::Global;
use velo_events::Memory;
use velo_sidecars::Sites;

/// Adds some positions.
fn add_positions(positions: &mut Vec<usize>, others: &[usize]) -> Result<(), Memory> {
    for position in others {
        push(positions, *position)?;
    }
    Ok(())
}

/// Adds the last events of the transactions.
fn add_lasts(positions: &mut Vec<usize>, spans: &[SpanOf]) -> Result<(), Memory> {
    for span in spans {
        push(positions, span.last)?;
    }
    Ok(())
}

/// The positions that the explanation of an alarm mentions.
fn mentioned(alloc: Global, position: usize, evidence: &Evidence) -> Result<Vec<usize>, Memory> {
    let mut positions = cycle_marks(alloc, &evidence.edges)?;
    let others = other_marks(alloc, evidence)?;
    add_positions(&mut positions, &others)?;
    add_lasts(&mut positions, &evidence.spans)?;
    push(&mut positions, position)?;
    Ok(positions)
}

/// Adds the place of an event, if it is known.
fn add_place(page: &mut Page, sites: &Sites, position: usize) -> Result<(), Memory> {
    let Some(place) = sites.place_of(position) else {
        return Ok(());
    };
    add_right(page, line_of(position))?;
    page.add_bytes(b"  ")?;
    page.add_bytes(place)?;
    page.add_bytes(b"\n")
}

/// Adds a line for each of some events whose place is known.
fn add_lines(page: &mut Page, sites: &Sites, shown: &[usize]) -> Result<(), Memory> {
    for position in shown {
        add_place(page, sites, *position)?;
    }
    Ok(())
}

/// Adds the places of some events.
fn add_shown(page: &mut Page, sites: &Sites, shown: &[usize]) -> Result<(), Memory> {
    page.add_bytes(b"In the source:\n")?;
    add_lines(page, sites, shown)?;
    Ok(())
}

/// The positions that the explanation of an alarm mentions, in the order of a log with so many
/// events, each once.
fn mentioned_in_order(
    alloc: Global,
    events: usize,
    position: usize,
    evidence: &Evidence,
) -> Result<Vec<usize>, Memory> {
    let positions = mentioned(alloc, position, evidence)?;
    in_order(alloc, &positions, events)
}

/// Adds the places of the events that the explanation of an alarm mentions, in the order of a log with so many events.
///
/// # Errors
/// `Memory` if an allocation failed; the page is then no longer to be used.
pub(crate) fn add_places(
    page: &mut Page,
    alloc: Global,
    sites: &Sites,
    events: usize,
    position: usize,
    evidence: &Evidence,
) -> Result<(), Memory> {
    let shown = mentioned_in_order(alloc, events, position, evidence)?;
    add_shown(page, sites, &shown)
}
