//! An explanation in words.

use crate::evidence::{Blame, Evidence};
use crate::marks::add_lanes;
use crate::pieces::{Page, Piece};
use crate::spans::Span;
use std::alloc::Global;
use velo_certify::EdgeEvents;
use velo_events::{Event, Memory};
use velo_names::{NameKind, Names};

/// The number of the line of a position; the header is line 1.
pub fn line_of(position: usize) -> u64 {
    (position as u64).saturating_add(2)
}

/// The number of the transaction that comes after the one at a place of a cycle.
pub fn next_number(count: usize, k: usize) -> u64 {
    let next = k.saturating_add(1);
    if next < count {
        (next as u64).saturating_add(1)
    } else {
        1
    }
}

/// Adds what an alarm is.
fn add_alarm(page: &mut Page) -> Result<(), Memory> {
    page.add(&[Piece::Text("The blocks of this log cannot be serialized.\n")])?;
    Ok(())
}

/// Adds the line that says which event closes the cycle, and of how many transactions it is.
///
/// # Errors
/// `Memory` if an allocation failed; the page is then no longer to be used.
pub fn add_heading(
    page: &mut Page,
    names: &Names,
    events: &[Event],
    position: usize,
    count: usize,
) -> Result<(), Memory> {
    let Some(event) = events.get(position) else {
        return Ok(());
    };
    page.add(&[
        Piece::Text("Line "),
        Piece::Number(line_of(position)),
        Piece::Text(" `"),
        Piece::Words(*event),
        Piece::Text("`"),
        Piece::KindName(names, event.kind),
        Piece::Text(" closes a cycle of "),
        Piece::Number(count as u64),
        Piece::Text(" transactions:\n"),
    ])
}

/// Adds a transaction of the cycle.
fn add_member(
    page: &mut Page,
    names: &Names,
    events: &[Event],
    k: usize,
    span: Span,
) -> Result<(), Memory> {
    let Some(first) = events.get(span.first) else {
        return Ok(());
    };
    page.add(&[
        Piece::Text("  T"),
        Piece::Number((k as u64).saturating_add(1)),
        Piece::Text(": thread "),
        Piece::Number(u64::from(first.thread.0)),
        Piece::ThreadName(names, first.thread),
        Piece::Text(", "),
        Piece::Block(first.kind),
        Piece::BlockName(names, first.kind),
        Piece::Text(", "),
        Piece::Lines(line_of(span.first), line_of(span.last)),
        Piece::Text("\n"),
    ])
}

/// Adds a line for each transaction of the cycle.
///
/// # Errors
/// `Memory` if an allocation failed; the page is then no longer to be used.
pub fn add_members(
    page: &mut Page,
    names: &Names,
    events: &[Event],
    spans: &[Span],
) -> Result<(), Memory> {
    for k in 0..spans.len() {
        add_member(page, names, events, k, spans[k])?;
    }
    Ok(())
}

/// Adds the events of an edge of the cycle.
fn add_edge(
    page: &mut Page,
    names: &Names,
    events: &[Event],
    count: usize,
    k: usize,
    edge: EdgeEvents,
) -> Result<(), Memory> {
    let (Some(from), Some(to)) = (events.get(edge.from), events.get(edge.to)) else {
        return Ok(());
    };
    page.add(&[
        Piece::Text("  T"),
        Piece::Number((k as u64).saturating_add(1)),
        Piece::Text(" before T"),
        Piece::Number(next_number(count, k)),
        Piece::Text(": line "),
        Piece::Number(line_of(edge.from)),
        Piece::Text(" `"),
        Piece::Words(*from),
        Piece::Text("`"),
        Piece::KindName(names, from.kind),
        Piece::Text(", then line "),
        Piece::Number(line_of(edge.to)),
        Piece::Text(" `"),
        Piece::Words(*to),
        Piece::Text("`"),
        Piece::KindName(names, to.kind),
        Piece::Text("\n"),
    ])
}

/// Adds the events of the edges of the cycle.
fn add_edges(
    page: &mut Page,
    names: &Names,
    events: &[Event],
    edges: &[EdgeEvents],
) -> Result<(), Memory> {
    for k in 0..edges.len() {
        add_edge(page, names, events, edges.len(), k, edges[k])?;
    }
    Ok(())
}

/// Adds a block to blame, and why.
fn add_blame(
    page: &mut Page,
    names: &Names,
    events: &[Event],
    position: usize,
    blame: Blame,
) -> Result<(), Memory> {
    let Some(witness) = events.get(blame.witness) else {
        return Ok(());
    };
    page.add(&[
        Piece::Text("  block "),
        Piece::Number(u64::from(blame.block.label.0)),
        Piece::Name(names.name_of(NameKind::Label, blame.block.label.0)),
        Piece::Text(", from line "),
        Piece::Number(line_of(blame.block.first)),
        Piece::Text(": line "),
        Piece::Number(line_of(blame.witness)),
        Piece::Text(" `"),
        Piece::Words(*witness),
        Piece::Text("`"),
        Piece::KindName(names, witness.kind),
        Piece::Text(" must come after its begin and before line "),
        Piece::Number(line_of(position)),
        Piece::Text("\n"),
    ])
}

/// Adds that no block is to blame.
fn add_nobody(page: &mut Page) -> Result<(), Memory> {
    page.add(&[Piece::Text(
        "No block alone is to blame: each can be brought together, but not all transactions at once.\n",
    )])?;
    Ok(())
}

/// Adds whose blocks are to blame.
fn add_to_blame(
    page: &mut Page,
    names: &Names,
    events: &[Event],
    position: usize,
) -> Result<(), Memory> {
    let Some(event) = events.get(position) else {
        return Ok(());
    };
    page.add(&[
        Piece::Text("To blame in thread "),
        Piece::Number(u64::from(event.thread.0)),
        Piece::ThreadName(names, event.thread),
        Piece::Text(":\n"),
    ])
}

/// Adds what an edge is.
fn add_order(page: &mut Page) -> Result<(), Memory> {
    page.add(&[Piece::Text("Each must come before the next, and the last before the first:\n")])?;
    Ok(())
}

/// Adds a line for each block to blame, with the event that cannot be moved out of it.
///
/// # Errors
/// `Memory` if an allocation failed; the page is then no longer to be used.
pub fn add_reasons(
    page: &mut Page,
    names: &Names,
    events: &[Event],
    position: usize,
    blames: &[Blame],
) -> Result<(), Memory> {
    for k in 0..blames.len() {
        add_blame(page, names, events, position, blames[k])?;
    }
    Ok(())
}

/// Adds the blocks to blame, or that there are none.
fn add_blames(
    page: &mut Page,
    names: &Names,
    events: &[Event],
    position: usize,
    blames: &[Blame],
) -> Result<(), Memory> {
    if blames.is_empty() {
        return add_nobody(page);
    }
    add_to_blame(page, names, events, position)?;
    add_reasons(page, names, events, position, blames)
}

/// Adds the words of an alarm at a position.
fn add_words(
    page: &mut Page,
    names: &Names,
    events: &[Event],
    position: usize,
    evidence: &Evidence,
) -> Result<(), Memory> {
    let spans = evidence.spans.as_slice();
    add_heading(page, names, events, position, spans.len())?;
    add_members(page, names, events, spans)?;
    add_order(page)?;
    add_edges(page, names, events, &evidence.edges)?;
    add_blames(page, names, events, position, &evidence.blames)?;
    Ok(())
}

/// The explanation of an alarm at a position.
///
/// # Errors
/// `Memory` if an allocation failed.
pub(crate) fn explanation(
    alloc: Global,
    names: &Names,
    events: &[Event],
    position: usize,
    evidence: &Evidence,
) -> Result<Page, Memory> {
    let mut page = Page::new(alloc);
    add_alarm(&mut page)?;
    add_lanes(&mut page, alloc, names, events, evidence)?;
    add_words(&mut page, names, events, position, evidence)?;
    Ok(page)
}

/// The explanation of a clean log.
///
/// # Errors
/// `Memory` if an allocation failed.
pub(crate) fn clean_explanation(
    alloc: Global,
    events: usize,
    transactions: usize,
) -> Result<Page, Memory> {
    let mut page = Page::new(alloc);
    page.add(&[
        Piece::Text("The blocks of this log can be serialized.\nEvents: "),
        Piece::Number(events as u64),
        Piece::Text("\nTransactions, which can follow one another: "),
        Piece::Number(transactions as u64),
        Piece::Text("\n"),
    ])?;
    Ok(page)
}
