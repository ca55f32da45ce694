//! The witness of a round, in words.

use crate::background::Background;
use crate::text::places::{add_reason_places, end_line};
use velo_certify::EdgeEvents;
use velo_events::growth::reserve;
use velo_events::{Event, Kind, Memory, ThreadId};
use velo_explain::{
    Evidence, Page, Piece, add_heading, add_members, add_reasons, line_of, next_number,
};
use velo_names::{NameKind, Names};
use velo_sidecars::Sites;
use velo_traces::Block;

/// Adds the closing event.
fn add_closing(
    page: &mut Page,
    names: &Names,
    events: &[Event],
    position: usize,
    count: usize,
) -> Result<(), Memory> {
    page.add(&[Piece::Text("  ")])?;
    add_heading(page, names, events, position, count)
}

/// Adds a block around an event.
fn add_in_block(
    page: &mut Page,
    names: &Names,
    sites: &Option<Sites>,
    block: Block,
) -> Result<(), Memory> {
    page.add(&[
        Piece::Text("      in block "),
        Piece::Number(u64::from(block.label.0)),
        Piece::Name(names.name_of(NameKind::Label, block.label.0)),
    ])?;
    end_line(page, sites, block.first)
}

/// Adds blocks around an event.
fn add_in_blocks(
    page: &mut Page,
    names: &Names,
    sites: &Option<Sites>,
    blocks: &[Block],
) -> Result<(), Memory> {
    for block in blocks {
        add_in_block(page, names, sites, *block)?;
    }
    Ok(())
}

/// Takes the event at a position in, if it is of the thread: it begins a block, or ends the innermost.
fn take_in(
    blocks: &mut Vec<Block>,
    events: &[Event],
    thread: ThreadId,
    at: usize,
) -> Result<(), Memory> {
    match events.get(at) {
        Some(event) if event.thread == thread => match event.kind {
            Kind::Begin(label) => {
                reserve(blocks, 1)?;
                blocks.push_reserved(Block { first: at, label });
            }
            Kind::End => {
                blocks.pop();
            }
            _ => {}
        },
        _ => {}
    }
    Ok(())
}

/// The blocks that the event's thread has open before it, outermost first. None begins before its transaction, so no event
/// before this is looked at.
///
/// # Errors
/// `Memory` if an allocation failed.
pub fn blocks_around(background: &Background, position: usize) -> Result<Vec<Block>, Memory> {
    let mut blocks = Vec::new(background.alloc);
    let found = (
        background.events.get(position),
        background.owners.get(position),
    );
    if let (Some(event), Some(first)) = found {
        for at in *first..position {
            take_in(&mut blocks, background.events, event.thread, at)?;
        }
    }
    Ok(blocks)
}

/// Adds the blocks that the event's thread has open before it.
fn add_stack(page: &mut Page, background: &Background, position: usize) -> Result<(), Memory> {
    let blocks = blocks_around(background, position)?;
    add_in_blocks(page, background.names, background.sites, blocks.as_slice())
}

/// Adds the line of an event.
fn add_event_line(page: &mut Page, background: &Background, position: usize) -> Result<(), Memory> {
    let Some(event) = background.events.get(position) else {
        return Ok(());
    };
    page.add(&[
        Piece::Text("    line "),
        Piece::Number(line_of(position)),
        Piece::Text(" `"),
        Piece::Words(*event),
        Piece::Text("`"),
        Piece::KindName(background.names, event.kind),
    ])?;
    end_line(page, background.sites, position)
}

/// Adds an event with the blocks around it.
fn add_event(page: &mut Page, background: &Background, position: usize) -> Result<(), Memory> {
    add_event_line(page, background, position)?;
    add_stack(page, background, position)
}

/// Adds which transaction comes before which.
fn add_order(page: &mut Page, count: usize, k: usize) -> Result<(), Memory> {
    page.add(&[
        Piece::Text("  T"),
        Piece::Number((k as u64).saturating_add(1)),
        Piece::Text(" before T"),
        Piece::Number(next_number(count, k)),
        Piece::Text(":\n"),
    ])
}

/// Adds the events of an edge of the cycle.
fn add_edge(
    page: &mut Page,
    background: &Background,
    count: usize,
    k: usize,
    edge: EdgeEvents,
) -> Result<(), Memory> {
    add_order(page, count, k)?;
    add_event(page, background, edge.from)?;
    add_event(page, background, edge.to)
}

/// Adds the events of the edges of the cycle.
fn add_edges(page: &mut Page, background: &Background, edges: &[EdgeEvents]) -> Result<(), Memory> {
    for k in 0..edges.len() {
        add_edge(page, background, edges.len(), k, edges[k])?;
    }
    Ok(())
}

/// Adds the witness of a round whose closing event is at the position.
pub(crate) fn add_witness(
    page: &mut Page,
    background: &Background,
    position: usize,
    evidence: &Evidence,
) -> Result<(), Memory> {
    let names = background.names;
    let events = background.events;
    add_closing(page, names, events, position, evidence.spans.len())?;
    add_members(page, names, events, &evidence.spans)?;
    add_edges(page, background, &evidence.edges)?;
    add_reasons(page, names, events, position, &evidence.blames)?;
    add_reason_places(page, background.sites, events, &evidence.blames)
}
