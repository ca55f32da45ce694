//! Where in the source the events happened that are told.

use velo_events::{Event, Memory};
use velo_explain::{Blame, Page, Piece, line_of};
use velo_names::{NameKind, Names};
use velo_sidecars::{Sites, place_in};
use velo_traces::Block;

/// Adds where an event happened, if the place is known.
pub(crate) fn add_place(
    page: &mut Page,
    sites: &Option<Sites>,
    position: usize,
) -> Result<(), Memory> {
    let Some(place) = place_in(sites, position) else {
        return Ok(());
    };
    page.add_bytes(b" at ")?;
    page.add_bytes(place)
}

/// Adds it and ends the line.
pub(crate) fn end_line(
    page: &mut Page,
    sites: &Option<Sites>,
    position: usize,
) -> Result<(), Memory> {
    add_place(page, sites, position)?;
    page.add_bytes(b"\n")
}

/// Adds where a block begins, if the place is known.
fn add_begin(
    page: &mut Page,
    names: &Names,
    sites: &Option<Sites>,
    block: Block,
) -> Result<(), Memory> {
    let Some(place) = place_in(sites, block.first) else {
        return Ok(());
    };
    page.add(&[
        Piece::Text("  block "),
        Piece::Number(u64::from(block.label.0)),
        Piece::Name(names.name_of(NameKind::Label, block.label.0)),
        Piece::Text(" begins at "),
    ])?;
    page.add_bytes(place)?;
    page.add_bytes(b"\n")
}

/// Adds where the blocks begin, of those whose place is known.
pub(crate) fn add_begins(
    page: &mut Page,
    names: &Names,
    sites: &Option<Sites>,
    blocks: &[Block],
) -> Result<(), Memory> {
    for block in blocks {
        add_begin(page, names, sites, *block)?;
    }
    Ok(())
}

/// Adds a line with the place of an event, if it is known.
fn add_place_line(page: &mut Page, sites: &Option<Sites>, position: usize) -> Result<(), Memory> {
    let Some(place) = place_in(sites, position) else {
        return Ok(());
    };
    page.add(&[
        Piece::Text("    line "),
        Piece::Number(line_of(position)),
        Piece::Text(" at "),
    ])?;
    page.add_bytes(place)?;
    page.add_bytes(b"\n")
}

/// Adds the places of the events that part the blocks to blame.
pub(crate) fn add_reason_places(
    page: &mut Page,
    sites: &Option<Sites>,
    events: &[Event],
    blames: &[Blame],
) -> Result<(), Memory> {
    for k in 0..blames.len() {
        add_place_line(page, sites, blames[k].witness)?;
    }
    Ok(())
}
