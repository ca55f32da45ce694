//! The words of accesses that make an edge, too.
ghost use Rattle.velo_certify.specs.Owners.{AreOwners};

use crate::background::Background;
use crate::text::places::end_line;
use velo_certify::{EdgeEvents, owners_of};
use velo_events::Memory;
use velo_explain::{Page, Piece, accesses_of, line_of, next_number};

/// Adds which transaction comes before which.
fn add_order(page: &mut Page, count: usize, k: usize) -> Result<(), Memory> {
    page.add(&[
        Piece::Text("  T"),
        Piece::Number((k as u64).saturating_add(1)),
        Piece::Text(" before T"),
        Piece::Number(next_number(count, k)),
        Piece::Text(":\n"),
    ])
}

/// Adds the line of an event, and its place.
fn add_event(page: &mut Page, background: &Background, position: usize) -> Result<(), Memory> {
    let Some(event) = background.events.get(position) else {
        return Ok(());
    };
    page.add(&[
        Piece::Text("    line "),
        Piece::Number(line_of(position)),
        Piece::Text(" `"),
        Piece::Words(*event),
        Piece::Text("`"),
        Piece::KindName(background.names, event.kind),
    ])?;
    end_line(page, background.sites, position)
}

/// Adds the accesses that make the edge at a place of a cycle, if there are some.
fn add_pair(
    page: &mut Page,
    background: &Background,
    count: usize,
    k: usize,
    pair: Option<EdgeEvents>,
) -> Result<(), Memory> {
    let Some(pair) = pair else {
        return Ok(());
    };
    add_order(page, count, k)?;
    add_event(page, background, pair.from)?;
    add_event(page, background, pair.to)
}

/// Adds the accesses that make an edge of a cycle, too, if it is by locks and there are some. The owners
/// are those of the events.
fn add_edge(
    page: &mut Page,
    background: &Background,
    owners: &[usize],
    count: usize,
    k: usize,
    edge: EdgeEvents,
) -> Result<(), Memory>
    requires { AreOwners owners.now background.now.events.now }
{
    let events = background.events;
    if edge.from >= events.len() || edge.to >= events.len() {
        return Ok(());
    }
    let pair = accesses_of(background.alloc, events, owners, edge)?;
    add_pair(page, background, count, k, pair)
}

/// Adds those of the edges of a cycle.
fn add_edges(page: &mut Page, background: &Background, edges: &[EdgeEvents]) -> Result<(), Memory> {
    let owners = owners_of(background.alloc, background.events)?;
    for k in 0..edges.len() {
        add_edge(page, background, &owners, edges.len(), k, edges[k])?;
    }
    Ok(())
}

/// Adds a heading.
fn add_heading(page: &mut Page) -> Result<(), Memory> {
    page.add_bytes(b"Accesses to variables make these edges by locks, too:\n")
}

/// Adds under a heading, for the edges of a cycle that are by locks, the accesses that make them, too:
/// nothing, if there are none.
///
/// # Errors
/// `Memory` if an allocation failed; the page is then no longer to be used.
pub fn add_accesses(
    page: &mut Page,
    background: &Background,
    edges: &[EdgeEvents],
) -> Result<(), Memory> {
    let mut words = Page::new(background.alloc);
    add_edges(&mut words, background, edges)?;
    if words.as_slice().is_empty() {
        return Ok(());
    }
    add_heading(page)?;
    page.add_bytes(words.as_slice())
}
