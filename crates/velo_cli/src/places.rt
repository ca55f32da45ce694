//! Where in the source the events of an alarm happened: the lines after the report of a watch.

use velo_events::Memory;
use velo_explain::{Page, Piece};
use velo_sidecars::Sites;
use velo_traces::Block;
use velo_world::Alarm;

/// Adds where the event at this position of what is left happened, if that is known.
fn add_place(page: &mut Page, sites: &Sites, places: &[u32], at: usize) -> Result<(), Memory> {
    let Some(position) = places.get(at).copied() else {
        return Ok(());
    };
    let Some(place) = sites.place_of(position as usize) else {
        return Ok(());
    };
    page.add(&[
        Piece::Text("place "),
        Piece::Number(u64::from(position)),
        Piece::Name(Some(place)),
        Piece::Text("\n"),
    ])
}

/// Adds where blocks begin; without one, where their transaction does.
fn add_begins(
    page: &mut Page,
    sites: &Sites,
    places: &[u32],
    transaction: usize,
    blamed: &[Block],
) -> Result<(), Memory> {
    if blamed.is_empty() {
        return add_place(page, sites, places, transaction);
    }
    for block in blamed {
        add_place(page, sites, places, block.first)?;
    }
    Ok(())
}

/// Adds where the events of an alarm happened.
fn add_alarm(page: &mut Page, sites: &Sites, places: &[u32], alarm: &Alarm) -> Result<(), Memory> {
    add_place(page, sites, places, alarm.position)?;
    add_begins(
        page,
        sites,
        places,
        alarm.transaction,
        alarm.blamed.as_slice(),
    )
}

/// Adds where the events of an alarm happened, if there are sites and an alarm.
///
/// # Errors
/// `Memory` if an allocation failed; the page is then no longer to be used.
pub fn add_places(
    page: &mut Page,
    sites: &Option<Sites>,
    places: &[u32],
    alarm: Option<&Alarm>,
) -> Result<(), Memory> {
    let Some(sites) = sites else {
        return Ok(());
    };
    let Some(alarm) = alarm else {
        return Ok(());
    };
    add_alarm(page, sites, places, alarm)
}
