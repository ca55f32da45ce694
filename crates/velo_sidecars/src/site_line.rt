//! What a line of a file of sites says.
ghost use Rattle.std.specs.Prelude.{◌≡◌, option_map};
ghost use Rattle.velo_sidecars.specs.SiteLine.{header_of, is_place, site_of};
ghost use Rattle.velo_sidecars.specs.SiteAnswers.{header};

use crate::limits::{MAX_PLACE_BYTES, MAX_SITES};
use velo_bytes::{after, spaced_number, whole_number};
use velo_events::MAX_EVENTS;
use velo_names::has_control;

/// What a file says of itself in its first line.
#[derive(Clone, Copy)]
pub struct Header {
    /// How many sites it has.
    pub sites: usize,
    /// Of how many events it gives the site.
    pub events: usize,
}

/// What the first line says, if it is a header.
pub fn header_of(line: &[u8]) -> Option<Header>
    ensures { option_map header result ≡ header_of line.now }
{
    let rest = after(line, b"vsites 1 ")?;
    let (sites, rest) = spaced_number(rest, u64::from(MAX_SITES))?;
    let events = whole_number(rest, u64::from(MAX_EVENTS))?;
    Some(Header {
        sites: sites as usize,
        events: events as usize,
    })
}

/// Whether a line is a place.
pub fn is_place(line: &[u8]) -> bool
    ensures { result ≡ is_place line.now }
{
    !line.is_empty() && line.len() <= MAX_PLACE_BYTES && !has_control(line)
}

/// The site of an event, of a file with so many sites: 0 where it is unknown.
pub fn site_of(sites: usize, line: &[u8]) -> Option<u32>
    ensures { result ≡ site_of sites line.now }
{
    let site = whole_number(line, u64::from(MAX_SITES))?;
    if site > sites as u64 {
        return None;
    }
    Some(site as u32)
}
