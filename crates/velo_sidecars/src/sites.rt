//! The sites of a file.
ghost use Rattle.std.specs.Prelude.{◌≡◌, ◌+◌, false, Some, IfOk, IsTrue, length, map, option_map, slice_get};
ghost use Rattle.std.specs.Option.{option_copied};
ghost use Rattle.velo_names.specs.Line.{lines};
ghost use Rattle.velo_sidecars.specs.SiteAnswers.{AnswersAs, header};
ghost use Rattle.velo_sidecars.specs.Sites.{IsWhole, ReadsAs, no_sites, place_in, place_of, site_seen, sites_seen_from, table_after, table_from, table_seen_from};

use crate::limits::MAX_SITES_BYTES;
use crate::site_fault::SitesFault;
use crate::site_line::{Header, header_of, is_place, site_of};
use std::alloc::Global;
use std::marker::Model;
use velo_events::Memory;
use velo_events::growth::{reserve, with_capacity};
use velo_names::split_line;

/// Where in the source each event of a log happened, as bytes of a file that are UTF-8.
#[derive(Drop)]
pub struct Sites<'a> {
    places: Vec<&'a [u8]>,
    events: Vec<u32>,
}

impl<'a> Model for Sites<'a> {
    ghost use Rattle.velo_sidecars.specs.SiteAnswers.{places_of};
    ghost use Rattle.velo_sidecars.specs.Sites.{Table};

    ghost Value = { Table };

    ghost view = { λ s. record { places = places_of s.places.items; events = s.events.items } };
}

impl<'a> Sites<'a> {
    /// No sites.
    fn new(alloc: Global) -> Sites<'a>
        ensures { result ≡ no_sites }
    {
        Sites {
            places: Vec::new(alloc),
            events: Vec::new(alloc),
        }
    }

    /// Takes in a line of this number.
    #[tactic(auto, unfolding(crate::specs::Sites::table_after))]
    fn take(&mut self, found: Header, bytes: &'a [u8], line: usize) -> Result<(), SitesFault>
        ensures { AnswersAs (table_after (header found) self.old line bytes.now) self.new result }
    {
        if self.places.len() < found.sites {
            if !is_place(bytes) {
                return Err(SitesFault::BadLine(line));
            }
            reserve(&mut self.places, 1)?;
            self.places.push_reserved(bytes);
            return Ok(());
        }
        if self.events.len() >= found.events {
            return Err(SitesFault::BadLine(line));
        }
        let Some(site) = site_of(found.sites, bytes) else {
            return Err(SitesFault::BadLine(line));
        };
        reserve(&mut self.events, 1)?;
        self.events.push_reserved(site);
        Ok(())
    }

    /// Takes in the lines of a text, which come after the header, and returns the number of the last one.
    fn take_lines(&mut self, found: Header, text: &'a [u8]) -> Result<usize, SitesFault>
        ensures table { AnswersAs (table_from (header found) self.old 1 (lines text.now)) self.new
            result }
        ensures last { IfOk result (λ last. last ≡ 1 + length (lines text.now)) }
    {
        let mut rest = text;
        let mut line = 1;
        while !rest.is_empty() {
            let (bytes, others) = split_line(rest);
            line += 1;
            self.take(found, bytes, line)?;
            rest = others;
        }
        Ok(line)
    }

    /// Whether all that the header asks for is there, and the last line has its newline.
    fn is_whole(&self, found: Header, bytes: &[u8]) -> bool
        ensures whole { IsTrue result → IsWhole bytes.now (header found) self.now }
        ensures partial { result ≡ false → ¬ IsWhole bytes.now (header found) self.now }
    {
        self.places.len() == found.sites
            && self.events.len() == found.events
            && bytes.last() == Some(&b'\n')
    }

    /// The sites that the bytes of a file give: `vsites 1 SITES EVENTS`, then a line `FILE:LINE FUNCTION` for each of the
    /// sites, from site 1 on, then a line with the site of each event, 0 where it is unknown. Each line ends in a newline.
    ///
    /// # Errors
    /// `TooManyBytes`, and else `NotText`, and else the fault of the first line that has one, and else `EndsEarly`. `Memory`
    /// where it was out of memory.
    pub fn parse(alloc: Global, bytes: &'a [u8]) -> Result<Sites<'a>, SitesFault>
        ensures { ReadsAs bytes.now result }
    {
        if bytes.len() > MAX_SITES_BYTES {
            return Err(SitesFault::TooManyBytes);
        }
        if std::str::from_utf8(bytes).is_err() {
            return Err(SitesFault::NotText);
        }
        if bytes.is_empty() {
            return Err(SitesFault::BadLine(1));
        }
        let (first, others) = split_line(bytes);
        let Some(found) = header_of(first) else {
            return Err(SitesFault::BadLine(1));
        };
        let mut sites = Sites::new(alloc);
        let last = match sites.take_lines(found, others) {
            Ok(last) => last,
            Err(fault) => {
                drop(sites);
                return Err(fault);
            }
        };
        if !sites.is_whole(found, bytes) {
            drop(sites);
            return Err(SitesFault::EndsEarly(last));
        }
        Ok(sites)
    }

    /// Where the event at this position happened, if the file says it.
    pub fn place_of(&self, position: usize) -> Option<&'a [u8]>
        ensures { option_map (λ place. place.now) result ≡ place_of self.now position }
    {
        let site = *self.events.get(position)?;
        if site == 0 {
            return None;
        }
        self.places.get(site as usize - 1).copied()
    }

    /// How many events the file gives a site of.
    pub fn count_events(&self) -> usize
        ensures { result ≡ length self.now.events }
    {
        self.events.len()
    }

    /// The site of an event that is the one at this position, or is none of these; 0 where it is unknown.
    fn site_seen(&self, source: Option<usize>) -> u32
        ensures { result ≡ site_seen self.now source }
    {
        let Some(position) = source else {
            return 0;
        };
        self.events.get(position).copied().unwrap_or(0)
    }

    /// The sites of these events.
    fn sites_seen(&self, alloc: Global, sources: &[Option<usize>]) -> Result<Vec<u32>, Memory>
        ensures { IfOk result (λ seen. seen.items ≡ map (site_seen self.now) sources.now) }
    {
        let mut seen = with_capacity(alloc, sources.len())?;
        for source in sources {
            seen.push_reserved(self.site_seen(*source));
        }
        Ok(seen)
    }

    /// The sites of another trace, each of whose events is one of these or none.
    fn seen_from(&self, alloc: Global, sources: &[Option<usize>]) -> Result<Sites<'a>, Memory>
        ensures { IfOk result (λ seen. seen ≡ table_seen_from self.now sources.now) }
    {
        let events = self.sites_seen(alloc, sources)?;
        let places = copied(alloc, &self.places)?;
        Ok(Sites { places, events })
    }
}

/// The same places.
fn copied<'a>(alloc: Global, places: &[&'a [u8]]) -> Result<Vec<&'a [u8]>, Memory>
    ensures { IfOk result (λ copies. copies.items ≡ places.now) }
{
    let mut copies = with_capacity(alloc, places.len())?;
    for place in places {
        copies.push_reserved(*place);
    }
    Ok(copies)
}

/// Where the event at this position happened, if there are sites that say it.
pub fn place_in<'a>(sites: &Option<Sites<'a>>, position: usize) -> Option<&'a [u8]>
    ensures { option_copied result ≡ place_in sites.now position }
{
    match sites {
        Some(sites) => sites.place_of(position),
        None => None,
    }
}

/// The sites of another trace, each of whose events is one of the log or none, if there are sites of the log.
///
/// # Errors
/// `Memory` where a growth was refused.
pub fn seen_from<'a>(
    alloc: Global,
    sites: &Option<Sites<'a>>,
    sources: &[Option<usize>],
) -> Result<Option<Sites<'a>>, Memory>
    ensures { IfOk result (λ seen. seen ≡ sites_seen_from sites.now sources.now) }
{
    match sites {
        Some(sites) => Ok(Some(sites.seen_from(alloc, sources)?)),
        None => Ok(None),
    }
}
