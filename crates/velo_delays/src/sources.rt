//! Where the events of a trace stand in the log as read.
ghost use Rattle.std.specs.Prelude.{◌≡◌, map, option_map, slice_index, IfOk};
ghost use Rattle.velo_delays.specs.Sources.{AreSourcesAsRead};

use std::alloc::Global;
use velo_events::Memory;
use velo_events::growth::with_capacity;
use velo_filter::Thinned;
use velo_predict::sources_of;
use velo_traces::Trace;

/// The place of the position in the log as read.
pub(crate) fn place_at(places: &[u32], position: usize) -> usize
    ensures { result ≡ slice_index places.now position }
{
    match places.get(position) {
        Some(place) => *place as usize,
        None => 0,
    }
}

/// The place of the source, if there is one.
fn place_of_source(places: &[u32], source: Option<usize>) -> Option<usize>
    ensures { result ≡ option_map (slice_index places.now) source }
{
    match source {
        Some(position) => Some(place_at(places, position)),
        None => None,
    }
}

/// The places of the sources.
fn places_of_sources(
    alloc: Global,
    places: &[u32],
    sources: &[Option<usize>],
) -> Result<Vec<Option<usize>>, Memory>
    ensures { IfOk result (λ read. read.items ≡ map (option_map (slice_index places.now)) sources.now) }
{
    let mut read = with_capacity(alloc, sources.len())?;
    for source in sources {
        read.push_reserved(place_of_source(places, *source));
    }
    Ok(read)
}

/// For each event of the trace the position in the log as read, if it is one of what is left of this log.
pub(crate) fn sources_as_read(
    alloc: Global,
    rest: &Thinned,
    trace: &Trace,
) -> Result<Vec<Option<usize>>, Memory>
    ensures { IfOk result (λ sources. AreSourcesAsRead rest.now.trace.events
        (slice_index rest.now.places.items) trace.now.events sources.items) }
{
    let sources = sources_of(alloc, &rest.trace, trace)?;
    places_of_sources(alloc, &rest.places, &sources)
}
