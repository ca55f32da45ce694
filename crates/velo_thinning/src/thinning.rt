//! What is left of a log that can come about.
ghost use Rattle.std.specs.Prelude.{◌≡◌, ◌≤◌, ◌<◌, All, length, map, slice_index, IfOk};
ghost use Rattle.velo_events.specs.declared.limits.TheConstants.{MAX_EVENTS};
ghost use Rattle.velo_events.specs.WellFormed.{IsWellFormed};
ghost use Rattle.velo_filter.specs.Tables.{left_of};
ghost use Rattle.velo_thinning.specs.Thinning.{IsThinnedLog, IsThinnedRest};

use crate::{thin_ordered, without_repeats};
use std::alloc::Global;
use velo_events::growth::with_capacity;
use velo_events::{Config, Memory};
use velo_filter::{LeftOut, Thinned, thin};
use velo_traces::Trace;

/// For each place its place among others.
///
/// # Errors
/// `Memory` where a growth was refused.
fn places_through(alloc: Global, outer: &[u32], inner: &[u32]) -> Result<Vec<u32>, Memory>
    requires { All (λ place. place < length outer.now) inner.now }
    ensures { IfOk result (λ places.
        places.items ≡ map (λ place. slice_index outer.now place) inner.now) }
{
    let mut places = with_capacity(alloc, inner.len())?;
    for place in inner {
        places.push_reserved(outer[*place as usize]);
    }
    Ok(places)
}

/// What is left of a log that can come about, with the place of each event in it: first go the accesses to the variables that
/// locks, forks and joins keep in order, then those that repeat one just before them. The log is judged the same, whichever
/// labels are left out.
///
/// # Errors
/// `Memory` where a growth was refused.
pub fn thin_log(alloc: Global, config: &Config, log: &Trace) -> Result<Thinned, Memory>
    requires few { length log.now.events ≤ MAX_EVENTS }
    requires well_formed { IsWellFormed config.now.bounds log.now.events }
    ensures { IfOk result (IsThinnedLog config.now.bounds log.now.events) }
{
    let ordered = thin_ordered(alloc, config, log)?;
    let left = without_repeats(alloc, &ordered.trace)?;
    let places = places_through(alloc, &ordered.places, &left.places)?;
    Ok(Thinned {
        trace: left.trace,
        places,
    })
}

/// What is left of a log that can come about where something is left out of it, and the rest is thinned.
///
/// # Errors
/// `Memory` where a growth was refused.
pub fn thin_rest(
    alloc: Global,
    config: &Config,
    log: &Trace,
    omitted: &LeftOut,
) -> Result<Thinned, Memory>
    requires few { length log.now.events ≤ MAX_EVENTS }
    requires well_formed { IsWellFormed config.now.bounds log.now.events }
    ensures { IfOk result (IsThinnedRest config.now.bounds (left_of omitted.now) log.now.events) }
{
    let rest = thin(alloc, log, omitted)?;
    let left = thin_log(alloc, config, &rest.trace)?;
    let in_log = places_through(alloc, &rest.places, &left.places)?;
    Ok(Thinned {
        trace: left.trace,
        places: in_log,
    })
}
