//! Files of sites.

use std::alloc::Global;
use velo_check::Fate;
use velo_sidecars::Sites;
use velo_traces::Trace;

/// The sites that the bytes of a file give, if one was given.
///
/// # Errors
/// `Sites` with the fault for which they give none.
pub fn sites_in<'a>(
    alloc: Global,
    path: Option<&str>,
    bytes: &'a [u8],
) -> Result<Option<Sites<'a>>, Fate> {
    if path.is_none() {
        return Ok(None);
    }
    match Sites::parse(alloc, bytes) {
        Ok(sites) => Ok(Some(sites)),
        Err(fault) => Err(Fate::Sites(fault)),
    }
}

/// Whether the sites, if there are some, are of as many events as the log has.
pub fn are_of_log(sites: &Option<Sites>, log: &Trace) -> bool {
    match sites {
        Some(sites) => sites.count_events() == log.len(),
        None => true,
    }
}
