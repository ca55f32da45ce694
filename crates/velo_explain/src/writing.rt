//! Explanations as whole texts, of a log's own trace.

use crate::count::transactions_of;
use crate::evidence::Evidence;
use crate::pieces::Page;
use crate::places::add_places;
use crate::words::{clean_explanation, explanation};
use std::alloc::Global;
use velo_events::Memory;
use velo_names::Names;
use velo_sidecars::Sites;
use velo_traces::Trace;

/// What an alarm at the position means: first as a picture with a lane for each thread and a row
/// for each event, then in words: the closing event, the transactions of the cycle with their
/// threads, blocks and lines, the two events of each edge, and the blocks to blame, each with an
/// event of another thread that parts it. The log has a header, so position P is on line P + 2. The
/// name of what a line is about is its last word, also in a lane.
///
/// The picture shows the events of the edges, and as long as it has at most 24 lines and 6 lanes also
/// the events that part the blocks to blame, the first events of the transactions, and those of
/// these blocks. A text that is too long for its lane ends in `..`.
///
/// # Errors
/// `Memory` if an allocation failed.
pub fn explain_named(
    alloc: Global,
    trace: &Trace,
    position: usize,
    evidence: &Evidence,
    names: &Names,
) -> Result<Page, Memory> {
    explanation(alloc, names, trace.as_slice(), position, evidence)
}

/// The same, and after it where in the source each event happened that it mentions, by line: of those
/// whose place the sites give.
///
/// # Errors
/// As `explain_named`.
pub fn explain_sited(
    alloc: Global,
    trace: &Trace,
    position: usize,
    evidence: &Evidence,
    names: &Names,
    sites: &Sites,
) -> Result<Page, Memory> {
    let mut page = explain_named(alloc, trace, position, evidence, names)?;
    add_places(&mut page, alloc, sites, trace.len(), position, evidence)?;
    Ok(page)
}

/// That the blocks of a log, which has to be without a cycle, can be serialized: how many events
/// there are, and how many transactions a serial order has.
///
/// # Errors
/// `Memory` if an allocation failed.
pub fn explain_clean(alloc: Global, trace: &Trace) -> Result<Page, Memory> {
    let events = trace.as_slice();
    let count = transactions_of(alloc, events)?;
    clean_explanation(alloc, events.len(), count)
}
