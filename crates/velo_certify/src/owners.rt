//! The transactions of all positions of a trace, found in one pass.
ghost use Rattle.std.specs.Prelude.{◌≡◌, ◌≤◌, ◌<◌, ◌+◌, ◌++◌, ◌∷◌, [], length, IfOk};
ghost use Rattle.velo_events.specs.Block.{owner};
ghost use Rattle.velo_certify.specs.Owners.{AreOwners, AreScanned};

use std::alloc::Global;
use velo_events::growth::{filled, with_capacity};
use velo_events::{Event, Memory};
use velo_traces::{ThreadBlocks, blocks_after};

/// How many numbers a thread can have.
const THREAD_NUMBERS: usize = 256;

/// The transaction of a position, after which its thread is scanned one event further.
fn next_owner(events: &[Event], at: usize, threads: &mut [ThreadBlocks]) -> usize
    requires within { at < length events.now }
    requires scanned { AreScanned events.now at threads.old }
    ensures owner { result ≡ owner events.now at }
    ensures scanned { AreScanned events.now (at + 1) threads.new }
{
    let thread = events[at].thread.0 as usize;
    let blocks = threads[thread];
    threads[thread] = blocks_after(events, events[at].thread, at, blocks);
    if blocks.depth > 0 { blocks.first } else { at }
}

/// The transaction of each position, named by its first position.
///
/// # Errors
/// `Memory` if an allocation failed.
pub fn owners_of(alloc: Global, events: &[Event]) -> Result<Vec<usize>, Memory>
    ensures { IfOk result (λ owners. AreOwners owners.items events.now) }
{
    let mut owners = with_capacity(alloc, events.len())?;
    let blank = ThreadBlocks { depth: 0, first: 0 };
    let mut threads = filled(alloc, blank, THREAD_NUMBERS)?;
    for at in 0..events.len() {
        owners.push_reserved(next_owner(events, at, &mut threads));
    }
    Ok(owners)
}

/// The transaction of a position.
pub(crate) fn owner_of(events: &[Event], owners: &[usize], at: usize) -> usize
    requires within { at < length events.now }
    requires owners { AreOwners owners.now events.now }
    ensures owner { result ≡ owner events.now at }
    ensures small { result < length events.now }
    ensures earlier { result ≤ at }
{
    owners[at]
}
