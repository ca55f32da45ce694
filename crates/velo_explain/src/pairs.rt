//! Accesses that make an edge between two transactions.
ghost use Rattle.std.specs.Prelude.{◌≡◌, ◌<◌, ◌≤◌, ℕ, IfOk, IfSome, length, is_some};
ghost use Rattle.velo_events.specs.Event.{lock_of};
ghost use Rattle.velo_certify.specs.Owners.{AreOwners};
ghost use Rattle.velo_explain.specs.Latest.{AreLatest, HavePlaces, IsWithinLog};
ghost use Rattle.velo_explain.specs.Pairs.{accesses_of, first_pair, is_by_lock, pair_at, pair_behind};

use crate::latest::LatestAccesses;
use std::alloc::Global;
use velo_certify::EdgeEvents;
use velo_events::{Event, Kind, Memory};

/// The event at a position behind the one before this number, if there is one.
fn pair_behind(number: usize, at: usize) -> Option<EdgeEvents>
    ensures pair { result ≡ pair_behind number at }
    ensures in_order { number ≤ at → IfSome result (λ pair. (pair.from < pair.to) × (pair.to ≡ at)) }
{
    if number == 0 {
        return None;
    }
    Some(EdgeEvents {
        from: number - 1,
        to: at,
    })
}

/// The event at a position, if it is of the one transaction, behind the latest access of the other that
/// conflicts with it.
fn pair_at(
    events: &[Event],
    owners: &[usize],
    latest: &LatestAccesses,
    to: usize,
    at: usize,
) -> Option<EdgeEvents>
    requires within { at < length events.now }
    requires owners { AreOwners owners.now events.now }
    requires places { HavePlaces latest.now }
    ensures pair { (from : ℕ) → AreLatest events.now from at latest.now
        → result ≡ pair_at events.now from to at }
    ensures within { (from : ℕ) → AreLatest events.now from at latest.now
        → IfSome result (IsWithinLog events.now) }
{
    if owners[at] != to {
        return None;
    }
    pair_behind(latest.latest_for(events[at].kind), at)
}

/// The first access of the one transaction that conflicts with an earlier one of the other, with the
/// latest of these.
fn first_pair(
    alloc: Global,
    events: &[Event],
    owners: &[usize],
    from: usize,
    to: usize,
) -> Result<Option<EdgeEvents>, Memory>
    requires owners { AreOwners owners.now events.now }
    ensures pair { IfOk result (λ pair. pair ≡ first_pair events.now from to) }
    ensures within { IfOk result (λ pair. IfSome pair (IsWithinLog events.now)) }
{
    let mut latest = LatestAccesses::new(alloc)?;
    for at in 0..events.len() {
        if let Some(pair) = pair_at(events, owners, &latest, to, at) {
            return Ok(Some(pair));
        }
        latest.take_in(events, owners, from, at);
    }
    Ok(None)
}

/// Whether it is an operation on a lock.
fn is_on_lock(kind: Kind) -> bool
    ensures { result ≡ is_some (lock_of kind) }
{
    match kind {
        Kind::Acquire(_) | Kind::Release(_) | Kind::AcquireShared(_) | Kind::ReleaseShared(_) => {
            true
        }
        _ => false,
    }
}

/// Whether both events of an edge are on a lock, and of two threads.
fn is_by_lock(events: &[Event], edge: EdgeEvents) -> bool
    requires from { edge.from < length events.now }
    requires to { edge.to < length events.now }
    ensures { result ≡ is_by_lock events.now edge }
{
    let (from, to) = (events[edge.from], events[edge.to]);
    is_on_lock(from.kind) && is_on_lock(to.kind) && from.thread != to.thread
}

/// The accesses that make an edge, too, if it is one by locks and there are some: the first access of
/// the later transaction that conflicts with an earlier one of the other, with the latest of these.
///
/// # Errors
/// `Memory` if an allocation failed.
pub fn accesses_of(
    alloc: Global,
    events: &[Event],
    owners: &[usize],
    edge: EdgeEvents,
) -> Result<Option<EdgeEvents>, Memory>
    requires owners { AreOwners owners.now events.now }
    requires from { edge.from < length events.now }
    requires to { edge.to < length events.now }
    ensures accesses { IfOk result (λ accesses. accesses ≡ accesses_of events.now edge) }
    ensures within { IfOk result (λ accesses. IfSome accesses (IsWithinLog events.now)) }
{
    if !is_by_lock(events, edge) {
        return Ok(None);
    }
    first_pair(alloc, events, owners, owners[edge.from], owners[edge.to])
}
