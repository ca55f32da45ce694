//! The two events of each edge of a cycle.
ghost use Rattle.std.specs.Prelude.{◌≡◌, ◌≢◌, ◌<◌, ◌+◌, ◌-◌, length, take, slice_index, IfOk, MatchOption};
ghost use Rattle.velo_events.specs.Block.{owner};
ghost use Rattle.velo_certify.specs.Shortest.{IsCycleAt};
ghost use Rattle.velo_events.specs.Graph.{Edge};
ghost use Rattle.velo_certify.specs.Cycle.{next_in, IsLinked};
ghost use Rattle.velo_certify.specs.Edges.{ShowsEdge, ShowEdges, own_places};
ghost use Rattle.velo_certify.specs.Owners.{AreOwners};
ghost use Rattle.velo_certify.specs.Nearest.{LeadsInto};
ghost use Rattle.velo_traces.specs.Numbers.{HasNumbers};
ghost use Rattle.velo_traces.specs.Places.{AllHavePlaces, sizes};
ghost use Rattle.velo_certify.specs.Table.{numbers_before};

use crate::cycle::next_in;
use crate::numbered::{table_of, take_in};
use crate::owners::{owner_of, owners_of};
use std::alloc::Global;
use velo_events::growth::with_capacity;
use velo_events::{Event, Memory};
use velo_traces::{ConflictTable, Trace};

/// Two conflicting events of two transactions. They make an edge from the first one's transaction
/// to the second one's.
#[derive(Clone, Copy, PartialEq, Eq)]
pub struct EdgeEvents {
    /// The position of the earlier event.
    pub from: usize,
    /// The position of the later event.
    pub to: usize,
}

/// Takes in the event at a position, where those before it were taken in. Returns the number after
/// the latest event of the transaction that conflicts with it, or 0.
fn place_before(
    events: &[Event],
    owners: &[usize],
    table: &mut ConflictTable,
    from: usize,
    at: usize,
) -> usize
    requires within { at < length events.now }
    requires owners { AreOwners owners.now events.now }
    requires names { AllHavePlaces (sizes table.old) events.now (length events.now) }
    requires numbers { HasNumbers events.now (numbers_before (own_places events.now from) at) table.old }
    ensures names { sizes table.new ≡ sizes table.old }
    ensures numbers { HasNumbers events.now (numbers_before (own_places events.now from) (at + 1)) table.new }
    ensures some { LeadsInto events.now from at → 0 < result }
    ensures edge { 0 < result → owner events.now at ≢ from →
        ShowsEdge events.now from (owner events.now at) (record { from = result - 1; to = at }) }
{
    let transaction = owner_of(events, owners, at);
    let number = if transaction == from { at + 1 } else { 0 };
    take_in(table, events, at, number)
}

/// The earliest event of the one transaction that conflicts with an earlier one of the other, with
/// the latest of these.
fn edge_events_between(
    events: &[Event],
    owners: &[usize],
    table: &mut ConflictTable,
    from: usize,
    to: usize,
) -> Option<EdgeEvents>
    requires owners { AreOwners owners.now events.now }
    requires names { AllHavePlaces (sizes table.old) events.now (length events.now) }
    requires differ { from ≢ to }
    ensures names { sizes table.new ≡ sizes table.old }
    ensures edge { MatchOption result (¬ Edge events.now from to) (ShowsEdge events.now from to) }
{
    table.clear();
    for at in 0..events.len() {
        let place = place_before(events, owners, table, from, at);
        if place > 0 && owner_of(events, owners, at) == to {
            return Some(EdgeEvents {
                from: place - 1,
                to: at,
            });
        }
    }
    None
}

/// The edge from a transaction of the cycle to what comes next.
fn next_edge_events(
    events: &[Event],
    owners: &[usize],
    table: &mut ConflictTable,
    cycle: &[usize],
    k: usize,
) -> EdgeEvents
    requires owners { AreOwners owners.now events.now }
    requires names { AllHavePlaces (sizes table.old) events.now (length events.now) }
    requires within { k < length cycle.now }
    requires linked { IsLinked events.now cycle.now (length cycle.now) }
    ensures names { sizes table.new ≡ sizes table.old }
    ensures edge { ShowsEdge events.now (slice_index cycle.now k) (next_in cycle.now k) result }
{
    match edge_events_between(events, owners, table, cycle[k], next_in(cycle, k)) {
        Some(edge) => edge,
        None => unreachable!(),
    }
}

/// The edges of a cycle of the events, in its order.
fn all_edge_events(
    alloc: Global,
    events: &[Event],
    cycle: &[usize],
) -> Result<Vec<EdgeEvents>, Memory>
    requires linked { IsLinked events.now cycle.now (length cycle.now) }
    ensures { IfOk result (λ edges. ShowEdges events.now cycle.now edges.items) }
{
    let owners = owners_of(alloc, events)?;
    let mut table = table_of(alloc, events)?;
    let mut edges = with_capacity(alloc, cycle.len())?;
    for k in 0..cycle.len() {
        edges.push_reserved(next_edge_events(events, &owners, &mut table, cycle, k));
    }
    Ok(edges)
}

/// The events of the edges of a cycle, in its order: for each transaction two conflicting events,
/// the earlier one of it and the later one of the next transaction. The list has to be a cycle of
/// the events up to the position that begins with the transaction of the position.
///
/// It takes one pass over the events up to the position for each transaction of the cycle, and one
/// to make the table.
///
/// # Errors
/// `Memory` if an allocation failed.
pub fn edge_events_of(
    alloc: Global,
    trace: &Trace,
    position: usize,
    cycle: &[usize],
) -> Result<Vec<EdgeEvents>, Memory>
    requires { IsCycleAt trace.now.events position cycle.now }
    ensures { IfOk result (λ edges. ShowEdges (take (position + 1) trace.now.events) cycle.now edges.items) }
{
    let events = trace.as_slice();
    all_edge_events(alloc, &events[..position + 1], cycle)
}
