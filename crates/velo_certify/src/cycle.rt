//! A shortest cycle through the transaction of a position, and whether a list is one.
ghost use Rattle.std.specs.Prelude.{◌≡◌, ◌-◌, ◌<◌, ◌↔◌, ◌++◌, ℕ, List, length, slice_index, IfOk, IfErr, IsTrue};
ghost use Rattle.velo_events.specs.Block.{is_begin_at, owner};
ghost use Rattle.velo_events.specs.Reordering.{IsSelfSerializable};
ghost use Rattle.velo_certify.specs.Shortest.{IsShortestCycleAt};
ghost use Rattle.velo_events.specs.declared.event.Event.{Event};
ghost use Rattle.velo_certify.specs.Owners.{AreOwners};
ghost use Rattle.velo_traces.specs.Places.{AllHavePlaces, sizes};
ghost use Rattle.velo_certify.specs.Distances.{AreShortest, AreNearer, AreTowards};
ghost use Rattle.velo_certify.specs.Nearest.{IsNearest};
ghost use Rattle.velo_certify.specs.Cycle.{IsCycleFault, IsLastFault, IsCycleFrom, IsShortestFrom, IsLinked, next_in};

use crate::CertFault;
use crate::distances::reach_target;
use crate::nearest::{has_edge, nearest_next};
use crate::numbered::table_of;
use crate::owners::{owner_of, owners_of};
use crate::reached::Reached;
use std::alloc::Global;
use velo_events::growth::reserve;
use velo_events::{Event, Memory};
use velo_traces::{ConflictTable, Trace};

/// Walks from the first transaction of a cycle by way of the second back to the first.
fn cycle_through(
    alloc: Global,
    reached: &Reached,
    start: usize,
    second: usize,
) -> Result<Vec<usize>, Memory>
    requires nearer { AreNearer start reached.now.distance.items reached.now.next.items }
    requires second { 0 < slice_index reached.now.distance.items second }
    ensures { IfOk result (λ cycle.
        (trace : List Event) → AreShortest trace start reached.now.distance.items →
        AreTowards trace start reached.now.distance.items reached.now.next.items →
        IsNearest trace reached.now.distance.items start second → IsShortestFrom trace start cycle.items) }
{
    let mut cycle = Vec::new(alloc);
    reserve(&mut cycle, 1)?;
    cycle.push_reserved(start);
    let mut present = second;
    while present != start {
        reserve(&mut cycle, 1)?;
        cycle.push_reserved(present);
        present = reached.next[present];
    }
    Ok(cycle)
}

/// A shortest cycle that begins with the transaction of the last of the events.
fn last_cycle(alloc: Global, events: &[Event]) -> Result<Vec<usize>, CertFault>
    requires { 0 < length events.now }
    ensures cycle { IfOk result (λ cycle.
        IsShortestFrom events.now (owner events.now (length events.now - 1)) cycle.items) }
    ensures fault { IfErr result (IsLastFault events.now (owner events.now (length events.now - 1))) }
{
    let owners = owners_of(alloc, events)?;
    let start = owner_of(events, &owners, events.len() - 1);
    let reached = reach_target(alloc, events, &owners, start)?;
    let mut table = table_of(alloc, events)?;
    match nearest_next(events, &owners, &mut table, &reached.distance, start) {
        Some(second) => Ok(cycle_through(alloc, &reached, start, second)?),
        None => Err(CertFault::NoCycle),
    }
}

/// A shortest cycle of the events up to the position that begins with the transaction of the
/// position. Each transaction is named by its first position; of several shortest cycles the least
/// list is given.
///
/// The events are passed once for each transaction of the cycle, or for each level of those that
/// reach it where there is none.
///
/// # Errors
/// `NotThere` where the trace has no such position, `NoCycle` where no cycle of the events up to it
/// contains its transaction, and `Memory` if an allocation failed.
pub fn cycle_of(alloc: Global, trace: &Trace, position: usize) -> Result<Vec<usize>, CertFault>
    ensures cycle { IfOk result (λ cycle. IsShortestCycleAt trace.now.events position cycle.items) }
    ensures fault { IfErr result (IsCycleFault trace.now.events position) }
    // Law: whatever events follow, a block that is not self-serializable stays so.
    ensures stays { (more : List Event) (begin : ℕ) → IsTrue (is_begin_at trace.now.events begin)
        → ¬ IsSelfSerializable trace.now.events begin
        → ¬ IsSelfSerializable (trace.now.events ++ more) begin }
{
    let events = trace.as_slice();
    if position >= events.len() {
        return Err(CertFault::NotThere);
    }
    last_cycle(alloc, &events[..position + 1])
}

/// What comes next in a list, where its first comes after its last.
pub(crate) fn next_in(cycle: &[usize], k: usize) -> usize
    requires { k < length cycle.now }
    ensures { result ≡ next_in cycle.now k }
{
    if k + 1 < cycle.len() {
        cycle[k + 1]
    } else {
        cycle[0]
    }
}

/// Whether each transaction of the list has an edge to what comes next.
fn is_linked(events: &[Event], owners: &[usize], table: &mut ConflictTable, cycle: &[usize]) -> bool
    requires owners { AreOwners owners.now events.now }
    requires names { AllHavePlaces (sizes table.old) events.now (length events.now) }
    ensures yes { IsTrue result → IsLinked events.now cycle.now (length cycle.now) }
    ensures no { IsLinked events.now cycle.now (length cycle.now) → IsTrue result }
{
    for k in 0..cycle.len() {
        if !has_edge(events, owners, table, cycle[k], next_in(cycle, k)) {
            return false;
        }
    }
    true
}

/// Whether the list is a cycle that begins with the transaction of the last of the events.
fn is_last_cycle(alloc: Global, events: &[Event], cycle: &[usize]) -> Result<bool, Memory>
    requires { 0 < length events.now }
    ensures { IfOk result (λ yes.
        IsTrue yes ↔ IsCycleFrom events.now (owner events.now (length events.now - 1)) cycle.now) }
{
    if cycle.len() < 2 {
        return Ok(false);
    }
    let owners = owners_of(alloc, events)?;
    if cycle[0] != owner_of(events, &owners, events.len() - 1) {
        return Ok(false);
    }
    let mut table = table_of(alloc, events)?;
    Ok(is_linked(events, &owners, &mut table, cycle))
}

/// Whether the list is a cycle of the events up to the position that begins with the transaction of
/// the position and is no longer than any other such cycle. It trusts nobody: any list and any
/// position may be given.
///
/// # Errors
/// `Memory` if an allocation failed.
pub fn check_cycle(
    alloc: Global,
    trace: &Trace,
    position: usize,
    cycle: &[usize],
) -> Result<bool, Memory>
    ensures { IfOk result (λ yes. IsTrue yes ↔ IsShortestCycleAt trace.now.events position cycle.now) }
{
    let shortest = match cycle_of(alloc, trace, position) {
        Ok(shortest) => shortest.len(),
        Err(CertFault::Memory) => return Err(Memory),
        Err(_) => return Ok(false),
    };
    if cycle.len() != shortest {
        return Ok(false);
    }
    let events = trace.as_slice();
    is_last_cycle(alloc, &events[..position + 1], cycle)
}
