//! Whether a list is a serial reordering of a trace, decided in a few passes over each.
ghost use Rattle.std.specs.Prelude.{◌≡◌, ◌≤◌, ◌<◌, ◌+◌, ◌↔◌, ℕ, length, slice_index, IfOk, IfSome, IfNone, IsTrue, IsFalse};
ghost use Rattle.velo_events.specs.Reordering.{IsReordering, IsSerial};
ghost use Rattle.velo_certify.specs.Order.{HasEachOnce, IsFilled, ArePlaces, KeepsConflicts, AreTogether, StandSoFar};
ghost use Rattle.velo_traces.specs.Numbers.{IsBlank};

use crate::numbered::{table_of, take_in};
use crate::owners::owners_of;
use std::alloc::Global;
use velo_events::growth::filled;
use velo_events::{Event, Memory};
use velo_traces::Trace;

/// Gives each position its place in the list, counted from 1, unless one is twice in the list or
/// beyond the places.
fn fill_places(order: &[usize], places: &mut Vec<usize>) -> bool
    requires { IsBlank places.old.items }
    ensures count { length places.new.items ≡ length places.old.items }
    ensures yes { IsTrue result → IsFilled order.now (length order.now) places.new.items }
    ensures no { IsFalse result → ¬ HasEachOnce (length places.old.items) order.now }
{
    for k in 0..order.len() {
        let position = order[k];
        if position >= places.len() {
            return false;
        }
        if places[position] > 0 {
            return false;
        }
        places[position] = k + 1;
    }
    true
}

/// Whether each position has a place.
fn is_full(places: &[usize]) -> bool
    ensures yes { IsTrue result → (i : ℕ) → i < length places.now → 0 < slice_index places.now i }
    ensures no { IsFalse result → (i : ℕ) × (i < length places.now) × (slice_index places.now i ≡ 0) }
{
    for i in 0..places.len() {
        if places[i] == 0 {
            return false;
        }
    }
    true
}

/// The places of the first `count` positions in a list, if each is in it once, and nothing else.
fn places_of(alloc: Global, count: usize, order: &[usize]) -> Result<Option<Vec<usize>>, Memory>
    ensures places { IfOk result (λ found. IfSome found (λ places. ArePlaces count order.now places.items)) }
    ensures none { IfOk result (λ found. IfNone found (¬ HasEachOnce count order.now)) }
{
    let mut places = filled(alloc, 0, count)?;
    if !fill_places(order, &mut places) {
        return Ok(None);
    }
    if !is_full(&places) {
        return Ok(None);
    }
    Ok(Some(places))
}

/// Whether of two positions in conflict the earlier one has the lower place.
fn keeps_conflicts(alloc: Global, events: &[Event], places: &[usize]) -> Result<bool, Memory>
    requires count { length places.now ≡ length events.now }
    requires positive { (i : ℕ) → i < length places.now → 0 < slice_index places.now i }
    ensures { IfOk result (λ yes. IsTrue yes ↔ KeepsConflicts events.now places.now) }
{
    let mut table = table_of(alloc, events)?;
    for j in 0..events.len() {
        if take_in(&mut table, events, j, places[j]) >= places[j] {
            return Ok(false);
        }
    }
    Ok(true)
}

/// Whether the transaction at a place goes on, or begins.
fn goes_on_or_begins(owners: &[usize], order: &[usize], k: usize, begun: &mut [bool]) -> bool
    requires place { k < length order.now }
    requires within { (m : ℕ) → m < length order.now → slice_index order.now m < length owners.now }
    requires small { (i : ℕ) → i < length owners.now → slice_index owners.now i < length owners.now }
    requires so_far { StandSoFar owners.now order.now k begun.old }
    ensures yes { IsTrue result → StandSoFar owners.now order.now (k + 1) begun.new }
    ensures no { IsFalse result → ¬ AreTogether owners.now order.now }
    ensures count { length begun.new ≡ length begun.old }
{
    let transaction = owners[order[k]];
    if k > 0 {
        if owners[order[k - 1]] == transaction {
            return true;
        }
    }
    if begun[transaction] {
        return false;
    }
    begun[transaction] = true;
    true
}

/// Whether the positions of each transaction are next to one another.
fn are_together(alloc: Global, owners: &[usize], order: &[usize]) -> Result<bool, Memory>
    requires within { (m : ℕ) → m < length order.now → slice_index order.now m < length owners.now }
    requires small { (i : ℕ) → i < length owners.now → slice_index owners.now i < length owners.now }
    ensures { IfOk result (λ yes. IsTrue yes ↔ AreTogether owners.now order.now) }
{
    let mut begun = filled(alloc, false, owners.len())?;
    for k in 0..order.len() {
        if !goes_on_or_begins(owners, order, k, &mut begun) {
            return Ok(false);
        }
    }
    Ok(true)
}

/// Whether a list with these places is a serial reordering of the events.
fn is_serial(
    alloc: Global,
    events: &[Event],
    order: &[usize],
    places: &[usize],
) -> Result<bool, Memory>
    requires { ArePlaces (length events.now) order.now places.now }
    ensures { IfOk result (λ yes. IsTrue yes ↔ (IsReordering events.now order.now × IsSerial events.now order.now)) }
{
    if !keeps_conflicts(alloc, events, places)? {
        return Ok(false);
    }
    let owners = owners_of(alloc, events)?;
    are_together(alloc, &owners, order)
}

/// Whether the list is a serial reordering of the trace: each position once, every conflicting pair
/// in its order, and the positions of each transaction next to one another. It trusts nobody: any
/// list may be given.
///
/// Its time and memory grow with the numbers of positions, threads and cells.
///
/// # Errors
/// `Memory` if an allocation failed.
pub fn check_order(alloc: Global, trace: &Trace, order: &[usize]) -> Result<bool, Memory>
    ensures { IfOk result (λ yes.
        IsTrue yes ↔ (IsReordering trace.now.events order.now × IsSerial trace.now.events order.now)) }
{
    let events = trace.as_slice();
    match places_of(alloc, events.len(), order)? {
        Some(places) => is_serial(alloc, events, order, &places),
        None => Ok(false),
    }
}
