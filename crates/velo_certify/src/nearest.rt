//! The edges out of one transaction.
ghost use Rattle.std.specs.Prelude.{◌≡◌, ◌≤◌, ◌<◌, ◌+◌, ◌↔◌, ◌⊎◌, ℕ, length, slice_index, IfSome, MatchOption, IsTrue};
ghost use Rattle.velo_events.specs.Graph.{Edge};
ghost use Rattle.velo_certify.specs.Owners.{AreOwners};
ghost use Rattle.velo_traces.specs.Numbers.{HasNumbers};
ghost use Rattle.velo_traces.specs.Places.{AllHavePlaces, sizes};
ghost use Rattle.velo_certify.specs.Table.{numbers_before};
ghost use Rattle.velo_certify.specs.Nearest.{own_positions, LeadsInto, IsWithNext, IsNearest};

use crate::numbered::take_in;
use crate::owners::owner_of;
use velo_events::Event;
use velo_traces::ConflictTable;

/// Takes in the event at a position, where those before it were taken in. Whether it makes an edge
/// from the transaction to its own.
fn makes_edge(
    events: &[Event],
    owners: &[usize],
    table: &mut ConflictTable,
    from: usize,
    at: usize,
) -> bool
    requires within { at < length events.now }
    requires owners { AreOwners owners.now events.now }
    requires names { AllHavePlaces (sizes table.old) events.now (length events.now) }
    requires numbers { HasNumbers events.now (numbers_before (own_positions events.now from) at) table.old }
    ensures names { sizes table.new ≡ sizes table.old }
    ensures numbers { HasNumbers events.now (numbers_before (own_positions events.now from) (at + 1)) table.new }
    ensures edge { IsTrue result ↔ LeadsInto events.now from at }
{
    let transaction = owner_of(events, owners, at);
    let number = if transaction == from { 1 } else { 0 };
    let found = take_in(table, events, at, number);
    found > 0 && transaction != from
}

/// Whether an edge leads from one transaction to the other.
pub(crate) fn has_edge(
    events: &[Event],
    owners: &[usize],
    table: &mut ConflictTable,
    from: usize,
    to: usize,
) -> bool
    requires owners { AreOwners owners.now events.now }
    requires names { AllHavePlaces (sizes table.old) events.now (length events.now) }
    ensures names { sizes table.new ≡ sizes table.old }
    ensures yes { IsTrue result → Edge events.now from to }
    ensures no { Edge events.now from to → IsTrue result }
{
    table.clear();
    for at in 0..events.len() {
        if makes_edge(events, owners, table, from, at) && owner_of(events, owners, at) == to {
            return true;
        }
    }
    false
}

/// The nearer of two transactions; of two at one distance the one with the lower number.
fn nearer(distance: &[usize], a: usize, b: usize) -> usize
    requires first { a < length distance.now }
    requires second { b < length distance.now }
    ensures first { slice_index distance.now result ≤ slice_index distance.now a }
    ensures second { slice_index distance.now result ≤ slice_index distance.now b }
    ensures either { (result ≡ a) ⊎ (result ≡ b) }
{
    if distance[a] < distance[b] {
        return a;
    }
    if distance[b] < distance[a] {
        return b;
    }
    a.min(b)
}

/// The nearest so far, with one more transaction, which may have no distance.
fn with_next(distance: &[usize], nearest: Option<usize>, next: usize) -> Option<usize>
    requires nearest { IfSome nearest (λ b. b < length distance.now) }
    requires next { next < length distance.now }
    ensures { IsWithNext distance.now nearest next result }
{
    if distance[next] == 0 {
        return nearest;
    }
    match nearest {
        Some(b) => Some(nearer(distance, b, next)),
        None => Some(next),
    }
}

/// Of the transactions to which an edge leads the nearest one.
pub(crate) fn nearest_next(
    events: &[Event],
    owners: &[usize],
    table: &mut ConflictTable,
    distance: &[usize],
    from: usize,
) -> Option<usize>
    requires owners { AreOwners owners.now events.now }
    requires names { AllHavePlaces (sizes table.old) events.now (length events.now) }
    requires count { length distance.now ≡ length events.now }
    ensures names { sizes table.new ≡ sizes table.old }
    ensures nearest { MatchOption result
        ((b : ℕ) → Edge events.now from b → slice_index distance.now b ≡ 0) (IsNearest events.now distance.now from) }
{
    table.clear();
    let mut nearest = None;
    for at in 0..events.len() {
        if makes_edge(events, owners, table, from, at) {
            nearest = with_next(distance, nearest, owner_of(events, owners, at));
        }
    }
    nearest
}
