//! How far transactions are from one that they reach, found level by level, by one pass over the
//! events for each.
ghost use Rattle.std.specs.Prelude.{◌≡◌, ◌≤◌, ◌<◌, ◌+◌, false, ℕ, length, slice_index, IfOk, IsTrue};
ghost use Rattle.velo_events.specs.Graph.{Edge};
ghost use Rattle.velo_traces.specs.Numbers.{HasNumbers};
ghost use Rattle.velo_certify.specs.declared.reached.Reached.{Reached};
ghost use Rattle.velo_traces.specs.Places.{AllHavePlaces, sizes};
ghost use Rattle.velo_certify.specs.Table.{numbers_from};
ghost use Rattle.velo_certify.specs.Owners.{AreOwners};
ghost use Rattle.velo_certify.specs.Distances.{AreShortest, AreTowards};
ghost use Rattle.velo_certify.specs.Reached.{unreached};
ghost use Rattle.velo_certify.specs.Levels.{level_numbers, IsPassed, IsSearched, ReachesFrom};

use crate::numbered::{table_of, take_in};
use crate::owners::owner_of;
use crate::reached::Reached;
use std::alloc::Global;
use velo_events::{Event, Memory};
use velo_traces::ConflictTable;

/// Takes in the event at a position, where those after it were taken in, and reaches its transaction
/// if one on the level has a later event that conflicts with it. Gives the lowest of these.
fn reach_from(
    events: &[Event],
    owners: &[usize],
    table: &mut ConflictTable,
    reached: &mut Reached,
    level: usize,
    at: usize,
) -> Option<usize>
    requires within { at < length events.now }
    requires owners { AreOwners owners.now events.now }
    requires names { AllHavePlaces (sizes table.old) events.now (length events.now) }
    requires count { length reached.old.distance.items ≡ length events.now }
    requires positive { 0 < level }
    requires level { level ≤ length events.now }
    requires numbers { HasNumbers events.now (numbers_from (level_numbers events.now reached.old.distance.items level) (at + 1)) table.old }
    ensures sizes { sizes table.new ≡ sizes table.old }
    ensures numbers { HasNumbers events.now (numbers_from (level_numbers events.now reached.new.distance.items level) at) table.new }
    ensures reaches { ReachesFrom events.now level at reached.old reached.new result }
{
    let transaction = owner_of(events, owners, at);
    let number = if reached.distance[transaction] == level {
        events.len() - transaction
    } else {
        0
    };
    let found = take_in(table, events, at, number);
    if found == 0 {
        return None;
    }
    let next = events.len() - found;
    reached.reach(transaction, next, level);
    Some(next)
}

/// The same. Whether the transaction is the target, and an edge leads from it to the level.
fn pass(
    events: &[Event],
    owners: &[usize],
    table: &mut ConflictTable,
    reached: &mut Reached,
    target: usize,
    level: usize,
    at: usize,
) -> bool
    requires within { at < length events.now }
    requires owners { AreOwners owners.now events.now }
    requires names { AllHavePlaces (sizes table.old) events.now (length events.now) }
    requires count { length reached.old.distance.items ≡ length events.now }
    requires positive { 0 < level }
    requires level { level ≤ length events.now }
    requires numbers { HasNumbers events.now (numbers_from (level_numbers events.now reached.old.distance.items level) (at + 1)) table.old }
    ensures sizes { sizes table.new ≡ sizes table.old }
    ensures numbers { HasNumbers events.now (numbers_from (level_numbers events.now reached.new.distance.items level) at) table.new }
    ensures passed { (first : Reached) → ((a : ℕ) → slice_index first.distance.items a ≤ level) →
        IsPassed events.now level (at + 1) first reached.old → IsPassed events.now level at first reached.new }
    ensures closes { IsTrue result → (c : ℕ) × Edge events.now target c × (slice_index reached.old.distance.items c ≡ level) }
{
    match reach_from(events, owners, table, reached, level, at) {
        Some(next) => next != target && owner_of(events, owners, at) == target,
        None => false,
    }
}

/// Reaches the transactions from which an edge leads to one of the level. Whether there is a next
/// level, and none of its transactions is the target.
fn reach_level(
    events: &[Event],
    owners: &[usize],
    table: &mut ConflictTable,
    reached: &mut Reached,
    target: usize,
    level: usize,
) -> bool
    requires owners { AreOwners owners.now events.now }
    requires names { AllHavePlaces (sizes table.old) events.now (length events.now) }
    requires positive { 0 < level }
    requires level { level ≤ reached.old.count }
    requires searched { IsSearched events.now target level reached.old }
    ensures sizes { sizes table.new ≡ sizes table.old }
    ensures fewer { IsTrue result → reached.old.count < reached.new.count }
    ensures searched { IsSearched events.now target (level + 1) reached.new }
    ensures shortest { result ≡ false → AreShortest events.now target reached.new.distance.items }
{
    table.clear();
    let before = reached.count;
    let mut is_closed = false;
    let mut at = events.len();
    while at > 0 {
        at -= 1;
        if pass(events, owners, table, reached, target, level, at) {
            is_closed = true;
        }
    }
    reached.count > before && !is_closed
}

/// The transactions that reach the target, with the least numbers of edges that lead from them to
/// it, up to the level by which the target reaches itself. Each leads to the lowest one that is
/// nearer.
///
/// # Errors
/// `Memory` if an allocation failed.
pub(crate) fn reach_target(
    alloc: Global,
    events: &[Event],
    owners: &[usize],
    target: usize,
) -> Result<Reached, Memory>
    requires owners { AreOwners owners.now events.now }
    requires target { target < length events.now }
    ensures shortest { IfOk result (λ reached. AreShortest events.now target reached.distance.items) }
    ensures next { IfOk result (λ reached. AreTowards events.now target reached.distance.items reached.next.items) }
{
    let mut table = table_of(alloc, events)?;
    let mut reached = Reached::new(alloc, events.len(), target)?;
    let mut level = 1;
    while reach_level(events, owners, &mut table, &mut reached, target, level) {
        level += 1;
    }
    Ok(reached)
}
