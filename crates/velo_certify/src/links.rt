//! For each transaction some of those from which an edge leads to it: enough of them that chains of
//! these stand for all edges.
ghost use Rattle.std.specs.Prelude.{◌≡◌, ◌<◌, ◌+◌, length, IfOk, OnOk, IsTrue};
ghost use Rattle.velo_events.specs.Graph.{conflict_at};
ghost use Rattle.velo_traces.specs.Numbers.{HasNumbers, IsBlank};
ghost use Rattle.velo_certify.specs.Links.{is_weak, counted, counted_back, pair_at, AreShown, IsBefore, IsBehind, IsLinked, DropsListed, HasRows, HasLinks};
ghost use Rattle.velo_certify.specs.Serial.{has};
ghost use Rattle.velo_certify.specs.Owners.{AreOwners};
ghost use Rattle.velo_traces.specs.Places.{AllHavePlaces, sizes, sizes_of};
ghost use Rattle.velo_certify.specs.Table.{numbers_before, numbers_from};
ghost use Rattle.velo_certify.specs.Threads.{thread_at};

use crate::chains::Links;
use crate::numbered::take_change;
use crate::owners::owner_of;
use std::alloc::Global;
use velo_events::growth::filled;
use velo_events::{Access, Event, Memory};
use velo_traces::{ConflictTable, Counts};

/// How many pairs of thread numbers there are.
const PAIRS: usize = 65_536;

/// Whether the operation is about something that it does not change itself: a read, a fork or a
/// join.
fn is_weak(access: Access) -> bool
    ensures { result ≡ is_weak access }
{
    match access {
        Access::Shared(_) | Access::Fork(_) | Access::Join(_) => true,
        Access::Exclusive(_) | Access::Nothing => false,
    }
}

/// The place of the threads of two positions among all pairs.
fn pair_of(events: &[Event], from: usize, to: usize) -> usize
    requires from { from < length events.now }
    requires to { to < length events.now }
    ensures pair { result ≡ pair_at events.now from to }
    ensures thread { thread_at events.now from < 256 }
    ensures small { result < 65536 }
{
    events[to].thread.0 as usize * 256 + events[from].thread.0 as usize
}

/// So many zeros.
fn zeros(alloc: Global, count: usize) -> Result<Vec<usize>, Memory>
    ensures blank { IfOk result (λ zeros. IsBlank zeros.items) }
    ensures count { IfOk result (λ zeros. length zeros.items ≡ count) }
{
    filled(alloc, 0, count)
}

/// Links two positions of two threads, unless a known link stands for it: one from the same
/// position or a later one of its thread, to the same one or an earlier one of its. What is known
/// are the numbers of such links, for each two threads the greatest; they rise as the passes go on.
fn link(
    events: &[Event],
    owners: &[usize],
    known: &mut [usize],
    links: &mut Links,
    from: usize,
    to: usize,
    number: usize,
) -> Result<(), Memory>
    requires before { from < to }
    requires within { to < length events.now }
    requires positive { 0 < number }
    requires clash { IsTrue (conflict_at events.now from to) }
    requires owners { AreOwners owners.now events.now }
    requires known { length known.old ≡ 65536 }
    requires rows { HasRows events.now links.old }
    ensures known { length known.new ≡ 65536 }
    ensures linked { OnOk result (IsLinked events.now from to number known.old known.new links.old links.new) }
{
    if events[from].thread.0 == events[to].thread.0 {
        return Ok(());
    }
    let pair = pair_of(events, from, to);
    if known[pair] >= number {
        return Ok(());
    }
    known[pair] = number;
    links.add(owner_of(events, owners, from), owner_of(events, owners, to))
}

/// Links the position at hand to one before it.
fn link_back(
    events: &[Event],
    owners: &[usize],
    table: &mut ConflictTable,
    known: &mut [usize],
    links: &mut Links,
    at: usize,
) -> Result<(), Memory>
    requires within { at < length events.now }
    requires owners { AreOwners owners.now events.now }
    requires names { AllHavePlaces (sizes table.old) events.now (length events.now) }
    requires numbers { HasNumbers events.now (numbers_before counted at) table.old }
    requires known { AreShown events.now (IsBefore at) links.old known.old }
    requires links { HasLinks events.now at (length events.now) links.old }
    ensures names { sizes table.new ≡ sizes table.old }
    ensures numbers { HasNumbers events.now (numbers_before counted (at + 1)) table.new }
    ensures known { OnOk result (AreShown events.now (IsBefore (at + 1)) links.new known.new) }
    ensures links { OnOk result (HasLinks events.now (at + 1) (length events.now) links.new) }
{
    let other = take_change(table, events, at, at + 1);
    if other == 0 {
        return Ok(());
    }
    link(events, owners, known, links, other - 1, at, other)
}

/// Links the position at hand to a later one.
fn link_on(
    events: &[Event],
    owners: &[usize],
    table: &mut ConflictTable,
    known: &mut [usize],
    links: &mut Links,
    at: usize,
) -> Result<(), Memory>
    requires within { at < length events.now }
    requires owners { AreOwners owners.now events.now }
    requires names { AllHavePlaces (sizes table.old) events.now (length events.now) }
    requires numbers { HasNumbers events.now (numbers_from (counted_back events.now) (at + 1)) table.old }
    requires known { AreShown events.now (IsBehind events.now (at + 1)) links.old known.old }
    requires links { HasLinks events.now (length events.now) (at + 1) links.old }
    ensures names { sizes table.new ≡ sizes table.old }
    ensures numbers { HasNumbers events.now (numbers_from (counted_back events.now) at) table.new }
    ensures known { OnOk result (AreShown events.now (IsBehind events.now at) links.new known.new) }
    ensures links { OnOk result (HasLinks events.now (length events.now) at links.new) }
{
    let other = take_change(table, events, at, events.len() - at);
    if other == 0 {
        return Ok(());
    }
    if !is_weak(events[at].kind.access()) {
        return Ok(());
    }
    link(
        events,
        owners,
        known,
        links,
        at,
        events.len() - other,
        other,
    )
}

/// Links all positions to those before them.
fn link_all_back(
    alloc: Global,
    events: &[Event],
    owners: &[usize],
    table: &mut ConflictTable,
    links: &mut Links,
) -> Result<(), Memory>
    requires owners { AreOwners owners.now events.now }
    requires names { AllHavePlaces (sizes table.old) events.now (length events.now) }
    requires links { HasLinks events.now 0 (length events.now) links.old }
    ensures names { sizes table.new ≡ sizes table.old }
    ensures links { OnOk result (HasLinks events.now (length events.now) (length events.now) links.new) }
{
    table.clear();
    let mut known = zeros(alloc, PAIRS)?;
    for at in 0..events.len() {
        link_back(events, owners, table, &mut known, links, at)?;
    }
    Ok(())
}

/// Links all positions to later ones.
fn link_all_on(
    alloc: Global,
    events: &[Event],
    owners: &[usize],
    table: &mut ConflictTable,
    links: &mut Links,
) -> Result<(), Memory>
    requires owners { AreOwners owners.now events.now }
    requires names { AllHavePlaces (sizes table.old) events.now (length events.now) }
    requires links { HasLinks events.now (length events.now) (length events.now) links.old }
    ensures { OnOk result (HasLinks events.now (length events.now) 0 links.new) }
{
    table.clear();
    let mut known = zeros(alloc, PAIRS)?;
    let mut at = events.len();
    while at > 0 {
        at -= 1;
        link_on(events, owners, table, &mut known, links, at)?;
    }
    Ok(())
}

/// The lists of all transactions of the events, made in one pass forwards and one backwards.
///
/// # Errors
/// `Memory` if an allocation failed.
pub(crate) fn links_of(
    alloc: Global,
    events: &[Event],
    owners: &[usize],
    counts: Counts,
) -> Result<Links, Memory>
    requires owners { AreOwners owners.now events.now }
    requires names { AllHavePlaces (sizes_of counts.threads counts.cells) events.now (length events.now) }
    ensures { IfOk result (HasLinks events.now (length events.now) 0) }
{
    let mut links = Links::new(alloc, events.len())?;
    let mut table = ConflictTable::new(alloc, counts.threads, counts.cells)?;
    link_all_back(alloc, events, owners, &mut table, &mut links)?;
    link_all_on(alloc, events, owners, &mut table, &mut links)?;
    Ok(links)
}

/// Whether a transaction is listed.
fn is_listed(listed: &[bool], b: usize) -> bool
    ensures { result ≡ has listed.now b }
{
    match listed.get(b) {
        Some(yes) => *yes,
        None => false,
    }
}

/// Takes what is listed from the front of the list of a transaction. Whether nothing is left of it.
pub(crate) fn drop_listed(links: &mut Links, listed: &[bool], a: usize) -> bool
    requires { a < length links.old.heads.items }
    ensures { DropsListed listed.now a links.old links.new result }
{
    let mut k = links.heads[a];
    while k > 0 && is_listed(listed, links.links[k - 1].before) {
        k = links.links[k - 1].next;
    }
    links.heads[a] = k;
    k == 0
}
