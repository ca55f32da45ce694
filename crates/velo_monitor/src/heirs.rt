//! Which finished nodes give way to which: of those of one thread that the same unfinished nodes reach, to the earliest.
ghost use Rattle.std.specs.Prelude.{◌≡◌, ◌*◌, ◌<◌, ◌≤◌, ℕ, Some, None, length, slice_index_or, IfOk, IsTrue};
ghost use Rattle.std.specs.Option.{ForSome};
ghost use Rattle.velo_events.specs.declared.limits.TheConstants.{MAX_THREADS};
ghost use Rattle.velo_arena.specs.Slots.{is_used, is_finished_in, stamp_in, limit_of};
ghost use Rattle.velo_arena.specs.Heirs.{heir_in};
ghost use Rattle.velo_monitor.specs.declared.heirs.TheConstants.{PAIRS};
ghost use Rattle.velo_monitor.specs.Heirs.{thread_in, HaveThreads, AreGoing, going_in, is_reached, pair_of, first_in, earlier_of, AreFirsts, later_of, IsLatest, IsHeirOf, AreHeirs};

use std::alloc::Global;
use std::marker::Model;
use velo_arena::{Heir, Step};
use velo_events::growth::filled;
use velo_events::{Event, MAX_THREADS, Memory};
use velo_graph::Graph;
use velo_rows::BitRow;

/// How many pairs of threads there are at most.
const PAIRS: usize = MAX_THREADS as usize * MAX_THREADS as usize;

/// The heir of each slot, as it was found last. Only `new` takes memory.
#[derive(Drop)]
pub struct Heirs {
    /// For each two threads the earliest finished node of the one that the unfinished node of the other reaches.
    firsts: Vec<Option<u16>>,
    heirs: Vec<Option<Heir>>,
}

impl Model for Heirs {
    ghost use Rattle.std.specs.Prelude.{◌≡◌, List, Option, length};
    ghost use Rattle.velo_arena.specs.declared.step.Heir.{Heir};
    ghost use Rattle.velo_monitor.specs.declared.heirs.TheConstants.{PAIRS};

    ghost Value = { List (Option Heir) };

    ghost view = { λ h. h.heirs.items };

    ghost invariant = { λ h. length h.firsts.items ≡ PAIRS };
}

impl Heirs {
    /// A list for that many slots.
    ///
    /// # Errors
    /// `Memory` where a growth was refused.
    pub fn new(alloc: Global, limit: u16) -> Result<Heirs, Memory>
        ensures { IfOk result (λ heirs. length heirs ≡ limit) }
    {
        let firsts = filled(alloc, None, PAIRS)?;
        let heirs = filled(alloc, None, limit as usize)?;
        Ok(Heirs { firsts, heirs })
    }

    /// The heir of each slot.
    pub fn list(&self) -> &[Option<Heir>]
        ensures { result.now ≡ self.now }
    {
        &self.heirs
    }

    /// Finds the heir of each slot of the graph, whose nodes are of so many threads.
    pub fn find(&mut self, graph: &Graph<BitRow>, events: &[Event], threads: usize)
        requires limit { length self.old ≡ limit_of graph.now.slots }
        requires few { threads ≤ MAX_THREADS }
        requires threads { HaveThreads graph.now events.now threads }
        ensures heirs { AreHeirs graph.now events.now self.new }
        ensures limit { length self.new ≡ length self.old }
    {
        find_all(graph, events, threads, &mut self.firsts, &mut self.heirs);
    }
}

/// Finds the heir of each slot, where the nodes are of so many threads. Only the pairs of these are looked at.
fn find_all(
    graph: &Graph<BitRow>,
    events: &[Event],
    threads: usize,
    firsts: &mut [Option<u16>],
    heirs: &mut [Option<Heir>],
)
    requires limit { length heirs.old ≡ limit_of graph.now.slots }
    requires few { threads ≤ MAX_THREADS }
    requires threads { HaveThreads graph.now events.now threads }
    requires pairs { length firsts.old ≡ PAIRS }
    ensures heirs { AreHeirs graph.now events.now heirs.new }
    ensures limit { length heirs.new ≡ length heirs.old }
    ensures pairs { length firsts.new ≡ length firsts.old }
{
    let mut all = [None; MAX_THREADS as usize];
    let going = &mut all[..threads];
    let firsts = &mut firsts[..threads * MAX_THREADS as usize];
    find_going(graph, events, going);
    find_firsts(graph, events, going, firsts);
    find_heirs(graph, events, going, firsts, heirs);
}

/// The thread of a node in use: that of the event with its stamp.
fn thread_of(graph: &Graph<BitRow>, events: &[Event], slot: u16) -> usize
    requires used { IsTrue (is_used graph.now.slots slot) }
    requires own { stamp_in graph.now.slots slot < length events.now }
    ensures { result ≡ thread_in graph.now events.now slot }
{
    let stamp = graph.stamp_of(slot);
    let event = &events[stamp as usize];
    event.thread.0 as usize
}

/// Takes each slot out of the list.
fn clear(list: &mut [Option<u16>])
    ensures none { (i : ℕ) → slice_index_or list.new i None ≡ None }
    ensures length { length list.new ≡ length list.old }
{
    for k in 0..list.len() {
        list[k] = None;
    }
}

/// For each thread, its unfinished node, if any.
fn find_going(graph: &Graph<BitRow>, events: &[Event], going: &mut [Option<u16>])
    requires threads { HaveThreads graph.now events.now (length going.old) }
    ensures going { AreGoing graph.now events.now going.new (limit_of graph.now.slots) }
    ensures length { length going.new ≡ length going.old }
{
    clear(going);
    for slot in 0..graph.extent() {
        if graph.is_used(slot) && !graph.finished(slot) {
            going[thread_of(graph, events, slot)] = Some(slot);
        }
    }
}

/// Whether the node of the first slot, if there is one, reaches that of the second.
fn is_reached(graph: &Graph<BitRow>, going: Option<u16>, slot: u16) -> bool
    requires going { ForSome going (λ u. IsTrue (is_used graph.now.slots u)) }
    requires used { IsTrue (is_used graph.now.slots slot) }
    ensures { result ≡ is_reached graph.now going slot }
{
    match going {
        Some(u) => graph.reaches(u, slot),
        None => false,
    }
}

/// The number of two threads.
fn pair_of(t: usize, s: usize) -> usize
    requires t { t < MAX_THREADS }
    requires s { s < MAX_THREADS }
    ensures { result ≡ pair_of t s }
{
    t * MAX_THREADS as usize + s
}

/// The slot, if the other has a later stamp or there is none.
fn earlier_of(graph: &Graph<BitRow>, first: Option<u16>, slot: u16) -> u16
    requires first { ForSome first (λ r. IsTrue (is_used graph.now.slots r)) }
    requires used { IsTrue (is_used graph.now.slots slot) }
    ensures { result ≡ earlier_of graph.now first slot }
{
    match first {
        Some(first) => {
            if graph.stamp_of(first) <= graph.stamp_of(slot) {
                first
            } else {
                slot
            }
        }
        None => slot,
    }
}

/// Puts the finished node of the slot where it is the earliest of its thread that an unfinished node reaches.
fn put_firsts(
    graph: &Graph<BitRow>,
    events: &[Event],
    going: &[Option<u16>],
    firsts: &mut [Option<u16>],
    slot: u16,
)
    requires finished { IsTrue (is_finished_in graph.now.slots slot) }
    requires threads { HaveThreads graph.now events.now (length going.now) }
    requires going { (s u : ℕ) → going_in going.now s ≡ Some u → IsTrue (is_used graph.now.slots u) }
    requires few { length going.now ≤ MAX_THREADS }
    requires pairs { length firsts.old ≡ length going.now * MAX_THREADS }
    requires firsts { AreFirsts graph.now events.now going.now firsts.old slot 0 }
    ensures firsts { AreFirsts graph.now events.now going.now firsts.new slot MAX_THREADS }
    ensures pairs { length firsts.new ≡ length firsts.old }
{
    let t = thread_of(graph, events, slot);
    for s in 0..going.len() {
        if is_reached(graph, going[s], slot) {
            let pair = pair_of(t, s);
            firsts[pair] = Some(earlier_of(graph, firsts[pair], slot));
        }
    }
}

/// Finds, for each two threads, the earliest finished node of the one that the unfinished node of the other reaches.
fn find_firsts(
    graph: &Graph<BitRow>,
    events: &[Event],
    going: &[Option<u16>],
    firsts: &mut [Option<u16>],
)
    requires threads { HaveThreads graph.now events.now (length going.now) }
    requires going { (s u : ℕ) → going_in going.now s ≡ Some u → IsTrue (is_used graph.now.slots u) }
    requires few { length going.now ≤ MAX_THREADS }
    requires pairs { length firsts.old ≡ length going.now * MAX_THREADS }
    ensures firsts { AreFirsts graph.now events.now going.now firsts.new (limit_of graph.now.slots) 0 }
    ensures pairs { length firsts.new ≡ length firsts.old }
{
    clear(firsts);
    for slot in 0..graph.extent() {
        if graph.finished(slot) {
            put_firsts(graph, events, going, firsts, slot);
        }
    }
}

/// The slot in which the node has the later stamp, if there is one.
fn later_of(graph: &Graph<BitRow>, latest: Option<u16>, first: Option<u16>) -> Option<u16>
    requires latest { ForSome latest (λ h. IsTrue (is_used graph.now.slots h)) }
    requires first { ForSome first (λ r. IsTrue (is_used graph.now.slots r)) }
    ensures { result ≡ later_of graph.now latest first }
{
    match (latest, first) {
        (Some(latest), Some(first)) => {
            if graph.stamp_of(latest) <= graph.stamp_of(first) {
                Some(first)
            } else {
                Some(latest)
            }
        }
        (latest, None) => latest,
        (None, first) => first,
    }
}

/// Of the earliest nodes of the thread whose unfinished nodes reach the node of the slot too, that with the greatest stamp.
fn latest_of(
    graph: &Graph<BitRow>,
    going: &[Option<u16>],
    firsts: &[Option<u16>],
    t: usize,
    slot: u16,
) -> Option<u16>
    requires used { IsTrue (is_used graph.now.slots slot) }
    requires t { t < length going.now }
    requires going { (s u : ℕ) → going_in going.now s ≡ Some u → IsTrue (is_used graph.now.slots u) }
    requires firsts { (s r : ℕ) → s < MAX_THREADS → first_in firsts.now t s ≡ Some r → IsTrue (is_used graph.now.slots r) }
    requires few { length going.now ≤ MAX_THREADS }
    requires pairs { length firsts.now ≡ length going.now * MAX_THREADS }
    ensures { IsLatest graph.now going.now firsts.now t slot MAX_THREADS result }
{
    let mut latest = None;
    for s in 0..going.len() {
        if is_reached(graph, going[s], slot) {
            latest = later_of(graph, latest, firsts[pair_of(t, s)]);
        }
    }
    latest
}

/// The heir of the finished node of the slot, unless it stays.
fn heir_of(
    graph: &Graph<BitRow>,
    events: &[Event],
    going: &[Option<u16>],
    firsts: &[Option<u16>],
    slot: u16,
) -> Option<Heir>
    requires finished { IsTrue (is_finished_in graph.now.slots slot) }
    requires threads { HaveThreads graph.now events.now (length going.now) }
    requires going { AreGoing graph.now events.now going.now (limit_of graph.now.slots) }
    requires firsts { AreFirsts graph.now events.now going.now firsts.now (limit_of graph.now.slots) 0 }
    requires few { length going.now ≤ MAX_THREADS }
    requires pairs { length firsts.now ≡ length going.now * MAX_THREADS }
    ensures { IsHeirOf graph.now events.now going.now firsts.now slot result }
{
    let t = thread_of(graph, events, slot);
    match latest_of(graph, going, firsts, t, slot) {
        Some(heir) if heir != slot => Some(Heir {
            of: graph.stamp_of(slot),
            step: Step {
                slot: heir,
                stamp: graph.stamp_of(heir),
            },
        }),
        _ => None,
    }
}

/// Finds the heir of each slot.
fn find_heirs(
    graph: &Graph<BitRow>,
    events: &[Event],
    going: &[Option<u16>],
    firsts: &[Option<u16>],
    heirs: &mut [Option<Heir>],
)
    requires threads { HaveThreads graph.now events.now (length going.now) }
    requires going { AreGoing graph.now events.now going.now (limit_of graph.now.slots) }
    requires firsts { AreFirsts graph.now events.now going.now firsts.now (limit_of graph.now.slots) 0 }
    requires few { length going.now ≤ MAX_THREADS }
    requires pairs { length firsts.now ≡ length going.now * MAX_THREADS }
    requires limit { length heirs.old ≡ limit_of graph.now.slots }
    ensures heirs { (k : ℕ) → IsHeirOf graph.now events.now going.now firsts.now k (heir_in heirs.new k) }
    ensures limit { length heirs.new ≡ length heirs.old }
{
    for slot in 0..graph.limit() {
        heirs[slot as usize] = if graph.finished(slot) {
            heir_of(graph, events, going, firsts, slot)
        } else {
            None
        };
    }
}
