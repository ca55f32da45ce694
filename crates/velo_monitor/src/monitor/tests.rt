//! Tests of the monitor.
ghost use Rattle.std.specs.Prelude.{◌≡◌, ◌<◌, [], ◌∷◌, ◌++◌, length, IsTrue};
ghost use Rattle.velo_events.specs.declared.limits.TheConstants.{MAX_EVENTS};
ghost use Rattle.velo_events.specs.declared.event.Event.{Event as EventOf};
ghost use Rattle.velo_arena.specs.Slots.{used_in, limit_of};
ghost use Rattle.velo_events.specs.WellFormed.{IsWellFormed, MayFollow};
ghost use Rattle.velo_tables.specs.LastAccesses.{HasRoomFor};
ghost use Rattle.velo_monitor.specs.Watched.{IsMonitorOf};
ghost use Rattle.velo_monitor.specs.Answers.{NeedsNode};

use super::{Monitor, Seen};
use std::alloc::Global;
use std::process::Abort;
use velo_events::{Bounds, Config, Event, Kind, Label, LockId, MAX_EVENTS, ThreadId, VarId};
use velo_graph::Graph;
use velo_rows::BitRow;
use velo_traces::{Trace, well_formed};

const BOUNDS: Bounds = Bounds {
    threads: 2,
    variables: 1,
    locks: 1,
};

const X: VarId = VarId(0);

const LOCK: LockId = LockId(0);

/// A node as the tests see it: its stamp, whether it has finished, and the stamps of its ancestors.
type Node<'a> = (u32, bool, &'a [u32]);

/// An event with whether it needs a node, the answer to it, and the nodes afterwards.
type Row<'a> = (u8, Kind, bool, Seen, &'a [Node<'a>]);

/// The slot in use with the stamp.
fn slot_of(graph: &Graph<BitRow>, stamp: u32) -> Option<u16> {
    for slot in 0..graph.limit() {
        if graph.is_used(slot) && graph.stamp_of(slot) == stamp {
            return Some(slot);
        }
    }
    None
}

/// Whether the first node is the second, or an ancestor of it.
fn reaches(rt: &impl Abort, graph: &Graph<BitRow>, from: u32, to: u32) -> bool {
    let from = slot_of(graph, from).expect(rt, "no such node");
    let to = slot_of(graph, to).expect(rt, "no such node");
    assert!(rt; graph.is_used(from) && graph.is_used(to));
    graph.reaches(from, to)
}

/// Looks at all nodes in use.
fn look(rt: &impl Abort, monitor: &Monitor, nodes: &[Node]) {
    let graph = &monitor.graph;
    assert!(rt; monitor.used() as usize == nodes.len());
    for (stamp, finished, ancestors) in nodes {
        let slot = slot_of(graph, *stamp).expect(rt, "no such node");
        assert!(rt; graph.finished(slot) == *finished, "{stamp}");
        for (other, _, _) in nodes {
            let is_ancestor = other == stamp || ancestors.contains(other);
            assert!(rt;
                reaches(rt, graph, *other, *stamp) == is_ancestor,
                "{other} {stamp}"
            );
        }
    }
}

/// Lets the monitor of the events compact, if a slot is needed and none is free.
fn make_slot(monitor: &mut Monitor, events: &[Event], needs_node: bool)
    requires { IsMonitorOf BOUNDS monitor.old events.now }
    ensures same { IsMonitorOf BOUNDS monitor.new events.now }
    ensures room { (e : EventOf) → HasRoomFor monitor.old.kept e → HasRoomFor monitor.new.kept e }
{
    if needs_node && monitor.used() == monitor.graph.limit() {
        monitor.compact(events);
    }
}

/// Whether there is a free slot, if one is needed.
fn has_slot(monitor: &Monitor, needs_node: bool) -> bool
    ensures { IsTrue result → IsTrue needs_node → used_in monitor.now.nodes.slots < limit_of monitor.now.nodes.slots }
{
    !needs_node || monitor.used() < monitor.graph.limit()
}

/// Whether the event after these needs a node, and whether there is a slot for it, where the monitor compacts if there was none.
fn find_slot(monitor: &mut Monitor, events: &[Event], event: &Event) -> (bool, bool)
    requires stands { IsMonitorOf BOUNDS monitor.old events.now }
    requires follows { MayFollow BOUNDS events.now event.now }
    ensures same { IsMonitorOf BOUNDS monitor.new events.now }
    ensures room { (e : EventOf) → HasRoomFor monitor.old.kept e → HasRoomFor monitor.new.kept e }
    ensures slot { IsTrue result.1 → NeedsNode monitor.new events.now event.now
        → used_in monitor.new.nodes.slots < limit_of monitor.new.nodes.slots }
{
    let needs_node = monitor.needs_node(event);
    make_slot(monitor, events, needs_node);
    let needs_still = monitor.needs_node(event);
    (needs_node, has_slot(monitor, needs_still))
}

/// The events of the rows as a trace, which can happen.
fn trace_of(rt: &impl Abort, alloc: Global, rows: &[Row]) -> Trace
    ensures { IsWellFormed BOUNDS result.events }
{
    let mut trace = Trace::new(alloc);
    for (thread, kind, _, _, _) in rows {
        let event = Event {
            thread: ThreadId(*thread),
            kind: *kind,
        };
        trace.push(event).expect(rt, "memory");
    }
    match well_formed(&trace, BOUNDS) {
        Ok(()) => trace,
        Err(_) => panic!(rt; "not well-formed"),
    }
}

/// A monitor of so many nodes that has seen no event.
fn new_monitor(rt: &impl Abort, alloc: Global, nodes: u16) -> Monitor
    ensures { IsMonitorOf BOUNDS result [] }
{
    let config = Config::new(1, BOUNDS, 100, nodes, false).expect(rt, "a configuration");
    Monitor::new(alloc, &config).expect(rt, "memory")
}

/// Lets the monitor of the events before it observe an event.
fn observe(
    rt: &impl Abort,
    monitor: &mut Monitor,
    before: &[Event],
    event: &Event,
    needs_node: bool,
) -> Seen
    requires stands { IsMonitorOf BOUNDS monitor.old before.now }
    requires follows { MayFollow BOUNDS before.now event.now }
    requires within { length before.now < MAX_EVENTS }
    ensures { result ≡ Seen.Quiet → IsMonitorOf BOUNDS monitor.new (before.now ++ event.now ∷ []) }
{
    monitor.reserve(event).expect(rt, "memory");
    let found = find_slot(monitor, before, event);
    assert!(rt; found.0 == needs_node && found.1);
    monitor.observe(before.len(), event)
}

/// Lets the monitor observe the events up to the one that closes a cycle, and looks at it after each.
fn follow(rt: &impl Abort, monitor: &mut Monitor, events: &[Event], rows: &[Row])
    requires stands { IsMonitorOf BOUNDS monitor.old [] }
    requires well_formed { IsWellFormed BOUNDS events.now }
{
    assert!(rt; events.len() == rows.len() && events.len() < MAX_EVENTS as usize);
    for i in 0..events.len() {
        let (_, _, needs_node, seen, after) = rows[i];
        let answer = observe(rt, monitor, &events[..i], &events[i], needs_node);
        assert!(rt; answer == seen, "{i}");
        look(rt, monitor, after);
        if answer != Seen::Quiet {
            return;
        }
    }
}

/// Lets a monitor of so many nodes follow the rows. It compacts where all nodes are in use and one is needed.
fn play(rt: &impl Abort, alloc: Global, nodes: u16, rows: &[Row]) {
    let mut monitor = new_monitor(rt, alloc, nodes);
    let trace = trace_of(rt, alloc, rows);
    follow(rt, &mut monitor, trace.as_slice(), rows);
}

/// Three reads outside blocks of what an open block wrote share a node, which goes with the block.
#[test]
fn reads_are_merged(rt: HostRuntime) {
    let open: &[Node] = &[(1, false, &[])];
    let merged: &[Node] = &[(1, false, &[]), (3, true, &[1])];
    play(
        &rt,
        rt.alloc(),
        2,
        &[
            (0, Kind::Fork(ThreadId(1)), false, Seen::Quiet, &[]),
            (0, Kind::Begin(Label(1)), true, Seen::Quiet, open),
            (0, Kind::Write(X, 1), false, Seen::Quiet, open),
            (1, Kind::Read(X, 1), true, Seen::Quiet, merged),
            (1, Kind::Read(X, 1), false, Seen::Quiet, merged),
            (1, Kind::Read(X, 1), false, Seen::Quiet, merged),
            (0, Kind::End, false, Seen::Quiet, &[]),
        ],
    );
}

/// A read of what an open block wrote is not merged into that block: the block's next write closes a cycle.
#[test]
fn no_merge_into_an_open_block(rt: HostRuntime) {
    let open: &[Node] = &[(1, false, &[])];
    let read: &[Node] = &[(1, false, &[]), (3, true, &[1])];
    play(
        &rt,
        rt.alloc(),
        2,
        &[
            (0, Kind::Fork(ThreadId(1)), false, Seen::Quiet, &[]),
            (0, Kind::Begin(Label(1)), true, Seen::Quiet, open),
            (0, Kind::Write(X, 1), false, Seen::Quiet, open),
            (1, Kind::Read(X, 1), true, Seen::Quiet, read),
            (
                0,
                Kind::Write(X, 2),
                false,
                Seen::Closes { transaction: 1 },
                read,
            ),
        ],
    );
}

/// What a block shares a second time another thread had alone in between, which closes a cycle.
#[test]
fn a_lock_taken_between_two_shares(rt: HostRuntime) {
    let open: &[Node] = &[(1, false, &[])];
    let taken: &[Node] = &[(1, false, &[]), (4, true, &[1])];
    play(
        &rt,
        rt.alloc(),
        2,
        &[
            (0, Kind::Fork(ThreadId(1)), false, Seen::Quiet, &[]),
            (0, Kind::Begin(Label(1)), true, Seen::Quiet, open),
            (0, Kind::AcquireShared(LOCK), false, Seen::Quiet, open),
            (0, Kind::ReleaseShared(LOCK), false, Seen::Quiet, open),
            (1, Kind::Acquire(LOCK), true, Seen::Quiet, taken),
            (1, Kind::Release(LOCK), false, Seen::Quiet, taken),
            (
                0,
                Kind::AcquireShared(LOCK),
                false,
                Seen::Closes { transaction: 1 },
                taken,
            ),
        ],
    );
}

/// Blocks that share a lock at the same time come neither before nor after one another.
#[test]
fn sharers_have_no_edges(rt: HostRuntime) {
    let first: &[Node] = &[(1, false, &[])];
    let both: &[Node] = &[(1, false, &[]), (3, false, &[])];
    let second: &[Node] = &[(3, false, &[])];
    play(
        &rt,
        rt.alloc(),
        2,
        &[
            (0, Kind::Fork(ThreadId(1)), false, Seen::Quiet, &[]),
            (0, Kind::Begin(Label(1)), true, Seen::Quiet, first),
            (0, Kind::AcquireShared(LOCK), false, Seen::Quiet, first),
            (1, Kind::Begin(Label(2)), true, Seen::Quiet, both),
            (1, Kind::AcquireShared(LOCK), false, Seen::Quiet, both),
            (0, Kind::ReleaseShared(LOCK), false, Seen::Quiet, both),
            (1, Kind::ReleaseShared(LOCK), false, Seen::Quiet, both),
            (0, Kind::End, false, Seen::Quiet, second),
            (1, Kind::End, false, Seen::Quiet, &[]),
        ],
    );
}

/// A step of a block that has gone doesn't resolve, though its slot is used again.
#[test]
fn slots_are_used_again(rt: HostRuntime) {
    let first: &[Node] = &[(1, false, &[])];
    let second: &[Node] = &[(4, false, &[])];
    play(
        &rt,
        rt.alloc(),
        1,
        &[
            (0, Kind::Fork(ThreadId(1)), false, Seen::Quiet, &[]),
            (0, Kind::Begin(Label(1)), true, Seen::Quiet, first),
            (0, Kind::Write(X, 1), false, Seen::Quiet, first),
            (0, Kind::End, false, Seen::Quiet, &[]),
            (1, Kind::Begin(Label(2)), true, Seen::Quiet, second),
            (0, Kind::Read(X, 1), false, Seen::Quiet, second),
            (1, Kind::Write(X, 2), false, Seen::Quiet, second),
            (1, Kind::End, false, Seen::Quiet, &[]),
        ],
    );
}

/// Four nodes are enough for two threads: of the blocks that read what an open block wrote, the later ones become the first. The
/// block's next write closes a cycle through them.
#[test]
fn later_blocks_give_way(rt: HostRuntime) {
    let open: &[Node] = &[(1, false, &[])];
    let begun: &[Node] = &[(1, false, &[]), (3, false, &[])];
    let read: &[Node] = &[(1, false, &[]), (3, false, &[1])];
    let ended: &[Node] = &[(1, false, &[]), (3, true, &[1])];
    let second: &[Node] = &[(1, false, &[]), (3, true, &[1]), (6, false, &[1, 3])];
    let two: &[Node] = &[(1, false, &[]), (3, true, &[1]), (6, true, &[1, 3])];
    let third: &[Node] = &[
        (1, false, &[]),
        (3, true, &[1]),
        (6, true, &[1, 3]),
        (9, false, &[1, 3, 6]),
    ];
    let three: &[Node] = &[
        (1, false, &[]),
        (3, true, &[1]),
        (6, true, &[1, 3]),
        (9, true, &[1, 3, 6]),
    ];
    let fourth: &[Node] = &[(1, false, &[]), (3, true, &[1]), (12, false, &[1, 3])];
    let left: &[Node] = &[(1, false, &[]), (3, true, &[1]), (12, true, &[1, 3])];
    play(
        &rt,
        rt.alloc(),
        4,
        &[
            (0, Kind::Fork(ThreadId(1)), false, Seen::Quiet, &[]),
            (0, Kind::Begin(Label(1)), true, Seen::Quiet, open),
            (0, Kind::Write(X, 1), false, Seen::Quiet, open),
            (1, Kind::Begin(Label(2)), true, Seen::Quiet, begun),
            (1, Kind::Read(X, 1), false, Seen::Quiet, read),
            (1, Kind::End, false, Seen::Quiet, ended),
            (1, Kind::Begin(Label(2)), true, Seen::Quiet, second),
            (1, Kind::Read(X, 1), false, Seen::Quiet, second),
            (1, Kind::End, false, Seen::Quiet, two),
            (1, Kind::Begin(Label(2)), true, Seen::Quiet, third),
            (1, Kind::Read(X, 1), false, Seen::Quiet, third),
            (1, Kind::End, false, Seen::Quiet, three),
            (1, Kind::Begin(Label(2)), true, Seen::Quiet, fourth),
            (1, Kind::Read(X, 1), false, Seen::Quiet, fourth),
            (1, Kind::End, false, Seen::Quiet, left),
            (
                0,
                Kind::Write(X, 2),
                false,
                Seen::Closes { transaction: 1 },
                left,
            ),
        ],
    );
}
