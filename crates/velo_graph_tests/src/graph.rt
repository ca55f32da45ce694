//! Tests of the graph.
ghost use Rattle.std.specs.Prelude.{◌≡◌, ◌≤◌, vec_capacity};

use std::alloc::Global;
use std::process::Abort;
use std::test::Fail;
use velo_arena::Step;
use velo_events::MAX_NODES;
use velo_graph::{Edge, Graph};
use velo_rows::{Ancestors, BitRow, SetRow};

fn open<A: Ancestors>(rt: &impl Abort, graph: &mut Graph<A>, stamp: u32) -> u16 {
    if let Some(newest) = graph.newest() {
        assert!(rt; newest < stamp);
    }
    graph.open(stamp).expect(rt, "a free slot").slot
}

fn expect_edge<A: Ancestors>(
    rt: &impl Abort,
    graph: &mut Graph<A>,
    from: u16,
    to: u16,
    answer: Edge,
) {
    assert!(rt; graph.is_used(from) && graph.is_used(to));
    assert!(rt; graph.add_edge(from, to) == answer);
}

fn expect_reaching<A: Ancestors>(rt: &impl Abort, graph: &Graph<A>, a: u16, b: u16, answer: bool) {
    assert!(rt; graph.is_used(a) && graph.is_used(b));
    assert!(rt; graph.reaches(a, b) == answer);
}

fn free<A: Ancestors>(rt: &impl Abort, graph: &mut Graph<A>, slot: u16) {
    assert!(rt; graph.is_used(slot));
    assert!(rt; graph.is_root(slot));
    graph.free(slot);
}

fn edges_carry_ancestors<A: Ancestors>(rt: &impl Abort, alloc: Global) {
    let mut graph = Graph::<A>::new(alloc, 3).expect(rt, "memory");
    let a = open(rt, &mut graph, 1);
    let b = open(rt, &mut graph, 2);
    let c = open(rt, &mut graph, 4);
    expect_edge(rt, &mut graph, b, c, Edge::Added);
    expect_edge(rt, &mut graph, a, b, Edge::Added);
    expect_reaching(rt, &graph, a, c, true);
    expect_edge(rt, &mut graph, a, c, Edge::Known);
    expect_edge(rt, &mut graph, a, a, Edge::Same);
    expect_edge(rt, &mut graph, c, a, Edge::Closes);
    expect_reaching(rt, &graph, c, a, false);
    free(rt, &mut graph, a);
    assert!(rt; graph.used() == 2 && graph.limit() == 3 && graph.newest() == Some(4));
    let a = open(rt, &mut graph, 5);
    expect_reaching(rt, &graph, a, c, false);
    expect_reaching(rt, &graph, b, c, true);
}

fn finish<A: Ancestors>(rt: &impl Abort, graph: &mut Graph<A>, slot: u16) {
    assert!(rt; graph.is_used(slot));
    let step = Step {
        slot,
        stamp: graph.stamp_of(slot),
    };
    assert!(rt; graph.resolve(step) == Some(slot));
    graph.finish(step);
}

fn expect_freed<A: Ancestors>(
    rt: &impl Abort,
    graph: &mut Graph<A>,
    freed: &mut Vec<u32>,
    stamps: &[u32],
)
    requires { 4 ≤ vec_capacity freed.old }
    ensures { vec_capacity freed.new ≡ vec_capacity freed.old }
{
    assert!(rt; graph.limit() == 4);
    graph.free_unneeded(freed);
    assert!(rt; freed.len() == stamps.len());
    for stamp in stamps {
        assert!(rt; freed.contains(stamp), "{stamp}");
    }
}

/// A chain a, b, d, and c beside a before b: nothing below c goes before c has finished.
fn a_chain_is_freed_at_once<A: Ancestors>(rt: &impl Abort, alloc: Global) {
    let mut graph = Graph::<A>::new(alloc, 4).expect(rt, "memory");
    let mut freed = Vec::with_capacity(alloc, 4).expect(rt, "memory");
    let d = open(rt, &mut graph, 1);
    let b = open(rt, &mut graph, 2);
    let a = open(rt, &mut graph, 3);
    let c = open(rt, &mut graph, 4);
    expect_edge(rt, &mut graph, a, b, Edge::Added);
    expect_edge(rt, &mut graph, b, d, Edge::Added);
    expect_edge(rt, &mut graph, c, b, Edge::Added);
    finish(rt, &mut graph, b);
    finish(rt, &mut graph, a);
    expect_freed(rt, &mut graph, &mut freed, &[3]);
    expect_reaching(rt, &graph, b, d, true);
    expect_reaching(rt, &graph, c, d, true);
    finish(rt, &mut graph, d);
    expect_freed(rt, &mut graph, &mut freed, &[]);
    finish(rt, &mut graph, c);
    expect_freed(rt, &mut graph, &mut freed, &[1, 2, 4]);
    assert!(rt; graph.used() == 0);
    let e = open(rt, &mut graph, 9);
    let f = open(rt, &mut graph, 10);
    expect_reaching(rt, &graph, e, f, false);
    expect_reaching(rt, &graph, f, e, false);
}

#[test]
fn edges_over_set_rows(rt: HostRuntime) -> Result<(), Fail> {
    edges_carry_ancestors::<SetRow>(&rt, rt.alloc());
    Ok(())
}

#[test]
fn edges_over_bit_rows(rt: HostRuntime) -> Result<(), Fail> {
    edges_carry_ancestors::<BitRow>(&rt, rt.alloc());
    Ok(())
}

#[test]
fn the_most_nodes_find_room(rt: HostRuntime) -> Result<(), Fail> {
    let graph = Graph::<BitRow>::new(rt.alloc(), MAX_NODES).expect(&rt, "memory");
    assert!(rt; (graph.limit(), graph.used(), graph.extent()) == (MAX_NODES, 0, 0));
    Ok(())
}

#[test]
fn a_chain_over_set_rows(rt: HostRuntime) -> Result<(), Fail> {
    a_chain_is_freed_at_once::<SetRow>(&rt, rt.alloc());
    Ok(())
}

#[test]
fn a_chain_over_bit_rows(rt: HostRuntime) -> Result<(), Fail> {
    a_chain_is_freed_at_once::<BitRow>(&rt, rt.alloc());
    Ok(())
}
