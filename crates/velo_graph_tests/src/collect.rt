//! Tests of the collection.
ghost use Rattle.std.specs.Prelude.{◌≡◌, ◌≤◌};

use crate::nodes::{edge, finish, open};
use std::alloc::Global;
use std::process::Abort;
use std::test::Fail;
use velo_collect::{Freed, collect};
use velo_graph::Graph;
use velo_rows::{Ancestors, BitRow, SetRow};

fn expect_freed<A: Ancestors>(
    rt: &impl Abort,
    graph: &mut Graph<A>,
    freed: &mut Freed,
    stamps: &[u32],
)
    requires { 4 ≤ freed.old.room }
    ensures { freed.new.room ≡ freed.old.room }
{
    assert!(rt; graph.limit() == 4);
    collect(graph, freed);
    assert!(rt; freed.stamps().len() == stamps.len());
    for stamp in stamps {
        assert!(rt; freed.stamps().contains(stamp), "{stamp}");
    }
}

/// A finished node goes once none of its ancestors is unfinished, and an unfinished one never.
fn chains_go_as_their_roots_end<A: Ancestors>(rt: &impl Abort, alloc: Global) {
    let mut freed = Freed::new(alloc, 4).expect(rt, "memory");
    let mut graph = Graph::<A>::new(alloc, 4).expect(rt, "memory");
    let first = open(rt, &mut graph, 0);
    let second = open(rt, &mut graph, 1);
    let third = open(rt, &mut graph, 2);
    edge(rt, &mut graph, first, second);
    edge(rt, &mut graph, second, third);
    finish(rt, &mut graph, second);
    expect_freed(rt, &mut graph, &mut freed, &[]);
    finish(rt, &mut graph, first);
    expect_freed(rt, &mut graph, &mut freed, &[0, 1]);
    assert!(rt; graph.resolve(second).is_none());
    assert!(rt; graph.resolve(third) == Some(third.slot));
    expect_freed(rt, &mut graph, &mut freed, &[]);
    finish(rt, &mut graph, third);
    expect_freed(rt, &mut graph, &mut freed, &[2]);
    assert!(rt; graph.used() == 0);
}

#[test]
fn chains_over_set_rows(rt: HostRuntime) -> Result<(), Fail> {
    chains_go_as_their_roots_end::<SetRow>(&rt, rt.alloc());
    Ok(())
}

#[test]
fn chains_over_bit_rows(rt: HostRuntime) -> Result<(), Fail> {
    chains_go_as_their_roots_end::<BitRow>(&rt, rt.alloc());
    Ok(())
}
