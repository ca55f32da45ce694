//! Tests of the merge rule.
use crate::nodes::{edge, finish, open};
use std::alloc::Global;
use std::process::Abort;
use std::test::Fail;
use velo_arena::Step;
use velo_graph::Graph;
use velo_merge::{Placed, place};
use velo_rows::{Ancestors, BitRow, SetRow};

/// An operation goes into the one finished node that all its other live predecessors come before.
fn operations_find_their_nodes<A: Ancestors>(rt: &impl Abort, alloc: Global) -> Result<(), Fail> {
    let mut graph = Graph::<A>::new(alloc, 4)?;
    let first = open(rt, &mut graph, 0);
    let second = open(rt, &mut graph, 1);
    let third = open(rt, &mut graph, 2);
    let dead = Step {
        slot: first.slot,
        stamp: 7,
    };
    edge(rt, &mut graph, first, second);
    assert!(rt; place(&graph, &[]) == Placed::None);
    assert!(rt; place(&graph, &[dead]) == Placed::None);
    assert!(rt; place(&graph, &[second, first]) == Placed::New);
    finish(rt, &mut graph, second);
    for steps in [
        [second, first, dead],
        [first, dead, second],
        [dead, second, second],
    ] {
        assert!(rt; place(&graph, &steps) == Placed::In(second));
    }
    assert!(rt; place(&graph, &[first]) == Placed::New);
    assert!(rt; place(&graph, &[first, second, third]) == Placed::New);
    finish(rt, &mut graph, third);
    assert!(rt; place(&graph, &[first, second, third]) == Placed::New);
    assert!(rt; place(&graph, &[third, dead]) == Placed::In(third));
    Ok(())
}

/// Two finished nodes after an unfinished one: an operation after one of them alone goes into it,
/// and one after both does not.
fn beside_another<A: Ancestors>(rt: &impl Abort, alloc: Global) -> Result<(), Fail> {
    let mut graph = Graph::<A>::new(alloc, 3)?;
    let first = open(rt, &mut graph, 1);
    let second = open(rt, &mut graph, 3);
    let third = open(rt, &mut graph, 5);
    let dead = Step {
        slot: second.slot,
        stamp: 2,
    };
    edge(rt, &mut graph, first, second);
    edge(rt, &mut graph, first, third);
    finish(rt, &mut graph, second);
    finish(rt, &mut graph, third);
    for (steps, placed) in [
        ([first, second].as_slice(), Placed::In(second)),
        (&[second, second], Placed::In(second)),
        (&[second, third], Placed::New),
        (&[first], Placed::New),
        (&[], Placed::None),
        (&[dead], Placed::None),
    ] {
        assert!(rt; place(&graph, steps) == placed);
    }
    Ok(())
}

#[test]
fn places_beside_another_over_set_rows(rt: HostRuntime) -> Result<(), Fail> {
    beside_another::<SetRow>(&rt, rt.alloc())
}

#[test]
fn places_beside_another_over_bit_rows(rt: HostRuntime) -> Result<(), Fail> {
    beside_another::<BitRow>(&rt, rt.alloc())
}

#[test]
fn places_over_set_rows(rt: HostRuntime) -> Result<(), Fail> {
    operations_find_their_nodes::<SetRow>(&rt, rt.alloc())
}

#[test]
fn places_over_bit_rows(rt: HostRuntime) -> Result<(), Fail> {
    operations_find_their_nodes::<BitRow>(&rt, rt.alloc())
}
