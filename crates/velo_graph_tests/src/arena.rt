//! Tests of the arena.
use std::alloc::Global;
use std::process::Abort;
use std::test::Fail;
use velo_arena::{Arena, GraphFull, Step};
use velo_events::MAX_NODES;

/// Opens a node with a stamp later than all others, where there is a free slot.
fn open(rt: &impl Abort, arena: &mut Arena, stamp: u32) -> Step {
    if let Some(newest) = arena.newest() {
        assert!(rt; newest < stamp);
    }
    arena.open(stamp).expect(rt, "a free slot")
}

/// Finishes the node of a step and takes it out of its slot.
fn finish_and_free(rt: &impl Abort, arena: &mut Arena, step: Step) {
    assert!(rt; arena.resolve(step) == Some(step.slot) && !arena.finished(step.slot));
    arena.finish(step);
    assert!(rt; arena.is_used(step.slot) && arena.finished(step.slot));
    arena.free(step.slot);
}

/// An arena of one slot that serves for the second time, with the step that it served first and the
/// one that it serves now.
fn used_again(rt: &impl Abort, alloc: Global) -> (Arena, Step, Step) {
    let mut arena = Arena::new(alloc, 1).expect(rt, "memory");
    assert!(rt; arena.newest().is_none());
    let first = open(rt, &mut arena, 1);
    finish_and_free(rt, &mut arena, first);
    assert!(rt; arena.used() == 0);
    let second = open(rt, &mut arena, 4);
    (arena, first, second)
}

#[test]
fn a_slot_serves_again(rt: HostRuntime) -> Result<(), Fail> {
    let (arena, first, second) = used_again(&rt, rt.alloc());
    let outside = Step { slot: 1, stamp: 4 };
    let slots = [
        arena.resolve(first),
        arena.resolve(second),
        arena.resolve(outside),
    ];
    assert!(rt; slots == [None, Some(first.slot), None]);
    assert!(rt; second.slot == first.slot);
    Ok(())
}

#[test]
fn one_node_fills_one_slot(rt: HostRuntime) -> Result<(), Fail> {
    let (mut arena, _, second) = used_again(&rt, rt.alloc());
    assert!(rt; arena.newest() == Some(4) && arena.is_used(second.slot));
    assert!(rt; arena.stamp_of(second.slot) == 4);
    assert!(rt; arena.open(5) == Err(GraphFull));
    assert!(rt; (arena.used(), arena.limit(), arena.extent()) == (1, 1, 1));
    assert!(rt; arena.is_used(second.slot) && !arena.finished(second.slot));
    Ok(())
}

#[test]
fn the_extent_stays_low(rt: HostRuntime) -> Result<(), Fail> {
    let mut arena = Arena::new(rt.alloc(), MAX_NODES).expect(&rt, "memory");
    assert!(rt; (arena.limit(), arena.extent()) == (MAX_NODES, 0));
    let step = open(&rt, &mut arena, 0);
    finish_and_free(&rt, &mut arena, step);
    assert!(rt; arena.extent() == 1);
    Ok(())
}
