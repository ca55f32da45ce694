//! Steps at a graph, each after the tests that it asks for.
use std::process::Abort;
use velo_arena::Step;
use velo_graph::{Edge, Graph};
use velo_rows::Ancestors;

pub fn open<A: Ancestors>(rt: &impl Abort, graph: &mut Graph<A>, stamp: u32) -> Step {
    if let Some(newest) = graph.newest() {
        assert!(rt; newest < stamp);
    }
    graph.open(stamp).expect(rt, "a free slot")
}

pub fn edge<A: Ancestors>(rt: &impl Abort, graph: &mut Graph<A>, from: Step, to: Step) {
    assert!(rt; graph.is_used(from.slot) && graph.is_used(to.slot));
    assert!(rt; graph.add_edge(from.slot, to.slot) == Edge::Added);
}

pub fn finish<A: Ancestors>(rt: &impl Abort, graph: &mut Graph<A>, step: Step) {
    assert!(rt; graph.resolve(step) == Some(step.slot));
    graph.finish(step);
}
