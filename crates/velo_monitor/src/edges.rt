//! The edges of one event: from the nodes that its steps name into its own.
ghost use Rattle.std.specs.Prelude.{◌≡◌, ◌<◌, [], ◌∷◌, IsTrue, IsFalse, ◌↔◌};
ghost use Rattle.std.specs.Option.{ForSome, option_to_list};
ghost use Rattle.velo_arena.specs.Slots.{is_used, used_in, limit_of};
ghost use Rattle.velo_graph.specs.Nodes.{IsSound, AddsEdges};
ghost use Rattle.velo_monitor.specs.Steps.{live_slots, ReachesSome};
ghost use Rattle.velo_monitor.specs.Changed.{OpensAfter};

use velo_arena::Step;
use velo_graph::{Edge, Graph};
use velo_rows::BitRow;

/// Whether the node in the slot reaches another one that the steps name.
pub fn reaches_some(graph: &Graph<BitRow>, slot: u16, steps: &[Step]) -> bool
    requires { IsTrue (is_used graph.now.slots slot) }
    ensures { IsTrue result ↔ ReachesSome graph.now slot steps.now }
{
    for step in steps {
        if let Some(from) = graph.resolve(*step)
            && from != slot
            && graph.reaches(slot, from)
        {
            return true;
        }
    }
    false
}

/// Adds the edges from all nodes that the steps name.
pub fn add_edges(graph: &mut Graph<BitRow>, steps: &[Step], to: u16)
    requires used { IsTrue (is_used graph.old.slots to) }
    requires acyclic { ¬ ReachesSome graph.old to steps.now }
    requires sound { IsSound graph.old }
    ensures added { AddsEdges graph.old graph.new (live_slots graph.old steps.now) to }
    ensures sound { IsSound graph.new }
{
    for step in steps {
        if let Some(from) = graph.resolve(*step) {
            let _edge = graph.add_edge(from, to);
        }
    }
}

/// Adds the edge from the node that the step names, if it names one, unless the edge closes a cycle.
pub fn closes_or_adds(graph: &mut Graph<BitRow>, step: Step, to: u16) -> bool
    requires used { IsTrue (is_used graph.old.slots to) }
    requires sound { IsSound graph.old }
    ensures closes { IsTrue result ↔ ReachesSome graph.old to (step ∷ []) }
    ensures same { IsTrue result → graph.new ≡ graph.old }
    ensures adds { IsFalse result → AddsEdges graph.old graph.new (live_slots graph.old (step ∷ [])) to }
    ensures sound { IsSound graph.new }
{
    match graph.resolve(step) {
        Some(from) => graph.add_edge(from, to) == Edge::Closes,
        None => false,
    }
}

/// The same of the step, if there is one.
#[inline(always)]
pub fn closes_or_adds_some(graph: &mut Graph<BitRow>, step: Option<Step>, to: u16) -> bool
    requires used { IsTrue (is_used graph.old.slots to) }
    requires sound { IsSound graph.old }
    ensures closes { IsTrue result ↔ ReachesSome graph.old to (option_to_list step) }
    ensures same { IsTrue result → graph.new ≡ graph.old }
    ensures adds { IsFalse result → AddsEdges graph.old graph.new (live_slots graph.old (option_to_list step)) to }
    ensures sound { IsSound graph.new }
{
    match step {
        Some(step) => closes_or_adds(graph, step, to),
        None => false,
    }
}

/// Opens a node after all nodes that the steps name.
pub fn open_after(graph: &mut Graph<BitRow>, steps: &[Step], stamp: u32) -> Step
    requires stamp { ForSome graph.old.slots.newest (λ newest. newest < stamp) }
    requires slot { used_in graph.old.slots < limit_of graph.old.slots }
    ensures opened { OpensAfter graph.old steps.now stamp result graph.new }
{
    let Ok(own) = graph.open(stamp) else {
        unreachable!()
    };
    add_edges(graph, steps, own.slot);
    own
}
