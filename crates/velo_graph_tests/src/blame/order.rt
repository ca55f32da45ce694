//! That a trace has no cycle: its transactions have ranks that rise along each conflict.
ghost use Rattle.std.specs.Prelude.{◌<◌, length, IsTrue};
ghost use Rattle.velo_events.specs.Graph.{HasCycle};
ghost use Rattle.velo_graph_tests.specs.Rising.{RisesAt, RiseInto};

use velo_events::conflicts;
use velo_traces::Trace;

/// Whether the ranks rise from the transaction of i to that of j, if these are two and the events
/// conflict.
fn rises_at(trace: &Trace, ranks: &[usize], i: usize, j: usize) -> bool
    requires in_order { i < j }
    requires in_trace { j < length trace.now.events }
    ensures { IsTrue result → RisesAt trace.now.events ranks.now i j }
{
    let events = trace.as_slice();
    if !conflicts(&events[i], &events[j]) {
        return true;
    }
    let from = trace.owner_of(i);
    let to = trace.owner_of(j);
    if from == to {
        return true;
    }
    from < ranks.len() && to < ranks.len() && ranks[from] < ranks[to]
}

/// The same of all earlier events and j.
fn rise_into(trace: &Trace, ranks: &[usize], j: usize) -> bool
    requires { j < length trace.now.events }
    ensures { IsTrue result → RiseInto trace.now.events ranks.now j }
{
    for i in 0..j {
        if !rises_at(trace, ranks, i, j) {
            return false;
        }
    }
    true
}

/// Whether they rise along all conflicts.
pub fn has_no_cycle(trace: &Trace, ranks: &[usize]) -> bool
    ensures { IsTrue result → ¬ HasCycle trace.now.events }
{
    for j in 0..trace.len() {
        if !rise_into(trace, ranks, j) {
            return false;
        }
    }
    true
}
