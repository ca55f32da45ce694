//! The graph of a trace and its first closing event by brute force: all pairs of events, and a
//! search from each edge.
use std::alloc::{AllocError, Global};
use velo_events::conflicts;
use velo_traces::Trace;

/// An edge between two transactions, and the later event of the pair that brings it.
#[derive(Clone, Copy)]
pub struct Edge {
    pub from: usize,
    pub to: usize,
    pub at: usize,
}

/// The transaction of each position.
pub fn owners_of(alloc: Global, trace: &Trace) -> Result<Vec<usize>, AllocError> {
    let mut owners = Vec::new(alloc);
    for i in 0..trace.len() {
        owners.push(trace.owner_of(i))?;
    }
    Ok(owners)
}

/// The edges, in the order in which the events bring them.
pub fn edges_of(alloc: Global, trace: &Trace) -> Result<Vec<Edge>, AllocError> {
    let mut edges = Vec::new(alloc);
    let events = trace.as_slice();
    for at in 0..events.len() {
        for before in 0..at {
            let from = trace.owner_of(before);
            let to = trace.owner_of(at);
            if from != to && conflicts(&events[before], &events[at]) {
                edges.push(Edge { from, to, at })?;
            }
        }
    }
    Ok(edges)
}

/// The pairs of transactions that have an edge, each once.
pub fn pairs_of(alloc: Global, edges: &[Edge]) -> Result<Vec<(usize, usize)>, AllocError> {
    let mut pairs: Vec<(usize, usize)> = Vec::new(alloc);
    for edge in edges {
        if !pairs.contains(&(edge.from, edge.to)) {
            pairs.push((edge.from, edge.to))?;
        }
    }
    Ok(pairs)
}

/// The transactions that `from` reaches by edges of the events up to a position.
fn reachable_from(
    alloc: Global,
    edges: &[Edge],
    last: usize,
    from: usize,
) -> Result<Vec<usize>, AllocError> {
    let mut reached = Vec::new(alloc);
    reached.push(from)?;
    for _ in edges {
        for edge in edges {
            if edge.at <= last && reached.contains(&edge.from) && !reached.contains(&edge.to) {
                reached.push(edge.to)?;
            }
        }
    }
    Ok(reached)
}

/// Whether some edge of the events up to a position leads back to where it comes from.
fn has_cycle(alloc: Global, edges: &[Edge], last: usize) -> Result<bool, AllocError> {
    for edge in edges {
        if edge.at <= last && reachable_from(alloc, edges, last, edge.to)?.contains(&edge.from) {
            return Ok(true);
        }
    }
    Ok(false)
}

/// The first position up to which the events have a cycle.
pub fn first_closing(
    alloc: Global,
    edges: &[Edge],
    len: usize,
) -> Result<Option<usize>, AllocError> {
    for last in 0..len {
        if has_cycle(alloc, edges, last)? {
            return Ok(Some(last));
        }
    }
    Ok(None)
}
