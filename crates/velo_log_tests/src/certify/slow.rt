//! Certificates judged by all pairs of positions, and random traces.
use crate::words::{
    acquire, acquire_shared, begin, end, exit, fork, join, read, release, release_shared, trace_of,
    write,
};
use std::alloc::Global;
use velo_events::{Event, Memory, conflicts};
use velo_traces::Trace;

/// Whether two positions conflict, the first of which is the earlier one.
fn are_in_conflict(events: &[Event], earlier: usize, later: usize) -> bool {
    match (events.get(earlier), events.get(later)) {
        (Some(a), Some(b)) => earlier < later && conflicts(a, b),
        _ => false,
    }
}

/// The transaction of a position, or the number of events.
fn owner_at(trace: &Trace, i: usize) -> usize {
    if i < trace.len() {
        trace.owner_of(i)
    } else {
        trace.len()
    }
}

/// Whether the list has each position, every conflicting pair in order, and no transaction in two
/// pieces.
pub fn is_serial(trace: &Trace, order: &[usize]) -> bool {
    let events = trace.as_slice();
    for i in 0..events.len() {
        if !order.contains(&i) {
            return false;
        }
    }
    for l in 0..order.len() {
        for k in 0..l {
            if are_in_conflict(events, order[l], order[k]) {
                return false;
            }
            let parted = owner_at(trace, order[l]) != owner_at(trace, order[l - 1]);
            if parted && owner_at(trace, order[l]) == owner_at(trace, order[k]) {
                return false;
            }
        }
    }
    order.len() == events.len()
}

/// Whether an edge leads from one transaction to the other in the events up to a position.
fn has_edge(trace: &Trace, position: usize, from: usize, to: usize) -> bool {
    let events = trace.as_slice();
    for later in 0..events.len() {
        for earlier in 0..later {
            let owns = owner_at(trace, earlier) == from && owner_at(trace, later) == to;
            if owns && later <= position && are_in_conflict(events, earlier, later) {
                return from != to;
            }
        }
    }
    false
}

/// Whether the list is a cycle of the events up to a position.
pub fn is_cycle(trace: &Trace, position: usize, cycle: &[usize]) -> bool {
    let mut last = match cycle.last() {
        Some(last) => *last,
        None => return false,
    };
    for next in cycle {
        if !has_edge(trace, position, last, *next) {
            return false;
        }
        last = *next;
    }
    true
}

/// The next of a row of numbers that look like chance.
fn next_number(seed: &mut u64) -> u64 {
    *seed = seed
        .wrapping_mul(6364136223846793005)
        .wrapping_add(1442695040888963407);
    *seed >> 33
}

/// A random event. Many of its traces cannot happen, which the certificates do not require.
fn event_by_chance(seed: &mut u64) -> Event {
    let thread = (next_number(seed) % 3) as u8;
    let child = (next_number(seed) % 3) as u8;
    let thing = (next_number(seed) % 2) as u16;
    match next_number(seed) % 14 {
        0 | 1 => begin(thread, 1),
        2 => end(thread),
        3 => fork(thread, child),
        4 => join(thread, child),
        5 => exit(thread),
        6 => acquire(thread, thing),
        7 => release(thread, thing),
        8 => acquire_shared(thread, thing),
        9 => release_shared(thread, thing),
        10 | 11 => write(thread, thing, 1),
        _ => read(thread, thing, 1),
    }
}

/// A random trace of `count` events.
pub fn trace_by_chance(alloc: Global, count: usize, seed: &mut u64) -> Result<Trace, Memory> {
    let mut trace = trace_of(alloc, &[])?;
    for _ in 0..count {
        trace.push(event_by_chance(seed))?;
    }
    Ok(trace)
}
