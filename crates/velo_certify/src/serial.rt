//! The greedy serial order of a trace without a cycle.
ghost use Rattle.std.specs.Prelude.{◌≡◌, ◌≤◌, ◌<◌, ◌+◌, ◌++◌, ℕ, List, length, IfOk, IfErr, OnOk, IsTrue, IsFalse};
ghost use Rattle.velo_events.specs.Block.{IsTransaction};
ghost use Rattle.velo_events.specs.Certificate.{positions_of, IsSerialOrder};
ghost use Rattle.velo_events.specs.Graph.{HasCycle};
ghost use Rattle.velo_events.specs.Reordering.{IsReordering, events_in_order};
ghost use Rattle.velo_events.specs.WellFormed.{IsWellFormed};
ghost use Rattle.velo_events.specs.declared.config.Bounds.{Bounds};
ghost use Rattle.velo_certify.specs.Reordered.{LeavesSameHeap};
ghost use Rattle.velo_certify.specs.Owners.{AreOwners};
ghost use Rattle.velo_certify.specs.Links.{HasLinksLeft};
ghost use Rattle.velo_certify.specs.Serial.{is_before, AreClosed, IsCandidate, IsNext, IsOrderFault};
ghost use Rattle.velo_certify.specs.Threads.{AreFollowing, AreFronts, IsBehind, IsFront, IsWithFront};

use crate::CertFault;
use crate::chains::Links;
use crate::links::{drop_listed, links_of};
use crate::owners::{owner_of, owners_of};
use crate::threads::Threads;
use std::alloc::Global;
use velo_events::growth::{filled, reserve, with_capacity};
use velo_events::{Event, Memory};
use velo_traces::{Trace, counts_of};

/// What is listed next.
#[derive(Clone, Copy)]
enum Next {
    /// The least transaction that is ready.
    Ready(usize),
    /// None is ready, and some are not listed.
    Stuck,
    /// All are listed.
    Done,
}

/// Whether what is listed next comes before the transaction.
fn is_before(next: Next, a: usize) -> bool
    ensures { result ≡ is_before next a }
{
    match next {
        Next::Ready(b) => b < a,
        _ => false,
    }
}

/// What is listed next, with one more transaction that is the first of its thread.
fn with_front(events: &[Event], listed: &[bool], links: &mut Links, next: Next, a: usize) -> Next
    requires candidate { IsCandidate events.now listed.now a }
    requires front { IsFront events.now listed.now a }
    requires closed { AreClosed events.now listed.now }
    requires links { HasLinksLeft events.now listed.now links.old }
    ensures links { HasLinksLeft events.now listed.now links.new }
    ensures next { IsWithFront events.now listed.now a next result }
{
    if is_before(next, a) {
        return next;
    }
    if drop_listed(links, listed, a) {
        return Next::Ready(a);
    }
    match next {
        Next::Done => Next::Stuck,
        _ => next,
    }
}

/// What is listed next. Of each thread only the first transaction that is not listed can be ready.
fn next_ready(events: &[Event], listed: &[bool], links: &mut Links, fronts: &[usize]) -> Next
    requires count { length listed.now ≡ length events.now }
    requires closed { AreClosed events.now listed.now }
    requires fronts { AreFronts events.now listed.now fronts.now }
    requires links { HasLinksLeft events.now listed.now links.old }
    ensures links { HasLinksLeft events.now listed.now links.new }
    ensures next { IsNext events.now listed.now result }
{
    let mut next = Next::Done;
    for t in 0..fronts.len() {
        let a = fronts[t];
        if a < events.len() {
            next = with_front(events, listed, links, next, a);
        }
    }
    next
}

/// Appends the positions of a transaction, rising. Returns the first position of the thread after
/// it.
fn append_positions(
    events: &[Event],
    owners: &[usize],
    following: &[usize],
    a: usize,
    order: &mut Vec<usize>,
) -> Result<usize, Memory>
    requires owners { AreOwners owners.now events.now }
    requires following { AreFollowing events.now 0 following.now }
    requires transaction { IsTransaction events.now a }
    ensures ok { OnOk result (order.new.items ≡ order.old.items ++ positions_of events.now a) }
    ensures behind { IfOk result (IsBehind events.now a) }
{
    let mut at = a;
    while at < events.len() && owner_of(events, owners, at) == a {
        reserve(order, 1)?;
        order.push_reserved(at);
        at = following[at];
    }
    Ok(at)
}

/// Lists the transactions of the events one after another, each time the least one that is ready.
fn list_all(alloc: Global, events: &[Event]) -> Result<Vec<usize>, CertFault>
    ensures order { IfOk result (λ order. IsSerialOrder events.now order.items) }
    ensures fault { IfErr result (IsOrderFault events.now) }
{
    let owners = owners_of(alloc, events)?;
    let counts = counts_of(events);
    let mut threads = Threads::new(alloc, events, counts)?;
    let mut links = links_of(alloc, events, &owners, counts)?;
    let mut listed = filled(alloc, false, events.len())?;
    let mut order = with_capacity(alloc, events.len())?;
    'rounds: loop {
        match next_ready(events, &listed, &mut links, &threads.fronts) {
            Next::Ready(a) => {
                listed[a] = true;
                let thread = events[a].thread.0 as usize;
                threads.fronts[thread] = append_positions(
                    events,
                    &owners,
                    &threads.following,
                    a,
                    &mut order,
                )?;
            }
            Next::Stuck => return Err(CertFault::HasCycle),
            Next::Done => return Ok(order),
        }
    }
}

/// A serial reordering of the trace: its transactions one after another, each time the least of
/// those whose predecessors are all listed, the positions of each rising.
///
/// # Errors
/// `HasCycle` where the trace has a cycle, and `Memory` if an allocation failed. A trace with a
/// cycle has no serial order.
pub fn serial_order(alloc: Global, trace: &Trace) -> Result<Vec<usize>, CertFault>
    ensures order { IfOk result (λ order. IsSerialOrder trace.now.events order.items) }
    ensures acyclic { OnOk result (¬ HasCycle trace.now.events) }
    ensures fault { IfErr result (IsOrderFault trace.now.events) }
    // Law: every reordering of a well-formed trace is well-formed.
    ensures well_formed { (bounds : Bounds) (order : List ℕ) → IsWellFormed bounds trace.now.events
        → IsReordering trace.now.events order
        → IsWellFormed bounds (events_in_order trace.now.events order) }
    // Law: every reordering of a trace leaves the same heap, so a serial order does what the trace does.
    ensures same_heap { (order : List ℕ) → IsReordering trace.now.events order
        → LeavesSameHeap trace.now.events (events_in_order trace.now.events order) }
{
    list_all(alloc, trace.as_slice())
}
