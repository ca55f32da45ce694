//! Where the transactions of a cycle begin and end.
ghost use Rattle.std.specs.Prelude.{◌≡◌, ◌<◌, ◌+◌, length, take, IfOk};
ghost use Rattle.velo_events.specs.Block.{IsTransaction};
ghost use Rattle.velo_certify.specs.Shortest.{IsCycleAt};
ghost use Rattle.velo_certify.specs.Owners.{AreOwners};
ghost use Rattle.velo_explain.specs.Spans.{IsSpan, AreSpans, AreTransactions};

use std::alloc::Global;
use velo_certify::owners_of;
use velo_events::growth::with_capacity;
use velo_events::{Event, Memory};
use velo_traces::Trace;

/// The first and the last position of a transaction.
#[derive(Clone, Copy, PartialEq, Eq)]
pub struct Span {
    /// The first position.
    pub first: usize,
    /// The last position.
    pub last: usize,
}

/// The span of a transaction.
fn span_of(events: &[Event], owners: &[usize], transaction: usize) -> Span
    requires owners { AreOwners owners.now events.now }
    requires transaction { IsTransaction events.now transaction }
    ensures { IsSpan events.now transaction result }
{
    let mut last = transaction;
    for at in transaction..events.len() {
        if owners[at] == transaction {
            last = at;
        }
    }
    Span {
        first: transaction,
        last,
    }
}

/// The spans of some transactions.
fn all_spans(alloc: Global, events: &[Event], cycle: &[usize]) -> Result<Vec<Span>, Memory>
    requires { AreTransactions events.now cycle.now }
    ensures { IfOk result (λ spans. AreSpans events.now cycle.now spans.items) }
{
    let owners = owners_of(alloc, events)?;
    let mut spans = with_capacity(alloc, cycle.len())?;
    for k in 0..cycle.len() {
        spans.push_reserved(span_of(events, &owners, cycle[k]));
    }
    Ok(spans)
}

/// The spans of the transactions of a cycle in the events up to the position.
///
/// # Errors
/// `Memory` if an allocation failed.
pub(crate) fn spans_of(
    alloc: Global,
    trace: &Trace,
    position: usize,
    cycle: &[usize],
) -> Result<Vec<Span>, Memory>
    requires { IsCycleAt trace.now.events position cycle.now }
    ensures { IfOk result (λ spans. AreSpans (take (position + 1) trace.now.events) cycle.now spans.items) }
{
    let events = trace.as_slice();
    all_spans(alloc, &events[..position + 1], cycle)
}
