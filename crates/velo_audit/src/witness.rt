//! The witness of a round.
ghost use Rattle.std.specs.Prelude.{◌≡◌, ◌≤◌, ◌<◌, length, map, slice_index, IfOk};
ghost use Rattle.velo_explain.specs.Evidence.{AreSpansWithin, AreEdgesWithin, AreBlamesWithin, IsWithin};
ghost use Rattle.velo_world.specs.World.{IsAlarm};
ghost use Rattle.velo_audit.specs.Witness.{span_as_read, edge_as_read, block_as_read, blame_as_read, IsAsRead, IsEvidenceOf};

use std::alloc::Global;
use velo_certify::{CertFault, EdgeEvents};
use velo_events::Memory;
use velo_events::growth::with_capacity;
use velo_explain::{Blame, Evidence, Span, evidence_of};
use velo_traces::{Block, Trace};
use velo_world::Alarm;

/// What explains the alarm of a trace, by the places for which the positions of the trace stand.
///
/// # Errors
/// `Memory` where a growth was refused.
pub(crate) fn witness_of(
    alloc: Global,
    what: &Trace,
    places: &[u32],
    alarm: &Alarm,
) -> Result<Evidence, Memory>
    requires alarm { IsAlarm what.now.events alarm.now }
    requires as_many { length places.now ≡ length what.now.events }
    ensures { IfOk result (λ evidence. IsEvidenceOf what.now.events places.now alarm.now evidence) }
{
    match evidence_of(alloc, what, alarm.position, alarm.blamed.as_slice()) {
        Ok(inside) => evidence_as_read(alloc, places, &inside),
        Err(CertFault::Memory) => Err(Memory),
        Err(CertFault::NoCycle) => unreachable!(),
        Err(CertFault::HasCycle | CertFault::NotThere) => unreachable!(),
    }
}

/// The same evidence, by the places for which its positions stand.
fn evidence_as_read(alloc: Global, places: &[u32], inside: &Evidence) -> Result<Evidence, Memory>
    requires spans { AreSpansWithin (length places.now) inside.now.spans.items }
    requires edges { AreEdgesWithin (length places.now) inside.now.edges.items }
    requires blames { AreBlamesWithin (length places.now) inside.now.blames.items }
    ensures { IfOk result (λ evidence. IsAsRead (slice_index places.now) inside.now evidence) }
{
    let spans = spans_as_read(alloc, places, &inside.spans)?;
    let edges = edges_as_read(alloc, places, &inside.edges)?;
    let blames = blames_as_read(alloc, places, &inside.blames)?;
    Ok(Evidence {
        spans,
        edges,
        blames,
    })
}

/// Transactions, by the places for which their positions stand.
fn spans_as_read(alloc: Global, places: &[u32], spans: &[Span]) -> Result<Vec<Span>, Memory>
    requires within { AreSpansWithin (length places.now) spans.now }
    ensures { IfOk result (λ read. read.items ≡ map (span_as_read (slice_index places.now)) spans.now) }
{
    let mut read = with_capacity(alloc, spans.len())?;
    for k in 0..spans.len() {
        let span = spans[k];
        read.push_reserved(Span {
            first: place_at(places, span.first),
            last: place_at(places, span.last),
        });
    }
    Ok(read)
}

/// Edges, by the places for which their positions stand.
fn edges_as_read(
    alloc: Global,
    places: &[u32],
    edges: &[EdgeEvents],
) -> Result<Vec<EdgeEvents>, Memory>
    requires within { AreEdgesWithin (length places.now) edges.now }
    ensures { IfOk result (λ read. read.items ≡ map (edge_as_read (slice_index places.now)) edges.now) }
{
    let mut read = with_capacity(alloc, edges.len())?;
    for k in 0..edges.len() {
        let edge = edges[k];
        read.push_reserved(EdgeEvents {
            from: place_at(places, edge.from),
            to: place_at(places, edge.to),
        });
    }
    Ok(read)
}

/// Blocks to blame, by the places for which their positions stand.
fn blames_as_read(alloc: Global, places: &[u32], blames: &[Blame]) -> Result<Vec<Blame>, Memory>
    requires within { AreBlamesWithin (length places.now) blames.now }
    ensures { IfOk result (λ read. read.items ≡ map (blame_as_read (slice_index places.now)) blames.now) }
{
    let mut read = with_capacity(alloc, blames.len())?;
    for k in 0..blames.len() {
        let blame = blames[k];
        read.push_reserved(Blame {
            block: block_as_read(places, blame.block),
            witness: place_at(places, blame.witness),
        });
    }
    Ok(read)
}

/// A block, by the place for which its begin stands.
pub(crate) fn block_as_read(places: &[u32], block: Block) -> Block
    requires { block.first < length places.now }
    ensures { result ≡ block_as_read (slice_index places.now) block }
{
    Block {
        first: place_at(places, block.first),
        label: block.label,
    }
}

/// The position for which one of the rest stands.
#[inline]
pub(crate) fn place_at(places: &[u32], position: usize) -> usize
    requires { position < length places.now }
    ensures { result ≡ slice_index places.now position }
{
    places[position] as usize
}
