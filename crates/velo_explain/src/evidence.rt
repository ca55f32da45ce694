//! The evidence of an explanation: a cycle with its events, and the blocks to blame, each with an
//! event that parts it.
ghost use Rattle.std.specs.Prelude.{◌≡◌, ◌<◌, length, take, IfOk, IfErr};
ghost use Rattle.velo_events.specs.Graph.{HasCycle};
ghost use Rattle.velo_certify.specs.Cycle.{IsCycleFault};
ghost use Rattle.velo_explain.specs.Evidence.{AreBlames, IsEvidence, IsWithin, HaveReasons};

use crate::spans::{Span, spans_of};
use std::alloc::Global;
use velo_certify::{CertFault, EdgeEvents, cycle_of, edge_events_of, witness_of};
use velo_events::Memory;
use velo_events::growth::with_capacity;
use velo_traces::{Block, Trace};

/// A block to blame, and why.
#[derive(Clone, Copy, PartialEq, Eq)]
pub struct Blame {
    /// The block.
    pub block: Block,
    /// The position of an event of another thread that happens after the block's begin and
    /// conflicts with the closing event.
    pub witness: usize,
}

/// The evidence of an explanation.
#[derive(Drop)]
pub struct Evidence {
    /// The transactions of a cycle in its order, that of the closing event first.
    pub spans: Vec<Span>,
    /// For each of them the two events of its edge to the next one; the last one's leads to the
    /// first.
    pub edges: Vec<EdgeEvents>,
    /// The blocks to blame.
    pub blames: Vec<Blame>,
}

/// Of the blocks those that have a witness, each with the first one.
fn blames_of(
    alloc: Global,
    trace: &Trace,
    position: usize,
    blamed: &[Block],
) -> Result<Vec<Blame>, Memory>
    requires { position < length trace.now.events }
    ensures { IfOk result (λ blames. AreBlames trace.now.events position blamed.now blames.items) }
{
    let mut blames = with_capacity(alloc, blamed.len())?;
    for k in 0..blamed.len() {
        let block = blamed[k];
        if let Some(witness) = witness_of(alloc, trace, block.first, position)? {
            blames.push_reserved(Blame { block, witness });
        }
    }
    Ok(blames)
}

/// What explains an alarm: a shortest cycle of the events up to the position, from the position's
/// transaction on, with the events of its edges; and of the blocks to blame those that an event of
/// another thread parts, each with this event.
///
/// # Errors
/// As `cycle_of`: `NotThere` where there is no such position, `NoCycle` where no cycle contains its
/// transaction, and `Memory` if an allocation failed.
pub fn evidence_of(
    alloc: Global,
    trace: &Trace,
    position: usize,
    blamed: &[Block],
) -> Result<Evidence, CertFault>
    ensures evidence { IfOk result (λ evidence. IsEvidence trace.now.events position blamed.now evidence) }
    ensures within { IfOk result (λ evidence. IsWithin (length trace.now.events) position evidence) }
    // Where the events before the position have no cycle, no block that is to blame is left out.
    ensures reasons { IfOk result (λ evidence. ¬ HasCycle (take position trace.now.events) → HaveReasons trace.now.events position blamed.now evidence) }
    ensures fault { IfErr result (IsCycleFault trace.now.events position) }
{
    let cycle = cycle_of(alloc, trace, position)?;
    let spans = spans_of(alloc, trace, position, &cycle)?;
    let edges = edge_events_of(alloc, trace, position, &cycle)?;
    let blames = blames_of(alloc, trace, position, blamed)?;
    Ok(Evidence {
        spans,
        edges,
        blames,
    })
}
