//! A trace that was found, judged.
ghost use Rattle.std.specs.Prelude.{◌≡◌, ◌≤◌, ◌<◌, false, true, length, map, slice_index, All, IfOk, IfSome, IsTrue};
ghost use Rattle.velo_events.specs.Event.{value_of};
ghost use Rattle.velo_events.specs.WellFormed.{IsWellFormed};
ghost use Rattle.velo_filter.specs.Left.{nothing};
ghost use Rattle.velo_audit.specs.Audit.{TellsTruly};
ghost use Rattle.velo_audit.specs.Rounds.{IsRound};
ghost use Rattle.velo_audit.specs.Tells.{numbers_of};
ghost use Rattle.velo_audit.specs.Witness.{HasWitness};
ghost use Rattle.velo_delays.specs.Differing.{differing_of, AreDiffering};
ghost use Rattle.velo_delays.specs.Found.{IsFound};

use crate::sources::sources_as_read;
use std::alloc::Global;
use velo_audit::{AuditFault, Told, audit};
use velo_events::growth::with_capacity;
use velo_events::{Config, Event, Kind, Memory};
use velo_filter::{LeftOut, Thinned};
use velo_predict::{Difference, differing_reads, predicts_cycle};
use velo_traces::Trace;

/// A read that has another value than in the log.
#[derive(Clone, Copy, PartialEq, Eq)]
pub struct Differing {
    /// Its position in the trace.
    pub position: usize,
    /// What it read in the log.
    pub recorded: u64,
}

/// A prediction of a log with a cycle.
#[derive(Drop)]
pub struct PredictedCycle {
    /// Its events.
    pub trace: Trace,
    /// What an audit of it tells first: its closing event, the blocks to blame, and why.
    pub told: Told,
    /// The reads that have another value than in the log.
    pub differing: Vec<Differing>,
    /// For each event the position in the log as read, if it is one of that log.
    pub sources: Vec<Option<usize>>,
}

/// What an audit of the trace tells first, if it blames a block.
fn told_of(alloc: Global, config: &Config, trace: &Trace) -> Result<Option<Told>, Memory>
    requires goes_on { config.now.stop ≡ false }
    requires short { length trace.now.events ≤ config.now.events }
    requires well_formed { IsWellFormed config.now.bounds trace.now.events }
    ensures first { IfOk result (λ told. IfSome told (λ told. IsRound trace.now.events nothing (numbers_of told))) }
    ensures to_blame { IfOk result (λ told. IfSome told (λ told. IsTrue told.to_blame)) }
    ensures truly { IfOk result (λ told. IfSome told (λ told. TellsTruly trace.now.events told)) }
    ensures witness { IfOk result (λ told. IfSome told (λ told. HasWitness true trace.now.events nothing told.closing told.witness)) }
{
    match audit(alloc, config, trace, &mut LeftOut::new(alloc), true) {
        Ok(mut rounds) if !rounds.is_empty() && rounds[0].to_blame => {
            Ok(Some(rounds.swap_remove(0)))
        }
        Ok(_) => Ok(None),
        Err(AuditFault::Memory) => Err(Memory),
        Err(AuditFault::GraphFull { .. }) => Ok(None),
    }
}

/// The value that the operation reads or writes, or 0.
fn value_of(kind: Kind) -> u64
    ensures { result ≡ value_of kind }
{
    match kind {
        Kind::Read(_, value) | Kind::Write(_, value) => value,
        _ => 0,
    }
}

/// Each read with what it read in the log.
fn as_recorded(
    alloc: Global,
    log: &[Event],
    differences: &[Difference],
) -> Result<Vec<Differing>, Memory>
    requires { All (λ d. d.recorded < length log.now) differences.now }
    ensures { IfOk result (λ differing. differing.items ≡ map (differing_of log.now) differences.now) }
{
    let mut differing = with_capacity(alloc, differences.len())?;
    for difference in differences {
        differing.push_reserved(Differing {
            position: difference.position,
            recorded: value_of(log[difference.recorded].kind),
        });
    }
    Ok(differing)
}

/// The reads of a prediction that have another value than in the log, if it is one.
pub(crate) fn differing_of(
    alloc: Global,
    config: &Config,
    log: &Trace,
    trace: &Trace,
) -> Result<Option<Vec<Differing>>, Memory>
    ensures { IfOk result (λ found. IfSome found (λ differing. AreDiffering log.now.events trace.now.events differing.items)) }
{
    let found = differing_reads(alloc, config, log, trace)?;
    let Some(differences) = found else {
        return Ok(None);
    };
    let differing = as_recorded(alloc, log.as_slice(), &differences)?;
    Ok(Some(differing))
}

/// The trace with what is to be said of it, if it is a prediction of what is left of a log that has a cycle and some block is to blame.
///
/// # Errors
/// `Memory` where a growth was refused.
pub(crate) fn judge(
    alloc: Global,
    config: &Config,
    rest: &Thinned,
    trace: Trace,
) -> Result<Option<PredictedCycle>, Memory>
    requires goes_on { config.now.stop ≡ false }
    ensures { IfOk result (λ found. IfSome found (λ found. IsFound config.now.bounds
        rest.now.trace.events (slice_index rest.now.places.items) found)) }
{
    if trace.len() > config.events as usize {
        return Ok(None);
    }
    let cycle = predicts_cycle(alloc, config, &rest.trace, &trace)?;
    let Some(_closing) = cycle else {
        return Ok(None);
    };
    let reads = differing_of(alloc, config, &rest.trace, &trace)?;
    let Some(differing) = reads else {
        return Ok(None);
    };
    let round = told_of(alloc, config, &trace)?;
    let Some(told) = round else {
        return Ok(None);
    };
    let sources = sources_as_read(alloc, rest, &trace)?;
    Ok(Some(PredictedCycle {
        trace,
        told,
        differing,
        sources,
    }))
}
