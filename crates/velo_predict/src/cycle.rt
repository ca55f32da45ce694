//! Whether a trace is a prediction with a cycle.
ghost use Rattle.std.specs.Prelude.{◌≡◌, ◌≤◌, ◌↔◌, length, take, IsTrue, IfNone, IfOk, IfSome};
ghost use Rattle.velo_events.specs.Graph.{HasCycle, IsClosing};
ghost use Rattle.velo_predict.specs.Predictions.{PredictsCycle};

use crate::is_prediction;
use std::alloc::Global;
use velo_certify::{CertFault, serial_order};
use velo_events::{Config, Memory};
use velo_traces::Trace;

/// Whether the trace has a cycle.
fn has_cycle(alloc: Global, trace: &Trace) -> Result<bool, Memory>
    ensures { IfOk result (λ cyclic. IsTrue cyclic ↔ HasCycle trace.now.events) }
{
    match serial_order(alloc, trace) {
        Ok(_order) => Ok(false),
        Err(CertFault::HasCycle) => Ok(true),
        Err(CertFault::Memory) => Err(Memory),
        Err(CertFault::NoCycle | CertFault::NotThere) => unreachable!(),
    }
}

/// The first events of a trace.
fn first_events(alloc: Global, trace: &Trace, count: usize) -> Result<Trace, Memory>
    requires { count ≤ length trace.now.events }
    ensures { IfOk result (λ first. first.events ≡ take count trace.now.events) }
{
    let mut first = Trace::new(alloc);
    for event in &trace.as_slice()[..count] {
        first.push(*event)?;
    }
    Ok(first)
}

/// The position of the first event that closes a cycle, by halving.
fn closing_in(alloc: Global, trace: &Trace) -> Result<Option<usize>, Memory>
    ensures some { IfOk result (λ found. IfSome found (IsClosing trace.now.events)) }
    ensures cyclic { IfOk result (λ found. IfSome found (λ position. HasCycle trace.now.events)) }
    ensures none { IfOk result (λ found. IfNone found (¬ HasCycle trace.now.events)) }
{
    if !has_cycle(alloc, trace)? {
        return Ok(None);
    }
    let mut without = 0;
    let mut with = trace.len();
    while with - without > 1 {
        let middle = without + (with - without) / 2;
        let first = first_events(alloc, trace, middle)?;
        if has_cycle(alloc, &first)? {
            with = middle;
        } else {
            without = middle;
        }
    }
    Ok(Some(without))
}

/// The position in the trace of the first event that closes a cycle, if the log foretells the trace within the bounds of the
/// configuration, and the trace has a cycle.
///
/// # Errors
/// `Memory` where a growth was refused.
pub fn predicts_cycle(
    alloc: Global,
    config: &Config,
    log: &Trace,
    trace: &Trace,
) -> Result<Option<usize>, Memory>
    ensures foretold { IfOk result (λ found. IfSome found (λ position. PredictsCycle config.now.bounds log.now.events trace.now.events)) }
    ensures first { IfOk result (λ found. IfSome found (IsClosing trace.now.events)) }
    ensures not_foretold { IfOk result (λ found. IfNone found (¬ PredictsCycle config.now.bounds log.now.events trace.now.events)) }
{
    if !is_prediction(alloc, config, log, trace)? {
        return Ok(None);
    }
    closing_in(alloc, trace)
}
