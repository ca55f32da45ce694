//! One round: the rest of a log is checked.
ghost use Rattle.std.specs.Prelude.{◌≡◌, ◌≢◌, ◌*◌, ◌≤◌, false, length, IfOk, IfErr, OnOk, OnErr};
ghost use Rattle.velo_events.specs.Refusals.{GrowthRefused};
ghost use Rattle.velo_events.specs.WellFormed.{IsWellFormed};
ghost use Rattle.velo_audit.specs.Audit.{RoundTells, IsRoundFault, CheckTells, IsCheckFault, out_of_memory};
ghost use Rattle.velo_audit.specs.Cut.{IsCut};
ghost use Rattle.velo_filter.specs.Tables.{left_of};
ghost use Rattle.velo_world.specs.Faults.{IsFaultOfLog};

use crate::cut::Cut;
use crate::pieces::{PiecesVerdict, by_pieces};
use crate::told::{Told, told_of};
use crate::witness::place_at;
use std::alloc::Global;
use thiserror::Error;
use velo_events::{Config, Memory, Refusal};
use velo_filter::{LeftOut, Thinned, thin};
use velo_traces::Trace;
use velo_world::{Closed, LogReplayFault};

/// How many nodes the graph of a round has at least, where there may be as many.
const FEW_NODES: u32 = 256;

/// Why a round could not be checked to its end.
#[derive(Clone, Copy, Debug, PartialEq, Eq, Error)]
pub enum AuditFault {
    /// A growth was refused.
    #[error("out of memory")]
    Memory,
    /// The event at this position of the log as read needs a node, and the graph of the rest is full.
    #[error("the graph of the rest is full")]
    GraphFull {
        /// The position.
        position: usize,
    },
}

impl From<Memory> for AuditFault {
    ghost use Rattle.std.specs.Prelude.{◌≡◌};
    ghost use Rattle.velo_audit.specs.Audit.{out_of_memory};

    ghost from_gives = { λ _ fault. fault ≡ out_of_memory };

    fn from(_refused: Memory) -> AuditFault {
        AuditFault::Memory
    }
}

/// Checks the rest of a log that can happen, within its limits, from the cut on. The configuration has to go on after an alarm.
/// Where a piece of the rest cannot be judged by itself, the whole rest is checked.
///
/// # Errors
/// `GraphFull` where the graph of the rest needs more nodes than there may be, `Memory` where a growth was refused.
pub fn round(
    alloc: Global,
    config: &Config,
    log: &Trace,
    left: &LeftOut,
    cut: &mut Cut,
    with_witness: bool,
) -> Result<Option<Told>, AuditFault>
    requires goes_on { config.now.stop ≡ false }
    requires short { length log.now.events ≤ config.now.events }
    requires well_formed { IsWellFormed config.now.bounds log.now.events }
    requires cut { IsCut (left_of left.now) log.now.events cut.old }
    ensures tells { IfOk result (RoundTells with_witness log.now.events (left_of left.now)) }
    ensures cut { OnOk result (IsCut (left_of left.now) log.now.events cut.new) }
    ensures fault { IfErr result (IsRoundFault config.now log.now.events (left_of left.now)) }
{
    match by_pieces(alloc, config, log, left, cut, with_witness)? {
        PiecesVerdict::Told(told) => Ok(Some(told)),
        PiecesVerdict::NoCycle => Ok(None),
        PiecesVerdict::Unknown => whole_round(alloc, config, log, left, with_witness),
    }
}

/// Checks the whole rest.
fn whole_round(
    alloc: Global,
    config: &Config,
    log: &Trace,
    left: &LeftOut,
    with_witness: bool,
) -> Result<Option<Told>, AuditFault>
    requires goes_on { config.now.stop ≡ false }
    requires short { length log.now.events ≤ config.now.events }
    requires well_formed { IsWellFormed config.now.bounds log.now.events }
    ensures tells { IfOk result (RoundTells with_witness log.now.events (left_of left.now)) }
    ensures fault { IfErr result (IsRoundFault config.now log.now.events (left_of left.now)) }
{
    match thin(alloc, log, left) {
        Ok(thinned) => check(alloc, config, thinned, with_witness),
        Err(Memory) => Err(AuditFault::Memory),
    }
}

/// Checks a trace, and reports its alarm by the places of its positions in the log.
fn check(
    alloc: Global,
    config: &Config,
    thinned: Thinned,
    with_witness: bool,
) -> Result<Option<Told>, AuditFault>
    requires goes_on { config.now.stop ≡ false }
    requires short { length thinned.trace.events ≤ config.now.events }
    requires well_formed { IsWellFormed config.now.bounds thinned.trace.events }
    requires as_many { length thinned.places.items ≡ length thinned.trace.events }
    ensures tells { IfOk result (CheckTells with_witness thinned.trace.events thinned.places.items) }
    ensures fault { IfErr result (IsCheckFault config.now thinned.trace.events thinned.places.items) }
{
    let Thinned { trace, places } = thinned;
    match replayed(alloc, config, trace) {
        Ok(closed) => tell(alloc, with_witness, closed, &places),
        Err(
            LogReplayFault::Refused {
                position,
                refusal: Refusal::GraphFull,
            },
        ) => Err(AuditFault::GraphFull {
            position: place_at(&places, position),
        }),
        Err(LogReplayFault::Memory) => Err(AuditFault::Memory),
        Err(_) => unreachable!(),
    }
}

/// The closed world of a recorded log, whose graph has no more nodes than a round has use for.
pub fn replayed(alloc: Global, config: &Config, log: Trace) -> Result<Closed, LogReplayFault>
    requires goes_on { config.now.stop ≡ false }
    ensures log { IfOk result (λ closed. closed.log ≡ log.events) }
    ensures fault { IfErr result (λ fault. IsFaultOfLog config.now log.events fault) }
{
    Closed::of_log(alloc, with_few_nodes(config), log)
}

/// The same, but for nodes that only make compactions rarer. As many as the threads squared are enough for any run. With four
/// times as many, most come free in each. Every round makes a new graph, so fewer nodes are soon made.
fn with_few_nodes(config: &Config) -> Config
    ensures bounds { result.bounds ≡ config.now.bounds }
    ensures events { result.events ≡ config.now.events }
    ensures stop { result.stop ≡ config.now.stop }
    ensures nodes { result.nodes ≢ config.now.nodes
        → config.now.bounds.threads * config.now.bounds.threads ≤ result.nodes }
{
    let threads = u32::from(config.bounds.threads);
    let enough = (4 * (threads * threads)).max(FEW_NODES);
    Config {
        run: config.run,
        bounds: config.bounds,
        events: config.events,
        nodes: enough.min(u32::from(config.nodes)) as u16,
        stop: config.stop,
    }
}

/// What is reported of a world's alarm, if it has one. The world is dropped.
fn tell(
    alloc: Global,
    with_witness: bool,
    closed: Closed,
    places: &[u32],
) -> Result<Option<Told>, AuditFault>
    requires { length places.now ≡ length closed.log }
    ensures tells { IfOk result (CheckTells with_witness closed.log places.now) }
    ensures fault { OnErr result GrowthRefused }
    ensures memory { IfErr result (λ fault. fault ≡ out_of_memory) }
{
    let told = told_in(alloc, with_witness, &closed, places);
    drop(closed);
    told
}

/// What is reported of a world's alarm, if it has one.
pub fn told_in(
    alloc: Global,
    with_witness: bool,
    closed: &Closed,
    places: &[u32],
) -> Result<Option<Told>, AuditFault>
    requires { length places.now ≡ length closed.now.log }
    ensures tells { IfOk result (CheckTells with_witness closed.now.log places.now) }
    ensures fault { OnErr result GrowthRefused }
    ensures memory { IfErr result (λ fault. fault ≡ out_of_memory) }
{
    let Some(alarm) = closed.alarm() else {
        return Ok(None);
    };
    match told_of(alloc, with_witness, closed.log(), places, alarm) {
        Ok(told) => Ok(Some(told)),
        Err(Memory) => Err(AuditFault::Memory),
    }
}
