//! The world of the log that a command reads.
ghost use Rattle.std.specs.Prelude.{◌≡◌, ◌≤◌, false, IfOk, IfErr, OnOk, length};
ghost use Rattle.velo_events.specs.WellFormed.{IsWellFormed};
ghost use Rattle.velo_events.specs.declared.limits.TheConstants.{MAX_EVENTS, MAX_NODES};
ghost use Rattle.velo_logtext.specs.Text.{AreBounds};
ghost use Rattle.velo_world.specs.Faults.{world_of};
ghost use Rattle.velo_check.specs.Input.{ComesAbout, IsFaultOfInput};
ghost use Rattle.velo_check.specs.Failures.{failures_told};
ghost use Rattle.velo_check.specs.Faults.{check_fault_of, IsFaultOfLog};
ghost use Rattle.velo_check.specs.declared.fate.Fate.TheVariants as fate;

use crate::fault::CheckFault;
use std::alloc::Global;
use velo_bytes::Source;
use velo_events::{Bounds, Config, Memory};
use velo_logtext::read_log;
use velo_traces::Trace;
use velo_world::{Closed, LogReplayFault};

/// The same fault of a check.
pub fn fault_of(fault: LogReplayFault) -> CheckFault
    ensures { result ≡ check_fault_of fault }
{
    match fault {
        LogReplayFault::Refused { position, refusal } => CheckFault::Refused { position, refusal },
        LogReplayFault::WrongValue { position } => CheckFault::WrongValue { position },
        LogReplayFault::Memory => CheckFault::Memory,
    }
}

/// The world of a log, in which all of its events happened again, after its end. The log becomes
/// the world's. The configuration has to go on after an alarm.
///
/// # Errors
/// `Refused` or `WrongValue` at the first event that cannot happen, by the rule of `check_run`;
/// `Memory` if an allocation failed.
pub fn do_log(alloc: Global, config: Config, log: Trace) -> Result<Closed, CheckFault>
    requires goes_on { config.stop ≡ false }
    ensures ok { IfOk result (λ closed. closed ≡ world_of config log.events) }
    ensures well_formed { IfOk result (λ closed. IsWellFormed closed.config.bounds closed.log) }
    ensures short { IfOk result (λ closed. length closed.log ≤ closed.config.events) }
    ensures err { IfErr result (λ fault. IsFaultOfLog config log.events fault) }
{
    match Closed::of_log(alloc, config, log) {
        Ok(closed) => {
            prove!(closed.log().len() <= config.events as usize);
            Ok(closed)
        }
        Err(fault) => Err(fault_of(fault)),
    }
}

/// The configuration of a check, which goes on after an alarm: the bounds of the log, the most
/// events that it may have, 1 to [`MAX_EVENTS`](velo_events::MAX_EVENTS), and the most nodes that
/// the graph may have at one time, 1 to [`MAX_NODES`](velo_events::MAX_NODES).
pub fn config_of(bounds: Bounds, events: u32, nodes: u16) -> Config
    requires bounds { AreBounds bounds }
    requires events { (1 ≤ events) × (events ≤ MAX_EVENTS) }
    requires nodes { (1 ≤ nodes) × (nodes ≤ MAX_NODES) }
    ensures bounds { result.bounds ≡ bounds }
    ensures events { result.events ≡ events }
    ensures nodes { result.nodes ≡ nodes }
    ensures goes_on { result.stop ≡ false }
{
    match Config::new(0, bounds, events, nodes, false) {
        Ok(config) => config,
        Err(_) => unreachable!(),
    }
}

/// The world of the log that a source gives, in which all of its events happened again, after its
/// end.
///
/// # Errors
/// As `check_run`, but for `Write`.
pub fn do_input<I: Source>(
    alloc: Global,
    source: &mut I,
    events: u32,
    nodes: u16,
) -> Result<Closed, CheckFault>
    requires events { (1 ≤ events) × (events ≤ MAX_EVENTS) }
    requires nodes { (1 ≤ nodes) × (nodes ≤ MAX_NODES) }
    ensures ok { IfOk result (λ closed. ComesAbout events (I.remaining source.old)
        closed.config.bounds closed.log) }
    ensures err { IfErr result (IsFaultOfInput events nodes (I.remaining source.old)) }
    ensures read { OnOk result (I.failures source.new ≡ I.failures source.old) }
    ensures failure { IfErr result (λ fault. I.failures source.new
        ≡ failures_told (fate.Check fault) (I.failures source.old)) }
{
    let (bounds, log) = match read_log(alloc, source) {
        Ok(read) => read,
        Err(fault) => return Err(CheckFault::Log(fault)),
    };
    match do_log(alloc, config_of(bounds, events, nodes), log) {
        Ok(closed) => Ok(closed),
        Err(fault) => Err(fault),
    }
}
