//! Reading a log, and thinning it.
ghost use Rattle.std.specs.Prelude.{◌≡◌, ◌≤◌, false, length, IfOk, IfErr, OnOk};
ghost use Rattle.velo_events.specs.declared.limits.TheConstants.{MAX_EVENTS};
ghost use Rattle.velo_events.specs.WellFormed.{IsWellFormed};
ghost use Rattle.velo_filter.specs.Tables.{left_of};
ghost use Rattle.velo_logtext.specs.Text.{AreBounds};
ghost use Rattle.velo_thinning.specs.Reading.{IsThinning, IsFaultOfEvents, IsThinningOf, IsFaultOf, failures_by};

use crate::counting::count_variables;
use crate::judging::first_flaw;
use crate::outcome::ThinnedLog;
use crate::thinning::thin_rest;
use std::alloc::Global;
use thiserror::Error;
use velo_bytes::Source;
use velo_events::{Bounds, Config, MAX_EVENTS, MAX_NODES, Memory, Refusal};
use velo_filter::LeftOut;
use velo_logtext::{LogFault, read_log};
use velo_traces::{Flaw, Trace};

/// Why a log was not thinned. Positions count the events from 0.
#[derive(Clone, Copy, Debug, PartialEq, Eq, Error)]
pub enum ThinFault {
    /// The log could not be read.
    #[error(transparent)]
    Log(LogFault),
    /// The event at the position is refused.
    #[error("refused {} at {position}", *.refusal as u8)]
    Refused { position: usize, refusal: Refusal },
    /// The event at the position reads a value that the variable does not have.
    #[error("wrong value at {position}")]
    WrongValue { position: usize },
    /// A growth was refused.
    #[error("out of memory")]
    Memory,
}

/// The configuration of a log with these bounds. Its limits serve for any log.
fn config_of(bounds: Bounds) -> Config
    requires { AreBounds bounds }
    ensures { result.bounds ≡ bounds }
{
    match Config::new(0, bounds, MAX_EVENTS, MAX_NODES, false) {
        Ok(config) => config,
        Err(_) => unreachable!(),
    }
}

/// Thins a log that can come about without what is left out of it, and counts.
///
/// # Errors
/// `Memory` where a growth was refused.
fn thin_counted(
    alloc: Global,
    config: &Config,
    log: &Trace,
    omitted: &LeftOut,
) -> Result<ThinnedLog, Memory>
    requires few_variables { config.now.bounds.variables ≤ 65535 }
    requires few { length log.now.events ≤ MAX_EVENTS }
    requires well_formed { IsWellFormed config.now.bounds log.now.events }
    ensures { IfOk result (IsThinning config.now.bounds (left_of omitted.now) log.now.events) }
{
    let variables = count_variables(alloc, log.as_slice())?;
    let left = thin_rest(alloc, config, log, omitted)?;
    let variables_left = count_variables(alloc, left.trace.as_slice())?;
    Ok(ThinnedLog {
        config: *config,
        left,
        events: log.len(),
        variables,
        variables_left,
    })
}

/// Thins a log without what is left out of it, if its events can come about.
///
/// # Errors
/// `Refused` or `WrongValue` at the first event that can't come about; `Memory` where a growth was refused.
fn thinned_log(
    alloc: Global,
    bounds: Bounds,
    log: &Trace,
    omitted: &LeftOut,
) -> Result<ThinnedLog, ThinFault>
    requires bounds { AreBounds bounds }
    requires few { length log.now.events ≤ MAX_EVENTS }
    ensures ok { IfOk result (IsThinning bounds (left_of omitted.now) log.now.events) }
    ensures fault { IfErr result (IsFaultOfEvents bounds log.now.events) }
{
    let config = config_of(bounds);
    match first_flaw(alloc, &config, log) {
        Ok(None) => {}
        Ok(Some((position, Flaw::Refused(refusal)))) => {
            return Err(ThinFault::Refused { position, refusal });
        }
        Ok(Some((position, Flaw::WrongValue))) => return Err(ThinFault::WrongValue { position }),
        Err(Memory) => return Err(ThinFault::Memory),
    }
    match thin_counted(alloc, &config, log, omitted) {
        Ok(thinned) => Ok(thinned),
        Err(Memory) => Err(ThinFault::Memory),
    }
}

/// Reads a whole log, and thins it without what is left out of it, if its events can come about.
///
/// # Errors
/// `Log` where the log could not be read; `Refused` or `WrongValue` at the first event that can't come about; `Memory` where a
/// growth was refused.
pub fn read_thinned<I: Source>(
    alloc: Global,
    source: &mut I,
    omitted: &LeftOut,
) -> Result<ThinnedLog, ThinFault>
    ensures ok { IfOk result (IsThinningOf (left_of omitted.now) (I.remaining source.old)) }
    ensures fault { IfErr result (IsFaultOf (I.remaining source.old)) }
    ensures failures { I.failures source.new ≡ failures_by result (I.failures source.old) }
{
    let (bounds, log) = match read_log(alloc, source) {
        Ok(read) => read,
        Err(fault) => return Err(ThinFault::Log(fault)),
    };
    match thinned_log(alloc, bounds, &log, omitted) {
        Ok(thinned) => Ok(thinned),
        Err(fault) => Err(fault),
    }
}
