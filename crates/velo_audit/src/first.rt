//! The first alarm of what is left of a log.
ghost use Rattle.std.specs.Prelude.{◌≡◌, ◌≤◌, false, length, IfErr, IfOk};
ghost use Rattle.velo_events.specs.WellFormed.{IsWellFormed};
ghost use Rattle.velo_audit.specs.Audit.{IsRoundFault};
ghost use Rattle.velo_audit.specs.Witness.{IsFirstAlarm};
ghost use Rattle.velo_filter.specs.Tables.{left_of};

use crate::cut::Cut;
use crate::round::{AuditFault, round};
use crate::told::Told;
use std::alloc::Global;
use velo_events::Config;
use velo_explain::Evidence;
use velo_filter::LeftOut;
use velo_traces::Trace;

/// An alarm, and what explains it. All positions are those of the log as read.
#[derive(Drop)]
pub struct FirstAlarm {
    /// Of the event that closes the cycle.
    pub position: usize,
    /// What explains it there.
    pub evidence: Evidence,
}

/// The first alarm of what is left of a log that can happen, within its limits; none where what is left
/// has no cycle. The configuration has to go on after an alarm.
///
/// # Errors
/// `GraphFull` where the graph of what is left needs more nodes than there may be, `Memory` where a
/// growth was refused.
pub fn first_alarm(
    alloc: Global,
    config: &Config,
    log: &Trace,
    left: &LeftOut,
) -> Result<Option<FirstAlarm>, AuditFault>
    requires goes_on { config.now.stop ≡ false }
    requires short { length log.now.events ≤ config.now.events }
    requires well_formed { IsWellFormed config.now.bounds log.now.events }
    ensures first { IfOk result (IsFirstAlarm log.now.events (left_of left.now)) }
    ensures fault { IfErr result (IsRoundFault config.now log.now.events (left_of left.now)) }
{
    let mut cut = Cut::at_start(alloc)?;
    let Some(told) = round(alloc, config, log, left, &mut cut, true)? else {
        return Ok(None);
    };
    let Told {
        closing,
        witness,
        ..
    } = told;
    match witness {
        Some(evidence) => Ok(Some(FirstAlarm {
            position: closing,
            evidence,
        })),
        None => unreachable!(),
    }
}
