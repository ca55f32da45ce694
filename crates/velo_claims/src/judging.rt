//! Whether the certificate of a report bears out what it claims of a log.
ghost use Rattle.std.specs.Prelude.{◌≡◌, ◌↔◌, None, Some, IfOk, IsTrue, length};
ghost use Rattle.velo_claims.specs.Judging.{IsBorneOut, IsOutcome, is_verified, refuted_by};

use crate::claim::{Claim, ClaimedAlarm};
use std::alloc::Global;
use velo_certify::{check_cycle, check_order};
use velo_events::Memory;
use velo_traces::Trace;

/// Why a certificate does not bear out what a report claims.
#[derive(Clone, Copy, PartialEq, Eq)]
pub enum Reason {
    /// The report is of a log with another number of events.
    OtherEvents,
    /// The report has no certificate.
    NoCertificate,
    /// The lines of the certificate are no serial reordering of the log.
    WrongOrder,
    /// The line of the certificate is no shortest cycle of the events up to the alarm that begins
    /// with the transaction there.
    WrongCycle,
    /// The transaction of the alarm is another one.
    WrongTransaction,
}

/// What became of a claim.
#[derive(Clone, Copy, PartialEq, Eq)]
pub enum Outcome {
    /// The log has no cycle, as claimed.
    Clean,
    /// The events up to this position have a cycle through the transaction there, as claimed.
    Alarm(usize),
    /// The claim is not borne out.
    Refuted(Reason),
}

/// Whether the claim is borne out.
pub fn is_verified(outcome: Outcome) -> bool
    ensures { result ≡ is_verified outcome }
{
    !matches!(outcome, Outcome::Refuted(_))
}

/// What becomes of a claim whose certificate is wrong for this reason, or is not there.
fn refuted_by(certificate: &[usize], reason: Reason) -> Outcome
    ensures { result ≡ refuted_by certificate.now reason }
{
    if certificate.is_empty() {
        Outcome::Refuted(Reason::NoCertificate)
    } else {
        Outcome::Refuted(reason)
    }
}

/// What becomes of a claim without an alarm.
fn judge_order(alloc: Global, log: &Trace, claim: &Claim) -> Result<Outcome, Memory>
    requires events { claim.now.events ≡ length log.now.events }
    requires no_alarm { claim.now.alarm ≡ None }
    ensures { IfOk result (IsOutcome log.now.events claim.now) }
{
    let order = claim.certificate();
    if check_order(alloc, log, order)? {
        return Ok(Outcome::Clean);
    }
    Ok(refuted_by(order, Reason::WrongOrder))
}

/// What becomes of a claim with this alarm.
fn judge_cycle(
    alloc: Global,
    log: &Trace,
    claim: &Claim,
    alarm: ClaimedAlarm,
) -> Result<Outcome, Memory>
    requires events { claim.now.events ≡ length log.now.events }
    requires alarm { claim.now.alarm ≡ Some alarm }
    ensures { IfOk result (IsOutcome log.now.events claim.now) }
{
    let cycle = claim.certificate();
    if !check_cycle(alloc, log, alarm.position, cycle)? {
        return Ok(refuted_by(cycle, Reason::WrongCycle));
    }
    if cycle.first() != Some(&alarm.transaction) {
        return Ok(Outcome::Refuted(Reason::WrongTransaction));
    }
    Ok(Outcome::Alarm(alarm.position))
}

/// Judges what a report claims of a log by its certificate. It trusts nobody: any claim and any log
/// may be given.
///
/// # Errors
/// `Memory` if an allocation failed.
pub fn judge(alloc: Global, log: &Trace, claim: &Claim) -> Result<Outcome, Memory>
    ensures outcome { IfOk result (IsOutcome log.now.events claim.now) }
    ensures verified { IfOk result (λ outcome.
        IsTrue (is_verified outcome) ↔ IsBorneOut log.now.events claim.now) }
{
    if claim.events() != log.len() {
        return Ok(Outcome::Refuted(Reason::OtherEvents));
    }
    match claim.alarm() {
        Some(alarm) => judge_cycle(alloc, log, claim, alarm),
        None => judge_order(alloc, log, claim),
    }
}
