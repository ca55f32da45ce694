//! What the log of a closed world shows: its verdict, its report, and the certificate after it.
ghost use Rattle.std.specs.Prelude.{◌≡◌, IfOk, IfSome, is_some};
ghost use Rattle.velo_events.specs.Certificate.{IsSerialOrder};
ghost use Rattle.velo_certify.specs.Shortest.{IsShortestCycleAt};
ghost use Rattle.velo_events.specs.Graph.{HasCycle, IsClosing};
ghost use Rattle.velo_check.specs.Verdict.{IsOrderOrCycle, IsVerdict, WritesOutput, is_alarm, KnowsAlarm};
ghost use Rattle.velo_check.specs.Writing.{writing};

use std::alloc::Global;
use velo_bytes::{Sink, WriteFault};
use velo_certify::{CertFault, cycle_of, serial_order};
use velo_events::Memory;
use velo_report::{Names, certificate_lines, report};
use velo_traces::Trace;
use velo_world::Closed;

/// What a log shows.
#[derive(Clone, Copy, PartialEq, Eq)]
pub enum Verdict {
    /// Its atomic blocks can be serialized.
    Clean,
    /// They cannot be.
    Alarm,
}

/// Whether a verdict is an alarm.
pub fn is_alarm(verdict: Verdict) -> bool
    ensures { result ≡ is_alarm verdict }
{
    verdict == Verdict::Alarm
}

/// What the log of a closed world shows.
pub fn verdict_of(closed: &Closed) -> Verdict
    ensures verdict { IsVerdict closed.now.log result }
    ensures alarm { KnowsAlarm closed.now.log }
{
    match closed.alarm() {
        Some(_) => Verdict::Alarm,
        None => Verdict::Clean,
    }
}

/// The serial order of a log without a cycle.
fn order_of(alloc: Global, log: &Trace) -> Result<Vec<usize>, Memory>
    requires { ¬ HasCycle log.now.events }
    ensures { IfOk result (λ order. IsSerialOrder log.now.events order.items) }
{
    match serial_order(alloc, log) {
        Ok(order) => Ok(order),
        Err(CertFault::Memory) => Err(Memory),
        Err(_) => unreachable!(),
    }
}

/// A shortest cycle at the first event of a log that closes one.
fn cycle_at(alloc: Global, log: &Trace, position: usize) -> Result<Vec<usize>, Memory>
    requires { IsClosing log.now.events position }
    ensures { IfOk result (λ cycle. IsShortestCycleAt log.now.events position cycle.items) }
{
    match cycle_of(alloc, log, position) {
        Ok(cycle) => Ok(cycle),
        Err(CertFault::Memory) => Err(Memory),
        Err(CertFault::NoCycle) => unreachable!(),
        Err(CertFault::HasCycle | CertFault::NotThere) => unreachable!(),
    }
}

/// What certifies the verdict of a closed world: the serial order of its log, or with an alarm a
/// shortest cycle at its position.
///
/// # Errors
/// `Memory` if an allocation failed.
pub fn order_or_cycle_of(alloc: Global, closed: &Closed) -> Result<Vec<usize>, Memory>
    ensures { IfOk result (λ list. IsOrderOrCycle closed.now.log list.items) }
{
    match closed.alarm() {
        Some(alarm) => cycle_at(alloc, closed.log(), alarm.position),
        None => order_of(alloc, closed.log()),
    }
}

/// Writes the report of a closed world, and after it the certificate of its verdict, if there is an
/// order or a cycle, which has to be that of the world's log.
///
/// # Errors
/// `WriteFault` where the sink failed; a beginning of the report, or of the certificate after it,
/// was written.
pub fn write_output<O: Sink>(
    closed: &Closed,
    names: &Names,
    list: Option<&[usize]>,
    sink: &mut O,
) -> Result<(), WriteFault>
    requires { IfSome list (λ list. IsOrderOrCycle closed.now.log list.now) }
    ensures { WritesOutput names.now (is_some list.entry) closed.now
        (writing O.contents O.failures sink.old sink.new) result }
{
    match report(closed, names, sink) {
        Ok(()) => {}
        Err(fault) => return Err(fault),
    }
    match list {
        Some(list) => certificate_lines(closed, list, sink),
        None => Ok(()),
    }
}
