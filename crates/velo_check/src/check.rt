//! A log is checked: its report, and the certificate of its verdict.
ghost use Rattle.std.specs.Prelude.{◌≡◌, ◌≤◌, IfSome, is_some};
ghost use Rattle.velo_events.specs.declared.limits.TheConstants.{MAX_EVENTS, MAX_NODES};
ghost use Rattle.velo_report.specs.declared.names.Names.TheVariants.{Numbers};
ghost use Rattle.velo_check.specs.Check.{Checks, fate_of};
ghost use Rattle.velo_check.specs.Verdict.{IsOrderOrCycle};
ghost use Rattle.velo_check.specs.Failures.{failures_told};
ghost use Rattle.velo_check.specs.Writing.{writing};
ghost use Rattle.velo_check.specs.Steps.{Shows};

use crate::failure::Operand;
use crate::fate::Fate;
use crate::fault::CheckFault;
use crate::files::Files;
use crate::input::do_input;
use crate::operands::open_input;
use crate::request::{CheckOptions, Limits};
use crate::verdict::{Verdict, is_alarm, order_or_cycle_of, verdict_of, write_output};
use std::alloc::Global;
use velo_bytes::{Sink, Source, WriteFault};
use velo_events::Memory;
use velo_report::Names;
use velo_worker::Ending;
use velo_world::Closed;

/// Writes what a closed world shows by the names, and returns its verdict.
fn show<O: Sink>(
    closed: &Closed,
    names: &Names,
    list: Option<&[usize]>,
    sink: &mut O,
) -> Result<Verdict, CheckFault>
    requires { IfSome list (λ list. IsOrderOrCycle closed.now.log list.now) }
    ensures { Shows names.now (is_some list.entry) closed.now
        (writing O.contents O.failures sink.old sink.new) result }
{
    let verdict = verdict_of(closed);
    match write_output(closed, names, list, sink) {
        Ok(()) => Ok(verdict),
        Err(WriteFault) => Err(CheckFault::Write),
    }
}

/// Writes what a closed world shows. The certificate, if it is asked for, is made before the first
/// byte is written.
fn write_answer<O: Sink>(
    alloc: Global,
    closed: &Closed,
    names: &Names,
    certificate: bool,
    sink: &mut O,
) -> Result<Verdict, CheckFault>
    ensures { Shows names.now certificate closed.now
        (writing O.contents O.failures sink.old sink.new) result }
{
    if !certificate {
        return show(closed, names, None, sink);
    }
    match order_or_cycle_of(alloc, closed) {
        Ok(list) => show(closed, names, Some(list.as_slice()), sink),
        Err(Memory) => Err(CheckFault::Memory),
    }
}

/// Writes what a closed world shows, and lets go of it.
pub fn finish<O: Sink>(
    alloc: Global,
    closed: Closed,
    names: &Names,
    certificate: bool,
    sink: &mut O,
) -> Result<Verdict, CheckFault>
    ensures { Shows names.now certificate closed
        (writing O.contents O.failures sink.old sink.new) result }
{
    let answer = write_answer(alloc, &closed, names, certificate, sink);
    drop(closed);
    answer
}

/// Reads a whole log, does its events one after another, and writes the report, and after it, if it
/// is asked for, the certificate of the verdict: the lines of a serial order, or with an alarm the
/// line of a shortest cycle at its position.
///
/// The limits are the most events that the log may have, 1 to
/// [`MAX_EVENTS`](velo_events::MAX_EVENTS), and the most nodes that the graph may have at one time,
/// 1 to [`MAX_NODES`](velo_events::MAX_NODES).
///
/// # Errors
/// A fault of the text comes before any other; else the first event that cannot happen decides, and
/// a refusal there comes before a wrong value, and this before the limits of events and of nodes.
/// Every fault but `Write` has written nothing; after `Write` a beginning of the report, or of the
/// certificate after it, was written.
pub fn check_run<I: Source, O: Sink>(
    alloc: Global,
    source: &mut I,
    sink: &mut O,
    events: u32,
    nodes: u16,
    certificate: bool,
) -> Result<Verdict, CheckFault>
    requires events { (1 ≤ events) × (events ≤ MAX_EVENTS) }
    requires nodes { (1 ≤ nodes) × (nodes ≤ MAX_NODES) }
    ensures answer { Checks Numbers events nodes certificate (I.remaining source.old)
        (writing O.contents O.failures sink.old sink.new) (fate_of result) }
    ensures read { I.failures source.new ≡ failures_told (fate_of result) (I.failures source.old) }
{
    let limits = Limits { events, nodes };
    check_source(alloc, source, sink, limits, &Names::Numbers, certificate)
}

/// As `check_run`, by these names.
///
/// # Errors
/// As `check_run`.
pub fn check_source<I: Source, O: Sink>(
    alloc: Global,
    source: &mut I,
    sink: &mut O,
    limits: Limits,
    names: &Names,
    certificate: bool,
) -> Result<Verdict, CheckFault>
    ensures answer { Checks names.now limits.events limits.nodes certificate
        (I.remaining source.old) (writing O.contents O.failures sink.old sink.new)
        (fate_of result) }
    ensures read { I.failures source.new ≡ failures_told (fate_of result) (I.failures source.old) }
{
    match do_input(alloc, source, limits.events, limits.nodes) {
        Ok(closed) => finish(alloc, closed, names, certificate, sink),
        Err(fault) => Err(fault),
    }
}

/// The fate of a check.
pub fn fate_of(answer: Result<Verdict, CheckFault>) -> Fate
    ensures { result ≡ fate_of answer }
{
    match answer {
        Ok(verdict) => Fate::Finished {
            ending: Ending::Done,
            alarm: is_alarm(verdict),
        },
        Err(CheckFault::Write) => Fate::WriteFailed,
        Err(fault) => Fate::Check(fault),
    }
}
