//! The certificate of a closed world.
ghost use Rattle.std.specs.Prelude.{◌≡◌, ◌≤◌, ◌<◌, ◌+◌, ◌++◌, ◌↔◌, ℕ, length, slice_index, IsTrue, OnOk, OnErr};
ghost use Rattle.velo_events.specs.Reordering.{IsReordering, IsSerial};
ghost use Rattle.velo_bytes.specs.Device.{with_failure, AppendsBeginning};
ghost use Rattle.velo_report.specs.Certificate.{Certifies, serial_lines, BuffersCertificate, FailsInCertificate, AppendsCertificate, AppendsPartOfCertificate};
ghost use Rattle.velo_report.specs.Lines.{Buffers};
ghost use Rattle.velo_report.specs.Runs.{AreInside, GoesOn, IsDepthAfter, IsOneTransaction, IsStart};

use crate::lines::Lines;
use velo_bytes::{Sink, WriteFault};
use velo_events::{Event, Kind};
use velo_world::Closed;

/// How many blocks of the event's thread are open after it, where so many are open before it.
fn depth_after(events: &[Event], at: usize, depth: usize) -> usize
    requires within { at < length events.now }
    requires small { depth ≤ at }
    ensures small { result ≤ at + 1 }
    ensures after { IsDepthAfter events.now at depth result }
{
    match events[at].kind {
        Kind::Begin(_) => depth + 1,
        Kind::End => depth.saturating_sub(1),
        _ => depth,
    }
}

/// Whether the transaction that stands at one place of the list, and has so many blocks open, goes on at a later place.
fn goes_on(events: &[Event], order: &[usize], from: usize, end: usize, depth: usize) -> bool
    requires from { from < length order.now }
    requires inside { AreInside events.now order.now }
    ensures { IsTrue result ↔ GoesOn events.now order.now from end depth }
{
    if depth == 0 || end >= order.len() {
        return false;
    }
    events[order[end]].thread.0 == events[order[from]].thread.0
}

/// Where the transaction that begins at a place of a serial reordering ends. It takes no memory.
fn run_end(events: &[Event], order: &[usize], from: usize) -> usize
    requires reorders { IsReordering events.now order.now }
    requires serial { IsSerial events.now order.now }
    requires inside { AreInside events.now order.now }
    requires start { IsStart events.now order.now from }
    ensures { IsOneTransaction events.now order.now from result }
{
    let mut depth = depth_after(events, order[from], 0);
    let mut end = from + 1;
    while goes_on(events, order, from, end, depth) {
        depth = depth_after(events, order[end], depth);
        end += 1;
    }
    end
}

/// Adds the line of each transaction of a serial reordering.
fn add_order<S: Sink>(
    lines: &mut Lines,
    sink: &mut S,
    events: &[Event],
    order: &[usize],
) -> Result<(), WriteFault>
    requires reorders { IsReordering events.now order.now }
    requires serial { IsSerial events.now order.now }
    requires inside { AreInside events.now order.now }
    ensures ok { OnOk result
        (Buffers (S.contents sink.old) (S.contents sink.new) lines.old lines.new
        (serial_lines events.now order.now)) }
    ensures err { OnErr result
        (AppendsBeginning (S.contents sink.old) (S.contents sink.new)
        (lines.old ++ serial_lines events.now order.now)) }
    ensures no_failure { OnOk result (S.failures sink.new ≡ S.failures sink.old) }
    ensures failure { OnErr result (S.failures sink.new ≡ with_failure (S.failures sink.old)) }
{
    let mut from = 0;
    while from < order.len() {
        let end = run_end(events, order, from);
        lines.add_numbers(sink, "serial", &order[from..end])?;
        from = end;
    }
    Ok(())
}

/// Adds the certificate.
fn add_certificate<S: Sink>(
    lines: &mut Lines,
    sink: &mut S,
    closed: &Closed,
    list: &[usize],
) -> Result<(), WriteFault>
    requires { Certifies closed.now.log list.now }
    ensures ok { OnOk result
        (BuffersCertificate (S.contents sink.old) (S.contents sink.new) lines.old lines.new closed.now.log list.now) }
    ensures err { OnErr result
        (FailsInCertificate (S.contents sink.old) (S.contents sink.new) lines.old closed.now.log list.now) }
    ensures no_failure { OnOk result (S.failures sink.new ≡ S.failures sink.old) }
    ensures failure { OnErr result (S.failures sink.new ≡ with_failure (S.failures sink.old)) }
{
    match closed.alarm() {
        None => add_order(lines, sink, closed.log().as_slice(), list),
        Some(_) => lines.add_numbers(sink, "cycle", list),
    }
}

/// Writes the certificate of a closed world: of a serial reordering of its log a line for each transaction, or with an alarm
/// the one line of a cycle at its position. It takes no memory.
///
/// # Errors
/// `WriteFault` where the sink failed. A beginning of the certificate was written then.
pub fn certificate_lines<S: Sink>(
    closed: &Closed,
    list: &[usize],
    sink: &mut S,
) -> Result<(), WriteFault>
    requires { Certifies closed.now.log list.now }
    ensures ok { OnOk result (AppendsCertificate (S.contents sink.old) (S.contents sink.new) closed.now.log list.now) }
    ensures err { OnErr result
        (AppendsPartOfCertificate (S.contents sink.old) (S.contents sink.new) closed.now.log list.now) }
    ensures no_failure { OnOk result (S.failures sink.new ≡ S.failures sink.old) }
    ensures failure { OnErr result (S.failures sink.new ≡ with_failure (S.failures sink.old)) }
{
    let mut lines = Lines::new();
    add_certificate(&mut lines, sink, closed, list)?;
    lines.flush(sink)
}
