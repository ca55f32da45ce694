//! The report of a log of which its counts and its alarm are known alone.
ghost use Rattle.std.specs.Prelude.{◌≡◌, ◌≤◌, ◌++◌, List, length, OnOk, OnErr};
ghost use Rattle.std.specs.Option.{option_copied};
ghost use Rattle.velo_events.specs.declared.event.Event.{Event};
ghost use Rattle.velo_events.specs.declared.limits.TheConstants.{MAX_THREADS};
ghost use Rattle.velo_bytes.specs.Device.{with_failure, AppendsBeginning};
ghost use Rattle.velo_report.specs.Lines.{Buffers};
ghost use Rattle.velo_report.specs.Report.{thread_lines, AreCountsOf, AppendsReport, AppendsPartOfReport};
ghost use Rattle.velo_report.specs.Counted.{AreEventCountsOf};

use crate::closed::{add_thread, add_verdict};
use crate::lines::{Lines, Word};
use crate::names::Names;
use velo_bytes::{Sink, WriteFault};
use velo_events::ThreadId;
use velo_world::Alarm;

/// Adds the line of each thread.
fn add_counts<S: Sink>(
    lines: &mut Lines,
    sink: &mut S,
    names: &Names,
    counts: &[u64],
) -> Result<(), WriteFault>
    requires { length counts.now ≤ MAX_THREADS }
    ensures ok { (log : List Event) → AreEventCountsOf log counts.now
        → OnOk result (Buffers (S.contents sink.old) (S.contents sink.new)
        lines.old lines.new (thread_lines names.now log (length counts.now))) }
    ensures err { (log : List Event) → AreEventCountsOf log counts.now
        → OnErr result (AppendsBeginning (S.contents sink.old) (S.contents sink.new)
        (lines.old ++ thread_lines names.now log (length counts.now))) }
    ensures no_failure { OnOk result (S.failures sink.new ≡ S.failures sink.old) }
    ensures failure { OnErr result (S.failures sink.new ≡ with_failure (S.failures sink.old)) }
{
    for (thread, count) in counts.iter().enumerate() {
        add_thread(lines, sink, names, ThreadId(thread as u8), *count)?;
    }
    Ok(())
}

/// Writes the report of a log that has so many events, of which its threads have so many each, and this alarm: what `report`
/// would write of a world of that log.
///
/// # Errors
/// `WriteFault` where the sink failed. A beginning of the report was written then.
pub fn report_counts<S: Sink>(
    events: u64,
    counts: &[u64],
    alarm: Option<&Alarm>,
    names: &Names,
    sink: &mut S,
) -> Result<(), WriteFault>
    requires { length counts.now ≤ MAX_THREADS }
    ensures ok { (log : List Event) → AreCountsOf log events counts.now (option_copied alarm.entry)
        → OnOk result (AppendsReport (S.contents sink.old) (S.contents sink.new) names.now (length counts.now) log) }
    ensures err { (log : List Event) → AreCountsOf log events counts.now (option_copied alarm.entry)
        → OnErr result (AppendsPartOfReport (S.contents sink.old) (S.contents sink.new) names.now (length counts.now) log) }
    ensures no_failure { OnOk result (S.failures sink.new ≡ S.failures sink.old) }
    ensures failure { OnErr result (S.failures sink.new ≡ with_failure (S.failures sink.old)) }
{
    let mut lines = Lines::new();
    lines.add_line(sink, "events", &[Word::Number(events)])?;
    add_counts(&mut lines, sink, names, counts)?;
    add_verdict(&mut lines, sink, names, alarm)?;
    lines.flush(sink)
}
