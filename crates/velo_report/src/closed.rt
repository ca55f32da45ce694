//! The report of a world.
ghost use Rattle.std.specs.Prelude.{◌≡◌, ◌≤◌, ◌++◌, List, length, take, Some, OnOk, OnErr};
ghost use Rattle.std.specs.Option.{option_copied};
ghost use Rattle.velo_events.specs.declared.event.Event.{Event};
ghost use Rattle.velo_events.specs.declared.limits.TheConstants.{MAX_THREADS};
ghost use Rattle.velo_ledger.specs.Logs.{AreTalliesOf};
ghost use Rattle.velo_bytes.specs.Device.{with_failure, AppendsBeginning};
ghost use Rattle.velo_report.specs.Lines.{Buffers};
ghost use Rattle.velo_report.specs.Counted.{AreEventCountsOf};
ghost use Rattle.velo_report.specs.Report.{count_line, blame_line, blame_lines, verdict_lines, AppendsReport, AppendsPartOfReport};

use crate::counted::report_counts;
use crate::lines::{Lines, Word};
use crate::names::Names;
use velo_bytes::{Sink, WriteFault};
use velo_events::{MAX_THREADS, ThreadId};
use velo_ledger::Book;
use velo_names::NameKind;
use velo_traces::Block;
use velo_world::{Alarm, Closed, World};

/// Adds the line of a thread that has so many events.
pub(crate) fn add_thread<S: Sink>(
    lines: &mut Lines,
    sink: &mut S,
    names: &Names,
    thread: ThreadId,
    count: u64,
) -> Result<(), WriteFault>
    ensures ok { OnOk result (Buffers (S.contents sink.old) (S.contents sink.new)
        lines.old lines.new (count_line names.now thread.0 count)) }
    ensures err { OnErr result (AppendsBeginning (S.contents sink.old) (S.contents sink.new)
        (lines.old ++ count_line names.now thread.0 count)) }
    ensures no_failure { OnOk result (S.failures sink.new ≡ S.failures sink.old) }
    ensures failure { OnErr result (S.failures sink.new ≡ with_failure (S.failures sink.old)) }
{
    let number = u64::from(thread.0);
    if let Some(name) = names.behind(NameKind::Thread, u32::from(thread.0)) {
        return lines.add_line(
            sink,
            "thread",
            &[Word::Number(number), Word::Number(count), Word::Bytes(name)],
        );
    }
    match names.of_thread(thread) {
        Some(name) => lines.add_line(
            sink,
            "thread",
            &[Word::Number(number), Word::Text(name), Word::Number(count)],
        ),
        None => lines.add_line(sink, "thread", &[Word::Number(number), Word::Number(count)]),
    }
}

/// Adds the line of a blamed block.
fn add_block<S: Sink>(
    lines: &mut Lines,
    sink: &mut S,
    names: &Names,
    block: Block,
) -> Result<(), WriteFault>
    ensures ok { OnOk result
        (Buffers (S.contents sink.old) (S.contents sink.new) lines.old lines.new (blame_line names.now block)) }
    ensures err { OnErr result
        (AppendsBeginning (S.contents sink.old) (S.contents sink.new) (lines.old ++ blame_line names.now block)) }
    ensures no_failure { OnOk result (S.failures sink.new ≡ S.failures sink.old) }
    ensures failure { OnErr result (S.failures sink.new ≡ with_failure (S.failures sink.old)) }
{
    let first = block.first as u64;
    if let Some(name) = names.behind(NameKind::Label, block.label.0) {
        let label = u64::from(block.label.0);
        return lines.add_line(
            sink,
            "blame",
            &[Word::Number(first), Word::Number(label), Word::Bytes(name)],
        );
    }
    match names.of_label(block.label) {
        Word::Text(name) => lines.add_line(sink, "blame", &[Word::Number(first), Word::Text(name)]),
        Word::Number(label) => {
            lines.add_line(sink, "blame", &[Word::Number(first), Word::Number(label)])
        }
        Word::Bytes(name) => {
            lines.add_line(sink, "blame", &[Word::Number(first), Word::Bytes(name)])
        }
    }
}

/// Adds the line of each blamed block, or the one that says that there is none.
fn add_blame<S: Sink>(
    lines: &mut Lines,
    sink: &mut S,
    names: &Names,
    blamed: &[Block],
) -> Result<(), WriteFault>
    ensures ok { OnOk result
        (Buffers (S.contents sink.old) (S.contents sink.new) lines.old lines.new (blame_lines names.now blamed.now)) }
    ensures err { OnErr result
        (AppendsBeginning (S.contents sink.old) (S.contents sink.new)
        (lines.old ++ blame_lines names.now blamed.now)) }
    ensures no_failure { OnOk result (S.failures sink.new ≡ S.failures sink.old) }
    ensures failure { OnErr result (S.failures sink.new ≡ with_failure (S.failures sink.old)) }
{
    if blamed.is_empty() {
        return lines.add_line(sink, "blame", &[Word::Text("none")]);
    }
    for block in blamed {
        add_block(lines, sink, names, *block)?;
    }
    Ok(())
}

/// Adds the lines of an alarm.
fn add_alarm<S: Sink>(
    lines: &mut Lines,
    sink: &mut S,
    names: &Names,
    alarm: &Alarm,
) -> Result<(), WriteFault>
    ensures ok { OnOk result
        (Buffers (S.contents sink.old) (S.contents sink.new) lines.old lines.new
        (verdict_lines names.now (Some alarm.now))) }
    ensures err { OnErr result (AppendsBeginning (S.contents sink.old) (S.contents sink.new)
        (lines.old ++ verdict_lines names.now (Some alarm.now))) }
    ensures no_failure { OnOk result (S.failures sink.new ≡ S.failures sink.old) }
    ensures failure { OnErr result (S.failures sink.new ≡ with_failure (S.failures sink.old)) }
{
    let position = Word::Number(alarm.position as u64);
    lines.add_line(sink, "verdict", &[Word::Text("alarm"), position])?;
    let transaction = Word::Number(alarm.transaction as u64);
    lines.add_line(sink, "transaction", &[transaction])?;
    add_blame(lines, sink, names, alarm.blamed.as_slice())
}

/// Adds the verdict, and what belongs to an alarm.
pub(crate) fn add_verdict<S: Sink>(
    lines: &mut Lines,
    sink: &mut S,
    names: &Names,
    alarm: Option<&Alarm>,
) -> Result<(), WriteFault>
    ensures ok { OnOk result (Buffers (S.contents sink.old) (S.contents sink.new)
        lines.old lines.new (verdict_lines names.now (option_copied alarm.entry))) }
    ensures err { OnErr result (AppendsBeginning (S.contents sink.old) (S.contents sink.new)
        (lines.old ++ verdict_lines names.now (option_copied alarm.entry))) }
    ensures no_failure { OnOk result (S.failures sink.new ≡ S.failures sink.old) }
    ensures failure { OnErr result (S.failures sink.new ≡ with_failure (S.failures sink.old)) }
{
    match alarm {
        None => lines.add_line(sink, "verdict", &[Word::Text("clean")]),
        Some(alarm) => add_alarm(lines, sink, names, alarm),
    }
}

/// Writes the report of a closed world: how many events there are, how many of each thread, and the verdict; with an alarm
/// its position, the first position of its transaction, and the blocks to blame.
///
/// # Errors
/// `WriteFault` where the sink failed. A beginning of the report was written then.
pub fn report<S: Sink>(closed: &Closed, names: &Names, sink: &mut S) -> Result<(), WriteFault>
    ensures ok { OnOk result
        (AppendsReport (S.contents sink.old)
        (S.contents sink.new) names.now closed.now.config.bounds.threads closed.now.log) }
    ensures err { OnErr result (AppendsPartOfReport (S.contents sink.old) (S.contents sink.new)
        names.now closed.now.config.bounds.threads closed.now.log) }
    ensures no_failure { OnOk result (S.failures sink.new ≡ S.failures sink.old) }
    ensures failure { OnErr result (S.failures sink.new ≡ with_failure (S.failures sink.old)) }
{
    let total = closed.total();
    let threads = closed.bounds().threads;
    let counts = counts_in(closed.book(), threads);
    report_counts(
        total,
        &counts[..usize::from(threads)],
        closed.alarm(),
        names,
        sink,
    )
}

/// Writes the report of the events so far of a world that may go on: what `report` would write, were it closed now.
///
/// # Errors
/// `WriteFault` where the sink failed. A beginning of the report was written then.
pub fn report_so_far<S: Sink>(world: &World, names: &Names, sink: &mut S) -> Result<(), WriteFault>
    ensures ok { OnOk result
        (AppendsReport (S.contents sink.old)
        (S.contents sink.new) names.now world.now.config.bounds.threads world.now.log) }
    ensures err { OnErr result (AppendsPartOfReport (S.contents sink.old) (S.contents sink.new)
        names.now world.now.config.bounds.threads world.now.log) }
    ensures no_failure { OnOk result (S.failures sink.new ≡ S.failures sink.old) }
    ensures failure { OnErr result (S.failures sink.new ≡ with_failure (S.failures sink.old)) }
{
    let total = world.log().len() as u64;
    let threads = world.threads();
    let counts = counts_in(world.book(), threads);
    report_counts(
        total,
        &counts[..usize::from(threads)],
        world.alarm(),
        names,
        sink,
    )
}

/// How many events each thread of a book has, at its place.
fn counts_in(book: &Book, threads: u8) -> [u64; MAX_THREADS as usize]
    requires all { length book.now.rows ≡ threads }
    requires few { threads ≤ MAX_THREADS }
    ensures { (log : List Event) → AreTalliesOf log book.now.rows → AreEventCountsOf log (take threads result) }
{
    let mut counts = [0; MAX_THREADS as usize];
    for t in 0..threads {
        counts[usize::from(t)] = book.tally(ThreadId(t)).events;
    }
    counts
}
