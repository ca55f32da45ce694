//! The whole text of predictions.

use crate::background::Background;
use crate::findings::PredictedFindings;
use crate::text::places::{add_begins, add_place, end_line};
use crate::text::whole::{add_rounds, add_witness_if_any};
use crate::text::words::{Asked, add_asked};
use std::alloc::Global;
use velo_certify::owners_of;
use velo_delays::{Awaited, Deadlock, Differing, PredictedCycle};
use velo_events::{Event, Memory};
use velo_explain::{Page, Piece, line_of};
use velo_names::{NameKind, Names};
use velo_sidecars::{Sites, seen_from};
use velo_traces::{Block, Trace};

/// Adds the label of a block that may not be atomic.
fn add_maybe(page: &mut Page, names: &Names, block: Block) -> Result<(), Memory> {
    page.add(&[
        Piece::Text("not atomic? "),
        Piece::Number(u64::from(block.label.0)),
        Piece::Name(names.name_of(NameKind::Label, block.label.0)),
        Piece::Text("\n"),
    ])
}

/// How the length of a trace ends: where the values are not those of the program, by what the numbers mean.
fn events_words(values: bool) -> &'static str {
    match values {
        true => " events\n",
        false => {
            " events\n  lines below are its own; its values are the lines of the log that wrote them (0: none)\n"
        }
    }
}

/// Adds how long a trace is.
fn add_size(page: &mut Page, values: bool, count: usize) -> Result<(), Memory> {
    page.add(&[
        Piece::Text("  witness "),
        Piece::Number(count as u64),
        Piece::Text(events_words(values)),
    ])
}

/// Adds a read of a trace.
fn add_read(
    page: &mut Page,
    names: &Names,
    events: &[Event],
    position: usize,
) -> Result<(), Memory> {
    let Some(event) = events.get(position) else {
        return Ok(());
    };
    page.add(&[
        Piece::Text("  line "),
        Piece::Number(line_of(position)),
        Piece::Text(" `"),
        Piece::Words(*event),
        Piece::Text("`"),
        Piece::KindName(names, event.kind),
    ])
}

/// Adds what a read had in the log: a value of the program, or what a line wrote.
fn add_recorded(page: &mut Page, values: bool, recorded: u64) -> Result<(), Memory> {
    match (values, recorded) {
        (true, value) => page.add(&[
            Piece::Text(" read "),
            Piece::Number(value),
            Piece::Text(" in the log\n"),
        ]),
        (false, 0) => page.add(&[Piece::Text(" read in the log the start value\n")]),
        (false, line) => page.add(&[
            Piece::Text(" read in the log what line "),
            Piece::Number(line),
            Piece::Text(" there wrote\n"),
        ]),
    }
}

/// Adds a read that has another value than in the log.
fn add_difference(
    page: &mut Page,
    trace: &Background,
    values: bool,
    differing: Differing,
) -> Result<(), Memory> {
    add_read(page, trace.names, trace.events, differing.position)?;
    add_place(page, trace.sites, differing.position)?;
    add_recorded(page, values, differing.recorded)
}

/// Adds the labels of the blocks.
fn add_labels(page: &mut Page, names: &Names, blocks: &[Block]) -> Result<(), Memory> {
    for block in blocks {
        add_maybe(page, names, *block)?;
    }
    Ok(())
}

/// Adds the reads that have another value than in the log.
fn add_differences(
    page: &mut Page,
    trace: &Background,
    values: bool,
    differing: &[Differing],
) -> Result<(), Memory> {
    for one in differing {
        add_difference(page, trace, values, *one)?;
    }
    Ok(())
}

/// Adds what was found of other runs of the log.
fn add_found(
    page: &mut Page,
    log: &Background,
    values: bool,
    found: &PredictedCycle,
) -> Result<(), Memory> {
    let sites = seen_from(log.alloc, log.sites, &found.sources)?;
    let events = found.trace.as_slice();
    let owners = owners_of(log.alloc, events)?;
    let trace = Background {
        alloc: log.alloc,
        names: log.names,
        sites: &sites,
        events,
        owners: &owners,
    };
    add_labels(page, trace.names, &found.told.blocks)?;
    add_begins(page, trace.names, trace.sites, &found.told.blocks)?;
    add_size(page, values, trace.events.len())?;
    add_differences(page, &trace, values, &found.differing)?;
    add_witness_if_any(page, &trace, found.told.closing, &found.told.witness)
}

/// Adds that a thread waits to do this.
fn add_waits(page: &mut Page, names: &Names, event: Event) -> Result<(), Memory> {
    page.add(&[
        Piece::Text("  thread "),
        Piece::Number(u64::from(event.thread.0)),
        Piece::ThreadName(names, event.thread),
        Piece::Text(" waits at `"),
        Piece::Words(event),
        Piece::Text("`"),
        Piece::KindName(names, event.kind),
    ])
}

/// Adds what a thread waits to do, and its place, if it is known.
fn add_waiting(page: &mut Page, log: &Background, awaited: Awaited) -> Result<(), Memory> {
    add_waits(page, log.names, awaited.event)?;
    end_line(page, log.sites, awaited.position)
}

/// Adds what the threads wait to do.
fn add_all_waiting(page: &mut Page, log: &Background, waiting: &[Awaited]) -> Result<(), Memory> {
    for awaited in waiting {
        add_waiting(page, log, *awaited)?;
    }
    Ok(())
}

/// Adds how many threads wait in a circle.
fn add_circle(page: &mut Page, count: usize) -> Result<(), Memory> {
    page.add(&[
        Piece::Text("deadlock? "),
        Piece::Number(count as u64),
        Piece::Text(" threads wait in a circle\n"),
    ])
}

/// Adds a deadlock.
fn add_deadlock(
    page: &mut Page,
    log: &Background,
    values: bool,
    deadlock: &Deadlock,
) -> Result<(), Memory> {
    let sites = seen_from(log.alloc, log.sites, &deadlock.sources)?;
    let events = deadlock.trace.as_slice();
    let owners = owners_of(log.alloc, events)?;
    let trace = Background {
        alloc: log.alloc,
        names: log.names,
        sites: &sites,
        events,
        owners: &owners,
    };
    add_circle(page, deadlock.waiting.len())?;
    add_size(page, values, trace.events.len())?;
    add_differences(page, &trace, values, &deadlock.differing)?;
    add_all_waiting(page, log, &deadlock.waiting)
}

/// Adds the deadlocks.
fn add_deadlocks(
    page: &mut Page,
    log: &Background,
    values: bool,
    deadlocks: &[Deadlock],
) -> Result<(), Memory> {
    for deadlock in deadlocks {
        add_deadlock(page, log, values, deadlock)?;
    }
    Ok(())
}

/// Whether there is something to tell: a label of the log itself, or a prediction.
pub fn is_something_told(findings: &PredictedFindings) -> bool {
    !findings.rounds.is_empty() || !findings.cycles.is_empty() || !findings.deadlocks.is_empty()
}

/// How the line of the tries begins.
fn nothing_words(something: bool) -> &'static str {
    match something {
        false => "nothing found in ",
        true => "nothing else found in ",
    }
}

/// Adds how many tries there were.
fn add_end(page: &mut Page, something: bool, tries: u64) -> Result<(), Memory> {
    page.add(&[
        Piece::Text(nothing_words(something)),
        Piece::Number(tries),
        Piece::Text(" tries\n"),
    ])
}

/// Adds the predictions with a cycle.
fn add_cycles(
    page: &mut Page,
    log: &Background,
    values: bool,
    cycles: &[PredictedCycle],
) -> Result<(), Memory> {
    for found in cycles {
        add_found(page, log, values, found)?;
    }
    Ok(())
}

/// What a log shows and foretells, as text: what was to be left out; the labels and the witness of each round of the log's own
/// audit; for each prediction the labels to blame, or what each thread of a circle waits to do, how long its trace is, the reads
/// that differ from the log, and the cycle; and how many delays were tried. A name comes after its number, and after an event its
/// place, if the sites of the log give it.
///
/// # Errors
/// `Memory` where a growth was refused.
pub fn predictions_text(
    alloc: Global,
    names: &Names,
    sites: &Option<Sites>,
    log: &Trace,
    asked: &Asked,
    values: bool,
    findings: &PredictedFindings,
) -> Result<Page, Memory> {
    let mut page = Page::new(alloc);
    add_asked(&mut page, names, asked)?;
    let events = log.as_slice();
    let owners = owners_of(alloc, events)?;
    let background = Background {
        alloc,
        names,
        sites,
        events,
        owners: &owners,
    };
    add_rounds(&mut page, &background, &findings.rounds)?;
    add_cycles(&mut page, &background, values, &findings.cycles)?;
    add_deadlocks(&mut page, &background, values, &findings.deadlocks)?;
    add_end(&mut page, is_something_told(findings), findings.tries)?;
    Ok(page)
}
