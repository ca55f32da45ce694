//! The answer of predictions.

use crate::audit::{add_alarm, add_alarms};
use crate::background::Background;
use crate::common::{add_asked, add_log, add_size, line_of};
use crate::elements::{Element, add_array, add_elements};
use crate::events::{add_about, add_event_at, add_site, add_thread, add_words};
use crate::findings::PredictedFindings;
use crate::text::{Asked, is_something_told};
use crate::writer::JsonWriter;
use std::alloc::Global;
use velo_certify::owners_of;
use velo_delays::{Awaited, Deadlock, Differing, PredictedCycle};
use velo_events::Memory;
use velo_explain::Page;
use velo_names::Names;
use velo_sidecars::{Sites, seen_from};
use velo_traces::Trace;

/// A read that has another value than in the log, by what describes its trace.
impl Element for Differing {
    fn add(&self, json: JsonWriter, trace: &Background) -> Result<JsonWriter, Memory> {
        let json = json.begin_object()?.key("event")?;
        let json = add_event_at(json, trace, self.position)?.key("recorded")?;
        json.number(self.recorded)?.end_object()
    }
}

/// What a thread waits to do, by what describes the log.
impl Element for Awaited {
    fn add(&self, json: JsonWriter, log: &Background) -> Result<JsonWriter, Memory> {
        let event = self.event;
        let json = add_thread(json.begin_object()?, log.names, event.thread)?;
        let json = add_words(json, log.alloc, event)?;
        let json = add_about(json, log.names, event.kind)?;
        let json = add_site(json, log.sites, self.position)?;
        json.end_object()
    }
}

/// Adds the member with the kind of a prediction.
fn add_kind(json: JsonWriter, kind: &str) -> Result<JsonWriter, Memory> {
    json.key("kind")?.string(kind.as_bytes())
}

/// Adds the member with the reads that have another value than in the log.
fn add_differences(
    json: JsonWriter,
    trace: &Background,
    differing: &[Differing],
) -> Result<JsonWriter, Memory> {
    add_array(json.key("differing")?, trace, differing)
}

/// Adds labels that may not be atomic, by what describes their trace.
fn add_cycle(
    json: JsonWriter,
    trace: &Background,
    found: &PredictedCycle,
) -> Result<JsonWriter, Memory> {
    let json = add_kind(json.begin_object()?, "not atomic")?;
    let json = add_size(json, trace.events)?;
    let json = add_differences(json, trace, &found.differing)?.key("alarm")?;
    add_alarm(json, trace, &found.told)?.end_object()
}

/// Labels that may not be atomic, by what describes the log.
impl Element for PredictedCycle {
    fn add(&self, json: JsonWriter, log: &Background) -> Result<JsonWriter, Memory> {
        let sites = seen_from(log.alloc, log.sites, &self.sources)?;
        let events = self.trace.as_slice();
        let owners = owners_of(log.alloc, events)?;
        let trace = Background {
            alloc: log.alloc,
            names: log.names,
            sites: &sites,
            events,
            owners: &owners,
        };
        add_cycle(json, &trace, self)
    }
}

/// Adds a deadlock, by what describes the log and its trace.
fn add_stuck(
    json: JsonWriter,
    log: &Background,
    trace: &Background,
    deadlock: &Deadlock,
) -> Result<JsonWriter, Memory> {
    let json = add_kind(json.begin_object()?, "deadlock")?;
    let json = add_size(json, trace.events)?;
    let json = add_differences(json, trace, &deadlock.differing)?;
    add_array(json.key("circle")?, log, &deadlock.waiting)?.end_object()
}

/// A deadlock, by what describes the log.
impl Element for Deadlock {
    fn add(&self, json: JsonWriter, log: &Background) -> Result<JsonWriter, Memory> {
        let sites = seen_from(log.alloc, log.sites, &self.sources)?;
        let events = self.trace.as_slice();
        let owners = owners_of(log.alloc, events)?;
        let trace = Background {
            alloc: log.alloc,
            names: log.names,
            sites: &sites,
            events,
            owners: &owners,
        };
        add_stuck(json, log, &trace, self)
    }
}

/// Adds the member with all that was found of other runs.
fn add_predictions(
    json: JsonWriter,
    log: &Background,
    findings: &PredictedFindings,
) -> Result<JsonWriter, Memory> {
    let begun = json.key("predictions")?.begin_array()?;
    let labels = add_elements(begun, log, &findings.cycles)?;
    let written = add_elements(labels, log, &findings.deadlocks)?.end_array()?;
    Ok(written)
}

/// Adds the member that says whether anything is told.
fn add_whether_found(json: JsonWriter, findings: &PredictedFindings) -> Result<JsonWriter, Memory> {
    json.key("found")?.boolean(is_something_told(findings))
}

/// Adds the answer.
fn add_answer(
    json: JsonWriter,
    log: &Background,
    path: &str,
    asked: &Asked,
    findings: &PredictedFindings,
) -> Result<JsonWriter, Memory> {
    let json = json.begin_object()?.key("schema")?.number(1)?;
    let json = add_log(json, path)?;
    let json = add_whether_found(json, findings)?.key("left_out")?;
    let json = add_asked(json, log, asked)?;
    let json = add_alarms(json, log, &findings.rounds)?;
    let json = add_predictions(json, log, findings)?;
    json.key("tries")?.number(findings.tries)?.end_object()
}

/// What a log at a path shows and foretells, as one JSON object on a line: what was to be left out,
/// the rounds of the log's own audit, the predictions, each by the events of its own trace, and how
/// many delays were tried. An event has its place, if the sites of the log give it.
///
/// # Errors
/// `Memory` if an allocation failed.
pub fn predictions_json(
    alloc: Global,
    names: &Names,
    sites: &Option<Sites>,
    log: &Trace,
    path: &str,
    asked: &Asked,
    findings: &PredictedFindings,
) -> Result<Page, Memory> {
    let events = log.as_slice();
    let owners = owners_of(alloc, events)?;
    let background = Background {
        alloc,
        names,
        sites,
        events,
        owners: &owners,
    };
    let json = JsonWriter::new(alloc);
    let json = add_answer(json, &background, path, asked, findings)?;
    line_of(alloc, json)
}
