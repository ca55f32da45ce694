//! The answer of an explanation.

use crate::background::Background;
use crate::common::{add_asked, add_log, add_size, line_of};
use crate::events::add_event_at;
use crate::text::Asked;
use crate::witness::add_witness;
use crate::writer::JsonWriter;
use std::alloc::Global;
use velo_certify::owners_of;
use velo_events::{Event, Memory};
use velo_explain::{Evidence, Page, transactions_of};
use velo_names::Names;
use velo_sidecars::Sites;
use velo_traces::Trace;

/// What a log, or what is left of it, shows.
#[derive(Clone, Copy)]
pub enum Shown<'s> {
    /// A cycle, with its alarm.
    Cyclic {
        /// The position of the event that closes the cycle.
        position: usize,
        /// What explains it.
        evidence: &'s Evidence,
    },
    /// No cycle: this is what is left.
    Serial(&'s Trace),
}

/// Whether there is an alarm, in words.
fn verdict_name(shown: &Shown) -> &'static str {
    match shown {
        Shown::Cyclic { .. } => "not serializable",
        Shown::Serial(_) => "serializable",
    }
}

/// Adds the member with the verdict.
fn add_verdict(json: JsonWriter, shown: &Shown) -> Result<JsonWriter, Memory> {
    json.key("verdict")?.string(verdict_name(shown).as_bytes())
}

/// Adds an alarm.
fn add_alarm(
    json: JsonWriter,
    background: &Background,
    position: usize,
    evidence: &Evidence,
) -> Result<JsonWriter, Memory> {
    let json = json.begin_object()?.key("closing")?;
    let json = add_event_at(json, background, position)?.key("witness")?;
    add_witness(json, background, evidence)?.end_object()
}

/// Adds the alarm, or null.
fn add_alarm_or_null(
    json: JsonWriter,
    background: &Background,
    shown: &Shown,
) -> Result<JsonWriter, Memory> {
    match shown {
        Shown::Cyclic { position, evidence } => add_alarm(json, background, *position, evidence),
        Shown::Serial(_) => json.null(),
    }
}

/// Adds the member with how many transactions there are.
fn add_transactions(json: JsonWriter, alloc: Global, rest: &[Event]) -> Result<JsonWriter, Memory> {
    let transactions = transactions_of(alloc, rest)?;
    json.key("transactions")?.number(transactions as u64)
}

/// Adds how many events and transactions there are.
fn add_serial(json: JsonWriter, alloc: Global, rest: &[Event]) -> Result<JsonWriter, Memory> {
    let json = add_size(json.begin_object()?, rest)?;
    let json = add_transactions(json, alloc, rest)?;
    json.end_object()
}

/// Adds them, or null.
fn add_serial_or_null(
    json: JsonWriter,
    alloc: Global,
    shown: &Shown,
) -> Result<JsonWriter, Memory> {
    match shown {
        Shown::Cyclic { .. } => json.null(),
        Shown::Serial(rest) => add_serial(json, alloc, rest.as_slice()),
    }
}

/// Adds the answer.
fn add_answer(
    json: JsonWriter,
    background: &Background,
    path: &str,
    asked: &Asked,
    shown: &Shown,
) -> Result<JsonWriter, Memory> {
    let json = json.begin_object()?.key("schema")?.number(1)?;
    let json = add_log(json, path)?;
    let json = add_verdict(json, shown)?.key("left_out")?;
    let json = add_asked(json, background, asked)?;
    let json = add_size(json, background.events)?.key("alarm")?;
    let json = add_alarm_or_null(json, background, shown)?.key("serial")?;
    add_serial_or_null(json, background.alloc, shown)?.end_object()
}

/// What the log at a path shows, or what is left of it, as one JSON object on a line: what was to be
/// left out, how many events the log has, and the verdict with the first alarm of what is left, or
/// with its numbers of events and transactions.
///
/// # Errors
/// `Memory` if an allocation failed.
pub fn explanation_json(
    alloc: Global,
    names: &Names,
    sites: &Option<Sites>,
    log: &Trace,
    path: &str,
    asked: &Asked,
    shown: &Shown,
) -> Result<Page, Memory> {
    let events = log.as_slice();
    let owners = owners_of(alloc, events)?;
    let background = Background {
        alloc,
        names,
        sites,
        events,
        owners: &owners,
    };
    let json = JsonWriter::new(alloc);
    let json = add_answer(json, &background, path, asked, shown)?;
    line_of(alloc, json)
}
