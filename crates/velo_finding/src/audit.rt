//! The answer of an audit.

use crate::background::Background;
use crate::common::{add_asked, add_log, line_of};
use crate::elements::{Element, add_array};
use crate::entries::Entry;
use crate::events::{add_event_at, add_named};
use crate::text::Asked;
use crate::witness::add_witness;
use crate::writer::JsonWriter;
use velo_audit::Told;
use velo_events::Memory;
use velo_explain::{Evidence, Page};
use velo_names::NameKind;

/// Adds the witness of a round, or null.
fn add_witness_or_null(
    json: JsonWriter,
    background: &Background,
    witness: &Option<Evidence>,
) -> Result<JsonWriter, Memory> {
    match witness {
        None => json.null(),
        Some(evidence) => add_witness(json, background, evidence),
    }
}

/// Adds the blocks that a round reports.
fn add_blocks(
    json: JsonWriter,
    background: &Background,
    told: &Told,
) -> Result<JsonWriter, Memory> {
    add_array(json.key("blocks")?, background, &told.blocks)
}

/// Adds a round with an alarm: its blocks, outermost first, whether they are to blame, the closing
/// event, and the witness or null.
pub(crate) fn add_alarm(
    json: JsonWriter,
    background: &Background,
    told: &Told,
) -> Result<JsonWriter, Memory> {
    let json = add_blocks(json.begin_object()?, background, told)?.key("to_blame")?;
    let json = json.boolean(told.to_blame)?.key("closing")?;
    let json = add_event_at(json, background, told.closing)?.key("witness")?;
    add_witness_or_null(json, background, &told.witness)?.end_object()
}

impl Element for Told {
    fn add(&self, json: JsonWriter, background: &Background) -> Result<JsonWriter, Memory> {
        add_alarm(json, background, self)
    }
}

/// Adds the member with the rounds with an alarm.
pub(crate) fn add_alarms(
    json: JsonWriter,
    background: &Background,
    rounds: &[Told],
) -> Result<JsonWriter, Memory> {
    add_array(json.key("alarms")?, background, rounds)
}

impl Element for Entry {
    fn add(&self, json: JsonWriter, background: &Background) -> Result<JsonWriter, Memory> {
        let json = json.begin_object()?.key("label")?;
        let json = add_named(json, background.names, NameKind::Label, self.label.0)?;
        let json = json.key("round")?.number(self.round as u64)?;
        let json = json.key("blocks")?.number(self.tally.blocks as u64)?;
        let json = json.key("to_blame")?.number(self.tally.blamed as u64)?;
        let json = json.key("innermost")?.number(self.tally.innermost as u64)?;
        json.end_object()
    }
}

/// Adds the labels that were found, each with the counts of its blocks.
fn add_counts(
    json: JsonWriter,
    background: &Background,
    entries: &[Entry],
) -> Result<JsonWriter, Memory> {
    let json = json.begin_object()?.key("labels")?;
    add_array(json, background, entries)?.end_object()
}

/// Whether a label was found, in words.
fn verdict(rounds: &[Told]) -> &'static str {
    if rounds.is_empty() {
        "atomic"
    } else {
        "not atomic"
    }
}

/// Adds whether a label was found.
fn add_verdict(json: JsonWriter, rounds: &[Told]) -> Result<JsonWriter, Memory> {
    json.key("verdict")?.string(verdict(rounds).as_bytes())
}

/// Adds how many rounds there were, the last one without an alarm.
fn add_round_count(json: JsonWriter, rounds: &[Told]) -> Result<JsonWriter, Memory> {
    json.key("rounds")?
        .number((rounds.len() as u64).saturating_add(1))
}

/// Adds the answer.
fn add_audit(
    json: JsonWriter,
    background: &Background,
    path: &str,
    asked: &Asked,
    entries: &[Entry],
    rounds: &[Told],
    atomic: usize,
) -> Result<JsonWriter, Memory> {
    let json = json.begin_object()?.key("schema")?.number(1)?;
    let json = add_log(json, path)?;
    let json = add_verdict(json, rounds)?.key("left_out")?;
    let json = add_asked(json, background, asked)?;
    let json = add_alarms(json, background, rounds)?.key("counts")?;
    let json = add_counts(json, background, entries)?.key("atomic")?;
    let json = add_round_count(json.number(atomic as u64)?, rounds)?;
    json.end_object()
}

/// The answer of an audit of the log at a path, as one JSON object on a line, with the labels that were
/// found.
///
/// # Errors
/// `Memory` if an allocation failed.
pub fn audit_json(
    background: &Background,
    path: &str,
    asked: &Asked,
    entries: &[Entry],
    rounds: &[Told],
    atomic: usize,
) -> Result<Page, Memory> {
    let json = JsonWriter::new(background.alloc);
    let json = add_audit(json, background, path, asked, entries, rounds, atomic)?;
    line_of(background.alloc, json)
}
