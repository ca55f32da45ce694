//! What an exploration knows of each fault.

use crate::named::add_thread;
use crate::writer::JsonWriter;
use std::alloc::Global;
use velo_check::number_of;
use velo_events::{Memory, Refusal, ThreadId};
use velo_explore::{Finding, Findings, Goal};
use velo_schedule_text::append_turns;
use velo_workload::Workload;

/// What is known, in a word.
fn finding_name(finding: &Finding) -> &'static str {
    match finding {
        Finding::Shown(_) => "shown",
        Finding::Never => "never",
        Finding::Open => "open",
    }
}

/// Whether it is not known.
fn is_open(finding: &Finding) -> bool {
    match finding {
        Finding::Open => true,
        Finding::Shown(_) | Finding::Never => false,
    }
}

/// Whether no finding is open.
pub(crate) fn are_decided(found: &Findings) -> bool {
    !is_open(&found.alarm) && !is_open(&found.stuck) && !is_open(&found.refused)
}

/// The turns of a schedule, each stretch after a space.
fn turns_of(alloc: Global, schedule: &[ThreadId]) -> Result<Vec<u8>, Memory> {
    let mut text = Vec::new(alloc);
    append_turns(&mut text, schedule)?;
    Ok(text)
}

/// A text without its first byte.
fn without_first(text: &[u8]) -> &[u8] {
    if text.is_empty() { text } else { &text[1..] }
}

/// Adds the turns of a schedule.
fn add_turns(json: JsonWriter, alloc: Global, schedule: &[ThreadId]) -> Result<JsonWriter, Memory> {
    let text = turns_of(alloc, schedule)?;
    json.string(without_first(&text))
}

/// Adds the turns that show a fault, or null.
fn add_turns_or_null(
    json: JsonWriter,
    alloc: Global,
    finding: &Finding,
) -> Result<JsonWriter, Memory> {
    match finding {
        Finding::Shown(witness) => add_turns(json, alloc, &witness.schedule),
        Finding::Never | Finding::Open => json.null(),
    }
}

/// Adds the members that each finding has.
fn add_members(json: JsonWriter, alloc: Global, finding: &Finding) -> Result<JsonWriter, Memory> {
    let name = finding_name(finding);
    let json = json.key("finding")?.string(name.as_bytes())?.key("turns")?;
    add_turns_or_null(json, alloc, finding)
}

/// Adds what is known of alarms or of deadlocks.
pub(crate) fn add_finding(
    json: JsonWriter,
    alloc: Global,
    finding: &Finding,
) -> Result<JsonWriter, Memory> {
    let json = add_members(json.begin_object()?, alloc, finding)?;
    json.end_object()
}

/// Adds the member with the number of a refusal.
fn add_number(json: JsonWriter, refusal: Refusal) -> Result<JsonWriter, Memory> {
    json.key("number")?.number(u64::from(number_of(refusal)))
}

/// Adds a refusal.
fn add_refusal(
    json: JsonWriter,
    workload: &Workload,
    thread: ThreadId,
    refusal: Refusal,
) -> Result<JsonWriter, Memory> {
    let json = add_number(json.begin_object()?, refusal)?;
    let json = add_thread(json, workload, thread)?;
    json.end_object()
}

/// Adds the refusal that is shown, or null.
fn add_refusal_of(json: JsonWriter, workload: &Workload, goal: Goal) -> Result<JsonWriter, Memory> {
    match goal {
        Goal::Refused(thread, refusal) => add_refusal(json, workload, thread, refusal),
        Goal::Alarm | Goal::Stuck => json.null(),
    }
}

/// Adds the refusal that a finding shows, or null.
fn add_refusal_or_null(
    json: JsonWriter,
    workload: &Workload,
    finding: &Finding,
) -> Result<JsonWriter, Memory> {
    match finding {
        Finding::Shown(witness) => add_refusal_of(json, workload, witness.goal),
        Finding::Never | Finding::Open => json.null(),
    }
}

/// Adds what is known of refusals.
pub(crate) fn add_refused(
    json: JsonWriter,
    alloc: Global,
    workload: &Workload,
    finding: &Finding,
) -> Result<JsonWriter, Memory> {
    let json = add_members(json.begin_object()?, alloc, finding)?.key("refusal")?;
    add_refusal_or_null(json, workload, finding)?.end_object()
}
