//! The answer of an exploration.

use crate::forks::never_forked;
use crate::known::{add_finding, add_refused, are_decided};
use crate::named::{add_label, add_threads};
use crate::survey::{Survey, ToBlame, Tried};
use crate::writer::JsonWriter;
use std::alloc::Global;
use velo_bytes::append;
use velo_events::Memory;
use velo_explore::{BlamedLabel, Findings};
use velo_workload::Workload;

/// Adds a label that is to blame.
fn add_blamed(
    json: JsonWriter,
    workload: &Workload,
    blamed: BlamedLabel,
) -> Result<JsonWriter, Memory> {
    let json = add_label(json.begin_object()?, workload, blamed.label)?.key("alarms")?;
    json.number(blamed.alarms)?.end_object()
}

/// Adds the labels that are to blame, one after another.
fn add_each_blamed(
    json: JsonWriter,
    workload: &Workload,
    labels: &[BlamedLabel],
) -> Result<JsonWriter, Memory> {
    let mut written = json;
    for blamed in labels {
        written = add_blamed(written, workload, *blamed)?;
    }
    Ok(written)
}

/// Adds the array of the labels that are to blame.
fn add_labels(
    json: JsonWriter,
    workload: &Workload,
    labels: &[BlamedLabel],
) -> Result<JsonWriter, Memory> {
    let written = add_each_blamed(json.begin_array()?, workload, labels)?.end_array()?;
    Ok(written)
}

/// Adds who is to blame.
fn add_blame(json: JsonWriter, workload: &Workload, blame: &ToBlame) -> Result<JsonWriter, Memory> {
    let json = json.begin_object()?.key("alarms")?;
    let json = json.number(blame.alarms)?.key("labels")?;
    add_labels(json, workload, &blame.labels)?.end_object()
}

/// Adds how all schedules were tried.
fn add_all(json: JsonWriter, events: u64, states: u64) -> Result<JsonWriter, Memory> {
    json.begin_object()?
        .key("kind")?
        .string(b"exhaustive")?
        .key("events")?
        .number(events)?
        .key("states")?
        .number(states)?
        .end_object()
}

/// Adds how random schedules were tried.
fn add_random(json: JsonWriter, seed: u64, runs: u64) -> Result<JsonWriter, Memory> {
    json.begin_object()?
        .key("kind")?
        .string(b"random")?
        .key("seed")?
        .number(seed)?
        .key("runs")?
        .number(runs)?
        .end_object()
}

/// Adds how the schedules were tried.
fn add_tried(json: JsonWriter, tried: Tried) -> Result<JsonWriter, Memory> {
    match tried {
        Tried::All { events, states } => add_all(json, events, states),
        Tried::ByChance { seed, runs } => add_random(json, seed, runs),
    }
}

/// Adds the member with the path of the workload.
fn add_path(json: JsonWriter, path: &str) -> Result<JsonWriter, Memory> {
    json.key("workload")?.string(path.as_bytes())
}

/// Adds the member that says whether no finding is open.
fn add_decided(json: JsonWriter, found: &Findings) -> Result<JsonWriter, Memory> {
    json.key("decided")?.boolean(are_decided(found))
}

/// Adds the threads that no thread forks.
fn add_never_forked(
    json: JsonWriter,
    alloc: Global,
    workload: &Workload,
) -> Result<JsonWriter, Memory> {
    let threads = never_forked(alloc, workload)?;
    add_threads(json, workload, &threads)
}

/// Adds the answer.
fn add_answer(
    json: JsonWriter,
    alloc: Global,
    workload: &Workload,
    path: &str,
    survey: &Survey,
) -> Result<JsonWriter, Memory> {
    let found = &survey.shrunk.findings;
    let json = json.begin_object()?.key("schema")?.number(1)?;
    let json = add_path(json, path)?.key("search")?;
    let json = add_tried(json, survey.tried)?;
    let json = add_decided(json, found)?.key("alarm")?;
    let json = add_finding(json, alloc, &found.alarm)?.key("stuck")?;
    let json = add_finding(json, alloc, &found.stuck)?.key("refused")?;
    let json = add_refused(json, alloc, workload, &found.refused)?.key("blame")?;
    let json = add_blame(json, workload, &survey.blame)?.key("never_forked")?;
    add_never_forked(json, alloc, workload)?.end_object()
}

/// What was written, as a line.
fn line_of(json: JsonWriter) -> Result<Vec<u8>, Memory> {
    let mut text = json.into_text();
    append(&mut text, b"\n")?;
    Ok(text)
}

/// What is reported of the schedules of the workload at a path, as one JSON object on a line: how they
/// were tried, what is known of each fault, with a schedule that shows it, whom the alarms blame, and which
/// threads no thread forks.
///
/// # Errors
/// `Memory` if an allocation failed.
pub fn exploration_json(
    alloc: Global,
    workload: &Workload,
    path: &str,
    survey: &Survey,
) -> Result<Vec<u8>, Memory> {
    let json = JsonWriter::new(alloc);
    let json = add_answer(json, alloc, workload, path, survey)?;
    line_of(json)
}
