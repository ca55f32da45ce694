//! The text of what is reported of the schedules of a workload.

use std::alloc::Global;
use velo_bytes::{append, append_number};
use velo_check::{TextOrJson, number_of};
use velo_events::{Label, Memory, ThreadId};
use velo_explore::{BlamedLabel, Finding, Findings, Goal};
use velo_finding::{Survey, ToBlame, Tried, exploration_json, never_forked};
use velo_schedule_text::append_turns;
use velo_workload::Workload;

/// Adds the name of a thread after a space, if it has one.
fn add_name(text: &mut Vec<u8>, workload: &Workload, thread: ThreadId) -> Result<(), Memory> {
    match workload.thread_names().get(usize::from(thread.0)) {
        Some(name) => {
            append(text, b" ")?;
            append(text, name.as_bytes())
        }
        None => Ok(()),
    }
}

/// Adds what a witness shows beside the word of its finding: of a refusal its number and its
/// thread.
fn add_goal(text: &mut Vec<u8>, workload: &Workload, goal: Goal) -> Result<(), Memory> {
    match goal {
        Goal::Alarm | Goal::Stuck => Ok(()),
        Goal::Refused(thread, refusal) => {
            append(text, b" ")?;
            append_number(text, u64::from(number_of(refusal)))?;
            append(text, b" thread ")?;
            append_number(text, u64::from(thread.0))?;
            add_name(text, workload, thread)
        }
    }
}

/// Adds what follows the word of a finding.
fn add_finding(text: &mut Vec<u8>, workload: &Workload, finding: &Finding) -> Result<(), Memory> {
    match finding {
        Finding::Shown(witness) => {
            add_goal(text, workload, witness.goal)?;
            append_turns(text, &witness.schedule)
        }
        Finding::Never => append(text, b" none"),
        Finding::Open => append(text, b" open"),
    }
}

/// Adds how schedules were tried.
fn add_tried(text: &mut Vec<u8>, tried: Tried) -> Result<(), Memory> {
    match tried {
        Tried::All { events, states } => {
            append(text, b"events ")?;
            append_number(text, events)?;
            append(text, b"\nstates ")?;
            append_number(text, states)
        }
        Tried::ByChance { seed, runs } => {
            append(text, b"seed ")?;
            append_number(text, seed)?;
            append(text, b"\nruns ")?;
            append_number(text, runs)
        }
    }
}

/// Adds the lines of what was found.
fn add_found(text: &mut Vec<u8>, workload: &Workload, found: &Findings) -> Result<(), Memory> {
    append(text, b"\nalarm")?;
    add_finding(text, workload, &found.alarm)?;
    append(text, b"\nstuck")?;
    add_finding(text, workload, &found.stuck)?;
    append(text, b"\nrefused")?;
    add_finding(text, workload, &found.refused)?;
    append(text, b"\n")
}

/// Adds the name of a label, or its number, if it has none.
fn add_label(text: &mut Vec<u8>, workload: &Workload, label: Label) -> Result<(), Memory> {
    match workload.label_names().get(label.0 as usize) {
        Some(name) => append(text, name.as_bytes()),
        None => append_number(text, u64::from(label.0)),
    }
}

/// Adds the line of a label that is to blame for some of so many alarms.
fn add_blamed(
    text: &mut Vec<u8>,
    workload: &Workload,
    alarms: u64,
    blamed: BlamedLabel,
) -> Result<(), Memory> {
    append(text, b"to blame ")?;
    add_label(text, workload, blamed.label)?;
    append(text, b" (")?;
    append_number(text, blamed.alarms)?;
    append(text, b" of ")?;
    append_number(text, alarms)?;
    append(text, b" alarms)\n")
}

/// Adds the lines of the labels that are to blame.
fn add_blame(text: &mut Vec<u8>, workload: &Workload, blame: &ToBlame) -> Result<(), Memory> {
    for blamed in blame.labels.as_slice() {
        add_blamed(text, workload, blame.alarms, *blamed)?;
    }
    Ok(())
}

/// Adds the line of a thread that no thread forks.
fn add_unforked(text: &mut Vec<u8>, workload: &Workload, thread: ThreadId) -> Result<(), Memory> {
    append(text, b"never forked")?;
    add_name(text, workload, thread)?;
    append(text, b"\n")
}

/// Adds the lines of the threads that no thread forks.
fn add_all_unforked(alloc: Global, text: &mut Vec<u8>, workload: &Workload) -> Result<(), Memory> {
    let threads = never_forked(alloc, workload)?;
    for thread in threads.as_slice() {
        add_unforked(text, workload, *thread)?;
    }
    Ok(())
}

/// The text of what is reported of the schedules of a workload.
fn text_of_survey(alloc: Global, workload: &Workload, survey: &Survey) -> Result<Vec<u8>, Memory> {
    let mut text = Vec::new(alloc);
    add_tried(&mut text, survey.tried)?;
    add_found(&mut text, workload, &survey.shrunk.findings)?;
    add_blame(&mut text, workload, &survey.blame)?;
    add_all_unforked(alloc, &mut text, workload)?;
    Ok(text)
}

/// What is reported of the schedules of the workload at a path, in the form that was asked for.
///
/// # Errors
/// `Memory` where a growth was refused.
pub fn page_of_survey(
    alloc: Global,
    workload: &Workload,
    form: TextOrJson,
    path: &str,
    survey: &Survey,
) -> Result<Vec<u8>, Memory> {
    match form {
        TextOrJson::Text => text_of_survey(alloc, workload, survey),
        TextOrJson::Json => exploration_json(alloc, workload, path, survey),
    }
}
