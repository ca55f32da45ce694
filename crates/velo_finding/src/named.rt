//! Threads and labels of a workload.

use crate::writer::JsonWriter;
use velo_events::{Label, Memory, ThreadId};
use velo_workload::Workload;

/// Adds a number with its name.
fn add_named(json: JsonWriter, name: Option<&[u8]>, number: u32) -> Result<JsonWriter, Memory> {
    json.begin_object()?
        .key("number")?
        .number(u64::from(number))?
        .key("name")?
        .string_or_null(name)?
        .end_object()
}

/// The name of a number, if it has one.
fn name_at(names: &[String], number: usize) -> Option<&[u8]> {
    match names.get(number) {
        Some(name) => Some(name.as_bytes()),
        None => None,
    }
}

/// Adds a thread.
fn add_thread_object(
    json: JsonWriter,
    workload: &Workload,
    thread: ThreadId,
) -> Result<JsonWriter, Memory> {
    let name = name_at(workload.thread_names(), usize::from(thread.0));
    add_named(json, name, u32::from(thread.0))
}

/// Adds the member with a thread.
pub(crate) fn add_thread(
    json: JsonWriter,
    workload: &Workload,
    thread: ThreadId,
) -> Result<JsonWriter, Memory> {
    add_thread_object(json.key("thread")?, workload, thread)
}

/// Adds threads, one after another.
fn add_each_thread(
    json: JsonWriter,
    workload: &Workload,
    threads: &[ThreadId],
) -> Result<JsonWriter, Memory> {
    let mut written = json;
    for thread in threads {
        written = add_thread_object(written, workload, *thread)?;
    }
    Ok(written)
}

/// Adds the array of threads.
pub(crate) fn add_threads(
    json: JsonWriter,
    workload: &Workload,
    threads: &[ThreadId],
) -> Result<JsonWriter, Memory> {
    let written = add_each_thread(json.begin_array()?, workload, threads)?.end_array()?;
    Ok(written)
}

/// Adds the member with a label.
pub(crate) fn add_label(
    json: JsonWriter,
    workload: &Workload,
    label: Label,
) -> Result<JsonWriter, Memory> {
    let name = name_at(workload.label_names(), label.0 as usize);
    add_named(json.key("label")?, name, label.0)
}
