//! What all answers on a log have.

use crate::background::Background;
use crate::elements::{Element, add_array};
use crate::events::add_named;
use crate::text::Asked;
use crate::writer::JsonWriter;
use std::alloc::Global;
use velo_events::{Event, Label, LockId, Memory, VarId};
use velo_explain::Page;
use velo_names::NameKind;

impl Element for Label {
    fn add(&self, json: JsonWriter, background: &Background) -> Result<JsonWriter, Memory> {
        add_named(json, background.names, NameKind::Label, self.0)
    }
}

impl Element for LockId {
    fn add(&self, json: JsonWriter, background: &Background) -> Result<JsonWriter, Memory> {
        add_named(json, background.names, NameKind::Lock, u32::from(self.0))
    }
}

impl Element for VarId {
    fn add(&self, json: JsonWriter, background: &Background) -> Result<JsonWriter, Memory> {
        let number = u32::from(self.0);
        add_named(json, background.names, NameKind::Variable, number)
    }
}

/// Adds what was to be left out.
pub(crate) fn add_asked(
    json: JsonWriter,
    background: &Background,
    asked: &Asked,
) -> Result<JsonWriter, Memory> {
    let json = json.begin_object()?.key("labels")?;
    let json = add_array(json, background, asked.labels)?.key("all_locks")?;
    let json = json.boolean(asked.all_locks)?.key("locks")?;
    let json = add_array(json, background, asked.locks)?.key("variables")?;
    add_array(json, background, asked.variables)?.end_object()
}

/// Adds the member with the path of the log.
pub(crate) fn add_log(json: JsonWriter, path: &str) -> Result<JsonWriter, Memory> {
    json.key("log")?.string(path.as_bytes())
}

/// Adds the member with how many events there are.
pub(crate) fn add_size(json: JsonWriter, events: &[Event]) -> Result<JsonWriter, Memory> {
    json.key("events")?.number(events.len() as u64)
}

/// What was written, as a line.
pub(crate) fn line_of(alloc: Global, json: JsonWriter) -> Result<Page, Memory> {
    let text = json.into_text();
    let mut page = Page::new(alloc);
    page.add_bytes(text.as_slice())?;
    page.add_bytes(b"\n")?;
    Ok(page)
}
