//! What explains an alarm.

use crate::background::Background;
use crate::elements::{Element, add_array};
use crate::events::{add_block, add_event, add_event_at};
use crate::text::blocks_around;
use crate::writer::JsonWriter;
use velo_certify::EdgeEvents;
use velo_events::{Event, Memory};
use velo_explain::{Blame, Evidence, Span};
use velo_traces::Block;

impl Element for Block {
    fn add(&self, json: JsonWriter, background: &Background) -> Result<JsonWriter, Memory> {
        add_block(json, background, *self)
    }
}

impl Element for Span {
    fn add(&self, json: JsonWriter, background: &Background) -> Result<JsonWriter, Memory> {
        let json = json.begin_object()?.key("first")?;
        let json = add_event_at(json, background, self.first)?.key("last")?;
        add_event_at(json, background, self.last)?.end_object()
    }
}

/// Adds the blocks that the event's thread has open before it.
fn add_inside(
    json: JsonWriter,
    background: &Background,
    position: usize,
) -> Result<JsonWriter, Memory> {
    let blocks = blocks_around(background, position)?;
    add_array(json.key("inside")?, background, &blocks)
}

/// Adds an event, and the blocks that its thread has open before it.
fn add_placed(
    json: JsonWriter,
    background: &Background,
    position: usize,
    event: Event,
) -> Result<JsonWriter, Memory> {
    let json = json.begin_object()?.key("event")?;
    let json = add_event(json, background, position, event)?;
    let json = add_inside(json, background, position)?;
    json.end_object()
}

/// Adds the event at a position of the log, and these blocks.
fn add_placed_at(
    json: JsonWriter,
    background: &Background,
    position: usize,
) -> Result<JsonWriter, Memory> {
    match background.events.get(position) {
        Some(event) => add_placed(json, background, position, *event),
        None => json.null(),
    }
}

impl Element for EdgeEvents {
    fn add(&self, json: JsonWriter, background: &Background) -> Result<JsonWriter, Memory> {
        let json = json.begin_object()?.key("from")?;
        let json = add_placed_at(json, background, self.from)?.key("to")?;
        add_placed_at(json, background, self.to)?.end_object()
    }
}

impl Element for Blame {
    fn add(&self, json: JsonWriter, background: &Background) -> Result<JsonWriter, Memory> {
        let json = json.begin_object()?.key("block")?;
        let json = add_block(json, background, self.block)?.key("event")?;
        add_event_at(json, background, self.witness)?.end_object()
    }
}

/// Adds the transactions of the cycle.
fn add_transactions(
    json: JsonWriter,
    background: &Background,
    evidence: &Evidence,
) -> Result<JsonWriter, Memory> {
    add_array(json.key("transactions")?, background, &evidence.spans)
}

/// Adds the events of its edges.
fn add_edges(
    json: JsonWriter,
    background: &Background,
    evidence: &Evidence,
) -> Result<JsonWriter, Memory> {
    add_array(json.key("edges")?, background, &evidence.edges)
}

/// Adds why the blocks are to blame.
fn add_reasons(
    json: JsonWriter,
    background: &Background,
    evidence: &Evidence,
) -> Result<JsonWriter, Memory> {
    add_array(json.key("reasons")?, background, &evidence.blames)
}

/// Adds a witness: the transactions of the cycle, the events of its edges, and why the blocks are to
/// blame.
pub(crate) fn add_witness(
    json: JsonWriter,
    background: &Background,
    evidence: &Evidence,
) -> Result<JsonWriter, Memory> {
    let json = json.begin_object()?;
    let json = add_transactions(json, background, evidence)?;
    let json = add_edges(json, background, evidence)?;
    let json = add_reasons(json, background, evidence)?;
    json.end_object()
}
