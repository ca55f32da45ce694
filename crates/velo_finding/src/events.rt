//! Events and blocks.

use crate::background::Background;
use crate::writer::JsonWriter;
use std::alloc::Global;
use velo_events::{Event, Kind, Memory, ThreadId};
use velo_explain::{Page, Piece, line_of};
use velo_names::{NameKind, Names};
use velo_sidecars::{Sites, place_in};
use velo_traces::Block;

/// Adds a number with its name.
pub(crate) fn add_named(
    json: JsonWriter,
    names: &Names,
    kind: NameKind,
    number: u32,
) -> Result<JsonWriter, Memory> {
    json.begin_object()?
        .key("number")?
        .number(u64::from(number))?
        .key("name")?
        .string_or_null(names.name_of(kind, number))?
        .end_object()
}

/// The name of what an operation is about, if it has one.
fn name_about<'a>(names: &Names<'a>, kind: Kind) -> Option<&'a [u8]> {
    match kind {
        Kind::Read(x, _) | Kind::Write(x, _) => names.name_of(NameKind::Variable, u32::from(x.0)),
        Kind::Acquire(m) | Kind::Release(m) => names.name_of(NameKind::Lock, u32::from(m.0)),
        Kind::AcquireShared(m) | Kind::ReleaseShared(m) => {
            names.name_of(NameKind::Lock, u32::from(m.0))
        }
        Kind::Begin(label) => names.name_of(NameKind::Label, label.0),
        Kind::Fork(u) | Kind::Join(u) => names.name_of(NameKind::Thread, u32::from(u.0)),
        Kind::End | Kind::Exit => None,
    }
}

/// The text of an event.
fn words_of(alloc: Global, event: Event) -> Result<Page, Memory> {
    let mut page = Page::new(alloc);
    page.add(&[Piece::Words(event)])?;
    Ok(page)
}

/// Adds the members that say where an event is.
fn add_place(json: JsonWriter, position: usize) -> Result<JsonWriter, Memory> {
    json.key("position")?
        .number(position as u64)?
        .key("line")?
        .number(line_of(position))
}

/// Adds the member that says whose event it is.
pub(crate) fn add_thread(
    json: JsonWriter,
    names: &Names,
    thread: ThreadId,
) -> Result<JsonWriter, Memory> {
    add_named(
        json.key("thread")?,
        names,
        NameKind::Thread,
        u32::from(thread.0),
    )
}

/// Adds the member with the text of an event.
pub(crate) fn add_words(
    json: JsonWriter,
    alloc: Global,
    event: Event,
) -> Result<JsonWriter, Memory> {
    let words = words_of(alloc, event)?;
    json.key("text")?.string(words.as_slice())
}

/// Adds the member with the name of what an operation is about.
pub(crate) fn add_about(json: JsonWriter, names: &Names, kind: Kind) -> Result<JsonWriter, Memory> {
    json.key("name")?.string_or_null(name_about(names, kind))
}

/// Adds the member with the place of an event in the source.
pub(crate) fn add_site(
    json: JsonWriter,
    sites: &Option<Sites>,
    position: usize,
) -> Result<JsonWriter, Memory> {
    json.key("site")?.string_or_null(place_in(sites, position))
}

/// Adds an event at a position.
pub(crate) fn add_event(
    json: JsonWriter,
    background: &Background,
    position: usize,
    event: Event,
) -> Result<JsonWriter, Memory> {
    let json = add_place(json.begin_object()?, position)?;
    let json = add_thread(json, background.names, event.thread)?;
    let json = add_words(json, background.alloc, event)?;
    let json = add_about(json, background.names, event.kind)?;
    let json = add_site(json, background.sites, position)?;
    json.end_object()
}

/// Adds the event at a position of the log.
pub(crate) fn add_event_at(
    json: JsonWriter,
    background: &Background,
    position: usize,
) -> Result<JsonWriter, Memory> {
    match background.events.get(position) {
        Some(event) => add_event(json, background, position, *event),
        None => json.null(),
    }
}

/// Adds a block.
pub(crate) fn add_block(
    json: JsonWriter,
    background: &Background,
    block: Block,
) -> Result<JsonWriter, Memory> {
    let json = json.begin_object()?.key("label")?;
    let json = add_named(json, background.names, NameKind::Label, block.label.0)?.key("begin")?;
    add_event_at(json, background, block.first)?.end_object()
}
