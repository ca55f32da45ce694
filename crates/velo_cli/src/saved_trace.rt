//! A trace as the text of a log.
ghost use Rattle.std.specs.Prelude.{◌≡◌, ◌++◌, true, IfOk, OnOk};
ghost use Rattle.velo_logtext.specs.Text.{event_line, event_lines, header_line, kind_text, log_text};

use std::alloc::Global;
use velo_bytes::{append, append_number};
use velo_events::{Bounds, Event, Kind, Memory};
use velo_logtext::{KIND_ROOM, put_kind};

/// Appends the first line.
#[tactic(auto, unfolding(velo_logtext::specs::Text::header_line))]
fn append_header(text: &mut Vec<u8>, bounds: Bounds) -> Result<(), Memory>
    ensures { OnOk result (text.new.items ≡ text.old.items ++ header_line (true, bounds)) }
{
    append(text, b"vlog 2 ")?;
    append_number(text, u64::from(bounds.threads))?;
    append(text, b" ")?;
    append_number(text, u64::from(bounds.variables))?;
    append(text, b" ")?;
    append_number(text, u64::from(bounds.locks))?;
    append(text, b"\n")
}

/// Appends an operation.
fn append_kind(text: &mut Vec<u8>, kind: Kind) -> Result<(), Memory>
    ensures { OnOk result (text.new.items ≡ text.old.items ++ kind_text kind) }
{
    let mut buffer = [0u8; KIND_ROOM];
    let end = put_kind(&mut buffer, 0, kind);
    append(text, &buffer[..end])
}

/// Appends the line of an event.
#[tactic(auto, unfolding(velo_logtext::specs::Text::event_line))]
fn append_event(text: &mut Vec<u8>, event: Event) -> Result<(), Memory>
    ensures { OnOk result (text.new.items ≡ text.old.items ++ event_line event) }
{
    append_number(text, u64::from(event.thread.0))?;
    append(text, b" ")?;
    append_kind(text, event.kind)?;
    append(text, b"\n")
}

/// Appends the lines of events.
fn append_events(text: &mut Vec<u8>, events: &[Event]) -> Result<(), Memory>
    ensures { OnOk result (text.new.items ≡ text.old.items ++ event_lines events.now) }
{
    for event in events {
        append_event(text, *event)?;
    }
    Ok(())
}

/// The text of a trace as a log of these bounds.
///
/// # Errors
/// `Memory` where a growth was refused.
pub fn trace_text(alloc: Global, bounds: Bounds, events: &[Event]) -> Result<Vec<u8>, Memory>
    ensures { IfOk result (λ text. text.items ≡ log_text bounds events.now) }
{
    let mut text = Vec::new(alloc);
    append_header(&mut text, bounds)?;
    append_events(&mut text, events)?;
    Ok(text)
}
