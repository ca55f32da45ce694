//! Lines of a log, put into a buffer.
ghost use Rattle.std.specs.Prelude.{◌≡◌, ◌<◌, ◌≤◌, ◌+◌, ◌++◌, drop, length, take};
ghost use Rattle.velo_logtext.specs.Text.{event_line, event_lines};
ghost use Rattle.velo_ffi.specs.Pieces.{head_at};

use velo_bytes::{put_bytes, put_number};
use velo_events::{Bounds, Event};
use velo_logtext::put_kind;

/// Room that is enough for a line.
pub const LINE_ROOM: usize = 90;

/// Puts the line of an event, of at most 90 bytes.
#[tactic(auto, unfolding(velo_logtext::specs::Text::event_line))]
pub fn put_line(buffer: &mut [u8], at: usize, event: Event) -> usize
    requires { at + LINE_ROOM ≤ length buffer.old }
    ensures text { take result buffer.new ≡ take at buffer.old ++ event_line event }
    ensures end { result ≤ at + LINE_ROOM }
{
    let at = put_number(buffer, at, u64::from(event.thread.0));
    let at = put_bytes(buffer, at, b" ");
    let at = put_kind(buffer, at, event.kind);
    put_bytes(buffer, at, b"\n")
}

/// Puts the header at the front, if the next event is the first.
#[tactic(auto, unfolding(velo_logtext::specs::Text::header_line))]
pub fn put_head(buffer: &mut [u8], bounds: Bounds, from: usize) -> usize
    requires { LINE_ROOM ≤ length buffer.old }
    ensures text { take result buffer.new ≡ head_at bounds from }
    ensures end { result ≤ LINE_ROOM }
{
    if from != 0 {
        return 0;
    }
    let at = put_bytes(buffer, 0, b"vlog 2 ");
    let at = put_number(buffer, at, u64::from(bounds.threads));
    let at = put_bytes(buffer, at, b" ");
    let at = put_number(buffer, at, u64::from(bounds.variables));
    let at = put_bytes(buffer, at, b" ");
    let at = put_number(buffer, at, u64::from(bounds.locks));
    put_bytes(buffer, at, b"\n")
}

/// How long the line of the first event is, if there is one.
pub fn first_length(events: &[Event]) -> usize
    ensures length { result ≡ length (event_lines (take 1 events.now)) }
    ensures short { result ≤ LINE_ROOM }
{
    let mut line = [0u8; LINE_ROOM];
    match events.first() {
        None => 0,
        Some(event) => put_line(&mut line, 0, *event),
    }
}

/// Puts the lines of events, as many as there is room for, and returns the place after them and how
/// many they are: at least one, if there is room for the first.
pub fn put_lines(buffer: &mut [u8], at: usize, events: &[Event]) -> (usize, usize)
    requires { at ≤ length buffer.old }
    ensures text { take result.0 buffer.new ≡ take at buffer.old ++ event_lines (take result.1 events.now) }
    ensures within { result.0 ≤ length buffer.new }
    ensures count { result.1 ≤ length events.now }
    ensures some { 0 < length events.now → at + length (event_lines (take 1 events.now)) ≤ length buffer.old → 0 < result.1 }
    ensures most { result.1 < length events.now → length buffer.new < result.0 + length (event_lines (take 1 (drop result.1 events.now))) }
{
    let mut used = at;
    for count in 0..events.len() {
        let mut line = [0u8; LINE_ROOM];
        let end = put_line(&mut line, 0, events[count]);
        if end > buffer.len() - used {
            return (used, count);
        }
        used = put_bytes(buffer, used, &line[..end]);
    }
    (used, events.len())
}
