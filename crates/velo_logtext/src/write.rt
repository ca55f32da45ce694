//! Writing a log to a sink.
ghost use Rattle.std.specs.Prelude.{◌≡◌, ◌≤◌, ◌+◌, ◌++◌, true, length, take, decimal, OnOk, OnErr};
ghost use Rattle.std.specs.Io.KnownBytes.{Appends};
ghost use Rattle.velo_events.specs.declared.limits.TheConstants.{MAX_EVENTS};
ghost use Rattle.velo_bytes.specs.Device.{with_failure, AppendsBeginning};
ghost use Rattle.velo_logtext.specs.declared.write.TheConstants.{LINE_ROOM, KIND_ROOM};
ghost use Rattle.velo_logtext.specs.Text.{AreBounds, IsEvent, IsLogText, kind_text, event_line, header_line, log_text};

use velo_bytes::{Sink, WriteFault, put_bytes, put_number, write_all};
use velo_events::{Bounds, Event, Kind};
use velo_traces::Trace;

/// How many bytes are gathered on the stack before they are written, since writing takes no memory.
const ROOM: usize = 8_192;

/// Room that is enough for a line.
const LINE_ROOM: usize = 90;

/// Room that is enough for an operation.
pub const KIND_ROOM: usize = 60;

/// Puts a word of at most 6 bytes and a number.
fn put_word(buffer: &mut [u8], at: usize, word: &[u8], number: u64) -> usize
    requires short { length word.now ≤ 6 }
    requires room { at + 26 ≤ length buffer.old }
    ensures text { take result buffer.new ≡ take at buffer.old ++ (word.now ++ decimal number) }
    ensures end { result ≤ at + 26 }
{
    let at = put_bytes(buffer, at, word);
    put_number(buffer, at, number)
}

/// Puts the words of an operation, of at most [`KIND_ROOM`] bytes, at a place of a buffer, and returns the place after them.
pub fn put_kind(buffer: &mut [u8], at: usize, kind: Kind) -> usize
    requires { at + KIND_ROOM ≤ length buffer.old }
    ensures text { take result buffer.new ≡ take at buffer.old ++ kind_text kind }
    ensures end { result ≤ at + KIND_ROOM }
{
    match kind {
        Kind::Read(x, value) => {
            let at = put_word(buffer, at, b"rd ", u64::from(x.0));
            put_word(buffer, at, b" ", value)
        }
        Kind::Write(x, value) => {
            let at = put_word(buffer, at, b"wr ", u64::from(x.0));
            put_word(buffer, at, b" ", value)
        }
        Kind::Acquire(m) => put_word(buffer, at, b"acq ", u64::from(m.0)),
        Kind::Release(m) => put_word(buffer, at, b"rel ", u64::from(m.0)),
        Kind::AcquireShared(m) => put_word(buffer, at, b"acqs ", u64::from(m.0)),
        Kind::ReleaseShared(m) => put_word(buffer, at, b"rels ", u64::from(m.0)),
        Kind::Begin(label) => put_word(buffer, at, b"begin ", u64::from(label.0)),
        Kind::End => put_bytes(buffer, at, b"end"),
        Kind::Fork(u) => put_word(buffer, at, b"fork ", u64::from(u.0)),
        Kind::Join(u) => put_word(buffer, at, b"join ", u64::from(u.0)),
        Kind::Exit => put_bytes(buffer, at, b"exit"),
    }
}

/// Puts the line of an event.
#[tactic(auto, unfolding(crate::specs::Text::event_line))]
fn put_event(buffer: &mut [u8], at: usize, event: Event) -> usize
    requires { at + LINE_ROOM ≤ length buffer.old }
    ensures text { take result buffer.new ≡ take at buffer.old ++ event_line event }
    ensures end { result ≤ at + LINE_ROOM }
    ensures fits { IsEvent event }
{
    let at = put_number(buffer, at, u64::from(event.thread.0));
    let at = put_bytes(buffer, at, b" ");
    let at = put_kind(buffer, at, event.kind);
    put_bytes(buffer, at, b"\n")
}

/// Puts the header at the front.
#[tactic(auto, unfolding(crate::specs::Text::header_line))]
fn put_header(buffer: &mut [u8], bounds: Bounds) -> usize
    requires { LINE_ROOM ≤ length buffer.old }
    ensures text { take result buffer.new ≡ header_line (true, bounds) }
    ensures end { result ≤ LINE_ROOM }
{
    let at = put_bytes(buffer, 0, b"vlog 2 ");
    let at = put_number(buffer, at, u64::from(bounds.threads));
    let at = put_word(buffer, at, b" ", u64::from(bounds.variables));
    let at = put_word(buffer, at, b" ", u64::from(bounds.locks));
    put_bytes(buffer, at, b"\n")
}

/// Writes a log: the one text of its bounds and events. The bounds have to be in the ranges of a configuration, and the
/// events at most [`MAX_EVENTS`](velo_events::MAX_EVENTS).
///
/// # Errors
/// `WriteFault` where the sink failed. A beginning of the text was written then.
pub fn write_log<S: Sink>(bounds: Bounds, trace: &Trace, sink: &mut S) -> Result<(), WriteFault>
    requires bounds { AreBounds bounds }
    requires few { length trace.now.events ≤ MAX_EVENTS }
    ensures ok { OnOk result (Appends (S.contents sink.old) (S.contents sink.new) (log_text bounds trace.now.events)) }

    // After a fault a beginning of the text went out, and the sink has failed once more.
    ensures err { OnErr result
        (AppendsBeginning (S.contents sink.old) (S.contents sink.new) (log_text bounds trace.now.events)) }
    ensures no_failure { OnOk result (S.failures sink.new ≡ S.failures sink.old) }
    ensures failure { OnErr result (S.failures sink.new ≡ with_failure (S.failures sink.old)) }

    // What is written is read again as these bounds and events.
    ensures text { OnOk result (IsLogText (log_text bounds trace.now.events) bounds trace.now.events) }
{
    let mut buffer = [0u8; ROOM];
    let mut used = put_header(&mut buffer, bounds);
    for event in trace.as_slice() {
        if used > ROOM - LINE_ROOM {
            write_all(sink, &buffer[..used])?;
            used = 0;
        }
        used = put_event(&mut buffer, used, *event);
    }
    let rest = &buffer[..used];
    write_all(sink, rest)
}
