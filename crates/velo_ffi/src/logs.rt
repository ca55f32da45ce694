//! The text of the log, in pieces of whole lines.
ghost use Rattle.std.specs.Prelude.{◌≡◌, ◌≢◌, None, IfSome};
ghost use Rattle.velo_ffi.specs.Pieces.{TellsPiece};

use crate::answers::{BAD_NUMBER, CLOSED, DONE, TOO_SHORT};
use crate::lines::{LINE_ROOM, first_length, put_head, put_lines};
use crate::monitor::Monitor;
use crate::watch::Watch;
use std::alloc::Global;
use velo_bytes::put_bytes;

/// Puts the lines from an event on, as many as there is room for, and before the first event the
/// header.
fn put_piece(
    watch: &Watch,
    from: usize,
    buffer: &mut [u8],
    count: &mut usize,
    next: &mut usize,
) -> u32
    ensures told { TellsPiece watch.now.world.config.bounds watch.now.world.log from result buffer.new count.new next.new }
    ensures same { result ≢ DONE → buffer.new ≡ buffer.old }
    ensures still { result ≢ DONE → next.new ≡ next.old }
    ensures untold { result ≢ DONE → result ≢ TOO_SHORT → count.new ≡ count.old }
{
    let log = watch.world.log().as_slice();
    if from > log.len() {
        return BAD_NUMBER;
    }
    let rest = &log[from..];
    let mut header = [0u8; LINE_ROOM];
    let head = put_head(&mut header, watch.world.bounds(), from);
    let needed = head + first_length(rest);
    if needed > buffer.len() {
        *count = needed;
        return TOO_SHORT;
    }
    let at = put_bytes(buffer, 0, &header[..head]);
    let (used, lines) = put_lines(buffer, at, rest);
    *count = used;
    *next = from + lines;
    DONE
}

/// Writes the lines of the log from an event on to a buffer, whole lines as many as it has room
/// for, and before the first event the header; returns how many bytes these are, and the event to
/// go on from, which is the number of events at the end.
///
/// Where not even one line has room, `TOO_SHORT` with the length that is needed; the buffer is as
/// it was. One of 180 bytes is always long enough.
#[unsafe(no_mangle)]
pub extern "C" fn velo_log(
    alloc: Global,
    monitor: &mut Monitor,
    from: usize,
    buffer: &mut [u8],
    count: &mut usize,
    next: &mut usize,
) -> u32
    ensures kept { monitor.new.kept.watch ≡ monitor.old.kept.watch }
    ensures told { IfSome monitor.old.kept.watch (λ watch. TellsPiece watch.world.config.bounds watch.world.log from result buffer.new count.new next.new) }
    ensures closed { monitor.old.kept.watch ≡ None → result ≡ CLOSED }
    ensures same { result ≢ DONE → buffer.new ≡ buffer.old }
    ensures still { result ≢ DONE → next.new ≡ next.old }
    ensures untold { result ≢ DONE → result ≢ TOO_SHORT → count.new ≡ count.old }
{
    let Some(watch) = monitor.take(alloc) else {
        return CLOSED;
    };
    let status = put_piece(&watch, from, buffer, count, next);
    *monitor = Monitor::of(watch);
    status
}
