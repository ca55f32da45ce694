//! Reading a schedule of a file.
ghost use Rattle.std.specs.Prelude.{IfErr, IfOk};
ghost use Rattle.velo_schedule_text.specs.File.{AreOfText, IsFaultOfBytes, IsScheduleIn};

use crate::limits::MAX_SCHEDULE_BYTES;
use crate::schedule::{ScheduleFault, turns_of};
use std::alloc::Global;
use velo_events::ThreadId;

/// The text without one newline at its end.
fn without_newline(text: &str) -> &str
    ensures { AreOfText text.now result.now }
{
    match text.strip_suffix('\n') {
        Some(text) => text,
        None => text,
    }
}

/// Reads the schedule that the bytes of a file say: its turns, as [`turns_of`] takes them, and at
/// most one newline after them. More bytes than [`MAX_SCHEDULE_BYTES`] say none.
///
/// # Errors
/// `Bad` for other bytes, `Memory` if an allocation failed.
pub fn schedule_in(alloc: Global, bytes: &[u8]) -> Result<Vec<ThreadId>, ScheduleFault>
    ensures schedule { IfOk result (λ schedule. IsScheduleIn bytes.now schedule.items) }
    ensures fault { IfErr result (IsFaultOfBytes bytes.now) }
{
    if bytes.len() > MAX_SCHEDULE_BYTES {
        return Err(ScheduleFault::Bad);
    }
    match std::str::from_utf8(bytes) {
        Ok(text) => turns_of(alloc, without_newline(text)),
        Err(_) => Err(ScheduleFault::Bad),
    }
}
