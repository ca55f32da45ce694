//! The schedule of a replay.

use std::alloc::Global;
use velo_check::{Beside, Fate, Files, Operand, ScheduleSource, read_file};
use velo_events::ThreadId;
use velo_schedule_text::{MAX_SCHEDULE_BYTES, schedule_in, schedule_of, turns_of};

/// The schedule that the bytes of a file say.
///
/// # Errors
/// `Schedule` with the fault for which they say none.
fn schedule_of_bytes(alloc: Global, bytes: &[u8]) -> Result<Vec<ThreadId>, Fate> {
    schedule_in(alloc, bytes).map_err(Fate::Schedule)
}

/// The schedule of the file at a path.
fn schedule_at<F: Files>(alloc: Global, path: &str, files: &F) -> Result<Vec<ThreadId>, Fate> {
    let bytes = match read_file(alloc, path, MAX_SCHEDULE_BYTES, files) {
        Ok(bytes) => bytes,
        Err(fate) => return Err(fate),
    };
    schedule_of_bytes(alloc, &bytes)
}

/// The schedule that a replay is given: by its text, by its turns or by the path of a file with
/// these.
///
/// # Errors
/// `Schedule` where there is none; for a file also `CannotOpen` where it does not open,
/// `ReadFailed` where it failed, `Memory` where a growth was refused.
pub fn schedule_of_source<F: Files>(
    alloc: Global,
    source: ScheduleSource,
    files: &F,
) -> Result<Vec<ThreadId>, Fate> {
    match source {
        ScheduleSource::Text(text) => schedule_of(alloc, text).map_err(Fate::Schedule),
        ScheduleSource::Turns(text) => turns_of(alloc, text).map_err(Fate::Schedule),
        ScheduleSource::File(path) => schedule_at(alloc, path, files),
    }
}

/// The file of a schedule, which is read beside the workload, if it is in one.
pub fn schedule_beside<'p>(source: ScheduleSource<'p>) -> Beside<'p> {
    Beside {
        operand: Operand::Turns,
        path: match source {
            ScheduleSource::Text(_) | ScheduleSource::Turns(_) => None,
            ScheduleSource::File(path) => Some(path),
        },
    }
}
