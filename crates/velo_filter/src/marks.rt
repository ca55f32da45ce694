//! For each thread, which of its open blocks are left out: a bit each, the innermost's the last.
ghost use Rattle.std.specs.Prelude.{◌≡◌, ◌<◌, ◌+◌, ◌*◌, ◌/◌, ◌%◌, ◌==◌, if◌then◌else◌, not, length, replicate, slice_index, slice_set, OnOk, IfOk};
ghost use Rattle.velo_filter.specs.Left.{is_left_out};
ghost use Rattle.velo_filter.specs.Marks.{AreMarks, IsShallow};
ghost use Rattle.velo_filter.specs.Tables.{left_of};

use crate::left::LeftOut;
use std::alloc::Global;
use velo_events::growth::resize;
use velo_events::{Event, Kind, Memory, ThreadId};

/// One row for each number that a thread can have.
const ROWS: usize = 256;

/// The marks where no block is open.
///
/// # Errors
/// `Memory` where a growth was refused.
pub fn no_marks(alloc: Global) -> Result<Vec<u64>, Memory>
    ensures { IfOk result (λ rows. rows.items ≡ replicate 256 0) }
{
    let mut rows = Vec::new(alloc);
    resize(&mut rows, ROWS, 0)?;
    Ok(rows)
}

/// A block begins.
#[inline]
fn open(rows: &mut [u64], thread: usize, out: bool)
    requires within { thread < length rows.old }
    requires small { slice_index rows.old thread < 4294967296 }
    ensures { rows.new ≡ slice_set rows.old thread (slice_index rows.old thread * 2 + (if out then 1 else 0)) }
{
    rows[thread] = rows[thread] * 2 + u64::from(out);
}

/// The innermost block ends. Whether it is left out.
#[inline]
fn close(rows: &mut [u64], thread: usize) -> bool
    requires within { thread < length rows.old }
    ensures out { result ≡ (slice_index rows.old thread % 2 == 1) }
    ensures rows { rows.new ≡ slice_set rows.old thread (slice_index rows.old thread / 2) }
{
    let marks = rows[thread];
    rows[thread] = marks / 2;
    marks % 2 == 1
}

/// Whether the event at the position stays. The marks are those before it, and become those after it.
pub fn stays_at(rows: &mut [u64], left: &LeftOut, events: &[Event], position: usize) -> bool
    requires within { position < length events.now }
    requires shallow { IsShallow events.now }
    requires rows { length rows.old ≡ 256 }
    requires marks { AreMarks (left_of left.now) events.now position rows.old }
    ensures stays { result ≡ not (is_left_out (left_of left.now) events.now position) }
    ensures rows { length rows.new ≡ 256 }
    ensures marks { AreMarks (left_of left.now) events.now (position + 1) rows.new }
{
    let event = events[position];
    let thread = row_of(event.thread);
    match event.kind {
        Kind::Begin(label) => {
            let out = left.has_label(label);
            open(rows, thread, out);
            !out
        }
        Kind::End => !close(rows, thread),
        _ => !left.has_access(event.kind),
    }
}

/// The row of a thread.
#[inline]
fn row_of(thread: ThreadId) -> usize
    ensures row { result ≡ thread.0 }
    ensures within { result < 256 }
{
    usize::from(thread.0)
}
