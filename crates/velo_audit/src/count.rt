//! How many labels are atomic.
ghost use Rattle.std.specs.Prelude.{◌≡◌, ◌<◌, ◌+◌, length, IfOk, OnOk};
ghost use Rattle.velo_filter.specs.Tables.{left_of, members};
ghost use Rattle.velo_audit.specs.Count.{IsCountedTo};
ghost use Rattle.velo_audit.specs.Rounds.{labels_left};

use std::alloc::Global;
use velo_events::{Event, Kind, Memory};
use velo_filter::{LabelSet, LeftOut};
use velo_traces::Trace;

/// How many labels have a begin in the log and are not left out. Behind an audit these are the atomic ones.
///
/// # Errors
/// `Memory` where a growth was refused.
pub fn count_labels_left(alloc: Global, log: &Trace, left: &LeftOut) -> Result<usize, Memory>
    ensures { IfOk result (λ count. count ≡ labels_left (left_of left.now) log.now.events) }
{
    let events = log.as_slice();
    let mut seen = LabelSet::new(alloc);
    let mut count = 0;
    for position in 0..events.len() {
        count_in(&mut seen, &mut count, left, events, position)?;
    }
    Ok(count)
}

/// Counts the label that the event at the position begins, if it is the first time and the label is not left out.
fn count_in(
    seen: &mut LabelSet,
    count: &mut usize,
    left: &LeftOut,
    events: &[Event],
    position: usize,
) -> Result<(), Memory>
    requires within { position < length events.now }
    requires stands { IsCountedTo (left_of left.now) events.now position (members seen.old) count.old }
    ensures { OnOk result (IsCountedTo (left_of left.now) events.now (position + 1) (members seen.new) count.new) }
{
    let Kind::Begin(label) = events[position].kind else {
        return Ok(());
    };
    if seen.contains(label) {
        return Ok(());
    }
    seen.insert(label)?;
    if !left.has_label(label) {
        *count += 1;
    }
    Ok(())
}
