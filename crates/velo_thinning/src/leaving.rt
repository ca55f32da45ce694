//! A log without the accesses that repeat one just before them.
ghost use Rattle.std.specs.Prelude.{◌≡◌, ◌≤◌, ◌<◌, ◌+◌, ◌++◌, ◌∷◌, [], length, IfOk, OnOk};
ghost use Rattle.velo_events.specs.declared.limits.TheConstants.{MAX_EVENTS};
ghost use Rattle.velo_filter.specs.Tables.{marked};
ghost use Rattle.velo_thinning.specs.Repeating.{IsWithoutRepeats};
ghost use Rattle.velo_thinning.specs.Finding.{IsLeftTo};

use crate::finder::repeats;
use std::alloc::Global;
use velo_events::growth::reserve;
use velo_events::{Event, Memory};
use velo_filter::Thinned;
use velo_traces::Trace;

/// Takes the event at the position in.
///
/// # Errors
/// `Memory` where a growth was refused.
fn push(left: &mut Thinned, position: usize, event: Event) -> Result<(), Memory>
    requires { position < 4294967296 }
    ensures events { OnOk result (left.new.trace.events ≡ left.old.trace.events ++ event ∷ []) }
    ensures places { OnOk result (left.new.places.items ≡ left.old.places.items ++ position ∷ []) }
{
    reserve(&mut left.places, 1)?;
    left.trace.push(event)?;
    left.places.push_reserved(position as u32);
    Ok(())
}

/// Takes the event at the position in, unless it is marked.
///
/// # Errors
/// `Memory` where a growth was refused.
fn take_in(
    left: &mut Thinned,
    marks: &[bool],
    events: &[Event],
    position: usize,
) -> Result<(), Memory>
    requires within { position < length events.now }
    requires few { length events.now ≤ MAX_EVENTS }
    requires count { length marks.now ≡ length events.now }
    requires stands { IsLeftTo (marked marks.now) events.now position left.old }
    ensures { OnOk result (IsLeftTo (marked marks.now) events.now (position + 1) left.new) }
{
    if !marks[position] {
        push(left, position, events[position])?;
    }
    Ok(())
}

/// What is left of a log without the accesses that repeat one just before them, with the places of its events in the log.
///
/// # Errors
/// `Memory` where a growth was refused.
pub fn without_repeats(alloc: Global, log: &Trace) -> Result<Thinned, Memory>
    requires few { length log.now.events ≤ MAX_EVENTS }
    ensures { IfOk result (IsWithoutRepeats log.now.events) }
{
    let marks = repeats(alloc, log)?;
    let events = log.as_slice();
    let mut left = Thinned {
        trace: Trace::new(alloc),
        places: Vec::new(alloc),
    };
    for position in 0..events.len() {
        take_in(&mut left, &marks, events, position)?;
    }
    Ok(left)
}
