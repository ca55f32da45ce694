//! What is left of a log, as a trace of its own.
ghost use Rattle.std.specs.Prelude.{◌≡◌, ◌≤◌, ◌<◌, ◌+◌, ◌++◌, ◌∷◌, [], length, IfOk, OnOk};
ghost use Rattle.velo_events.specs.declared.limits.TheConstants.{MAX_EVENTS};
ghost use Rattle.velo_events.specs.declared.config.Bounds.{Bounds};
ghost use Rattle.velo_events.specs.Reordering.{IsSerializable};
ghost use Rattle.velo_events.specs.WellFormed.{IsWellFormed};
ghost use Rattle.velo_filter.specs.Left.{BlameIsKept, rest_of, places_of};
ghost use Rattle.velo_filter.specs.Marks.{IsShallow};
ghost use Rattle.velo_filter.specs.Tables.{left_of};
ghost use Rattle.velo_filter.specs.Thinned.{CanComeAbout, IsThinnedTo};

use crate::left::LeftOut;
use crate::marks::{no_marks, stays_at};
use std::alloc::Global;
use velo_events::growth::reserve;
use velo_events::{Event, Memory};
use velo_traces::Trace;

/// What is left of a log.
#[derive(Drop)]
pub struct Thinned {
    /// Its events, in their order.
    pub trace: Trace,
    /// The position of each in the log as read.
    pub places: Vec<u32>,
}

impl Thinned {
    /// Appends an event, and its position in the log as read.
    ///
    /// # Errors
    /// `Memory` where a growth was refused.
    pub fn push(&mut self, position: usize, event: Event) -> Result<(), Memory>
        requires { position < 4294967296 }
        ensures events { OnOk result (self.new.trace.events ≡ self.old.trace.events ++ event ∷ []) }
        ensures places { OnOk result (self.new.places.items ≡ self.old.places.items ++ position ∷ []) }
    {
        reserve(&mut self.places, 1)?;
        self.trace.push(event)?;
        self.places.push_reserved(position as u32);
        Ok(())
    }
}

/// Takes the event at the position in, if it stays.
fn take_in(
    thinned: &mut Thinned,
    rows: &mut [u64],
    left: &LeftOut,
    events: &[Event],
    position: usize,
) -> Result<(), Memory>
    requires within { position < length events.now }
    requires few { length events.now ≤ MAX_EVENTS }
    requires shallow { IsShallow events.now }
    requires stands { IsThinnedTo (left_of left.now) events.now position thinned.old rows.old }
    ensures { OnOk result (IsThinnedTo (left_of left.now) events.now (position + 1) thinned.new rows.new) }
{
    if stays_at(rows, left, events, position) {
        thinned.push(position, events[position])?;
    }
    Ok(())
}

/// The rest of the log, with the places of its events. The log can happen, so the blocks of a thread nest, and few are open
/// at a time.
///
/// The rest can happen too, and is serializable where the log is. A block that is to blame in it is so in the log.
///
/// # Errors
/// `Memory` where a growth was refused.
pub fn thin(alloc: Global, log: &Trace, left: &LeftOut) -> Result<Thinned, Memory>
    requires few { length log.now.events ≤ MAX_EVENTS }
    requires can_come_about { CanComeAbout log.now.events }
    ensures events { IfOk result (λ thinned. thinned.trace.events ≡ rest_of (left_of left.now) log.now.events) }
    ensures places { IfOk result (λ thinned. thinned.places.items ≡ places_of (left_of left.now) log.now.events) }
    ensures well_formed { IfOk result (λ thinned. (bounds : Bounds) → IsWellFormed bounds log.now.events → IsWellFormed bounds thinned.trace.events) }
    ensures serializable { IfOk result (λ thinned. IsSerializable log.now.events → IsSerializable thinned.trace.events) }
    ensures blame { IfOk result (λ thinned. BlameIsKept (left_of left.now) log.now.events) }
{
    let events = log.as_slice();
    let mut rows = no_marks(alloc)?;
    let mut thinned = Thinned {
        trace: Trace::new(alloc),
        places: Vec::new(alloc),
    };
    for position in 0..events.len() {
        take_in(&mut thinned, &mut rows, left, events, position)?;
    }
    Ok(thinned)
}
