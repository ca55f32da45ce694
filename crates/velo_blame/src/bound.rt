//! How far back the events before a position know its thread, found in one pass over them.
ghost use Rattle.std.specs.Prelude.{◌≡◌, ◌+◌, ◌^◌, ◌<◌, length};
ghost use Rattle.velo_events.specs.Event.{thread_of};
ghost use Rattle.velo_events.specs.Conflict.{conflict};
ghost use Rattle.velo_traces.specs.Places.{sizes, HasPlaces, AllHavePlaces};
ghost use Rattle.velo_blame.specs.Known.{is_by_others, IsBound, TakesIn};

use velo_events::{Event, ThreadId, conflicts};
use velo_traces::ConflictTable;

/// Records the event at a position, where those before it are recorded, with what it knows of the
/// thread: the last position of the thread that happens before it, or is it, counted from 1; 0
/// where there is none. Returns this number.
fn take_in(known: &mut ConflictTable, event: Event, at: usize, thread: ThreadId) -> usize
    requires places { HasPlaces (sizes known.old) event }
    requires small { at + 1 < 2 ^ 64 }
    ensures taken { TakesIn known.old event thread.0 at known.new result }
    ensures sizes { sizes known.new ≡ sizes known.old }
{
    let number = if event.thread == thread {
        at + 1
    } else {
        known.look_up(event)
    };
    known.record(event, number);
    number
}

/// Whether an event is of another thread than a later one and conflicts with it.
fn interrupts(event: &Event, last: &Event) -> bool
    ensures { result ≡ is_by_others (thread_of last.now) (λ f. conflict f last.now) event.now }
{
    conflicts(event, last) && event.thread != last.thread
}

/// Which begins of the thread at a position come before an earlier event of another thread that
/// conflicts with the event there: those below the number that is returned. One pass over the
/// events.
pub(crate) fn bound_at(known: &mut ConflictTable, events: &[Event], position: usize) -> usize
    requires within { position < length events.now }
    requires places { AllHavePlaces (sizes known.old) events.now (position + 1) }
    ensures bound { IsBound events.now position result }
    ensures sizes { sizes known.new ≡ sizes known.old }
{
    let last = events[position];
    known.clear();
    let mut bound: usize = 0;
    for at in 0..position {
        let event = events[at];
        let number = take_in(known, event, at, last.thread);
        if interrupts(&event, &last) {
            bound = bound.max(number);
        }
    }
    bound
}
