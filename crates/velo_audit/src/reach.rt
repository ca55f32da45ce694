//! How far back one thread is known to events of others that interrupt it.
ghost use Rattle.std.specs.Prelude.{◌≡◌, ◌+◌, ◌<◌, ◌^◌, ℕ, List, Some, slice_get, IfOk};
ghost use Rattle.velo_events.specs.declared.event.Event.{Event as EventOf};
ghost use Rattle.velo_traces.specs.Places.{sizes, sizes_of, HasPlaces};
ghost use Rattle.velo_blame.specs.Blamed.{cells_of};
ghost use Rattle.velo_audit.specs.Reach.{ReachesUpTo};

use std::alloc::Global;
use velo_events::{Bounds, Event, Memory, ThreadId};
use velo_traces::ConflictTable;

/// What the events so far know of one thread.
#[derive(Drop)]
pub(crate) struct Reach {
    /// The last position of the thread that each event knows.
    known: ConflictTable,
    /// The same of the events of other threads alone.
    others: ConflictTable,
    /// A block of the thread that is open is to blame if it begins below.
    pub(crate) bound: usize,
}

impl Reach {
    /// With places for the threads and cells of a run.
    pub(crate) fn new(alloc: Global, bounds: Bounds) -> Result<Reach, Memory>
        ensures known { IfOk result (λ reach. sizes reach.known
            ≡ sizes_of bounds.threads (cells_of bounds.variables bounds.locks)) }
        ensures others { IfOk result (λ reach. sizes reach.others
            ≡ sizes_of bounds.threads (cells_of bounds.variables bounds.locks)) }
    {
        let threads = usize::from(bounds.threads);
        let cells = 2 * usize::from(bounds.variables.max(bounds.locks));
        let known = ConflictTable::new(alloc, threads, cells)?;
        let others = ConflictTable::new(alloc, threads, cells)?;
        Ok(Reach {
            known,
            others,
            bound: 0,
        })
    }

    /// Forgets all.
    pub(crate) fn clear(&mut self)
        ensures known { sizes self.new.known ≡ sizes self.old.known }
        ensures others { sizes self.new.others ≡ sizes self.old.others }
        ensures start { (log : List EventOf) (t : ℕ) → ReachesUpTo log t 0 self.new.known self.new.others self.new.bound }
    {
        self.known.clear();
        self.others.clear();
        self.bound = 0;
    }

    /// Takes in the event at a position, where those before it are taken in.
    pub(crate) fn take_in(&mut self, event: Event, at: usize, thread: ThreadId)
        requires known { HasPlaces (sizes self.old.known) event }
        requires others { HasPlaces (sizes self.old.others) event }
        requires small { at + 1 < 2 ^ 64 }
        ensures known { sizes self.new.known ≡ sizes self.old.known }
        ensures others { sizes self.new.others ≡ sizes self.old.others }
        ensures next { (log : List EventOf) → slice_get log at ≡ Some event
            → ReachesUpTo log thread.0 at self.old.known self.old.others self.old.bound
            → ReachesUpTo log thread.0 (at + 1) self.new.known self.new.others self.new.bound }
    {
        if event.thread == thread {
            self.bound = self.bound.max(self.others.look_up(event));
            self.known.record(event, at + 1);
        } else {
            let number = self.known.look_up(event);
            self.known.record(event, number);
            self.others.record(event, number);
        }
    }
}
