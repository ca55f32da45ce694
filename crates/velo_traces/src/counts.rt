//! How many threads and cells some events name.
ghost use Rattle.std.specs.Prelude.{length};
ghost use Rattle.velo_traces.specs.Places.{sizes_of, HasPlaces, AllHavePlaces, AreAtLeast};

use velo_events::{Access, Event};

/// Numbers above those of all threads and cells that were named.
#[derive(Clone, Copy, PartialEq, Eq)]
pub struct Counts {
    /// Of threads.
    pub threads: usize,
    /// Of cells.
    pub cells: usize,
}

impl Counts {
    /// With those that the event names.
    fn with(self, event: Event) -> Counts
        ensures places { HasPlaces (sizes_of result.threads result.cells) event }
        ensures more { AreAtLeast result self }
    {
        let threads = self.threads.max(event.thread.0 as usize + 1);
        match event.kind.access() {
            Access::Shared(c) | Access::Exclusive(c) => Counts {
                threads,
                cells: self.cells.max(c.0 as usize + 1),
            },
            Access::Fork(u) | Access::Join(u) => Counts {
                threads: threads.max(u.0 as usize + 1),
                ..self
            },
            Access::Nothing => Counts { threads, ..self },
        }
    }
}

/// Numbers above those of all threads and cells that the events name.
pub fn counts_of(events: &[Event]) -> Counts
    ensures { AllHavePlaces (sizes_of result.threads result.cells) events.now (length events.now) }
{
    let mut counts = Counts {
        threads: 0,
        cells: 0,
    };
    for i in 0..events.len() {
        counts = counts.with(events[i]);
    }
    counts
}
