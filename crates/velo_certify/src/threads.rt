//! The events of each thread in their order, and how far each thread's are listed.
ghost use Rattle.std.specs.Prelude.{◌≡◌, ◌<◌, ◌+◌, length, IfOk};
ghost use Rattle.velo_traces.specs.Places.{AllHavePlaces, sizes_of};
ghost use Rattle.velo_certify.specs.Threads.{AreFirstFrom, AreFollowing, NamesFronts};

use std::alloc::Global;
use velo_events::growth::filled;
use velo_events::{Event, Memory};
use velo_traces::Counts;

/// Each place that is not there is the number of positions.
#[derive(Drop)]
pub(crate) struct Threads {
    /// For each thread its first position that is not listed.
    pub fronts: Vec<usize>,
    /// For each position the next one of its thread.
    pub following: Vec<usize>,
}

impl Threads {
    /// The threads of the events, where none is listed.
    ///
    /// # Errors
    /// `Memory` if an allocation failed.
    pub fn new(alloc: Global, events: &[Event], counts: Counts) -> Result<Threads, Memory>
        requires { AllHavePlaces (sizes_of counts.threads counts.cells) events.now (length events.now) }
        ensures names { IfOk result (λ threads. NamesFronts events.now threads.fronts.items) }
        ensures fronts { IfOk result (λ threads. AreFirstFrom events.now 0 threads.fronts.items) }
        ensures following { IfOk result (λ threads. AreFollowing events.now 0 threads.following.items) }
    {
        let mut fronts = filled(alloc, events.len(), counts.threads)?;
        let mut following = filled(alloc, events.len(), events.len())?;
        let mut at = events.len();
        while at > 0 {
            at -= 1;
            let thread = events[at].thread.0 as usize;
            following[at] = fronts[thread];
            fronts[thread] = at;
        }
        Ok(Threads { fronts, following })
    }
}
