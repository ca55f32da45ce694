//! What all events of a log leave and come to, without the log.
ghost use Rattle.std.specs.Prelude.{◌≡◌, ◌<◌, List, [], ◌∷◌, ◌++◌, IfOk};
ghost use Rattle.velo_events.specs.declared.event.Event.{Event as EventOf};
ghost use Rattle.velo_heap.specs.Contents.{bounds_of};
ghost use Rattle.velo_traces.specs.Flaws.{flaw_of};
ghost use Rattle.velo_watch.specs.Whole.{IsNext, IsWholeOf};

use std::alloc::Global;
use velo_events::growth::filled;
use velo_events::{Config, Event, Memory};
use velo_heap::Heap;
use velo_traces::Flaw;

/// What all events of a log leave and come to.
#[derive(Drop)]
pub struct Whole {
    /// What they leave.
    pub(crate) heap: Heap,
    /// How many events each thread has.
    pub(crate) counts: Vec<u64>,
}

impl Whole {
    /// Of no events.
    ///
    /// # Errors
    /// `Memory` where a growth was refused. No later call takes memory.
    pub fn new(alloc: Global, config: &Config) -> Result<Whole, Memory>
        ensures bounds { IfOk result (λ whole. bounds_of whole.heap ≡ config.now.bounds) }
        ensures none { IfOk result (IsWholeOf []) }
    {
        let heap = Heap::new(alloc, config)?;
        let counts = filled(alloc, 0, usize::from(config.bounds.threads))?;
        Ok(Whole { heap, counts })
    }

    /// Why the event can't come next.
    pub fn flaw(&self, event: &Event) -> Option<Flaw>
        ensures { (log : List EventOf) → IsWholeOf log self.now
            → result ≡ flaw_of (bounds_of self.now.heap) log event.now }
    {
        match self.heap.refusal(event) {
            Some(refusal) => Some(Flaw::Refused(refusal)),
            None => {
                if self.heap.has_its_value(event) {
                    None
                } else {
                    Some(Flaw::WrongValue)
                }
            }
        }
    }

    /// Takes in the event, which comes next.
    pub fn take_in(&mut self, event: &Event)
        requires { IsNext self.old event.now }
        ensures bounds { bounds_of self.new.heap ≡ bounds_of self.old.heap }
        ensures next { (log : List EventOf) → IsWholeOf log self.old
            → IsWholeOf (log ++ event.now ∷ []) self.new }
    {
        self.heap.apply(event);
        self.counts[usize::from(event.thread.0)] += 1;
    }
}
