//! A state of a search: all of a log that its continuations depend on.
ghost use Rattle.std.specs.Prelude.{◌≡◌, ◌+◌, ◌^◌, ◌<◌, ◌↔◌, [], ◌∷◌, ◌++◌, List, length, slice_index_or, IsTrue, IfOk};
ghost use Rattle.velo_events.specs.declared.event.Event.{Event};
ghost use Rattle.velo_events.specs.Event.{thread_of};
ghost use Rattle.velo_events.specs.Graph.{HasCycle};
ghost use Rattle.velo_events.specs.Heap.{status_in};
ghost use Rattle.velo_events.specs.Meaning.{is_unborn, refusal_of};
ghost use Rattle.velo_events.specs.Tally.{events_of};
ghost use Rattle.velo_heap.specs.Contents.{bounds_of, IsAdmitted};

use crate::copied::copied;
use crate::key::mixed;
use crate::marks::Marks;
use crate::part::Part;
use std::alloc::Global;
use velo_events::growth::filled;
use velo_events::{Config, Event, Memory, Refusal, ThreadId};
use velo_heap::Heap;

/// All of a log that its continuations depend on: how many events each thread has done, how threads, locks and variables
/// stand, and, in what is left of the log, which unfinished transactions reach which groups of events.
#[derive(Drop)]
pub struct State {
    next: Vec<u32>,
    heap: Heap,
    marks: Marks,
    /// Where the event that led to it stands in the trail of the search, 0 at the start.
    place: usize,
    ghost each: { length next.items ≡ (bounds_of heap).threads },
    ghost same: { marks.bounds ≡ bounds_of heap },
}

/// Whether the numbers are the same.
fn are_same(one: &[u32], other: &[u32]) -> bool
    ensures { IsTrue result ↔ (one.now ≡ other.now) }
{
    one == other
}

impl State {
    ghost use Rattle.velo_search.specs.Parts.{IsPart};
    ghost use Rattle.velo_search.specs.States.{AreSameStates, IsStateOf};

    /// The state of the log without events.
    ///
    /// # Errors
    /// `Memory` where a growth was refused.
    pub fn new(alloc: Global, config: &Config) -> Result<State, Memory>
        ensures bounds { IfOk result (λ s. bounds_of s.heap ≡ config.now.bounds) }
        ensures place { IfOk result (λ s. s.place ≡ 0) }
        ensures start { IfOk result (λ s. (rest : List Event → List Event) → rest [] ≡ [] → IsStateOf rest [] s) }
    {
        let heap = Heap::new(alloc, config)?;
        let marks = Marks::new(alloc, config.bounds)?;
        let next = filled(alloc, 0u32, usize::from(config.bounds.threads))?;
        Ok(State {
            next,
            heap,
            marks,
            place: 0,
        })
    }

    /// The same state once more.
    ///
    /// # Errors
    /// `Memory` where a growth was refused.
    pub fn copy(&self, alloc: Global) -> Result<State, Memory>
        ensures bounds { IfOk result (λ s. bounds_of s.heap ≡ bounds_of self.now.heap) }
        ensures next { IfOk result (λ s. s.next.items ≡ self.now.next.items) }
        ensures place { IfOk result (λ s. s.place ≡ self.now.place) }
        ensures same { IfOk result (λ s. (rest : List Event → List Event) (log : List Event) →
            IsStateOf rest log self.now → IsStateOf rest log s) }
    {
        let next = copied(alloc, &self.next)?;
        let heap = self.heap.copy(alloc)?;
        let marks = self.marks.copy(alloc)?;
        Ok(State {
            next,
            heap,
            marks,
            place: self.place,
        })
    }

    /// Whether the states are the same, wherever they come from.
    pub fn is_same(&self, other: &State) -> bool
        ensures { IsTrue result ↔ AreSameStates self.now other.now }
    {
        are_same(&self.next, &other.next)
            && self.heap.is_same(&other.heap)
            && self.marks.is_same(&other.marks)
    }

    /// A number made of the state.
    pub fn key(&self) -> u64 {
        let mut key = 0;
        for count in &self.next {
            key = mixed(key, u64::from(*count));
        }
        self.marks.key(key)
    }

    /// Where the event that led to it stands in the trail of the search.
    pub fn place(&self) -> usize
        ensures { result ≡ self.now.place }
    {
        self.place
    }

    /// How many threads there are.
    pub fn threads(&self) -> u8
        ensures { result ≡ (bounds_of self.now.heap).threads }
    {
        self.marks.threads()
    }

    /// How many events the thread has done.
    pub fn done_by(&self, thread: ThreadId) -> u32
        requires { thread.0 < (bounds_of self.now.heap).threads }
        ensures { (rest : List Event → List Event) (log : List Event) → IsStateOf rest log self.now →
            result ≡ events_of log thread.0 }
    {
        self.next[usize::from(thread.0)]
    }

    /// Whether nobody has forked the thread yet, and it is not thread 0.
    pub fn is_unborn(&self, thread: ThreadId) -> bool
        requires { thread.0 < (bounds_of self.now.heap).threads }
        ensures { (rest : List Event → List Event) (log : List Event) → IsStateOf rest log self.now →
            result ≡ is_unborn (status_in log thread.0) }
    {
        self.heap.status(thread).is_unborn()
    }

    /// Why the event may not come next: the first refusal that applies, from `NotLive` (2) to `LockHeld` (16).
    pub fn refusal(&self, event: &Event) -> Option<Refusal>
        ensures { (rest : List Event → List Event) (log : List Event) → IsStateOf rest log self.now →
            result ≡ refusal_of (bounds_of self.now.heap) log (thread_of event.now) event.now.kind }
    {
        self.heap.refusal(event)
    }

    /// Whether what is left of the log has a cycle.
    pub fn is_alarmed(&self) -> bool
        ensures value { result ≡ self.now.marks.alarmed }
        ensures cycle { (rest : List Event → List Event) (log : List Event) →
            IsStateOf rest log self.now → (IsTrue result ↔ HasCycle (rest log)) }
    {
        self.marks.is_alarmed()
    }

    /// One more event, which is this part of what is left of the log, and stands at the place in the trail.
    pub fn step(&mut self, event: &Event, part: Part, place: usize)
        requires admitted { IsAdmitted self.old.heap event.now }
        requires room { slice_index_or self.old.next.items (thread_of event.now) 0 + 1 < 2 ^ 32 }
        ensures bounds { bounds_of self.new.heap ≡ bounds_of self.old.heap }
        ensures place { self.new.place ≡ place }
        ensures next { (rest : List Event → List Event) (log : List Event) → IsStateOf rest log self.old →
            IsPart rest (bounds_of self.old.heap) log event.now part → IsStateOf rest (log ++ event.now ∷ []) self.new }
    {
        self.heap.apply(event);
        self.marks.take_in(event, part);
        self.next[usize::from(event.thread.0)] += 1;
        self.place = place;
    }
}
