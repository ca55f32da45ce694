//! A run that is tried: the events of a log in another order, while they can be done.
ghost use Rattle.std.specs.Prelude.{◌≡◌, ◌<◌, ◌≤◌, IfOk, IfSome};
ghost use Rattle.velo_heap.specs.Contents.{bounds_of, IsAdmitted};
ghost use Rattle.velo_delays.specs.Stands.{Stands};

use crate::lookup::{Lookup, number_at, put_number};
use crate::marks::Marks;
use std::alloc::Global;
use velo_events::growth::{filled, with_capacity};
use velo_events::{Action, Bounds, Config, Event, Kind, LockId, Memory, ThreadId, ThreadSet};
use velo_heap::Heap;
use velo_traces::Trace;

/// How a run stands.
#[derive(Drop)]
pub(crate) struct Run {
    bounds: Bounds,
    heap: Heap,
    marks: Marks,
    /// For each thread the position in the log of its next event, or the number of events.
    places: Vec<usize>,
    /// For each thread how many locks it holds, or 0 where it gives up none soon.
    held: Vec<usize>,
    /// The threads whose next action is unknown: they only give up locks.
    unsure: ThreadSet,
    /// Whether a thread without a lock does a read after which its next action is unknown.
    is_bold: bool,
    /// Whether cycles are looked for.
    is_watched: bool,
    /// Whether one of them has given up a lock.
    is_loose: bool,
    /// Whether the last event closed a cycle.
    is_closed: bool,
    /// The events done since the run left the log.
    trace: Trace,
    ghost few: { bounds.threads ≤ 64 },
    ghost same: { bounds ≡ bounds_of heap },
}

/// How many locks a thread holds after its operation.
pub(crate) fn held_after(held: usize, kind: Kind) -> usize {
    match kind {
        Kind::Acquire(_) | Kind::AcquireShared(_) => held.saturating_add(1),
        Kind::Release(_) | Kind::ReleaseShared(_) => held.saturating_sub(1),
        _ => held,
    }
}

/// Whether the operation gives up a lock, or a share of one.
fn is_release(kind: Kind) -> bool {
    matches!(kind, Kind::Release(_) | Kind::ReleaseShared(_))
}

/// The same numbers once more.
fn copied(alloc: Global, numbers: &[usize]) -> Result<Vec<usize>, Memory> {
    let mut copy = with_capacity(alloc, numbers.len())?;
    match copy.extend_from_slice(numbers) {
        Ok(()) => Ok(copy),
        Err(_) => unreachable!(),
    }
}

/// The event of the action, if the thread may do it now.
fn admitted(heap: &Heap, thread: ThreadId, action: Action) -> Option<Event>
    requires { Stands heap.now }
    ensures { IfSome result (λ event. IsAdmitted heap.now event) }
{
    match heap.admit(thread, action) {
        Ok(event) => Some(event),
        Err(_) => None,
    }
}

/// Does the event. Returns whether its thread has a block open then.
fn apply(heap: &mut Heap, event: Event) -> bool
    requires { IsAdmitted heap.old event }
    ensures bounds { bounds_of heap.new ≡ bounds_of heap.old }
    ensures stands { Stands heap.new }
{
    heap.apply(&event);
    heap.depth(event.thread) != 0
}

/// How many events of a thread are passed over in search of what it gives up.
const PASSED: usize = 1_000;

impl Run {
    /// The run before all events.
    pub(crate) fn new(
        alloc: Global,
        config: &Config,
        lookup: &Lookup,
        is_watched: bool,
    ) -> Result<Run, Memory>
        ensures { IfOk result (λ run. Stands run.heap) }
    {
        let heap = Heap::new(alloc, config)?;
        let marks = Marks::new(alloc, config.bounds)?;
        let places = copied(alloc, &lookup.first)?;
        let held = filled(alloc, 0usize, 64)?;
        Ok(Run {
            bounds: config.bounds,
            heap,
            marks,
            places,
            held,
            unsure: ThreadSet::none(),
            is_bold: false,
            is_watched,
            is_loose: false,
            is_closed: false,
            trace: Trace::new(alloc),
        })
    }

    /// A run that leaves the log where this one stands.
    pub(crate) fn branch(&self, alloc: Global, is_bold: bool) -> Result<Run, Memory>
        requires { Stands self.now.heap }
        ensures { IfOk result (λ run. Stands run.heap) }
    {
        let heap = self.heap.copy(alloc)?;
        let marks = self.marks.copy(alloc)?;
        let places = copied(alloc, &self.places)?;
        let held = copied(alloc, &self.held)?;
        Ok(Run {
            bounds: self.bounds,
            heap,
            marks,
            places,
            held,
            unsure: ThreadSet::none(),
            is_bold,
            is_watched: self.is_watched,
            is_loose: false,
            is_closed: self.is_closed,
            trace: Trace::new(alloc),
        })
    }

    pub(crate) fn is_closed(&self) -> bool {
        self.is_closed
    }

    /// The events done since the run left the log.
    pub(crate) fn trace(&self) -> &Trace {
        &self.trace
    }

    /// The position of the thread's next event.
    pub(crate) fn place(&self, thread: ThreadId) -> usize {
        number_at(&self.places, usize::from(thread.0), 0)
    }

    /// Does an event, which may come next. The thread's next one is at the place then.
    fn do_event(&mut self, event: Event, place: usize) -> Result<(), Memory>
        requires { IsAdmitted self.old.heap event }
        ensures { Stands self.new.heap }
    {
        self.trace.push(event)?;
        if self.is_watched && self.marks.would_close(event) {
            self.is_closed = true;
            return Ok(());
        }
        let inside = apply(&mut self.heap, event);
        if self.is_watched {
            self.marks.step(event, inside)?;
        }
        let thread = usize::from(event.thread.0);
        put_number(&mut self.places, thread, place);
        let held = number_at(&self.held, thread, 0);
        put_number(&mut self.held, thread, held_after(held, event.kind));
        Ok(())
    }

    /// Does the recorded event, after which the thread's next one is at the place.
    pub(crate) fn follow(&mut self, recorded: Event, place: usize) -> Result<(), Memory>
        requires { Stands self.old.heap }
        ensures { Stands self.new.heap }
    {
        if self.is_closed {
            return Ok(());
        }
        match admitted(&self.heap, recorded.thread, recorded.kind.action()) {
            Some(event) => self.do_event(event, place),
            None => Ok(()),
        }
    }

    /// Whether the thread holds a lock that it gives up soon.
    fn holds_any(&self, thread: ThreadId) -> bool {
        number_at(&self.held, usize::from(thread.0), 0) != 0
    }

    /// Does the thread's next release of a lock that it has. Returns whether there is one.
    fn give_up(
        &mut self,
        events: &[Event],
        lookup: &Lookup,
        thread: ThreadId,
    ) -> Result<bool, Memory>
        requires { Stands self.old.heap }
        ensures { Stands self.new.heap }
    {
        if !self.holds_any(thread) {
            return Ok(false);
        }
        let mut place = self.place(thread);
        for _ in 0..PASSED {
            let Some(recorded) = events.get(place).copied() else {
                break;
            };
            place = lookup.next_of(place);
            if !is_release(recorded.kind) {
                continue;
            }
            if let Some(event) = admitted(&self.heap, thread, recorded.kind.action()) {
                self.is_loose = true;
                self.do_event(event, place)?;
                return Ok(true);
            }
        }
        put_number(&mut self.held, usize::from(thread.0), 0);
        Ok(false)
    }

    /// Whether a thread does the event, after which its next action is unknown: it has a lock that it can give up, or the event
    /// closes a cycle, or the run is bold.
    fn is_worth(&self, event: Event) -> bool {
        self.is_bold || self.holds_any(event.thread) || self.marks.would_close(event)
    }

    /// Does the thread's next event, if it can be done. Returns whether it was.
    pub(crate) fn advance(
        &mut self,
        events: &[Event],
        lookup: &Lookup,
        thread: ThreadId,
    ) -> Result<bool, Memory>
        requires { Stands self.old.heap }
        ensures { Stands self.new.heap }
    {
        if self.is_closed {
            return Ok(false);
        }
        if self.unsure.has(thread) {
            return self.give_up(events, lookup, thread);
        }
        let place = self.place(thread);
        let Some(recorded) = events.get(place).copied() else {
            return Ok(false);
        };
        let Some(event) = admitted(&self.heap, thread, recorded.kind.action()) else {
            return Ok(false);
        };
        if event != recorded || (self.is_loose && matches!(event.kind, Kind::Read(..))) {
            if !self.is_worth(event) {
                return Ok(false);
            }
            self.unsure = self.unsure.with(event.thread);
        }
        self.do_event(event, lookup.next_of(place))?;
        Ok(true)
    }

    /// The thread goes on to its last event up to the position, while it can.
    pub(crate) fn go_to(
        &mut self,
        events: &[Event],
        lookup: &Lookup,
        thread: ThreadId,
        position: usize,
    ) -> Result<(), Memory>
        requires { Stands self.old.heap }
        ensures { Stands self.new.heap }
    {
        for _ in self.place(thread)..position.saturating_add(1) {
            if self.place(thread) > position || !self.advance(events, lookup, thread)? {
                break;
            }
        }
        Ok(())
    }

    /// The thread does its next event, or else another one does that has a lock in its way. Returns whether one did.
    fn make_way(
        &mut self,
        events: &[Event],
        lookup: &Lookup,
        thread: ThreadId,
    ) -> Result<bool, Memory>
        requires { Stands self.old.heap }
        ensures { Stands self.new.heap }
    {
        if self.advance(events, lookup, thread)? {
            return Ok(true);
        }
        match self.in_the_way(events, thread) {
            Some(other) if other != thread => self.advance(events, lookup, other),
            _ => Ok(false),
        }
    }

    /// The thread goes on until its next event is at the position or behind it. At most so many events are done.
    pub(crate) fn force_to(
        &mut self,
        events: &[Event],
        lookup: &Lookup,
        thread: ThreadId,
        position: usize,
        most: usize,
    ) -> Result<(), Memory>
        requires { Stands self.old.heap }
        ensures { Stands self.new.heap }
    {
        for _ in 0..most {
            if self.place(thread) >= position || !self.make_way(events, lookup, thread)? {
                break;
            }
        }
        Ok(())
    }

    /// Whether the thread waits for a lock of another one, and so on, up to one that waits for a lock of the thread.
    pub(crate) fn is_in_circle(&self, events: &[Event], thread: ThreadId) -> bool {
        let mut last = thread;
        for _ in 0..self.bounds.threads {
            let Some(owner) = self.in_the_way(events, last) else {
                return false;
            };
            if owner == thread {
                return last != thread;
            }
            last = owner;
        }
        false
    }

    /// Who has the lock that the thread needs next.
    fn in_the_way(&self, events: &[Event], thread: ThreadId) -> Option<ThreadId> {
        let event = events.get(self.place(thread)).copied()?;
        match event.kind {
            Kind::Acquire(m) => self.owner_of(m).or(self.first_sharer_of(m)),
            Kind::AcquireShared(m) => self.owner_of(m),
            _ => None,
        }
    }

    fn owner_of(&self, lock: LockId) -> Option<ThreadId> {
        if lock.0 < self.bounds.locks {
            self.heap.holder(lock)
        } else {
            None
        }
    }

    fn first_sharer_of(&self, lock: LockId) -> Option<ThreadId> {
        if lock.0 < self.bounds.locks {
            self.heap.sharers(lock).first()
        } else {
            None
        }
    }
}
