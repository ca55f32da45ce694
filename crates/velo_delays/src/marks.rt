//! Which unfinished transactions reach which events of a run that is tried.
ghost use Rattle.std.specs.Prelude.{◌<◌};

use std::alloc::Global;
use velo_events::growth::{filled, reserve, with_capacity};
use velo_events::{Access, Bounds, Cell, Event, Memory, ThreadId, ThreadSet};

/// The threads whose unfinished transaction reaches an event of a group.
#[derive(Clone, Copy, PartialEq, Eq)]
struct Mark {
    /// All of them.
    reached: ThreadSet,
    /// Those of which this is another transaction.
    beyond: ThreadSet,
}

/// The marks of all groups. A group has the events of a thread, or the accesses to a cell that are shared, or those that are not.
#[derive(Drop)]
pub(crate) struct Marks {
    groups: Vec<Mark>,
    /// The groups that some thread reaches.
    hot: Vec<usize>,
    /// The threads that have a block open.
    inside: ThreadSet,
}

/// The first group of a cell: those before are of threads.
const CELLS: usize = 64;

const BLANK: Mark = Mark {
    reached: ThreadSet(0),
    beyond: ThreadSet(0),
};

/// The same items once more.
fn copied<T: Copy>(alloc: Global, items: &[T]) -> Result<Vec<T>, Memory> {
    let mut copy = with_capacity(alloc, items.len())?;
    match copy.extend_from_slice(items) {
        Ok(()) => Ok(copy),
        Err(_) => unreachable!(),
    }
}

fn push(items: &mut Vec<usize>, item: usize) -> Result<(), Memory> {
    reserve(items, 1)?;
    items.push_reserved(item);
    Ok(())
}

fn of_thread(thread: ThreadId) -> usize {
    usize::from(thread.0)
}

fn exclusive(cell: Cell) -> usize {
    CELLS + 2 * cell.0 as usize
}

fn shared(cell: Cell) -> usize {
    CELLS + 2 * cell.0 as usize + 1
}

impl Mark {
    fn union(self, other: Mark) -> Mark {
        Mark {
            reached: self.reached.union(other.reached),
            beyond: self.beyond.union(other.beyond),
        }
    }

    fn without(self, thread: ThreadId) -> Mark
        requires { thread.0 < 64 }
    {
        Mark {
            reached: self.reached.without(thread),
            beyond: self.beyond.without(thread),
        }
    }
}

impl Marks {
    /// The marks before all events.
    pub(crate) fn new(alloc: Global, bounds: Bounds) -> Result<Marks, Memory> {
        let cells = 2 * usize::from(bounds.variables.max(bounds.locks));
        Ok(Marks {
            groups: filled(alloc, BLANK, CELLS + 2 * cells)?,
            hot: Vec::new(alloc),
            inside: ThreadSet::none(),
        })
    }

    fn mark(&self, group: usize) -> Mark {
        self.groups.get(group).copied().unwrap_or(BLANK)
    }

    fn hot_at(&self, at: usize) -> usize {
        self.hot.get(at).copied().unwrap_or(0)
    }

    fn put(&mut self, group: usize, mark: Mark) {
        if let Some(old) = self.groups.get_mut(group) {
            *old = mark;
        }
    }

    /// The same marks once more.
    pub(crate) fn copy(&self, alloc: Global) -> Result<Marks, Memory> {
        Ok(Marks {
            groups: copied(alloc, &self.groups)?,
            hot: copied(alloc, &self.hot)?,
            inside: self.inside,
        })
    }

    /// The marks of the groups whose events the event conflicts with, in one.
    fn looked_at(&self, event: Event) -> Mark {
        let own = self.mark(of_thread(event.thread));
        match event.kind.access() {
            Access::Shared(c) => own.union(self.mark(exclusive(c))),
            Access::Exclusive(c) => {
                own.union(self.mark(exclusive(c)))
                    .union(self.mark(shared(c)))
            }
            Access::Join(u) => own.union(self.mark(of_thread(u))),
            Access::Fork(_) | Access::Nothing => own,
        }
    }

    /// Whether the event would close a cycle.
    pub(crate) fn would_close(&self, event: Event) -> bool {
        self.looked_at(event).beyond.has(event.thread)
    }

    /// Adds threads to the mark of a group.
    fn note(&mut self, group: usize, added: Mark) -> Result<(), Memory> {
        let old = self.mark(group);
        if old == BLANK {
            push(&mut self.hot, group)?;
        }
        self.put(group, old.union(added));
        Ok(())
    }

    /// Adds threads to each group that the thread reaches.
    fn spread(&mut self, thread: ThreadId, others: ThreadSet) {
        for at in 0..self.hot.len() {
            let group = self.hot_at(at);
            let old = self.mark(group);
            if old.reached.has(thread) {
                let added = Mark {
                    reached: others,
                    beyond: others,
                };
                self.put(group, old.union(added));
            }
        }
    }

    /// Takes the thread out of all marks: its transaction is finished.
    fn forget(&mut self, thread: ThreadId)
        requires { thread.0 < 64 }
    {
        let mut kept = 0;
        for at in 0..self.hot.len() {
            let group = self.hot_at(at);
            let mark = self.mark(group).without(thread);
            self.put(group, mark);
            if mark != BLANK {
                if let Some(place) = self.hot.get_mut(kept) {
                    *place = group;
                }
                kept += 1;
            }
        }
        self.hot.truncate(kept);
    }

    /// Notes the event in the marks of its groups.
    fn enter(&mut self, event: Event, added: Mark) -> Result<(), Memory> {
        self.note(of_thread(event.thread), added)?;
        match event.kind.access() {
            Access::Shared(c) => self.note(shared(c), added),
            Access::Exclusive(c) => self.note(exclusive(c), added),
            Access::Fork(u) => self.note(of_thread(u), added),
            Access::Join(_) | Access::Nothing => Ok(()),
        }
    }

    /// One more event, which closes no cycle. `inside` says whether its thread has a block open after it.
    pub(crate) fn step(&mut self, event: Event, inside: bool) -> Result<(), Memory>
        requires { event.thread.0 < 64 }
    {
        let thread = event.thread;
        let was_inside = self.inside.has(thread);
        let others = self.looked_at(event).reached.without(thread);
        if was_inside && !others.is_empty() {
            self.spread(thread, others);
        }
        let reached = if inside { others.with(thread) } else { others };
        if !reached.is_empty() {
            let added = Mark {
                reached,
                beyond: others,
            };
            self.enter(event, added)?;
        }
        if inside {
            self.inside = self.inside.with(thread);
        } else if was_inside {
            self.inside = self.inside.without(thread);
            self.forget(thread);
        }
        Ok(())
    }
}
