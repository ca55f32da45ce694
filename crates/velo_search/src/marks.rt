//! Which threads' unfinished transactions reach which groups of events.
ghost use Rattle.std.specs.Prelude.{◌≡◌, ◌↔◌, ◌<◌, ◌≤◌, ◌==◌, ◌&&◌, ◌||◌, [], ◌∷◌, ◌++◌, ℕ, true, false, List, length, replicate, slice_index_or, IsTrue, IfOk};
ghost use Rattle.std.specs.List.{list_any};
ghost use Rattle.velo_events.specs.declared.event.Event.{Event};
ghost use Rattle.velo_events.specs.Event.{thread_of};
ghost use Rattle.velo_events.specs.WellFormed.{IsWellFormed, MayFollow, NamesKnown};
ghost use Rattle.velo_search.specs.declared.group.Group.{Group};
ghost use Rattle.velo_search.specs.declared.group.Group.TheVariants.{OfThread};
ghost use Rattle.velo_search.specs.Groups.{also_looks_at, is_member};
ghost use Rattle.velo_search.specs.Summary.{IsSummaryOf, is_inside};
ghost use Rattle.velo_events.specs.ThreadSets.{has_thread};
ghost use Rattle.velo_search.specs.Marks.{blank_mark, group_count, is_cell, cell_count, cell_number, is_known, number_of, mark_of, same_group, AccessKnown, IsMarkAfter};

use crate::copied::copied;
use crate::group::Group;
use crate::key::mixed;
use crate::mark::Mark;
use crate::part::Part;
use std::alloc::Global;
use velo_events::growth::filled;
use velo_events::{Access, Bounds, Cell, Event, Memory, ThreadId, ThreadSet};

/// Which threads' unfinished transactions reach which groups of the events of a log, and whether the log has a cycle.
///
/// They keep no log. They are the same for any log of the events that they were given, one after another.
#[derive(Drop)]
pub struct Marks {
    bounds: Bounds,
    alarmed: bool,
    marks: Vec<Mark>,
    ghost few: { bounds.threads ≤ 64 },
    ghost room: { length marks.items ≡ group_count bounds },
}

/// Whether the marks are the same.
fn are_same(one: &[Mark], other: &[Mark]) -> bool
    ensures { IsTrue result ↔ (one.now ≡ other.now) }
{
    one == other
}

impl Marks {
    ghost use Rattle.velo_search.specs.Kept.{summary_of, AreSame};
    ghost use Rattle.velo_search.specs.Parts.{IsPart};

    /// Where the cell stands among the variables and locks.
    fn cell(&self, cell: Cell) -> usize
        requires { IsTrue (is_cell self.now.bounds cell.0) }
        ensures number { result ≡ cell_number self.now.bounds cell.0 }
        ensures within { result < cell_count self.now.bounds }
    {
        let half = (cell.0 / 2) as usize;
        if cell.0 % 2 == 0 {
            half
        } else {
            usize::from(self.bounds.variables) + half
        }
    }

    /// Where the mark of a group stands.
    fn number(&self, group: Group) -> usize
        requires { IsTrue (is_known self.now.bounds group) }
        ensures number { result ≡ number_of self.now.bounds group }
        ensures within { result < length self.now.marks.items }
    {
        let threads = usize::from(self.bounds.threads);
        let cells = usize::from(self.bounds.variables) + usize::from(self.bounds.locks);
        match group {
            Group::OfThread(t) => usize::from(t.0),
            Group::WritesOf(c) => threads + self.cell(c),
            Group::ReadsOf(c) => threads + cells + self.cell(c),
        }
    }

    /// The mark of a group.
    fn mark(&self, group: Group) -> Mark
        requires { IsTrue (is_known self.now.bounds group) }
        ensures { result ≡ mark_of self.now.bounds self.now.marks.items group }
    {
        let number = self.number(group);
        self.marks[number]
    }

    /// Puts the thread into the mark of a group, as one that reaches it.
    fn put(&mut self, group: Group, thread: ThreadId)
        requires known { IsTrue (is_known self.old.bounds group) }
        requires thread { thread.0 < 64 }
        ensures bounds { self.new.bounds ≡ self.old.bounds }
        ensures alarmed { self.new.alarmed ≡ self.old.alarmed }
        ensures reached { (g : Group) (u : ℕ) →
            has_thread (mark_of self.old.bounds self.new.marks.items g).reached u ≡
            ((same_group group g && thread.0 == u) ||
            has_thread (mark_of self.old.bounds self.old.marks.items g).reached u) }
        ensures beyond { (g : Group) → (mark_of self.old.bounds self.new.marks.items g).beyond ≡
            (mark_of self.old.bounds self.old.marks.items g).beyond }
    {
        let number = self.number(group);
        self.marks[number].reached = self.marks[number].reached.with(thread);
    }

    /// The marks of the groups that an event of the thread with this access looks at, in one.
    fn looked_at(&self, thread: ThreadId, access: Access) -> Mark
        requires thread { thread.0 < self.now.bounds.threads }
        requires known { AccessKnown self.now.bounds access }
        ensures reached { (u : ℕ) → has_thread result.reached u ≡
            list_any (λ g. (summary_of self.now).reached g u) (OfThread thread ∷ also_looks_at access) }
        ensures beyond { (u : ℕ) → has_thread result.beyond u ≡
            list_any (λ g. (summary_of self.now).beyond g u) (OfThread thread ∷ also_looks_at access) }
    {
        let own = self.mark(Group::OfThread(thread));
        match access {
            Access::Shared(c) => own.union(self.mark(Group::WritesOf(c))),
            Access::Exclusive(c) => own
                .union(self.mark(Group::WritesOf(c)))
                .union(self.mark(Group::ReadsOf(c))),
            Access::Join(u) => own.union(self.mark(Group::OfThread(u))),
            Access::Fork(_) | Access::Nothing => own,
        }
    }

    /// Puts the thread of an event with this access into the marks of the event's groups.
    fn enter(&mut self, thread: ThreadId, access: Access)
        requires thread { thread.0 < self.old.bounds.threads }
        requires known { AccessKnown self.old.bounds access }
        ensures bounds { self.new.bounds ≡ self.old.bounds }
        ensures alarmed { self.new.alarmed ≡ self.old.alarmed }
        ensures reached { (g : Group) (u : ℕ) →
            has_thread (mark_of self.old.bounds self.new.marks.items g).reached u ≡
            ((is_member thread access g && thread.0 == u) ||
            has_thread (mark_of self.old.bounds self.old.marks.items g).reached u) }
        ensures beyond { (g : Group) → (mark_of self.old.bounds self.new.marks.items g).beyond ≡
            (mark_of self.old.bounds self.old.marks.items g).beyond }
    {
        self.put(Group::OfThread(thread), thread);
        match access {
            Access::Shared(c) => self.put(Group::ReadsOf(c), thread),
            Access::Exclusive(c) => self.put(Group::WritesOf(c), thread),
            Access::Fork(u) => self.put(Group::OfThread(u), thread),
            Access::Join(_) | Access::Nothing => {}
        }
    }

    /// Makes every mark what it is after an event of the thread.
    fn spread(&mut self, thread: ThreadId, behind: ThreadSet, inside: bool)
        requires { thread.0 < 64 }
        ensures bounds { self.new.bounds ≡ self.old.bounds }
        ensures alarmed { self.new.alarmed ≡ self.old.alarmed }
        ensures each { (k : ℕ) → k < length self.old.marks.items →
            IsMarkAfter thread.0 behind inside (slice_index_or self.old.marks.items k blank_mark)
            (slice_index_or self.new.marks.items k blank_mark) }
    {
        for i in 0..self.marks.len() {
            self.marks[i] = self.marks[i].after(thread, behind, inside);
        }
    }

    /// Notes that there is a cycle, and nothing else from now on.
    fn alarm(&mut self)
        ensures bounds { self.new.bounds ≡ self.old.bounds }
        ensures alarmed { self.new.alarmed ≡ true }
        ensures marks { self.new.marks.items ≡ replicate (length self.old.marks.items) blank_mark }
    {
        self.alarmed = true;
        self.marks.fill(Mark::blank());
    }

    /// The marks of a log without events.
    ///
    /// # Errors
    /// `Memory` where a growth was refused.
    pub fn new(alloc: Global, bounds: Bounds) -> Result<Marks, Memory>
        requires { bounds.threads ≤ 64 }
        ensures bounds { IfOk result (λ m. m.bounds ≡ bounds) }
        ensures start { IfOk result (λ m. IsSummaryOf [] (summary_of m)) }
    {
        let cells = usize::from(bounds.variables) + usize::from(bounds.locks);
        let count = usize::from(bounds.threads) + 2 * cells;
        let marks = filled(alloc, Mark::blank(), count)?;
        Ok(Marks {
            bounds,
            alarmed: false,
            marks,
        })
    }

    /// The same marks once more.
    ///
    /// # Errors
    /// `Memory` where a growth was refused.
    pub fn copy(&self, alloc: Global) -> Result<Marks, Memory>
        ensures bounds { IfOk result (λ m. m.bounds ≡ self.now.bounds) }
        ensures summary { IfOk result (λ m. summary_of m ≡ summary_of self.now) }
    {
        Ok(Marks {
            bounds: self.bounds,
            alarmed: self.alarmed,
            marks: copied(alloc, &self.marks)?,
        })
    }

    /// How many threads there are.
    pub fn threads(&self) -> u8
        ensures { result ≡ self.now.bounds.threads }
    {
        self.bounds.threads
    }

    /// Whether the marks are the same.
    pub fn is_same(&self, other: &Marks) -> bool
        ensures { IsTrue result ↔ AreSame self.now other.now }
    {
        self.bounds == other.bounds
            && self.alarmed == other.alarmed
            && are_same(&self.marks, &other.marks)
    }

    /// The key with the marks.
    pub fn key(&self, key: u64) -> u64 {
        let mut key = mixed(key, if self.alarmed { 1 } else { 0 });
        for mark in &self.marks {
            key = mixed(mixed(key, mark.reached.0), mark.beyond.0);
        }
        key
    }

    /// Whether the log has a cycle.
    pub fn is_alarmed(&self) -> bool
        ensures { result ≡ (summary_of self.now).alarmed }
    {
        self.alarmed
    }

    /// One more event.
    ///
    /// `inside` says whether the event's thread has a block open after it.
    pub fn step(&mut self, event: &Event, inside: bool)
        requires thread { thread_of event.now < self.old.bounds.threads }
        requires names { NamesKnown self.old.bounds event.now.kind }
        ensures bounds { self.new.bounds ≡ self.old.bounds }
        ensures next { (log : List Event) → IsWellFormed self.old.bounds log →
            MayFollow self.old.bounds log event.now → inside ≡ is_inside log event.now →
            IsSummaryOf log (summary_of self.old) → IsSummaryOf (log ++ event.now ∷ []) (summary_of self.new) }
    {
        let access = event.kind.access();
        let looked = self.looked_at(event.thread, access);
        if self.alarmed || looked.beyond.has(event.thread) {
            self.alarm();
        } else {
            self.enter(event.thread, access);
            self.spread(event.thread, looked.reached, inside);
        }
    }

    /// One more event of a log, which is this part of what is left of it: the marks are those of
    /// what is left.
    pub fn take_in(&mut self, event: &Event, part: Part)
        requires thread { thread_of event.now < self.old.bounds.threads }
        requires names { NamesKnown self.old.bounds event.now.kind }
        ensures bounds { self.new.bounds ≡ self.old.bounds }
        ensures next { (rest : List Event → List Event) (log : List Event) →
            IsPart rest self.old.bounds log event.now part →
            IsSummaryOf (rest log) (summary_of self.old) →
            IsSummaryOf (rest (log ++ event.now ∷ [])) (summary_of self.new) }
    {
        match part {
            Part::LeftOut => {}
            Part::Outside => self.step(event, false),
            Part::Inside => self.step(event, true),
        }
    }
}
