//! Which accesses repeat one, found in one pass over the events of a log.
ghost use Rattle.std.specs.Prelude.{◌≡◌, ◌↔◌, ◌≤◌, ◌<◌, ◌+◌, ◌^◌, List, ℕ, length, slice_index, slice_set, slice_get, Some, if◌then◌else◌, IfOk, IsTrue};
ghost use Rattle.velo_events.specs.declared.limits.TheConstants.{MAX_EVENTS};
ghost use Rattle.velo_events.specs.declared.event.Event.{Event as EventOf};
ghost use Rattle.velo_events.specs.Block.{passes_at};
ghost use Rattle.velo_filter.specs.Tables.{marked};
ghost use Rattle.velo_laws.specs.Repeats.{AreRepeats};
ghost use Rattle.velo_thinning.specs.Repeating.{IsRepeat, AreExactly};
ghost use Rattle.velo_thinning.specs.Finding.{IsFound, IsFresh, IsSmall, AreFound, near_after, written_after, accessed_after};

use std::alloc::Global;
use velo_events::growth::filled;
use velo_events::{Event, Kind, Memory, ThreadId};
use velo_traces::Trace;

/// So many numbers a thread can have.
const THREADS: usize = 256;

/// So many a variable.
const VARIABLES: usize = 65_536;

/// What is kept of the events so far: positions, each plus one, or 0 where there is none.
#[derive(Drop)]
pub(crate) struct Finder {
    /// Of each thread, the last event that is its own, or forks or joins it.
    pub near: Vec<u32>,
    /// Of each variable, the last write.
    pub written: Vec<u32>,
    /// Of each variable, the last access.
    pub accessed: Vec<u32>,
}

impl Finder {
    /// Nothing came yet.
    ///
    /// # Errors
    /// `Memory` where a growth was refused.
    pub fn new(alloc: Global) -> Result<Finder, Memory>
        ensures { IfOk result (λ finder. (log : List EventOf) → IsFound log 0 finder) }
    {
        let near = filled(alloc, 0u32, THREADS)?;
        let written = filled(alloc, 0u32, VARIABLES)?;
        let accessed = filled(alloc, 0u32, VARIABLES)?;
        Ok(Finder {
            near,
            written,
            accessed,
        })
    }

    /// Whether nothing that conflicts with such an access of a variable came after so many events.
    #[inline]
    fn is_fresh(&self, kind: Kind, count: u32) -> bool
        requires written { length self.now.written.items ≡ 65536 }
        requires accessed { length self.now.accessed.items ≡ 65536 }
        ensures fresh { IsTrue result ↔ IsFresh self.now kind count }
        ensures small { IsSmall kind }
    {
        match kind {
            Kind::Read(x, _) => self.written[usize::from(x.0)] <= count,
            Kind::Write(x, _) => self.accessed[usize::from(x.0)] <= count,
            _ => false,
        }
    }

    /// Whether the event at the position repeats one.
    #[inline]
    pub fn is_repeat(&self, events: &[Event], position: usize) -> bool
        requires within { position < length events.now }
        requires few { length events.now ≤ MAX_EVENTS }
        requires found { IsFound events.now position self.now }
        ensures { IsTrue result ↔ IsRepeat events.now position }
    {
        let event = events[position];
        let count = self.near[row_of(event.thread)];
        if count == 0 {
            return false;
        }
        are_one(events[count as usize - 1], event) && self.is_fresh(event.kind, count)
    }

    /// The event at the position comes next.
    #[inline]
    pub fn take_in(&mut self, events: &[Event], position: usize)
        requires within { position < length events.now }
        requires few { length events.now ≤ MAX_EVENTS }
        requires found { IsFound events.now position self.old }
        ensures { IsFound events.now (position + 1) self.new }
    {
        self.note(events[position], position as u32 + 1);
    }

    /// Notes an event, with which there are so many.
    #[inline]
    fn note(&mut self, event: Event, count: u32)
        requires near { length self.old.near.items ≡ 256 }
        requires written { length self.old.written.items ≡ 65536 }
        requires accessed { length self.old.accessed.items ≡ 65536 }
        ensures near { self.new.near.items ≡ near_after self.old.near.items event count }
        ensures written { self.new.written.items
            ≡ written_after self.old.written.items event.kind count }
        ensures accessed { self.new.accessed.items
            ≡ accessed_after self.old.accessed.items event.kind count }
    {
        self.near[row_of(event.thread)] = count;
        match event.kind {
            Kind::Read(x, _) => self.accessed[usize::from(x.0)] = count,
            Kind::Write(x, _) => {
                self.accessed[usize::from(x.0)] = count;
                self.written[usize::from(x.0)] = count;
            }
            Kind::Fork(u) | Kind::Join(u) => self.near[row_of(u)] = count,
            _ => {}
        }
    }
}

/// The row of a thread.
#[inline]
fn row_of(thread: ThreadId) -> usize
    ensures row { result ≡ thread.0 }
    ensures within { result < 256 }
{
    usize::from(thread.0)
}

/// Whether the events are the same.
#[inline]
fn are_one(event: Event, other: Event) -> bool
    ensures { IsTrue result ↔ (event ≡ other) }
{
    event == other
}

/// Marks a position, or not.
#[inline]
fn mark(marks: &mut [bool], position: usize, repeats: bool)
    requires { position < length marks.old }
    ensures { marks.new ≡ slice_set marks.old position repeats }
{
    marks[position] = repeats;
}

/// For each event of a log, whether it repeats an earlier one: the same access of a variable by the same thread, with the same
/// value, and nothing between the two that conflicts with it.
///
/// # Errors
/// `Memory` where a growth was refused.
pub fn repeats(alloc: Global, log: &Trace) -> Result<Vec<bool>, Memory>
    requires few { length log.now.events ≤ MAX_EVENTS }
    ensures count { IfOk result (λ marks. length marks.items ≡ length log.now.events) }
    ensures exact { IfOk result (λ marks. AreExactly (marked marks.items) log.now.events) }
    ensures repeats { IfOk result (λ marks. AreRepeats (marked marks.items) log.now.events) }
{
    let events = log.as_slice();
    let mut finder = Finder::new(alloc)?;
    let mut marks = filled(alloc, false, events.len())?;
    for position in 0..events.len() {
        mark(&mut marks, position, finder.is_repeat(events, position));
        finder.take_in(events, position);
    }
    Ok(marks)
}
