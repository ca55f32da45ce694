//! Marks at the begins of the blocks that are to blame.
ghost use Rattle.std.specs.Prelude.{◌≡◌, ◌+◌, ◌<◌, ◌^◌, ◌⊎◌, ◌↔◌, ℕ, length, slice_index, IfOk, OnOk, IsTrue};
ghost use Rattle.velo_events.specs.WellFormed.{IsWellFormed};
ghost use Rattle.velo_traces.specs.Places.{sizes, AllHavePlaces};
ghost use Rattle.velo_audit.specs.Marks.{AreMarks, CountsBelow, IsBelow, IsBeforeOneBelow, StandsAt, AreMarksSoFar, mark_at};
ghost use Rattle.velo_audit.specs.Open.{IsListedAt};

use crate::open::follow;
use crate::reach::Reach;
use std::alloc::Global;
use velo_events::growth::filled;
use velo_events::{Bounds, Event, Memory, ThreadId};
use velo_traces::Trace;

/// For each position of a log, whether a block begins there that is to blame.
#[derive(Drop)]
pub struct BlameMarks {
    /// Whether one is to blame somewhere.
    pub blamed: Vec<bool>,
    /// Whether one is around another block that is to blame.
    pub around: Vec<bool>,
}

/// How many of the numbers, which rise, are below the bound.
fn below(these: &[usize], bound: usize) -> usize
    requires { (j k : ℕ) → j < k → k < length these.now
        → slice_index these.now j < slice_index these.now k }
    ensures { CountsBelow these.now bound result }
{
    for k in 0..these.len() {
        if these[k] >= bound {
            return k;
        }
    }
    these.len()
}

/// Marks these positions.
fn mark(marks: &mut Vec<bool>, these: &[usize])
    requires { (j : ℕ) → j < length these.now
        → slice_index these.now j < length marks.old.items }
    ensures size { length marks.new.items ≡ length marks.old.items }
    ensures marked { (b : ℕ) → IsTrue (mark_at marks.new.items b)
        ↔ (IsTrue (mark_at marks.old.items b) ⊎ IsListedAt these.now b) }
{
    for k in 0..these.len() {
        marks[these[k]] = true;
    }
}

/// Marks those of the open blocks that begin below the bound, and those around another of them.
fn mark_open(marks: &mut BlameMarks, blocks: &[usize], bound: usize)
    requires within { (j : ℕ) → j < length blocks.now
        → slice_index blocks.now j < length marks.old.blamed.items }
    requires alike { length marks.old.around.items ≡ length marks.old.blamed.items }
    requires rise { (j k : ℕ) → j < k → k < length blocks.now
        → slice_index blocks.now j < slice_index blocks.now k }
    ensures size { length marks.new.blamed.items ≡ length marks.old.blamed.items }
    ensures size_around { length marks.new.around.items ≡ length marks.old.around.items }
    ensures blamed { (b : ℕ) → IsTrue (mark_at marks.new.blamed.items b)
        ↔ (IsTrue (mark_at marks.old.blamed.items b) ⊎ IsBelow blocks.now bound b) }
    ensures around { (b : ℕ) → IsTrue (mark_at marks.new.around.items b)
        ↔ (IsTrue (mark_at marks.old.around.items b) ⊎ IsBeforeOneBelow blocks.now bound b) }
{
    let count = below(blocks, bound);
    mark(&mut marks.blamed, &blocks[..count]);
    mark(&mut marks.around, &blocks[..count.saturating_sub(1)]);
}

/// What a pass over a log keeps: how far back its thread is known, and which of its blocks are
/// open.
#[derive(Drop)]
struct Pass {
    reach: Reach,
    blocks: Vec<usize>,
}

/// Takes in the event at a position, and marks the blocks that are to blame there.
fn step(
    marks: &mut BlameMarks,
    pass: &mut Pass,
    events: &[Event],
    at: usize,
    thread: ThreadId,
) -> Result<(), Memory>
    requires within { at < length events.now }
    requires known { AllHavePlaces (sizes pass.old.reach.known) events.now (length events.now) }
    requires others { AllHavePlaces (sizes pass.old.reach.others) events.now (length events.now) }
    requires stands { StandsAt events.now thread.0 at marks.old pass.old.reach.known
        pass.old.reach.others pass.old.reach.bound pass.old.blocks.items }
    ensures known { sizes pass.new.reach.known ≡ sizes pass.old.reach.known }
    ensures others { sizes pass.new.reach.others ≡ sizes pass.old.reach.others }
    ensures stands { OnOk result (StandsAt events.now thread.0 (at + 1) marks.new
        pass.new.reach.known pass.new.reach.others pass.new.reach.bound pass.new.blocks.items) }
{
    let event = events[at];
    pass.reach.take_in(event, at, thread);
    if event.thread != thread {
        return Ok(());
    }
    follow(&mut pass.blocks, event, at)?;
    mark_open(marks, &pass.blocks, pass.reach.bound);
    Ok(())
}

/// Marks the blocks of one thread that are to blame, in one pass over the log.
fn mark_thread(
    marks: &mut BlameMarks,
    pass: &mut Pass,
    events: &[Event],
    thread: ThreadId,
) -> Result<(), Memory>
    requires known { AllHavePlaces (sizes pass.old.reach.known) events.now (length events.now) }
    requires others { AllHavePlaces (sizes pass.old.reach.others) events.now (length events.now) }
    requires marks { AreMarksSoFar events.now thread.0 0 marks.old }
    ensures known { sizes pass.new.reach.known ≡ sizes pass.old.reach.known }
    ensures others { sizes pass.new.reach.others ≡ sizes pass.old.reach.others }
    ensures marks { OnOk result (AreMarksSoFar events.now (thread.0 + 1) 0 marks.new) }
{
    pass.reach.clear();
    pass.blocks.clear();
    for at in 0..events.len() {
        step(marks, pass, events, at, thread)?;
    }
    Ok(())
}

/// The marks of a log that can happen within the bounds: one pass over it for each thread.
///
/// # Errors
/// `Memory` if an allocation failed.
pub fn marks_of(alloc: Global, bounds: Bounds, log: &Trace) -> Result<BlameMarks, Memory>
    requires { IsWellFormed bounds log.now.events }
    ensures { IfOk result (AreMarks log.now.events) }
{
    let events = log.as_slice();
    let reach = Reach::new(alloc, bounds)?;
    let mut pass = Pass {
        reach,
        blocks: Vec::new(alloc),
    };
    let blamed = filled(alloc, false, events.len())?;
    let around = filled(alloc, false, events.len())?;
    let mut marks = BlameMarks { blamed, around };
    for thread in 0..bounds.threads {
        mark_thread(&mut marks, &mut pass, events, ThreadId(thread))?;
    }
    Ok(marks)
}
