//! Whether threads wait in a circle after a prediction.
ghost use Rattle.std.specs.Prelude.{◌≡◌, ◌↔◌, ◌<◌, ◌≤◌, ℕ, List, IsTrue, IfOk, IfSome, IfNone, Some, length, map, slice_get};
ghost use Rattle.velo_events.specs.declared.event.Event.{Event as EventOf};
ghost use Rattle.velo_events.specs.declared.limits.TheConstants.{MAX_THREADS};
ghost use Rattle.velo_events.specs.Event.{are_same};
ghost use Rattle.velo_events.specs.Heap.{holder_in, shares_in};
ghost use Rattle.velo_events.specs.ThreadSets.{has_thread};
ghost use Rattle.velo_heap.specs.Contents.{bounds_of, IsHeapOf, ForItsTraces};
ghost use Rattle.velo_predict.specs.Courses.{IsCourse, IsJudged};
ghost use Rattle.velo_predict.specs.Deadlocks.{IsNextAction, PredictsDeadlock, WaitsFor};
ghost use Rattle.velo_predict.specs.Waits.{hinders, AreDue, AreRows, HasNext, IsCircle, IsDue, TellsDue};

use crate::circle::circle_in;
use crate::judge::{Course, Judged, judge_trace, next_of};
use std::alloc::Global;
use velo_events::growth::reserve;
use velo_events::{Bounds, Config, Event, Kind, LockId, Memory, ThreadId, ThreadSet};
use velo_heap::Heap;
use velo_traces::Trace;

/// A thread that waits.
#[derive(Clone, Copy, PartialEq, Eq)]
pub struct Waiting {
    /// The thread.
    pub thread: ThreadId,
    /// The position in the log of what it does next, which acquires a lock or joins a thread.
    pub next: usize,
}

/// The position in the log of the thread's next event, if it is known.
fn due_of(log: &[Event], course: Course, thread: ThreadId) -> Option<usize>
    requires { course.place ≤ length log.now }
    ensures due { (trace : List EventOf) → IsCourse log.now trace thread.0 course → TellsDue log.now trace thread.0 result }
    ensures within { IfSome result (λ next. next < length log.now) }
{
    if course.is_unsure {
        return None;
    }
    let next = next_of(log, thread, course.place);
    if next < log.len() { Some(next) } else { None }
}

/// Whether the thread has the lock alone.
fn has_alone(heap: &Heap, bounds: Bounds, m: LockId, thread: ThreadId) -> bool
    requires { bounds_of heap.now ≡ bounds }
    ensures { ForItsTraces heap.now (λ trace. result ≡ are_same (holder_in trace m.0) (Some thread.0)) }
{
    if m.0 >= bounds.locks {
        return false;
    }
    match heap.holder(m) {
        Some(holder) => holder.0 == thread.0,
        None => false,
    }
}

/// Whether the thread has a share of the lock.
fn has_share(heap: &Heap, bounds: Bounds, m: LockId, thread: ThreadId) -> bool
    requires { bounds_of heap.now ≡ bounds }
    ensures { ForItsTraces heap.now (λ trace. result ≡ shares_in trace m.0 thread.0) }
{
    if m.0 >= bounds.locks {
        return false;
    }
    heap.shares(m, thread)
}

/// Whether the second thread stands in the way of the operation of the first.
fn hinders(heap: &Heap, bounds: Bounds, kind: Kind, thread: ThreadId, other: ThreadId) -> bool
    requires bounds { bounds_of heap.now ≡ bounds }
    requires known { other.0 < bounds.threads }
    ensures { ForItsTraces heap.now (λ trace. result ≡ hinders trace kind thread.0 other.0) }
{
    let is_other = thread.0 != other.0;
    match kind {
        Kind::Acquire(m) => {
            let has = has_alone(heap, bounds, m, other) || has_share(heap, bounds, m, other);
            is_other && has
        }
        Kind::AcquireShared(m) => is_other && has_alone(heap, bounds, m, other),
        Kind::Join(child) => child.0 == other.0 && heap.status(other).is_live(),
        _ => false,
    }
}

/// The threads that stand in the way of the operation.
fn hindering(heap: &Heap, bounds: Bounds, kind: Kind, thread: ThreadId) -> ThreadSet
    requires bounds { bounds_of heap.now ≡ bounds }
    requires few { bounds.threads ≤ MAX_THREADS }
    ensures { ForItsTraces heap.now (λ trace. (u : ℕ) → IsTrue (has_thread result u)
        ↔ ((u < bounds.threads) × IsTrue (hinders trace kind thread.0 u))) }
{
    let mut row = ThreadSet::none();
    for u in 0..bounds.threads {
        if hinders(heap, bounds, kind, thread, ThreadId(u)) {
            row = row.with(ThreadId(u));
        }
    }
    row
}

/// The threads for which the thread waits.
fn row_of(log: &[Event], heap: &Heap, bounds: Bounds, course: Course, thread: ThreadId) -> ThreadSet
    requires bounds { bounds_of heap.now ≡ bounds }
    requires few { bounds.threads ≤ MAX_THREADS }
    requires known { thread.0 < bounds.threads }
    requires place { course.place ≤ length log.now }
    ensures { (trace : List EventOf) → IsHeapOf heap.now trace → IsCourse log.now trace thread.0 course
        → (u : ℕ) → IsTrue (has_thread result u) ↔ WaitsFor (IsNextAction log.now trace) trace thread.0 u }
{
    let Some(next) = due_of(log, course, thread) else {
        return ThreadSet::none();
    };
    if !heap.status(thread).is_live() {
        return ThreadSet::none();
    }
    let kind = log[next].kind;
    hindering(heap, bounds, kind, thread)
}

/// For each thread, the threads for which it waits.
fn rows_of(
    alloc: Global,
    log: &[Event],
    judged: &Judged,
    bounds: Bounds,
) -> Result<Vec<ThreadSet>, Memory>
    requires some { 0 < bounds.threads }
    requires few { bounds.threads ≤ MAX_THREADS }
    requires stands { (trace : List EventOf) × IsJudged bounds log.now trace judged.now }
    ensures { IfOk result (λ rows. (trace : List EventOf) → IsJudged bounds log.now trace judged.now
        → AreRows bounds log.now trace rows.items) }
{
    let mut rows = Vec::new(alloc);
    for t in 0..bounds.threads {
        let course = judged.courses[usize::from(t)];
        reserve(&mut rows, 1)?;
        rows.push_reserved(row_of(log, &judged.heap, bounds, course, ThreadId(t)));
    }
    Ok(rows)
}

/// The thread with its next event, which is known.
fn waiting_at(log: &[Event], judged: &Judged, t: usize) -> Waiting
    requires few { length judged.now.courses.items ≤ MAX_THREADS }
    requires known { t < length judged.now.courses.items }
    requires next { (trace : List EventOf) × HasNext log.now trace judged.now t }
    ensures thread { result.thread.0 ≡ t }
    ensures due { (trace : List EventOf) → HasNext log.now trace judged.now t → IsDue log.now trace t result.next }
{
    let course = judged.courses[t];
    let thread = ThreadId(t as u8);
    match due_of(log, course, thread) {
        Some(next) => Waiting { thread, next },
        None => unreachable!(),
    }
}

/// The threads of the circle, each with its next event.
fn waiting_of(
    alloc: Global,
    log: &[Event],
    judged: &Judged,
    circle: &[usize],
) -> Result<Vec<Waiting>, Memory>
    requires few { length judged.now.courses.items ≤ MAX_THREADS }
    requires known { (i t : ℕ) → slice_get circle.now i ≡ Some t → t < length judged.now.courses.items }
    requires next { (i t : ℕ) → slice_get circle.now i ≡ Some t → (trace : List EventOf) × HasNext log.now trace judged.now t }
    ensures threads { IfOk result (λ waiting. map (λ w. w.thread.0) waiting.items ≡ circle.now) }
    ensures due { IfOk result (λ waiting. (trace : List EventOf)
        → ((i t : ℕ) → slice_get circle.now i ≡ Some t → HasNext log.now trace judged.now t)
        → AreDue log.now trace waiting.items) }
{
    let mut waiting = Vec::new(alloc);
    for i in 0..circle.len() {
        let t = circle[i];
        reserve(&mut waiting, 1)?;
        waiting.push_reserved(waiting_at(log, judged, t));
    }
    Ok(waiting)
}

/// Threads that wait in a circle after the trace by their next actions in the log, if the log foretells the trace and there are
/// any: each waits for the next one, and the last for the first. One that waits for its own end is a circle of one.
///
/// # Errors
/// `Memory` where a growth was refused.
pub fn predicts_deadlock(
    alloc: Global,
    config: &Config,
    log: &Trace,
    trace: &Trace,
) -> Result<Option<Vec<Waiting>>, Memory>
    ensures foretold { IfOk result (λ found. IfSome found (λ circle. PredictsDeadlock config.now.bounds log.now.events trace.now.events)) }
    ensures circle { IfOk result (λ found. IfSome found (λ circle. IsCircle log.now.events trace.now.events circle.items)) }
    ensures not_foretold { IfOk result (λ found. IfNone found (¬ PredictsDeadlock config.now.bounds log.now.events trace.now.events)) }
{
    let Some(judged) = judge_trace(alloc, config, log, trace)? else {
        return Ok(None);
    };
    let events = log.as_slice();
    let rows = rows_of(alloc, events, &judged, config.bounds)?;
    match circle_in(alloc, &rows)? {
        Some(circle) => Ok(Some(waiting_of(alloc, events, &judged, &circle)?)),
        None => Ok(None),
    }
}
