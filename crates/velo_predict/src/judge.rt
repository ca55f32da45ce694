//! Whether a log foretells a trace, judged event by event.
ghost use Rattle.std.specs.Prelude.{◌≡◌, ◌≢◌, ◌⊎◌, ◌↔◌, ◌+◌, ◌<◌, ◌≤◌, [], ◌∷◌, ◌++◌, drop, length, slice_get, take, Some, None, IsTrue, IsFalse, IfOk, IfSome, IfNone, List, MatchOption, vec_capacity, vec_len};
ghost use Rattle.velo_events.specs.declared.event.Event.{Event as EventOf};
ghost use Rattle.velo_events.specs.Event.{is_read, thread_of};
ghost use Rattle.velo_events.specs.Meaning.{action_of};
ghost use Rattle.velo_events.specs.WellFormed.{MayFollow};
ghost use Rattle.velo_heap.specs.Contents.{bounds_of, IsHeapOf};
ghost use Rattle.velo_movers.specs.Free.{gives_up};
ghost use Rattle.velo_movers.specs.Programs.{own};
ghost use Rattle.velo_predict.specs.Predictions.{IsForetold, IsPrediction};
ghost use Rattle.velo_predict.specs.Differences.{difference_at, AreDifferences, TellsDifference};
ghost use Rattle.velo_predict.specs.Courses.{IsCourse, TellsLoose, IsJudged};

use crate::Difference;
use std::alloc::Global;
use velo_events::growth::{filled, reserve};
use velo_events::{Config, Event, Kind, Memory, ThreadId};
use velo_heap::Heap;
use velo_traces::Trace;

/// How far a thread has come in the log.
#[derive(Clone, Copy)]
pub struct Course {
    /// From this position on its next event is looked for.
    pub place: usize,
    /// Whether what it does next is unknown.
    pub is_unsure: bool,
}

/// What an event comes to, if it is foretold.
#[derive(Clone, Copy)]
struct Step {
    /// How far its thread has come.
    course: Course,
    /// The position in the log of the event that it differs from.
    differs_from: Option<usize>,
}

/// How the threads stand in a trace that the log foretells so far.
#[derive(Drop)]
pub struct Judged {
    pub heap: Heap,
    pub courses: Vec<Course>,
    pub differing: Vec<Difference>,
    /// Whether a thread that had turned has given up a lock.
    is_loose: bool,
}

/// Whether the operation gives up a lock, or a share of one.
fn gives_up(kind: Kind) -> bool
    ensures { result ≡ gives_up kind }
{
    matches!(kind, Kind::Release(_) | Kind::ReleaseShared(_))
}

/// Whether the operation reads.
fn is_read(kind: Kind) -> bool
    ensures { result ≡ is_read kind }
{
    matches!(kind, Kind::Read(..))
}

/// Whether the operations are of one action: a read may give another value.
pub fn are_of_one_action(kind: Kind, next: Kind) -> bool
    ensures { IsTrue result ↔ (action_of kind ≡ action_of next) }
{
    match (kind, next) {
        (Kind::Read(x, _), Kind::Read(y, _)) => x == y,
        _ => kind == next,
    }
}

/// Whether what the thread does after its next operation is unknown.
fn is_unknown_after(kind: Kind, next: Kind, is_loose: bool) -> bool
    ensures unknown { IsTrue result → (kind ≢ next) ⊎ (IsTrue is_loose × IsTrue (is_read kind)) }
    ensures known { IsFalse result → (kind ≡ next) × (IsTrue is_loose → IsFalse (is_read kind)) }
{
    kind != next || (is_loose && is_read(kind))
}

/// The first position from this one on whose event is of the thread, or the number of events.
pub fn next_of(log: &[Event], thread: ThreadId, from: usize) -> usize
    requires { from ≤ length log.now }
    ensures at_most { result ≤ length log.now }
    ensures passed { own thread.0 (drop from log.now) ≡ own thread.0 (drop result log.now) }
    ensures here { (e : EventOf) → slice_get log.now result ≡ Some e → thread_of e ≡ thread.0 }
{
    for at in from..log.len() {
        if log[at].thread == thread {
            return at;
        }
    }
    log.len()
}

/// The position, if the operations differ.
fn unless_same(kind: Kind, next: Kind, place: usize) -> Option<usize>
    ensures { MatchOption result (kind ≡ next) (λ at. (at ≡ place) × (kind ≢ next)) }
{
    if kind == next { None } else { Some(place) }
}

/// Lists the difference, if there is one. There is room for it.
fn list_difference(differing: &mut Vec<Difference>, position: usize, differs_from: Option<usize>)
    requires { vec_len differing.old < vec_capacity differing.old }
    ensures { differing.new.items ≡ differing.old.items ++ difference_at position differs_from }
{
    if let Some(recorded) = differs_from {
        differing.push_reserved(Difference { position, recorded });
    }
}

/// What the event comes to, if it is foretold.
fn step_by(log: &[Event], course: Course, event: Event, is_loose: bool) -> Option<Step>
    requires { course.place ≤ length log.now }
    ensures foretold { IfSome result (λ step. (trace : List EventOf)
        → IsCourse log.now trace event.thread.0 course → TellsLoose log.now trace is_loose
        → IsForetold log.now trace event × IsCourse log.now (trace ++ event ∷ []) event.thread.0 step.course) }
    ensures not_foretold { IfNone result ((trace : List EventOf)
        → IsCourse log.now trace event.thread.0 course → ¬ IsForetold log.now trace event) }
    ensures release { IfSome result (λ step. IsTrue course.is_unsure → IsTrue (gives_up event.kind)) }
    ensures differs { IfSome result (λ step. (trace : List EventOf)
        → IsCourse log.now trace event.thread.0 course → TellsDifference log.now trace event step.differs_from) }
{
    if course.is_unsure {
        return if gives_up(event.kind) {
            Some(Step {
                course,
                differs_from: None,
            })
        } else {
            None
        };
    }
    let place = next_of(log, event.thread, course.place);
    if place >= log.len() {
        return None;
    }
    let next = log[place];
    if !are_of_one_action(event.kind, next.kind) {
        return None;
    }
    Some(Step {
        course: Course {
            place: place + 1,
            is_unsure: is_unknown_after(event.kind, next.kind, is_loose),
        },
        differs_from: unless_same(event.kind, next.kind, place),
    })
}

/// Whether the event may come next.
fn may_follow(heap: &Heap, event: &Event) -> bool
    ensures { (trace : List EventOf) → IsHeapOf heap.now trace
        → IsTrue result ↔ MayFollow (bounds_of heap.now) trace event.now }
{
    heap.refusal(event).is_none() && heap.has_its_value(event)
}

impl Judged {
    /// The trace without events.
    fn new(alloc: Global, config: &Config) -> Result<Judged, Memory>
        ensures { IfOk result (λ judged. (log : List EventOf) → IsJudged config.now.bounds log [] judged) }
    {
        let heap = Heap::new(alloc, config)?;
        let course = Course {
            place: 0,
            is_unsure: false,
        };
        let courses = filled(alloc, course, usize::from(config.bounds.threads))?;
        Ok(Judged {
            heap,
            courses,
            differing: Vec::new(alloc),
            is_loose: false,
        })
    }

    /// Takes the event at the position in, if it is foretold.
    ///
    /// # Errors
    /// `Memory` where a growth was refused.
    fn take_in(&mut self, log: &[Event], events: &[Event], position: usize) -> Result<bool, Memory>
        requires within { position < length events.now }
        requires stands { IsJudged (bounds_of self.old.heap) log.now (take position events.now) self.old }
        ensures bounds { bounds_of self.new.heap ≡ bounds_of self.old.heap }
        ensures yes { IfOk result (λ taken. IsTrue taken → IsJudged (bounds_of self.old.heap) log.now (take (position + 1) events.now) self.new) }
        ensures no { IfOk result (λ taken. IsFalse taken → ¬ IsPrediction (bounds_of self.old.heap) log.now events.now) }
    {
        reserve(&mut self.differing, 1)?;
        let event = events[position];
        if !may_follow(&self.heap, &event) {
            return Ok(false);
        }
        let thread = usize::from(event.thread.0);
        let course = self.courses[thread];
        let Some(step) = step_by(log, course, event, self.is_loose) else {
            return Ok(false);
        };
        self.heap.apply(&event);
        self.courses[thread] = step.course;
        self.is_loose = self.is_loose || course.is_unsure;
        list_difference(&mut self.differing, position, step.differs_from);
        Ok(true)
    }
}

/// How the threads stand after the trace, if the log foretells it.
///
/// # Errors
/// `Memory` where a growth was refused.
pub fn judge_trace(
    alloc: Global,
    config: &Config,
    log: &Trace,
    trace: &Trace,
) -> Result<Option<Judged>, Memory>
    ensures foretold { IfOk result (λ judged. IfSome judged (λ judged. IsJudged config.now.bounds log.now.events trace.now.events judged)) }
    ensures not_foretold { IfOk result (λ judged. IfNone judged (¬ IsPrediction config.now.bounds log.now.events trace.now.events)) }
{
    let mut judged = Judged::new(alloc, config)?;
    let events = trace.as_slice();
    for position in 0..events.len() {
        if !judged.take_in(log.as_slice(), events, position)? {
            return Ok(None);
        }
    }
    Ok(Some(judged))
}

/// Whether the log foretells the trace, within the bounds of the configuration: each thread does what it did in the log while
/// it reads what it read there, and after a read of another value it only gives up locks.
///
/// It goes once over the trace, and for each thread once over the log.
///
/// # Errors
/// `Memory` where a growth was refused.
pub fn is_prediction(
    alloc: Global,
    config: &Config,
    log: &Trace,
    trace: &Trace,
) -> Result<bool, Memory>
    ensures { IfOk result (λ foretold. IsTrue foretold ↔ IsPrediction config.now.bounds log.now.events trace.now.events) }
{
    match judge_trace(alloc, config, log, trace)? {
        Some(_judged) => Ok(true),
        None => Ok(false),
    }
}

/// The reads that get another value than in the log, if the log foretells the trace.
///
/// # Errors
/// `Memory` where a growth was refused.
pub fn differing_reads(
    alloc: Global,
    config: &Config,
    log: &Trace,
    trace: &Trace,
) -> Result<Option<Vec<Difference>>, Memory>
    ensures foretold { IfOk result (λ found. IfSome found (λ differing. IsPrediction config.now.bounds log.now.events trace.now.events)) }
    ensures listed { IfOk result (λ found. IfSome found (λ differing. AreDifferences log.now.events trace.now.events differing.items)) }
    ensures not_foretold { IfOk result (λ found. IfNone found (¬ IsPrediction config.now.bounds log.now.events trace.now.events)) }
{
    match judge_trace(alloc, config, log, trace)? {
        Some(judged) => Ok(Some(judged.differing)),
        None => Ok(None),
    }
}
