//! A circle among threads of which each waits for some.
ghost use Rattle.std.specs.Prelude.{◌≡◌, ◌<◌, ◌≤◌, ℕ, List, IsTrue, IsFalse, IfOk, IfSome, IfNone, Contains, drop, length, slice_get, Some};
ghost use Rattle.velo_events.specs.declared.limits.TheConstants.{MAX_THREADS};
ghost use Rattle.velo_events.specs.Graph.{IsCycle};
ghost use Rattle.velo_events.specs.ThreadSets.{has_thread};
ghost use Rattle.velo_predict.specs.Circles.{IsAmong, IsInRow, IsRing};

use std::alloc::Global;
use velo_events::growth::{reserve, with_capacity};
use velo_events::{Memory, ThreadId, ThreadSet};

/// A thread that the thread waits for and that is not out.
fn next_left(rows: &[ThreadSet], out: ThreadSet, t: usize) -> Option<usize>
    requires { t < length rows.now }
    ensures found { IfSome result (λ u. IsInRow rows.now t u × IsFalse (has_thread out u)) }
    ensures none { IfNone result ((u : ℕ) → IsInRow rows.now t u → IsTrue (has_thread out u)) }
{
    let row = rows[t];
    match row.difference(out).first() {
        Some(thread) => Some(usize::from(thread.0)),
        None => None,
    }
}

/// A thread that is not out, and that waits for no thread but those that are.
fn next_out(rows: &[ThreadSet], out: ThreadSet) -> Option<usize>
    requires { length rows.now ≤ MAX_THREADS }
    ensures found { IfSome result (λ t. (t < length rows.now) × IsFalse (has_thread out t)
        × ((u : ℕ) → IsInRow rows.now t u → IsTrue (has_thread out u))) }
    ensures none { IfNone result ((t : ℕ) → t < length rows.now → IsFalse (has_thread out t)
        → (u : ℕ) × IsInRow rows.now t u × IsFalse (has_thread out u)) }
{
    for t in 0..rows.len() {
        if !out.has(ThreadId(t as u8)) && next_left(rows, out, t).is_none() {
            return Some(t);
        }
    }
    None
}

/// The threads that are in no circle, since they wait for nobody, or only for such threads.
fn threads_out(rows: &[ThreadSet]) -> ThreadSet
    requires { length rows.now ≤ MAX_THREADS }
    ensures in_none { (cycle : List ℕ) → IsCycle (IsInRow rows.now) cycle
        → (t : ℕ) → IsAmong t cycle → IsFalse (has_thread result t) }
    ensures others { (t : ℕ) → t < length rows.now → IsFalse (has_thread result t)
        → (u : ℕ) × IsInRow rows.now t u × IsFalse (has_thread result u) }
{
    let mut out = ThreadSet::none();
    while let Some(t) = next_out(rows, out) {
        out = out.with(ThreadId(t as u8));
    }
    out
}

/// The first thread that is not out.
fn first_left(threads: usize, out: ThreadSet) -> Option<usize>
    requires { threads ≤ MAX_THREADS }
    ensures found { IfSome result (λ t. (t < threads) × IsFalse (has_thread out t)) }
    ensures none { IfNone result ((t : ℕ) → t < threads → IsTrue (has_thread out t)) }
{
    for t in 0..threads {
        if !out.has(ThreadId(t as u8)) {
            return Some(t);
        }
    }
    None
}

/// Where the number is in the path.
fn place_in(path: &[usize], t: usize) -> Option<usize>
    ensures found { IfSome result (λ k. slice_get path.now k ≡ Some t) }
    ensures none { IfNone result (¬ Contains path.now t) }
{
    path.iter().position(|u| *u == t)
}

/// What comes from this place on.
fn rest_from(alloc: Global, path: &[usize], start: usize) -> Result<Vec<usize>, Memory>
    requires { start ≤ length path.now }
    ensures { IfOk result (λ rest. rest.items ≡ drop start path.now) }
{
    let mut rest = with_capacity(alloc, path.len() - start)?;
    match rest.extend_from_slice(&path[start..]) {
        Ok(()) => Ok(rest),
        Err(_) => unreachable!(),
    }
}

/// The thread that comes after one that is not out.
fn step_from(rows: &[ThreadSet], out: ThreadSet, t: usize) -> usize
    requires within { t < length rows.now }
    requires some { (u : ℕ) × IsInRow rows.now t u × IsFalse (has_thread out u) }
    ensures waits { IsInRow rows.now t result }
    ensures left { IsFalse (has_thread out result) }
{
    match next_left(rows, out, t) {
        Some(next) => next,
        None => unreachable!(),
    }
}

/// A circle of threads that are not out. It goes from the first to one that it waits for, and so on, until it comes to one
/// where it has been, which takes no more steps than there are threads.
fn circle_from(
    alloc: Global,
    rows: &[ThreadSet],
    out: ThreadSet,
    first: usize,
) -> Result<Vec<usize>, Memory>
    requires few { length rows.now ≤ MAX_THREADS }
    requires known { (t u : ℕ) → IsInRow rows.now t u → u < length rows.now }
    requires others { (t : ℕ) → t < length rows.now → IsFalse (has_thread out t)
        → (u : ℕ) × IsInRow rows.now t u × IsFalse (has_thread out u) }
    requires within { first < length rows.now }
    requires left { IsFalse (has_thread out first) }
    ensures { IfOk result (λ circle. IsRing (IsInRow rows.now) circle.items) }
{
    let mut path = Vec::new(alloc);
    let mut next = first;
    for taken in 0..rows.len() + 1 {
        match place_in(&path, next) {
            Some(start) => return rest_from(alloc, &path, start),
            None => {
                reserve(&mut path, 1)?;
                path.push_reserved(next);
                next = step_from(rows, out, next);
            }
        }
    }
    unreachable!()
}

/// A circle, if there is one.
///
/// # Errors
/// `Memory` where a growth was refused.
pub fn circle_in(alloc: Global, rows: &[ThreadSet]) -> Result<Option<Vec<usize>>, Memory>
    requires few { length rows.now ≤ MAX_THREADS }
    requires known { (t u : ℕ) → IsInRow rows.now t u → u < length rows.now }
    ensures some { IfOk result (λ found. IfSome found (λ circle. IsRing (IsInRow rows.now) circle.items)) }
    ensures none { IfOk result (λ found. IfNone found ((cycle : List ℕ) → ¬ IsCycle (IsInRow rows.now) cycle)) }
{
    let out = threads_out(rows);
    match first_left(rows.len(), out) {
        Some(first) => Ok(Some(circle_from(alloc, rows, out, first)?)),
        None => Ok(None),
    }
}
