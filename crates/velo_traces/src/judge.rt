//! Whether a trace can happen, judged position by position with no memory of its own.
ghost use Rattle.std.specs.Prelude.{◌≡◌, ◌≤◌, ◌+◌, ℕ, length, take, Some, None, Option, option_map, if◌then◌else◌, IsTrue, IfErr, OnOk, ◌||◌, ◌&&◌, ◌==◌, not};
ghost use Rattle.velo_events.specs.Event.{are_same, thread_of, value_of, is_acquire, is_acquire_shared, is_write_of, is_on_lock, is_on_share, is_begin_by, is_end_by, is_fork_of, is_join_of, is_exit_by};
ghost use Rattle.velo_events.specs.Heap.{value_in, holder_in, shares_in, happened, times, was_born, status_in, depth_in};
ghost use Rattle.velo_events.specs.Meaning.{refusal_of, holds, holds_a_lock, is_shared_beside, is_another, is_unborn, is_live, is_joined};
ghost use Rattle.velo_events.specs.WellFormed.{IsWellFormed};
ghost use Rattle.velo_traces.specs.Flaws.{flaw_of, IsFirstFlaw};

use crate::Trace;
use velo_events::{Bounds, Event, Kind, LockId, MAX_OPEN_BLOCKS, Refusal, Status, ThreadId, VarId};

/// Why an event cannot happen where it stands in a trace.
#[derive(Clone, Copy, PartialEq, Eq)]
pub enum Flaw {
    /// Its operation is refused after the events before it, for one of the reasons with the numbers 2 to 16.
    Refused(Refusal),
    /// It reads another value than that of the latest write to its variable, or than 0 where there is none.
    WrongValue,
}

/// The variable's value after one more event.
fn value_after(event: Event, x: VarId, before: u64) -> u64
    ensures { result ≡ (if is_write_of x.0 event then value_of event.kind else before) }
{
    match event.kind {
        Kind::Write(y, v) if y == x => v,
        _ => before,
    }
}

/// The variable's value after the events.
fn value_in(events: &[Event], x: VarId) -> u64
    ensures { result ≡ value_in events.now x.0 }
{
    let mut value = 0;
    for event in events {
        value = value_after(*event, x, value);
    }
    value
}

/// The lock's holder after one more event.
fn holder_after(event: Event, m: LockId, before: Option<ThreadId>) -> Option<ThreadId>
    ensures { option_map (λ t. t.0) result
        ≡ (if is_on_lock m.0 event then
        (if is_acquire event.kind then Some (thread_of event) else None) else option_map (λ t. t.0) before) }
{
    match event.kind {
        Kind::Acquire(n) if n == m => Some(event.thread),
        Kind::Release(n) if n == m => None,
        _ => before,
    }
}

/// The lock's holder after the events.
fn holder_in(events: &[Event], m: LockId) -> Option<ThreadId>
    ensures { option_map (λ t. t.0) result ≡ holder_in events.now m.0 }
{
    let mut holder = None;
    for event in events {
        holder = holder_after(*event, m, holder);
    }
    holder
}

/// Whether a thread shares the lock after one more event.
fn share_after(event: Event, m: LockId, t: ThreadId, before: bool) -> bool
    ensures { result ≡ (if is_on_share m.0 t.0 event then is_acquire_shared event.kind else before) }
{
    if event.thread != t {
        return before;
    }
    match event.kind {
        Kind::AcquireShared(n) if n == m => true,
        Kind::ReleaseShared(n) if n == m => false,
        _ => before,
    }
}

/// Whether a thread shares the lock after the events.
fn shares_in(events: &[Event], m: LockId, t: ThreadId) -> bool
    ensures { result ≡ shares_in events.now m.0 t.0 }
{
    let mut share = false;
    for event in events {
        share = share_after(*event, m, t, share);
    }
    share
}

/// Whether a thread was forked, has exited and was joined.
#[derive(Clone, Copy)]
struct Life {
    forked: bool,
    exited: bool,
    joined: bool,
}

/// A thread's life after one more event.
fn life_after(event: Event, t: ThreadId, before: Life) -> Life
    ensures forked { result.forked ≡ (before.forked || is_fork_of t.0 event) }
    ensures exited { result.exited ≡ (before.exited || is_exit_by t.0 event) }
    ensures joined { result.joined ≡ (before.joined || is_join_of t.0 event) }
{
    match event.kind {
        Kind::Fork(u) if u == t => Life {
            forked: true,
            ..before
        },
        Kind::Join(u) if u == t => Life {
            joined: true,
            ..before
        },
        Kind::Exit if event.thread == t => Life {
            exited: true,
            ..before
        },
        _ => before,
    }
}

/// A thread's status after the events.
fn status_in(events: &[Event], t: ThreadId) -> Status
    ensures { result ≡ status_in events.now t.0 }
{
    let mut life = Life {
        forked: false,
        exited: false,
        joined: false,
    };
    for event in events {
        life = life_after(*event, t, life);
    }
    if life.joined {
        Status::Joined
    } else if life.exited {
        Status::Exited
    } else if t.0 == 0 || life.forked {
        Status::Live
    } else {
        Status::Unborn
    }
}

/// Whether the thread begins a block.
fn is_begin_by(event: Event, t: ThreadId) -> bool
    ensures { result ≡ is_begin_by t.0 event }
{
    event.thread == t && matches!(event.kind, Kind::Begin(_))
}

/// Whether the thread ends a block.
fn is_end_by(event: Event, t: ThreadId) -> bool
    ensures { result ≡ is_end_by t.0 event }
{
    event.thread == t && matches!(event.kind, Kind::End)
}

/// How many blocks a thread has open after the events.
fn depth_in(events: &[Event], t: ThreadId) -> usize
    ensures { result ≡ depth_in events.now t.0 }
{
    let mut begins: usize = 0;
    let mut ends: usize = 0;
    for event in events {
        if is_begin_by(*event, t) {
            begins += 1;
        }
        if is_end_by(*event, t) {
            ends += 1;
        }
    }
    begins.saturating_sub(ends)
}

/// Whether the thread is the holder.
fn is_holder(holder: Option<ThreadId>, t: ThreadId) -> bool
    ensures { result ≡ are_same (option_map (λ h. h.0) holder) (Some t.0) }
{
    match holder {
        Some(h) => h == t,
        None => false,
    }
}

/// Whether a thread holds the lock after the events, alone or with others.
fn holds(events: &[Event], t: ThreadId, m: LockId) -> bool
    ensures { result ≡ holds events.now t.0 m.0 }
{
    is_holder(holder_in(events, m), t) || shares_in(events, m, t)
}

/// Whether a thread holds one of the locks after the events.
fn holds_a_lock(events: &[Event], bounds: Bounds, t: ThreadId) -> bool
    ensures { result ≡ holds_a_lock bounds events.now t.0 }
{
    for m in 0..bounds.locks {
        if holds(events, t, LockId(m)) {
            return true;
        }
    }
    false
}

/// Whether the thread is another than this and shares the lock after the events.
fn is_sharer_beside(events: &[Event], u: ThreadId, t: ThreadId, m: LockId) -> bool
    ensures { result ≡ (not (u.0 == t.0) && shares_in events.now m.0 u.0) }
{
    u != t && shares_in(events, m, u)
}

/// Whether another thread than this shares the lock after the events.
fn is_shared_beside(events: &[Event], bounds: Bounds, t: ThreadId, m: LockId) -> bool
    ensures { result ≡ is_shared_beside bounds events.now t.0 m.0 }
{
    for u in 0..bounds.threads {
        if is_sharer_beside(events, ThreadId(u), t, m) {
            return true;
        }
    }
    false
}

/// Whether another thread than this is the holder.
fn is_another(holder: Option<ThreadId>, t: ThreadId) -> bool
    ensures { result ≡ is_another (option_map (λ h. h.0) holder) t.0 }
{
    match holder {
        Some(h) => h != t,
        None => false,
    }
}

/// Why the thread may not acquire the lock, which may be shared or not.
fn acquire_refusal(holds: bool, held: bool) -> Option<Refusal>
    ensures { result
        ≡ (if not holds && held then Some Refusal.Busy else (if holds then Some Refusal.AlreadyHeld else None)) }
{
    if holds {
        Some(Refusal::AlreadyHeld)
    } else {
        held.then_some(Refusal::Busy)
    }
}

/// Why a thread of the status cannot be joined.
fn join_refusal(status: Status) -> Option<Refusal>
    ensures { result
        ≡ (if is_unborn status then Some Refusal.NotForked else
        (if is_live status then Some Refusal.NotExited else
        (if is_joined status then Some Refusal.AlreadyJoined else None))) }
{
    match status {
        Status::Unborn => Some(Refusal::NotForked),
        Status::Live => Some(Refusal::NotExited),
        Status::Exited => None,
        Status::Joined => Some(Refusal::AlreadyJoined),
    }
}

/// Why the thread may not do the operation after the events: the first reason that applies.
#[tactic(auto, unfolding(velo_events::specs::Meaning::refusal_of))]
fn refusal(events: &[Event], bounds: Bounds, t: ThreadId, kind: Kind) -> Option<Refusal>
    ensures { result ≡ refusal_of bounds events.now t.0 kind }
{
    if t.0 >= bounds.threads || !status_in(events, t).is_live() {
        return Some(Refusal::NotLive);
    }
    match kind {
        Kind::Read(x, _) | Kind::Write(x, _) => {
            (x.0 >= bounds.variables).then_some(Refusal::NoSuchVariable)
        }
        Kind::Acquire(m) => {
            if m.0 >= bounds.locks {
                return Some(Refusal::NoSuchLock);
            }
            let held = is_another(holder_in(events, m), t)
                || is_shared_beside(events, bounds, t, m);
            acquire_refusal(holds(events, t, m), held)
        }
        Kind::Release(m) => {
            if m.0 >= bounds.locks {
                return Some(Refusal::NoSuchLock);
            }
            (!is_holder(holder_in(events, m), t)).then_some(Refusal::NotHolder)
        }
        Kind::AcquireShared(m) => {
            if m.0 >= bounds.locks {
                return Some(Refusal::NoSuchLock);
            }
            let held = is_another(holder_in(events, m), t);
            acquire_refusal(holds(events, t, m), held)
        }
        Kind::ReleaseShared(m) => {
            if m.0 >= bounds.locks {
                return Some(Refusal::NoSuchLock);
            }
            (!shares_in(events, m, t)).then_some(Refusal::NotHolder)
        }
        Kind::Begin(_) => (depth_in(events, t) >= MAX_OPEN_BLOCKS).then_some(Refusal::TooDeep),
        Kind::End => (depth_in(events, t) == 0).then_some(Refusal::NoOpenBlock),
        Kind::Fork(u) => {
            if u.0 >= bounds.threads {
                return Some(Refusal::NoSuchThread);
            }
            (!status_in(events, u).is_unborn()).then_some(Refusal::AlreadyForked)
        }
        Kind::Join(u) => {
            if u.0 >= bounds.threads {
                return Some(Refusal::NoSuchThread);
            }
            join_refusal(status_in(events, u))
        }
        Kind::Exit => {
            if depth_in(events, t) > 0 {
                return Some(Refusal::BlockOpen);
            }
            holds_a_lock(events, bounds, t).then_some(Refusal::LockHeld)
        }
    }
}

/// Why the event may not follow the earlier ones.
fn flaw_in(earlier: &[Event], bounds: Bounds, event: Event) -> Option<Flaw>
    ensures { result ≡ flaw_of bounds earlier.now event }
{
    if let Some(refusal) = refusal(earlier, bounds, event.thread, event.kind) {
        return Some(Flaw::Refused(refusal));
    }
    match event.kind {
        Kind::Read(x, v) if v != value_in(earlier, x) => Some(Flaw::WrongValue),
        _ => None,
    }
}

/// Judges whether the trace can happen within the bounds.
///
/// It takes no memory. Its time grows with the square of the number of events, and at an exit with the number of locks
/// too.
///
/// # Errors
/// The first position whose event may not follow those before it, and why.
pub fn well_formed(trace: &Trace, bounds: Bounds) -> Result<(), (usize, Flaw)>
    ensures ok { OnOk result (IsWellFormed bounds trace.now.events) }
    ensures err { IfErr result (λ found. IsFirstFlaw bounds trace.now.events found.0 found.1) }
{
    let events = trace.as_slice();
    for i in 0..events.len() {
        if let Some(flaw) = flaw_in(&events[..i], bounds, events[i]) {
            return Err((i, flaw));
        }
    }
    Ok(())
}
