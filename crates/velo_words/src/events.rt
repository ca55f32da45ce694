//! The events before one, in the bytes of a log, and the last of them that is sought.

use std::alloc::Global;
use velo_bytes::Source;
use velo_events::{Bounds, Event, Kind, LockId, MAX_EVENTS, ThreadId, VarId};
use velo_logtext::LogReader;
use velo_traces::Trace;

/// What the last event is sought of.
#[derive(Clone, Copy)]
pub enum Sought {
    /// The writes of a variable.
    Write(VarId),
    /// The acquires and releases of a lock by one thread alone.
    OnLock(LockId),
    /// The acquires of a lock by a thread, alone or with others.
    Acquire(ThreadId, LockId),
    /// The forks of a thread.
    Fork(ThreadId),
    /// The joins of a thread.
    Join(ThreadId),
    /// The exits of a thread.
    Exit(ThreadId),
}

/// Whether an event is sought.
fn is_sought(sought: Sought, event: Event) -> bool {
    match (sought, event.kind) {
        (Sought::Write(x), Kind::Write(y, _)) => x.0 == y.0,
        (Sought::OnLock(m), Kind::Acquire(n) | Kind::Release(n)) => m.0 == n.0,
        (Sought::Acquire(t, m), Kind::Acquire(n) | Kind::AcquireShared(n)) => {
            event.thread.0 == t.0 && m.0 == n.0
        }
        (Sought::Fork(u), Kind::Fork(v)) => u.0 == v.0,
        (Sought::Join(u), Kind::Join(v)) => u.0 == v.0,
        (Sought::Exit(t), Kind::Exit) => event.thread.0 == t.0,
        _ => false,
    }
}

/// The line of the last event that is sought, and that event, if there is one.
pub(crate) fn last_of(events: &[Event], sought: Sought) -> Option<(u64, Event)> {
    let mut last = None;
    for (at, event) in events.iter().enumerate() {
        if is_sought(sought, *event) {
            last = Some(((at as u64).saturating_add(2), *event));
        }
    }
    last
}

/// The next event of a log, if it has one.
fn next_event<S: Source>(reader: &mut LogReader, source: &mut S) -> Option<Event> {
    match reader.next(source) {
        Ok(Some(event)) => Some(event),
        _ => None,
    }
}

/// The bounds of a log, the events before a position, and the one there; none where the log does not
/// go so far, or an allocation fails.
pub(crate) fn events_up_to<S: Source>(
    alloc: Global,
    source: &mut S,
    position: usize,
) -> Option<(Bounds, Trace, Event)> {
    if position > MAX_EVENTS as usize {
        return None;
    }
    let mut reader = match LogReader::open(alloc, source) {
        Ok(reader) => reader,
        Err(_) => return None,
    };
    let mut trace = Trace::new(alloc);
    for _ in 0..position {
        let event = next_event(&mut reader, source)?;
        if trace.push(event).is_err() {
            return None;
        }
    }
    let event = next_event(&mut reader, source)?;
    Some((reader.bounds(), trace, event))
}
