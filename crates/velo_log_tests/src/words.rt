//! Short words for the events in the tests.
use std::alloc::Global;
use std::fmt::Display;
use std::process::Abort;
use velo_events::{Event, Kind, Label, LockId, Memory, ThreadId, VarId};
use velo_traces::Trace;

/// The event of a line of a log, for tables.
macro_rules! event {
    (@ $thread:literal, $kind:expr) => {
        velo_events::Event {
            thread: velo_events::ThreadId($thread),
            kind: $kind,
        }
    };
    ($thread:literal rd $variable:literal $value:literal) => {
        $crate::words::event!(
            @ $thread,
            velo_events::Kind::Read(velo_events::VarId($variable), $value)
        )
    };
    ($thread:literal wr $variable:literal $value:literal) => {
        $crate::words::event!(
            @ $thread,
            velo_events::Kind::Write(velo_events::VarId($variable), $value)
        )
    };
    ($thread:literal acq $lock:literal) => {
        $crate::words::event!(@ $thread, velo_events::Kind::Acquire(velo_events::LockId($lock)))
    };
    ($thread:literal rel $lock:literal) => {
        $crate::words::event!(@ $thread, velo_events::Kind::Release(velo_events::LockId($lock)))
    };
    ($thread:literal acqs $lock:literal) => {
        $crate::words::event!(
            @ $thread,
            velo_events::Kind::AcquireShared(velo_events::LockId($lock))
        )
    };
    ($thread:literal rels $lock:literal) => {
        $crate::words::event!(
            @ $thread,
            velo_events::Kind::ReleaseShared(velo_events::LockId($lock))
        )
    };
    ($thread:literal begin $label:literal) => {
        $crate::words::event!(@ $thread, velo_events::Kind::Begin(velo_events::Label($label)))
    };
    ($thread:literal end) => {
        $crate::words::event!(@ $thread, velo_events::Kind::End)
    };
    ($thread:literal fork $child:literal) => {
        $crate::words::event!(@ $thread, velo_events::Kind::Fork(velo_events::ThreadId($child)))
    };
    ($thread:literal join $child:literal) => {
        $crate::words::event!(@ $thread, velo_events::Kind::Join(velo_events::ThreadId($child)))
    };
    ($thread:literal exit) => {
        $crate::words::event!(@ $thread, velo_events::Kind::Exit)
    };
}

/// The block that begins at a position, for tables.
macro_rules! block {
    ($first:literal, $label:literal) => {
        velo_traces::Block {
            first: $first,
            label: velo_events::Label($label),
        }
    };
}

pub(crate) use block;
pub(crate) use event;

fn by(thread: u8, kind: Kind) -> Event {
    Event {
        thread: ThreadId(thread),
        kind,
    }
}

pub fn read(thread: u8, variable: u16, value: u64) -> Event {
    by(thread, Kind::Read(VarId(variable), value))
}

pub fn write(thread: u8, variable: u16, value: u64) -> Event {
    by(thread, Kind::Write(VarId(variable), value))
}

pub fn acquire(thread: u8, lock: u16) -> Event {
    by(thread, Kind::Acquire(LockId(lock)))
}

pub fn release(thread: u8, lock: u16) -> Event {
    by(thread, Kind::Release(LockId(lock)))
}

pub fn acquire_shared(thread: u8, lock: u16) -> Event {
    by(thread, Kind::AcquireShared(LockId(lock)))
}

pub fn release_shared(thread: u8, lock: u16) -> Event {
    by(thread, Kind::ReleaseShared(LockId(lock)))
}

pub fn begin(thread: u8, label: u32) -> Event {
    by(thread, Kind::Begin(Label(label)))
}

pub fn end(thread: u8) -> Event {
    by(thread, Kind::End)
}

pub fn fork(thread: u8, child: u8) -> Event {
    by(thread, Kind::Fork(ThreadId(child)))
}

pub fn join(thread: u8, child: u8) -> Event {
    by(thread, Kind::Join(ThreadId(child)))
}

pub fn exit(thread: u8) -> Event {
    by(thread, Kind::Exit)
}

pub fn trace_of(alloc: Global, events: &[Event]) -> Result<Trace, Memory> {
    let mut trace = Trace::new(alloc);
    for event in events {
        trace.push(*event)?;
    }
    Ok(trace)
}

/// Whether this is the text of the value.
pub fn is_told_as<D: Display>(alloc: Global, told: &D, text: &str) -> bool {
    told.to_string(alloc)
        .is_ok_and(|string| string.as_str() == text)
}

/// Fails the test where this does not hold of a case.
pub fn holds_for<D: Display>(rt: &impl Abort, is: bool, case: &D) {
    assert!(rt; is, "{case}");
}
