//! Which accesses of logs that are written out repeat one, and what is left.
use std::alloc::Global;
use std::process::Abort;
use std::test::Fail;
use velo_events::{Event, Kind, Label, LockId, ThreadId, VarId};
use velo_thinning::{repeats, without_repeats};
use velo_traces::Trace;

fn by(thread: u8, kind: Kind) -> Event {
    Event {
        thread: ThreadId(thread),
        kind,
    }
}

fn read(thread: u8, variable: u16) -> Event {
    by(thread, Kind::Read(VarId(variable), 0))
}

fn write(thread: u8, value: u64) -> Event {
    by(thread, Kind::Write(VarId(0), value))
}

/// Compares what is marked of a log, and the places of what is left.
fn judge(
    rt: &impl Abort,
    alloc: Global,
    log: &str,
    events: &[Event],
    marks: &[bool],
    places: &[u32],
) -> Result<(), Fail> {
    let mut trace = Trace::new(alloc);
    for event in events {
        trace.push(*event)?;
    }
    assert!(rt; trace.len() <= 100);
    let found = repeats(alloc, &trace)?;
    assert!(rt; found.as_slice() == marks, "{log}");
    let left = without_repeats(alloc, &trace)?;
    assert!(rt; left.places.as_slice() == places, "{log}");
    assert!(rt; left.trace.len() == places.len(), "{log}");
    Ok(())
}

#[test]
fn a_thread_does_it_again(rt: HostRuntime) -> Result<(), Fail> {
    let alloc = rt.alloc();
    let three = [read(0, 0), read(0, 0), read(0, 0)];
    judge(
        &rt,
        alloc,
        "three reads",
        &three,
        &[false, true, true],
        &[0],
    )?;
    let written = [write(0, 1), write(0, 1), write(0, 2)];
    judge(
        &rt,
        alloc,
        "three writes",
        &written,
        &[false, true, false],
        &[0, 2],
    )?;
    let apart = [read(0, 0), read(0, 1), read(0, 0)];
    judge(&rt, alloc, "another read", &apart, &[false; 3], &[0, 1, 2])?;
    let block = [
        read(0, 0),
        by(0, Kind::Begin(Label(7))),
        read(0, 0),
        by(0, Kind::End),
        read(0, 0),
    ];
    judge(&rt, alloc, "a block", &block, &[false; 5], &[0, 1, 2, 3, 4])?;
    let locked = [read(0, 0), by(0, Kind::Acquire(LockId(0))), read(0, 0)];
    judge(&rt, alloc, "a lock", &locked, &[false; 3], &[0, 1, 2])
}

#[test]
fn another_thread_comes_between(rt: HostRuntime) -> Result<(), Fail> {
    let alloc = rt.alloc();
    let reads = [read(0, 0), read(1, 0), read(0, 0), read(1, 0)];
    judge(
        &rt,
        alloc,
        "reads",
        &reads,
        &[false, false, true, true],
        &[0, 1],
    )?;
    let written = [read(0, 0), write(1, 0), read(0, 0)];
    judge(&rt, alloc, "a write", &written, &[false; 3], &[0, 1, 2])?;
    let elsewhere = [read(0, 0), by(1, Kind::Write(VarId(1), 5)), read(0, 0)];
    judge(
        &rt,
        alloc,
        "a write elsewhere",
        &elsewhere,
        &[false, false, true],
        &[0, 1],
    )?;
    let overread = [write(0, 1), read(1, 0), write(0, 1)];
    judge(
        &rt,
        alloc,
        "a read between writes",
        &overread,
        &[false; 3],
        &[0, 1, 2],
    )?;
    let forked = [read(0, 0), by(1, Kind::Fork(ThreadId(0))), read(0, 0)];
    judge(&rt, alloc, "a fork", &forked, &[false; 3], &[0, 1, 2])
}
