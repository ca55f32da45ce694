//! How long prologues are, and what prevents one.
use std::alloc::Global;
use std::process::Abort;
use velo_events::{Bounds, Config, Event, Kind, Label, LockId, ThreadId, VarId};
use velo_laws::{NotRenewed, renew};
use velo_ledger::Shares;
use velo_traces::Trace;
use velo_world::World;

const BOUNDS: Bounds = Bounds {
    threads: 4,
    variables: 2,
    locks: 2,
};

fn by(thread: u8, kind: Kind) -> Event {
    Event {
        thread: ThreadId(thread),
        kind,
    }
}

/// How long the log is with which a run of these events goes on.
fn length_after(
    rt: &impl Abort,
    alloc: Global,
    most: u32,
    events: &[Event],
) -> Result<usize, NotRenewed> {
    let config = Config::new(1, BOUNDS, most, 10, false).expect(rt, "a configuration");
    let mut log = Trace::new(alloc);
    for event in events {
        log.push(*event).expect(rt, "memory");
    }
    let (world, shares) = World::from_log(alloc, config, log).expect(rt, "a world");
    let renewed = renew(alloc, &world);
    drop((world, shares));
    length_of(renewed)
}

fn length_of(renewed: Result<(World, Shares), NotRenewed>) -> Result<usize, NotRenewed> {
    match renewed {
        Ok(renewed) => {
            let length = renewed.0.log().len();
            drop(renewed);
            Ok(length)
        }
        Err(reason) => Err(reason),
    }
}

#[test]
fn a_prologue_has_what_is_left(rt: HostRuntime) {
    let nothing_left = [
        by(0, Kind::Fork(ThreadId(1))),
        by(0, Kind::Begin(Label(7))),
        by(0, Kind::Write(VarId(0), 5)),
        by(0, Kind::Write(VarId(0), 0)),
        by(0, Kind::End),
        by(1, Kind::Acquire(LockId(0))),
        by(1, Kind::Release(LockId(0))),
        by(1, Kind::Exit),
        by(0, Kind::Join(ThreadId(1))),
    ];
    assert!(rt; length_after(&rt, rt.alloc(), 100, &nothing_left) == Ok(0));
    // two forks, a write, an acquisition, two shares, an exit
    let all_left = [
        by(0, Kind::Fork(ThreadId(1))),
        by(1, Kind::Fork(ThreadId(2))),
        by(1, Kind::Write(VarId(1), 5)),
        by(1, Kind::Exit),
        by(2, Kind::Acquire(LockId(1))),
        by(2, Kind::AcquireShared(LockId(0))),
        by(0, Kind::AcquireShared(LockId(0))),
    ];
    assert!(rt; length_after(&rt, rt.alloc(), 100, &all_left) == Ok(7));
}

#[test]
fn an_open_block_and_an_alarm_are_in_the_way(rt: HostRuntime) {
    let open = [
        by(0, Kind::Fork(ThreadId(1))),
        by(1, Kind::Begin(Label(7))),
        by(0, Kind::Write(VarId(0), 5)),
    ];
    let reason = Err(NotRenewed::BlockOpen(ThreadId(1)));
    assert!(rt; length_after(&rt, rt.alloc(), 100, &open) == reason);
    let lost_update = [
        by(0, Kind::Fork(ThreadId(1))),
        by(0, Kind::Begin(Label(7))),
        by(0, Kind::Read(VarId(0), 0)),
        by(1, Kind::Write(VarId(0), 5)),
        by(0, Kind::Write(VarId(0), 1)),
        by(0, Kind::End),
    ];
    assert!(rt; length_after(&rt, rt.alloc(), 100, &lost_update) == Err(NotRenewed::Alarm));
}

#[test]
fn what_is_left_has_to_fit(rt: HostRuntime) {
    let two_left = [
        by(0, Kind::Write(VarId(0), 5)),
        by(0, Kind::Write(VarId(1), 6)),
    ];
    assert!(rt; length_after(&rt, rt.alloc(), 2, &two_left) == Ok(2));
}
