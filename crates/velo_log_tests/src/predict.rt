//! Which traces small logs foretell.
use std::alloc::Global;
use std::process::Abort;
use velo_events::{Bounds, Config, Event, Kind, Label, LockId, ThreadId, VarId};
use velo_predict::{
    Difference, Waiting, differing_reads, is_prediction, predicts_cycle, predicts_deadlock,
    sources_of,
};
use velo_traces::Trace;

const BOUNDS: Bounds = Bounds {
    threads: 3,
    variables: 2,
    locks: 2,
};

const X: VarId = VarId(0);

const Y: VarId = VarId(1);

const M: LockId = LockId(0);

const N: LockId = LockId(1);

fn by(thread: u8, kind: Kind) -> Event {
    Event {
        thread: ThreadId(thread),
        kind,
    }
}

fn fork(u: u8) -> Event {
    by(0, Kind::Fork(ThreadId(u)))
}

fn trace_of(rt: &impl Abort, alloc: Global, events: &[Event]) -> Trace {
    let mut trace = Trace::new(alloc);
    for event in events {
        trace.push(*event).expect(rt, "memory");
    }
    trace
}

fn foretells(rt: &impl Abort, alloc: Global, log: &[Event], events: &[Event]) -> bool {
    let config = Config::new(1, BOUNDS, 100, 1, false).expect(rt, "in range");
    let log = trace_of(rt, alloc, log);
    let trace = trace_of(rt, alloc, events);
    is_prediction(alloc, &config, &log, &trace).expect(rt, "memory")
}

/// Thread 1 adds to what thread 0 wrote, both under the lock; thread 2 reads and writes on its own.
fn added() -> [Event; 13] {
    [
        fork(1),
        fork(2),
        by(0, Kind::Acquire(M)),
        by(0, Kind::Write(X, 1)),
        by(0, Kind::Release(M)),
        by(1, Kind::Acquire(M)),
        by(1, Kind::Read(X, 1)),
        by(1, Kind::Write(X, 2)),
        by(1, Kind::Release(M)),
        by(2, Kind::Read(Y, 0)),
        by(2, Kind::Write(Y, 1)),
        by(0, Kind::Acquire(M)),
        by(0, Kind::Read(X, 2)),
    ]
}

#[test]
fn log_foretells_itself(rt: HostRuntime) {
    assert!(rt; foretells(&rt, rt.alloc(), &added(), &added()));
    assert!(rt; foretells(&rt, rt.alloc(), &added(), &[]));
}

/// What comes behind a read of another value, and whether it is foretold.
#[test]
fn thread_that_turned_gives_up_its_lock(rt: HostRuntime) {
    let turned = [
        fork(1),
        fork(2),
        by(1, Kind::Acquire(M)),
        by(1, Kind::Read(X, 0)),
    ];
    let ends = [
        (by(1, Kind::Release(M)), true),
        (by(1, Kind::Write(X, 2)), false),
        (by(2, Kind::Read(Y, 0)), true),
        (by(0, Kind::Acquire(M)), false),
    ];
    for (event, expected) in ends {
        let mut events = trace_of(&rt, rt.alloc(), &turned);
        events.push(event).expect(&rt, "memory");
        assert!(rt; foretells(&rt, rt.alloc(), &added(), events.as_slice()) == expected);
    }
}

/// Behind the release of a thread that has turned a read is the last that is known of its thread.
#[test]
fn read_behind_such_a_release_is_the_last(rt: HostRuntime) {
    let mut events = trace_of(
        &rt,
        rt.alloc(),
        &[fork(1), fork(2), by(1, Kind::Acquire(M))],
    );
    for event in [
        by(1, Kind::Read(X, 0)),
        by(1, Kind::Release(M)),
        by(2, Kind::Read(Y, 0)),
    ] {
        events.push(event).expect(&rt, "memory");
        assert!(rt; foretells(&rt, rt.alloc(), &added(), events.as_slice()));
    }
    events.push(by(2, Kind::Write(Y, 1))).expect(&rt, "memory");
    assert!(rt; !foretells(&rt, rt.alloc(), &added(), events.as_slice()));
}

/// The differing reads of a trace that is foretold.
fn differing(rt: &impl Abort, alloc: Global, log: &[Event], events: &[Event]) -> Vec<Difference> {
    let config = Config::new(1, BOUNDS, 100, 1, false).expect(rt, "in range");
    let log = trace_of(rt, alloc, log);
    let trace = trace_of(rt, alloc, events);
    let found = differing_reads(alloc, &config, &log, &trace).expect(rt, "memory");
    found.expect(rt, "foretold")
}

#[test]
fn differing_read_is_listed(rt: HostRuntime) {
    let early = [
        fork(1),
        fork(2),
        by(2, Kind::Read(Y, 0)),
        by(1, Kind::Acquire(M)),
        by(1, Kind::Read(X, 0)),
        by(1, Kind::Release(M)),
    ];
    let listed = differing(&rt, rt.alloc(), &added(), &early);
    let expected = [Difference {
        position: 4,
        recorded: 6,
    }];
    assert!(rt; listed.as_slice() == expected.as_slice());
    let same = differing(&rt, rt.alloc(), &added(), &added());
    assert!(rt; same.len() == 0);
}

/// What a thread does after it read another value is no event of the log.
#[test]
fn events_are_of_the_log(rt: HostRuntime) {
    let early = trace_of(
        &rt,
        rt.alloc(),
        &[
            fork(2),
            fork(1),
            by(1, Kind::Acquire(M)),
            by(1, Kind::Read(X, 0)),
            by(1, Kind::Release(M)),
        ],
    );
    let log = trace_of(&rt, rt.alloc(), &added());
    let sources = sources_of(rt.alloc(), &log, &early).expect(&rt, "memory");
    let expected = [None, None, Some(5), Some(6), None];
    assert!(rt; sources.as_slice() == expected.as_slice());
}

/// The position of the first event that closes a cycle of a trace that is foretold.
fn closing(rt: &impl Abort, alloc: Global, log: &[Event], events: &[Event]) -> Option<usize> {
    let config = Config::new(1, BOUNDS, 100, 1, false).expect(rt, "in range");
    let log = trace_of(rt, alloc, log);
    let trace = trace_of(rt, alloc, events);
    predicts_cycle(alloc, &config, &log, &trace).expect(rt, "memory")
}

/// The lock is taken twice in a block, and another thread's section may come between.
#[test]
fn block_is_broken_between_its_sections(rt: HostRuntime) {
    let block = Kind::Begin(Label(7));
    let log = [
        fork(1),
        by(0, block),
        by(0, Kind::Acquire(M)),
        by(0, Kind::Read(X, 0)),
        by(0, Kind::Release(M)),
        by(0, Kind::Acquire(M)),
        by(0, Kind::Write(X, 1)),
        by(0, Kind::Release(M)),
        by(0, Kind::End),
        by(1, Kind::Acquire(M)),
        by(1, Kind::Read(X, 1)),
        by(1, Kind::Release(M)),
    ];
    let broken = [
        fork(1),
        by(0, block),
        by(0, Kind::Acquire(M)),
        by(0, Kind::Read(X, 0)),
        by(0, Kind::Release(M)),
        by(1, Kind::Acquire(M)),
        by(1, Kind::Read(X, 0)),
        by(1, Kind::Release(M)),
        by(0, Kind::Acquire(M)),
        by(0, Kind::Write(X, 1)),
    ];
    assert!(rt; closing(&rt, rt.alloc(), &log, &broken) == Some(8));
    assert!(rt; closing(&rt, rt.alloc(), &log, &log) == None);
    // what is no prediction is none with a cycle either
    assert!(rt; closing(&rt, rt.alloc(), &broken, &log) == None);
}

/// A circle of waits, if one is foretold.
fn circle(rt: &impl Abort, alloc: Global, log: &[Event], events: &[Event]) -> Option<Vec<Waiting>> {
    let config = Config::new(1, BOUNDS, 100, 1, false).expect(rt, "in range");
    let log = trace_of(rt, alloc, log);
    let trace = trace_of(rt, alloc, events);
    predicts_deadlock(alloc, &config, &log, &trace).expect(rt, "memory")
}

/// Two threads take two locks in two orders.
#[test]
fn threads_wait_in_a_circle(rt: HostRuntime) {
    let log = [
        fork(1),
        by(0, Kind::Acquire(M)),
        by(0, Kind::Acquire(N)),
        by(0, Kind::Release(N)),
        by(0, Kind::Release(M)),
        by(1, Kind::Acquire(N)),
        by(1, Kind::Acquire(M)),
    ];
    let stuck = [fork(1), by(0, Kind::Acquire(M)), by(1, Kind::Acquire(N))];
    let waiting = circle(&rt, rt.alloc(), &log, &stuck).expect(&rt, "a circle");
    let expected = [
        Waiting {
            thread: ThreadId(0),
            next: 2,
        },
        Waiting {
            thread: ThreadId(1),
            next: 6,
        },
    ];
    assert!(rt; waiting.as_slice() == expected.as_slice());
    assert!(rt; circle(&rt, rt.alloc(), &log, &stuck[..2]).is_none());
}
