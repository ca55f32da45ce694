//! Tests of workers.
ghost use Rattle.std.specs.Prelude.{◌≡◌, IfSome};

mod chance;
mod growths;
mod live;

use crate::words::holds_for;
use std::alloc::Global;
use velo_events::{Config, Event, Kind, Label, LockId, Refusal, ThreadId, VarId};
use velo_worker::{Ending, replay};
use velo_workload::{Workload, parse};
use velo_world::Closed;

const X: VarId = VarId(0);

const M: LockId = LockId(0);

const N: LockId = LockId(1);

const MAIN: ThreadId = ThreadId(0);

const OTHER: ThreadId = ThreadId(1);

/// No thread of any of the workloads.
const NOBODY: ThreadId = ThreadId(9);

macro_rules! by {
    ($thread:expr, $kind:expr) => {
        Event {
            thread: $thread,
            kind: $kind,
        }
    };
}

/// A run, its log, and how it ends.
#[derive(Clone, Copy)]
struct Run<'a> {
    text: &'a str,
    schedule: &'a [ThreadId],
    stop: bool,
    log: &'a [Event],
    /// What each thread read and wrote, added up.
    totals: &'a [(u128, u128)],
    ending: Ending,
}

/// A sum wraps, and nothing of it is an event.
const WRAPS: &str = "var x\nthread main\nset 18446744073709551615\nwrite x\nread x\nadd 1\nwrite x";

const WRAPS_LOG: [Event; 4] = [
    by!(MAIN, Kind::Write(X, 18_446_744_073_709_551_615)),
    by!(MAIN, Kind::Read(X, 18_446_744_073_709_551_615)),
    by!(MAIN, Kind::Write(X, 0)),
    by!(MAIN, Kind::Exit),
];

/// The second thread writes between the read and the write of the first one's block.
const LOST_UPDATE: &str =
    "var x\nthread main\nfork a\nbegin inc\nread x\nadd 1\nwrite x\nend\njoin a\nthread a\nset 5\nwrite x";

const LOST_SCHEDULE: [ThreadId; 5] = [MAIN, MAIN, MAIN, OTHER, MAIN];

const LOST_LOG: [Event; 9] = [
    by!(MAIN, Kind::Fork(OTHER)),
    by!(MAIN, Kind::Begin(Label(0))),
    by!(MAIN, Kind::Read(X, 0)),
    by!(OTHER, Kind::Write(X, 5)),
    by!(MAIN, Kind::Write(X, 1)),
    by!(MAIN, Kind::End),
    by!(OTHER, Kind::Exit),
    by!(MAIN, Kind::Join(OTHER)),
    by!(MAIN, Kind::Exit),
];

/// The same up to the alarm.
const STOPPED_LOG: [Event; 5] = [
    by!(MAIN, Kind::Fork(OTHER)),
    by!(MAIN, Kind::Begin(Label(0))),
    by!(MAIN, Kind::Read(X, 0)),
    by!(OTHER, Kind::Write(X, 5)),
    by!(MAIN, Kind::Write(X, 1)),
];

/// Two locks, taken in opposite orders.
const OPPOSITE: &str =
    "lock m\nlock n\nthread main\nfork a\nacquire m\nacquire n\nrelease n\nrelease m\nthread a\nacquire n\nacquire m\nrelease m\nrelease n";

const OPPOSITE_SCHEDULE: [ThreadId; 3] = [MAIN, MAIN, OTHER];

const OPPOSITE_LOG: [Event; 3] = [
    by!(MAIN, Kind::Fork(OTHER)),
    by!(MAIN, Kind::Acquire(M)),
    by!(OTHER, Kind::Acquire(N)),
];

/// A thread tries a lock that is held, and gets it at a later turn.
const WAITS: &str =
    "lock m\nthread main\nfork a\nacquire m\nrelease m\nthread a\nacquire m\nrelease m";

const WAITS_SCHEDULE: [ThreadId; 7] = [OTHER, MAIN, MAIN, OTHER, NOBODY, OTHER, MAIN];

const WAITS_LOG: [Event; 7] = [
    by!(MAIN, Kind::Fork(OTHER)),
    by!(MAIN, Kind::Acquire(M)),
    by!(MAIN, Kind::Release(M)),
    by!(MAIN, Kind::Exit),
    by!(OTHER, Kind::Acquire(M)),
    by!(OTHER, Kind::Release(M)),
    by!(OTHER, Kind::Exit),
];

/// Two threads share a lock at the same time.
const SHARE: &str =
    "var x\nlock m\nthread main\nfork a\nshare m\nread x\nunshare m\njoin a\nthread a\nshare m\nread x\nunshare m";

const SHARE_LOG: [Event; 10] = [
    by!(MAIN, Kind::Fork(OTHER)),
    by!(OTHER, Kind::AcquireShared(M)),
    by!(MAIN, Kind::AcquireShared(M)),
    by!(OTHER, Kind::Read(X, 0)),
    by!(MAIN, Kind::Read(X, 0)),
    by!(OTHER, Kind::ReleaseShared(M)),
    by!(MAIN, Kind::ReleaseShared(M)),
    by!(OTHER, Kind::Exit),
    by!(MAIN, Kind::Join(OTHER)),
    by!(MAIN, Kind::Exit),
];

/// A lock that is shared, and one that is not, taken in opposite orders.
const OPPOSITE_SHARE: &str =
    "lock m\nlock n\nthread main\nfork a\nshare m\nacquire n\nrelease n\nunshare m\nthread a\nacquire n\nacquire m\nrelease m\nrelease n";

const OPPOSITE_SHARE_LOG: [Event; 3] = [
    by!(MAIN, Kind::Fork(OTHER)),
    by!(MAIN, Kind::AcquireShared(M)),
    by!(OTHER, Kind::Acquire(N)),
];

/// Repeats in a repeat, one of them done no time.
const NESTED: &str =
    "var x\nthread main\nrepeat 2\nadd 1\nrepeat 0\nwrite x\ndone\nrepeat 3\nadd 10\ndone\nwrite x\ndone";

const NESTED_LOG: [Event; 3] = [
    by!(MAIN, Kind::Write(X, 31)),
    by!(MAIN, Kind::Write(X, 62)),
    by!(MAIN, Kind::Exit),
];

const EXIT_LOG: [Event; 1] = [by!(MAIN, Kind::Exit)];

/// Whether each thread has its totals of what it read and wrote.
fn has_totals(closed: &Closed, totals: &[(u128, u128)]) -> bool {
    let threads = closed.bounds().threads;
    if usize::from(threads) != totals.len() {
        return false;
    }
    for thread in 0..threads {
        let tally = closed.tally(ThreadId(thread));
        if (tally.read_total, tally.written_total) != totals[usize::from(thread)] {
            return false;
        }
    }
    true
}

/// Workloads, and what becomes of them.
static RUNS: [Run<'static>; 12] = [
    Run {
        text: WRAPS,
        schedule: &[],
        stop: false,
        log: &WRAPS_LOG,
        totals: &[(18_446_744_073_709_551_615, 18_446_744_073_709_551_615)],
        ending: Ending::Done,
    },
    Run {
        text: LOST_UPDATE,
        schedule: &LOST_SCHEDULE,
        stop: false,
        log: &LOST_LOG,
        totals: &[(0, 1), (0, 5)],
        ending: Ending::Done,
    },
    Run {
        text: LOST_UPDATE,
        schedule: &LOST_SCHEDULE,
        stop: true,
        log: &STOPPED_LOG,
        totals: &[(0, 1), (0, 5)],
        ending: Ending::Halted,
    },
    Run {
        text: OPPOSITE,
        schedule: &OPPOSITE_SCHEDULE,
        stop: false,
        log: &OPPOSITE_LOG,
        totals: &[(0, 0), (0, 0)],
        ending: Ending::Stuck,
    },
    Run {
        text: SHARE,
        schedule: &[],
        stop: false,
        log: &SHARE_LOG,
        totals: &[(0, 0), (0, 0)],
        ending: Ending::Done,
    },
    Run {
        text: OPPOSITE_SHARE,
        schedule: &OPPOSITE_SCHEDULE,
        stop: false,
        log: &OPPOSITE_SHARE_LOG,
        totals: &[(0, 0), (0, 0)],
        ending: Ending::Stuck,
    },
    Run {
        text: WAITS,
        schedule: &WAITS_SCHEDULE,
        stop: false,
        log: &WAITS_LOG,
        totals: &[(0, 0), (0, 0)],
        ending: Ending::Done,
    },
    Run {
        text: NESTED,
        schedule: &[],
        stop: false,
        log: &NESTED_LOG,
        totals: &[(0, 93)],
        ending: Ending::Done,
    },
    Run {
        text: "thread main",
        schedule: &[],
        stop: false,
        log: &EXIT_LOG,
        totals: &[(0, 0)],
        ending: Ending::Done,
    },
    Run {
        text: "thread main\nrepeat 8388607\nset 1\ndone\nset 1",
        schedule: &[],
        stop: false,
        log: &EXIT_LOG,
        totals: &[(0, 0)],
        ending: Ending::Done,
    },
    Run {
        text: "thread main\njoin main",
        schedule: &[],
        stop: false,
        log: &[],
        totals: &[(0, 0)],
        ending: Ending::Stuck,
    },
    Run {
        text: "thread main\nend",
        schedule: &[],
        stop: false,
        log: &[],
        totals: &[(0, 0)],
        ending: Ending::Refused(MAIN, Refusal::NoOpenBlock),
    },
];

/// Whether the run has its log, its totals and its ending.
fn went_as(closed: &Closed, ending: Ending, run: &Run<'_>) -> bool {
    let has_log = closed.log().as_slice() == run.log;
    let has_totals = has_totals(closed, run.totals);
    has_log && has_totals && ending == run.ending
}

/// A configuration for the workload's runs.
fn config_for(workload: &Workload, events: u32, nodes: u16, stop: bool) -> Option<Config>
    ensures { IfSome result (λ config. config.bounds ≡ workload.now.bounds) }
{
    Config::new(0, workload.bounds(), events, nodes, stop).ok()
}

/// The end of a replay of the workload.
fn end_of_replay(
    alloc: Global,
    workload: &Workload,
    schedule: &[ThreadId],
    stop: bool,
) -> Option<(Closed, Ending)> {
    let config = config_for(workload, 100, 64, stop)?;
    replay(alloc, workload, schedule, config).ok()
}

/// Whether a replay of the workload goes as the run should.
fn replays(alloc: Global, workload: &Workload, run: &Run<'_>) -> Option<bool> {
    let (closed, ending) = end_of_replay(alloc, workload, run.schedule, run.stop)?;
    Some(went_as(&closed, ending, run))
}

/// Whether a replay of the run's text goes as it should.
fn plays(alloc: Global, run: &Run<'_>) -> Option<bool> {
    let workload = parse(alloc, run.text).ok()?;
    replays(alloc, &workload, run)
}

#[test]
fn workloads_run_by_their_schedules(rt: HostRuntime) {
    for run in &RUNS {
        holds_for(&rt, plays(rt.alloc(), run) == Some(true), &run.text);
    }
}
