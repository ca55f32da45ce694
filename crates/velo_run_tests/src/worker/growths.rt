//! One allocation fails, whichever it is: the call reports it, and a second call returns what the
//! first would have. Without a failure each call is done once.
use super::end_of_replay;
use super::live::{THOUSANDS, end_of_live_run};
use std::alloc::Global;
use std::process::Abort;
use std::sync::Wait;
use std::thread::Threads;
use velo_events::{Refusal, ThreadId, VarId};
use velo_worker::{Ending, OpenGate};
use velo_workload::{WorkFault, Workload, parse};
use velo_world::Closed;

/// Two threads that add to one variable under a lock.
const COUNTERS: &str =
    "var x\nlock m\nthread main\nfork a\nacquire m\nread x\nadd 1\nwrite x\nrelease m\njoin a\nthread a\nacquire m\nread x\nadd 1\nwrite x\nrelease m";

/// The outcome of a whole run: how many threads there are, the value of the one variable, and the
/// events of threads 0 and 1.
#[derive(Clone, Copy)]
struct Whole {
    threads: u8,
    value: u64,
    first: u64,
    second: u64,
}

const ONCE: Whole = Whole {
    threads: 2,
    value: 2,
    first: 7,
    second: 5,
};

/// Of the two threads that add a thousand times each.
const OFTEN: Whole = Whole {
    threads: 3,
    value: 2_000,
    first: 5,
    second: 6_001,
};

/// The workload; none if an allocation failed.
fn parsed(rt: &impl Abort, alloc: Global, text: &str) -> Option<Workload> {
    match parse(alloc, text) {
        Ok(workload) => Some(workload),
        Err(WorkFault::Memory) => None,
        Err(_) => panic!(rt; "not a workload"),
    }
}

fn workload(rt: &impl Abort, alloc: Global, text: &str) -> Workload {
    let first = parsed(rt, alloc, text);
    let last = first.or_else(|| parsed(rt, alloc, text));
    last.expect(rt, "memory")
}

/// Whether the run ended as it should.
fn is_whole(closed: &Closed, ending: Ending, whole: Whole) -> bool {
    let bounds = closed.bounds();
    if bounds.threads != whole.threads || bounds.threads < 2 || bounds.variables != 1 {
        return false;
    }
    ending == Ending::Done
        && closed.heap().value(VarId(0)) == whole.value
        && closed.tally(ThreadId(0)).events == whole.first
        && closed.tally(ThreadId(1)).events == whole.second
        && closed.alarm().is_none()
}

/// Whether an allocation failed in a thread of the run.
fn is_refused(ending: Ending) -> bool {
    matches!(
        ending,
        Ending::Refused(_, Refusal::Memory | Refusal::RuntimeMemory)
    )
}

/// Whether the run is whole; none if an allocation failed.
fn judged(closed: &Closed, ending: Ending, whole: Whole) -> Option<bool> {
    if is_refused(ending) {
        return None;
    }
    Some(is_whole(closed, ending, whole))
}

/// Whether a replay of the workload is whole; none if an allocation failed.
fn replay_of(alloc: Global, workload: &Workload) -> Option<bool> {
    let (closed, ending) = end_of_replay(alloc, workload, &[], false)?;
    judged(&closed, ending, ONCE)
}

fn replayed(rt: &impl Abort, alloc: Global) -> Option<bool> {
    let workload = workload(rt, alloc, COUNTERS);
    replay_of(alloc, &workload)
}

#[test]
fn a_refused_growth_of_a_replay(rt: HostRuntime) {
    let first = replayed(&rt, rt.alloc());
    let last = first.or_else(|| replayed(&rt, rt.alloc()));
    assert!(rt; last == Some(true));
}

/// Whether a live run of threads that add a thousand times is whole; none if an allocation failed.
fn live_run_of<R: Threads + Wait + Sync>(
    rt: &R,
    alloc: Global,
    workload: &Workload,
) -> Option<bool> {
    let (closed, ending) = end_of_live_run(rt, alloc, workload, 64, &OpenGate)?;
    judged(&closed, ending, OFTEN)
}

fn lived<R: Threads + Wait + Abort + Sync>(rt: &R, alloc: Global) -> Option<bool> {
    let workload = workload(rt, alloc, THOUSANDS);
    live_run_of(rt, alloc, &workload)
}

#[test]
fn a_refused_growth_of_a_live_run(rt: HostRuntime) {
    let first = lived(&rt, rt.alloc());
    let last = first.or_else(|| lived(&rt, rt.alloc()));
    assert!(rt; last == Some(true));
}
