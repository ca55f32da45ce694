//! Tests of runs on real threads.
use super::config_for;
use std::alloc::Global;
use std::sync::Wait;
use std::sync::atomic::{AtomicU64, Ordering};
use std::thread;
use std::thread::Threads;
use velo_events::{ThreadId, VarId};
use velo_traces::Block;
use velo_worker::{Ending, Gate, OpenGate, live};
use velo_workload::{Workload, parse};
use velo_world::{Alarm, Closed};

/// Two threads add to one variable under a lock, each a thousand times.
pub(super) const THOUSANDS: &str =
    "var x\nlock m\nthread main\nfork a\nfork b\njoin a\njoin b\nthread a\nrepeat 1000\nbegin inc\nacquire m\nread x\nadd 1\nwrite x\nrelease m\nend\ndone\nthread b\nrepeat 1000\nbegin inc\nacquire m\nread x\nadd 1\nwrite x\nrelease m\nend\ndone";

/// The second thread writes between the read and the write of the first one's block, if the gate
/// has it so.
const LOST_UPDATE: &str =
    "var x\nthread main\nfork a\nbegin inc\nread x\nadd 1\nwrite x\nend\njoin a\nthread a\nset 5\nwrite x";

/// Two locks, taken in opposite orders.
const OPPOSITE: &str =
    "lock m\nlock n\nthread main\nfork a\nacquire m\nacquire n\nrelease n\nrelease m\nthread a\nacquire n\nacquire m\nrelease m\nrelease n";

/// Two threads share a lock, at the same time if the gate has it so.
const SHARE: &str =
    "var x\nlock m\nthread main\nfork a\nshare m\nread x\nunshare m\njoin a\nthread a\nshare m\nread x\nunshare m";

/// A lock that is shared, and one that is not, taken in opposite orders.
const OPPOSITE_SHARE: &str =
    "lock m\nlock n\nthread main\nfork a\nshare m\nacquire n\nrelease n\nunshare m\nthread a\nacquire n\nacquire m\nrelease m\nrelease n";

/// A thread may pass a step only once the other thread has asked for a step of its own.
#[derive(Clone, Copy)]
struct Turn {
    thread: u8,
    step: u64,
    awaited: u64,
}

macro_rules! turn {
    ($thread:expr, $step:expr, $awaited:expr) => {
        Turn {
            thread: $thread,
            step: $step,
            awaited: $awaited,
        }
    };
}

const LOST_ORDER: [Turn; 3] = [turn!(1, 0, 3), turn!(0, 3, 1), turn!(1, 1, 4)];

/// Each thread tries its second lock only once both hold their first.
const BOTH_HOLD: [Turn; 3] = [turn!(0, 2, 1), turn!(1, 1, 2), turn!(1, 1, 2)];

/// The second thread shares the lock while the first does, and the first lets go of it only after
/// that.
const BOTH_SHARE: [Turn; 3] = [turn!(1, 0, 3), turn!(0, 3, 1), turn!(0, 3, 1)];

/// A gate that has two threads take turns.
#[derive(Drop)]
struct Order {
    turns: [Turn; 3],
    /// How many steps each thread has asked for.
    asked: [AtomicU64; 2],
}

impl Order {
    fn of(turns: [Turn; 3]) -> Order {
        Order {
            turns,
            asked: [AtomicU64::new(0), AtomicU64::new(0)],
        }
    }

    /// The step of the other thread that this step waits for.
    fn awaited(&self, thread: ThreadId, step: u64) -> Option<u64> {
        for turn in &self.turns {
            if turn.thread == thread.0 && turn.step == step {
                return Some(turn.awaited);
            }
        }
        None
    }
}

/// Whether the other thread asks for the step, or a later one, within a million looks.
fn is_asked(asked: &AtomicU64, step: u64) -> bool {
    for _ in 0..1_000_000 {
        if asked.load(Ordering::SeqCst) > step {
            return true;
        }
        thread::yield_now();
    }
    false
}

impl Gate for Order {
    fn pass(&self, thread: ThreadId, step: u64) -> bool {
        let own = usize::from(thread.0.min(1));
        self.asked[own].store(step.saturating_add(1), Ordering::SeqCst);
        match self.awaited(thread, step) {
            Some(awaited) => is_asked(&self.asked[1 - own], awaited),
            None => true,
        }
    }
}

/// A gate that nobody passes.
struct ShutGate;

impl Gate for ShutGate {
    fn pass(&self, _thread: ThreadId, _step: u64) -> bool {
        false
    }
}

/// What a run shows at its end.
#[derive(Clone, Copy)]
struct Shown<'a> {
    ending: Ending,
    /// The position of its alarm, and that of its transaction.
    alarm: Option<(usize, usize)>,
    /// Where each block that is to blame begins, and its label.
    blamed: &'a [(usize, &'a str)],
    /// The events of each thread.
    counts: &'a [u64],
    /// The value of the first variable.
    first: Option<u64>,
}

const COUNTED: Shown = Shown {
    ending: Ending::Done,
    alarm: None,
    blamed: &[],
    counts: &[5, 6_001, 6_001],
    first: Some(2_000),
};

const LOST: Shown = Shown {
    ending: Ending::Done,
    alarm: Some((4, 1)),
    blamed: &[(1, "inc")],
    counts: &[7, 2],
    first: Some(1),
};

const SHARED: Shown = Shown {
    ending: Ending::Done,
    alarm: None,
    blamed: &[],
    counts: &[6, 4],
    first: Some(0),
};

const STUCK: Shown = Shown {
    ending: Ending::Stuck,
    alarm: None,
    blamed: &[],
    counts: &[2, 1],
    first: None,
};

const GATED: Shown = Shown {
    ending: Ending::Gated,
    alarm: None,
    blamed: &[],
    counts: &[0, 0],
    first: Some(0),
};

fn first_variable(closed: &Closed) -> Option<u64> {
    if closed.bounds().variables == 0 {
        return None;
    }
    Some(closed.heap().value(VarId(0)))
}

fn has_counts(closed: &Closed, counts: &[u64]) -> bool {
    let threads = closed.bounds().threads;
    if usize::from(threads) != counts.len() {
        return false;
    }
    for thread in 0..threads {
        if closed.tally(ThreadId(thread)).events != counts[usize::from(thread)] {
            return false;
        }
    }
    true
}

/// Whether the block begins there and has the label of this name.
fn is_named(block: &Block, labels: &[String], first: usize, label: &str) -> bool {
    let name = labels.get(block.label.0 as usize);
    block.first == first && name.is_some_and(|name| name.as_str() == label)
}

/// Whether the alarm blames these blocks, outermost first.
fn has_blame(alarm: &Alarm, labels: &[String], blamed: &[(usize, &str)]) -> bool {
    let blocks = alarm.blamed.as_slice();
    blocks.len() == blamed.len()
        && blocks.iter().zip(blamed).all(|(block, (first, label))| is_named(
            block, labels, *first, *label,
        ))
}

/// Whether there is the alarm, and it blames what it should.
fn has_alarm(closed: &Closed, labels: &[String], shown: &Shown<'_>) -> bool {
    match closed.alarm() {
        Some(alarm) => {
            shown.alarm == Some((alarm.position, alarm.transaction))
                && has_blame(alarm, labels, shown.blamed)
        }
        None => shown.alarm.is_none(),
    }
}

fn looks_as(closed: &Closed, labels: &[String], shown: &Shown<'_>) -> bool {
    let has_alarm = has_alarm(closed, labels, shown);
    let has_counts = has_counts(closed, shown.counts);
    let first = first_variable(closed);
    has_alarm && has_counts && first == shown.first
}

/// The end of a live run of the workload, with `nodes` nodes.
pub(super) fn end_of_live_run<G: Gate + Sync, R: Threads + Wait + Sync>(
    rt: &R,
    alloc: Global,
    workload: &Workload,
    nodes: u16,
    gate: &G,
) -> Option<(Closed, Ending)> {
    let config = config_for(workload, 20_000, nodes, false)?;
    live(rt, alloc, workload, config, gate).ok()
}

/// Whether a live run of the workload shows what it should.
fn run_shows<G: Gate + Sync, R: Threads + Wait + Sync>(
    rt: &R,
    alloc: Global,
    workload: &Workload,
    gate: &G,
    shown: &Shown<'_>,
) -> Option<bool> {
    let (closed, ending) = end_of_live_run(rt, alloc, workload, 4_096, gate)?;
    let looks_so = looks_as(&closed, workload.label_names(), shown);
    Some(looks_so && ending == shown.ending)
}

/// Whether a live run of the text's workload shows what it should.
fn shows<G: Gate + Sync, R: Threads + Wait + Sync>(
    rt: &R,
    alloc: Global,
    text: &str,
    gate: &G,
    shown: &Shown<'_>,
) -> Option<bool> {
    let workload = parse(alloc, text).ok()?;
    run_shows(rt, alloc, &workload, gate, shown)
}

/// A live run in which two threads take turns, and what it shows.
struct InTurns {
    text: &'static str,
    turns: [Turn; 3],
    shown: Shown<'static>,
}

static IN_TURNS: [InTurns; 4] = [
    InTurns {
        text: LOST_UPDATE,
        turns: LOST_ORDER,
        shown: LOST,
    },
    InTurns {
        text: OPPOSITE,
        turns: BOTH_HOLD,
        shown: STUCK,
    },
    InTurns {
        text: SHARE,
        turns: BOTH_SHARE,
        shown: SHARED,
    },
    InTurns {
        text: OPPOSITE_SHARE,
        turns: BOTH_HOLD,
        shown: STUCK,
    },
];

#[test]
fn live_runs_end_as_they_should(rt: HostRuntime) {
    let alloc = rt.alloc();
    let counted = shows(&rt, alloc, THOUSANDS, &OpenGate, &COUNTED);
    assert!(rt; counted == Some(true));
    let gated = shows(&rt, alloc, LOST_UPDATE, &ShutGate, &GATED);
    assert!(rt; gated == Some(true));
}

#[test]
fn threads_take_turns(rt: HostRuntime) {
    for run in &IN_TURNS {
        let order = Order::of(run.turns);
        let shown = shows(&rt, rt.alloc(), run.text, &order, &run.shown);
        assert!(rt; shown == Some(true));
    }
}
