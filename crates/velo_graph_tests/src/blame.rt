//! Tests of blame, by clocks and by passes.
ghost use Rattle.std.specs.Prelude.{◌≡◌, ◌<◌, length, take, IfOk, OnOk, IsTrue};
ghost use Rattle.velo_tables.specs.Clocks.{IsOfThreads};
ghost use Rattle.velo_events.specs.Graph.{HasCycle};

mod growths;
mod order;

use crate::words::{block, event};
use order::has_no_cycle;
use std::alloc::Global;
use std::process::Abort;
use std::test::Fail;
use velo_blame::{Clocks, Scan, blamed};
use velo_events::{Bounds, Config, Event, Kind, Label, MAX_OPEN_BLOCKS, Memory};
use velo_traces::{Block, Trace, well_formed};

/// Three threads, three variables, one lock.
const BOUNDS: Bounds = Bounds {
    threads: 3,
    variables: 3,
    locks: 1,
};

/// Ranks by which each transaction comes before the later ones.
const IN_ORDER: [usize; 10] = [0, 1, 2, 3, 4, 5, 6, 7, 8, 9];

/// What is known of a log from outside.
#[derive(Clone, Copy)]
struct Known<'a> {
    log: &'a str,
    events: &'a [Event],
    position: usize,
    /// An order of the transactions before the position that their conflicts keep.
    ranks: &'a [usize],
    /// The blocks that are open at the position in its thread.
    open: &'a [Block],
    blamed: &'a [Block],
}

fn trace_of(alloc: Global, events: &[Event]) -> Result<Trace, Memory>
    ensures { IfOk result (λ trace. trace.events ≡ events.now) }
{
    let mut trace = Trace::new(alloc);
    for i in 0..events.len() {
        trace.push(events[i])?;
    }
    Ok(trace)
}

/// The trace of a log whose events before the position have no cycle.
fn checked(rt: &impl Abort, alloc: Global, known: &Known) -> Result<Trace, Memory>
    ensures within { IfOk result (λ trace. known.now.position < length trace.events) }
    ensures there { OnOk result (known.now.position < length known.now.events.now) }
    ensures acyclic { IfOk result (λ trace. ¬ HasCycle (take known.now.position trace.events)) }
{
    if known.position >= known.events.len() {
        panic!(rt; "no such position in {}", known.log);
    }
    let before = trace_of(alloc, &known.events[..known.position])?;
    if !has_no_cycle(&before, known.ranks) {
        panic!(rt; "a cycle too early in {}", known.log);
    }
    trace_of(alloc, known.events)
}

/// Whether the event's thread, and one that it forks, are below `threads`.
fn is_of_threads(event: Event, threads: u8) -> bool
    ensures { IsTrue result → IsOfThreads threads event }
{
    match event.kind {
        Kind::Fork(child) => event.thread.0 < threads && child.0 < threads,
        _ => event.thread.0 < threads,
    }
}

/// Clocks of the events.
fn clocks_of(rt: &impl Abort, alloc: Global, events: &[Event]) -> Result<Clocks, Fail> {
    let config = Config::new(1, BOUNDS, 100, 10, false)?;
    let mut clocks = Clocks::new(alloc, &config)?;
    for i in 0..events.len() {
        assert!(rt; i < 100);
        assert!(rt; is_of_threads(events[i], BOUNDS.threads));
        clocks.reserve_for(&events[i])?;
        clocks.note(i, &events[i]);
    }
    Ok(clocks)
}

/// Compares what clocks return.
fn judge_clocks(rt: &impl Abort, alloc: Global, known: &Known) -> Result<(), Fail>
    requires { known.now.position < length known.now.events.now }
{
    assert!(rt; known.open.len() <= MAX_OPEN_BLOCKS);
    let clocks = clocks_of(rt, alloc, &known.events[..known.position])?;
    let event = known.events[known.position];
    let blocks = clocks.blamed(known.open, known.position, &event);
    assert!(rt;
        blocks.as_slice() == known.blamed,
        "clocks of {}",
        known.log
    );
    Ok(())
}

/// Compares what a scan, the function and clocks return. The scan may have been used before.
fn judge(rt: &impl Abort, alloc: Global, scan: &mut Scan, known: &Known) -> Result<(), Fail>
    requires { scan.old ≡ BOUNDS }
    ensures { scan.new ≡ BOUNDS }
{
    let trace = checked(rt, alloc, known)?;
    match well_formed(&trace, BOUNDS) {
        Ok(()) => {
            let blocks = scan.blamed(&trace, known.position);
            assert!(rt; blocks.as_slice() == known.blamed, "scan of {}", known.log);
        }
        Err((position, _)) => panic!(rt; "not well-formed at {position} of {}", known.log),
    }
    let blocks = blamed(alloc, &trace, known.position)?;
    assert!(rt; blocks.as_slice() == known.blamed, "blame of {}", known.log);
    judge_clocks(rt, alloc, known)
}

fn judge_all(rt: &impl Abort, alloc: Global, logs: &[Known]) -> Result<(), Fail> {
    let config = Config::new(1, BOUNDS, 100, 10, false)?;
    let mut scan = Scan::new(alloc, &config)?;
    for known in logs {
        judge(rt, alloc, &mut scan, known)?;
    }
    Ok(())
}

static UPDATES: [Known; 3] = [
    Known {
        log: "the lost update",
        events: &[
            event!(0 fork 1),
            event!(0 begin 7),
            event!(0 rd 0 0),
            event!(1 wr 0 5),
            event!(0 wr 0 1),
        ],
        position: 4,
        ranks: &IN_ORDER,
        open: &[block!(1, 7)],
        blamed: &[block!(1, 7)],
    },
    Known {
        log: "a read between two writes",
        events: &[
            event!(0 fork 1),
            event!(0 begin 1),
            event!(0 wr 0 1),
            event!(1 rd 0 1),
            event!(0 wr 0 2),
        ],
        position: 4,
        ranks: &IN_ORDER,
        open: &[block!(1, 1)],
        blamed: &[block!(1, 1)],
    },
    Known {
        log: "the lost update, with later events",
        events: &[
            event!(0 fork 1),
            event!(0 begin 7),
            event!(0 rd 0 0),
            event!(1 wr 0 5),
            event!(0 wr 0 1),
            event!(0 end),
            event!(1 begin 1),
            event!(0 begin 2),
        ],
        position: 4,
        ranks: &IN_ORDER,
        open: &[block!(1, 7)],
        blamed: &[block!(1, 7)],
    },
];

#[test]
fn updates_in_one_block(rt: HostRuntime) -> Result<(), Fail> {
    judge_all(&rt, rt.alloc(), &UPDATES)
}

static NESTED: [Known; 3] = [
    Known {
        log: "inner block after the read",
        events: &[
            event!(0 fork 1),
            event!(0 begin 1),
            event!(0 rd 0 0),
            event!(0 begin 2),
            event!(1 wr 0 3),
            event!(0 wr 0 4),
        ],
        position: 5,
        ranks: &IN_ORDER,
        open: &[block!(1, 1), block!(3, 2)],
        blamed: &[block!(1, 1)],
    },
    Known {
        log: "inner block before the read",
        events: &[
            event!(0 fork 1),
            event!(0 begin 1),
            event!(0 begin 2),
            event!(0 rd 0 0),
            event!(1 wr 0 3),
            event!(0 wr 0 4),
        ],
        position: 5,
        ranks: &IN_ORDER,
        open: &[block!(1, 1), block!(2, 2)],
        blamed: &[block!(1, 1), block!(2, 2)],
    },
    Known {
        log: "three threads in a ring",
        events: &[
            event!(0 fork 1),
            event!(0 fork 2),
            event!(0 begin 1),
            event!(0 wr 0 1),
            event!(0 begin 2),
            event!(1 rd 0 1),
            event!(1 wr 1 1),
            event!(2 rd 1 1),
            event!(2 wr 2 2),
            event!(0 rd 2 2),
        ],
        position: 9,
        ranks: &IN_ORDER,
        open: &[block!(2, 1), block!(4, 2)],
        blamed: &[block!(2, 1)],
    },
];

#[test]
fn nested_blocks(rt: HostRuntime) -> Result<(), Fail> {
    judge_all(&rt, rt.alloc(), &NESTED)
}

static THREADS_AND_LOCKS: [Known; 2] = [
    Known {
        log: "fork and join",
        events: &[
            event!(0 begin 1),
            event!(0 fork 1),
            event!(1 exit),
            event!(0 join 1),
        ],
        position: 3,
        ranks: &IN_ORDER,
        open: &[block!(0, 1)],
        blamed: &[block!(0, 1)],
    },
    Known {
        log: "a lock taken twice",
        events: &[
            event!(0 fork 1),
            event!(0 begin 1),
            event!(0 acq 0),
            event!(0 rd 0 0),
            event!(0 rel 0),
            event!(1 acq 0),
            event!(1 wr 0 9),
            event!(1 rel 0),
            event!(0 acq 0),
        ],
        position: 8,
        ranks: &IN_ORDER,
        open: &[block!(1, 1)],
        blamed: &[block!(1, 1)],
    },
];

#[test]
fn threads_and_locks(rt: HostRuntime) -> Result<(), Fail> {
    judge_all(&rt, rt.alloc(), &THREADS_AND_LOCKS)
}

/// The lost update of a workload: how its threads are scheduled leaves open which of the last exits
/// comes first.
static OF_A_WORKLOAD: [Known; 2] = [
    Known {
        log: "a replayed lost update",
        events: &[
            event!(0 fork 1),
            event!(0 begin 0),
            event!(0 rd 0 0),
            event!(1 wr 0 5),
            event!(0 wr 0 1),
            event!(0 end),
            event!(1 exit),
            event!(0 join 1),
            event!(0 exit),
        ],
        position: 4,
        ranks: &IN_ORDER,
        open: &[block!(1, 0)],
        blamed: &[block!(1, 0)],
    },
    Known {
        log: "a live lost update",
        events: &[
            event!(0 fork 1),
            event!(0 begin 0),
            event!(0 rd 0 0),
            event!(1 wr 0 5),
            event!(0 wr 0 1),
            event!(1 exit),
            event!(0 end),
            event!(0 join 1),
            event!(0 exit),
        ],
        position: 4,
        ranks: &IN_ORDER,
        open: &[block!(1, 0)],
        blamed: &[block!(1, 0)],
    },
];

#[test]
fn updates_of_a_workload(rt: HostRuntime) -> Result<(), Fail> {
    judge_all(&rt, rt.alloc(), &OF_A_WORKLOAD)
}

/// Whether the ranks show that the events have no cycle.
fn is_clean(alloc: Global, events: &[Event], ranks: &[usize]) -> Result<bool, Memory> {
    let trace = trace_of(alloc, events)?;
    Ok(has_no_cycle(&trace, ranks))
}

/// Two threads share a lock at the same time, each in a block of its own.
const SHARED: &[Event] = &[
    event!(0 fork 1),
    event!(0 begin 1),
    event!(0 acqs 0),
    event!(1 begin 2),
    event!(1 acqs 0),
    event!(0 rd 0 0),
    event!(1 rd 0 0),
    event!(1 rels 0),
    event!(0 rels 0),
    event!(1 end),
    event!(0 end),
];

static SHARING: [Known; 2] = [
    Known {
        log: "a share beside another",
        events: SHARED,
        position: 4,
        ranks: &IN_ORDER,
        open: &[block!(3, 2)],
        blamed: &[],
    },
    Known {
        log: "a share released after another",
        events: SHARED,
        position: 8,
        ranks: &IN_ORDER,
        open: &[block!(1, 1)],
        blamed: &[],
    },
];

#[test]
fn two_sharers_are_clean(rt: HostRuntime) -> Result<(), Fail> {
    assert!(rt; is_clean(rt.alloc(), SHARED, &IN_ORDER) == Ok(true));
    judge_all(&rt, rt.alloc(), &SHARING)
}

/// A block that shares a lock twice, between which another thread has it alone.
static BETWEEN: [Known; 1] = [Known {
    log: "a lock taken between two shares",
    events: &[
        event!(0 fork 1),
        event!(0 begin 1),
        event!(0 acqs 0),
        event!(0 rels 0),
        event!(1 acq 0),
        event!(1 rel 0),
        event!(0 acqs 0),
    ],
    position: 6,
    ranks: &IN_ORDER,
    open: &[block!(1, 1)],
    blamed: &[block!(1, 1)],
}];

#[test]
fn a_lock_taken_between_two_shares(rt: HostRuntime) -> Result<(), Fail> {
    judge_all(&rt, rt.alloc(), &BETWEEN)
}

static NOBODY: [Known; 2] = [
    Known {
        log: "two blocks",
        events: &[
            event!(0 fork 1),
            event!(0 begin 1),
            event!(0 wr 0 1),
            event!(1 begin 2),
            event!(1 wr 1 1),
            event!(0 rd 1 1),
            event!(1 rd 0 1),
        ],
        position: 6,
        ranks: &[0, 2, 0, 1],
        open: &[block!(3, 2)],
        blamed: &[],
    },
    Known {
        log: "no open block",
        events: &[event!(0 fork 1), event!(1 wr 0 5), event!(0 wr 0 1)],
        position: 2,
        ranks: &IN_ORDER,
        open: &[],
        blamed: &[],
    },
];

#[test]
fn nobody_is_to_blame(rt: HostRuntime) -> Result<(), Fail> {
    judge_all(&rt, rt.alloc(), &NOBODY)
}

/// More blocks than a well-formed trace has open, all begun before the read that another thread
/// overwrites.
#[test]
fn forty_nested_blocks(rt: HostRuntime) -> Result<(), Fail> {
    let mut events = [event!(0 begin 1); 43];
    events[40] = event!(0 rd 0 0);
    events[41] = event!(1 wr 0 3);
    events[42] = event!(0 wr 0 4);
    let mut ranks = [0; 43];
    ranks[41] = 1;
    let known = Known {
        log: "forty nested blocks",
        events: &events,
        position: 42,
        ranks: &ranks,
        open: &[],
        blamed: &[],
    };
    let trace = checked(&rt, rt.alloc(), &known)?;
    let blocks = blamed(rt.alloc(), &trace, known.position)?;
    assert!(rt; blocks.len() == 40);
    for i in 0..blocks.len() {
        let block = Block {
            first: i,
            label: Label(1),
        };
        assert!(rt; blocks[i] == block);
    }
    Ok(())
}
