//! Tests of traces.

mod graph;
pub mod logs;

use crate::words::{begin, block, event, trace_of};
use graph::{Edge, edges_of, first_closing, owners_of, pairs_of};
use smallvec::SmallVec;
use std::alloc::Global;
use std::mem::size_of;
use std::process::Abort;
use std::test::Fail;
use velo_events::{Bounds, Event, MAX_OPEN_BLOCKS, Memory, Refusal, ThreadId};
use velo_traces::{Block, Flaw, Trace, well_formed};

/// Two threads, two variables, one lock.
const BOUNDS: Bounds = Bounds {
    threads: 2,
    variables: 2,
    locks: 1,
};

/// What is known of a log from outside.
#[derive(Clone, Copy)]
struct Known<'a> {
    log: &'a str,
    events: &'a [Event],
    /// The transaction of each position.
    owners: &'a [usize],
    /// The edges between transactions, in the order in which the events bring them.
    edges: &'a [(usize, usize)],
    /// The first position that closes a cycle.
    closing: Option<usize>,
    /// The open blocks of threads 0 and 1 at the end.
    open: [&'a [Block]; 2],
}

/// The open blocks of a thread at the end of a trace, which is well-formed.
fn open_at_end(rt: &impl Abort, trace: &Trace, t: ThreadId) -> SmallVec<Block, MAX_OPEN_BLOCKS> {
    match well_formed(trace, BOUNDS) {
        Ok(()) => trace.open_blocks(t),
        Err((position, _)) => panic!(rt; "not well-formed at {position}"),
    }
}

fn judge(rt: &impl Abort, alloc: Global, known: &Known) -> Result<(), Fail> {
    let trace = trace_of(alloc, known.events)?;
    let owners = owners_of(alloc, &trace)?;
    assert!(rt;
        owners.as_slice() == known.owners,
        "owners of {}",
        known.log
    );
    let edges = edges_of(alloc, &trace)?;
    judge_graph(rt, alloc, &edges, known)?;
    judge_open_blocks(rt, &trace, known);
    Ok(())
}

fn judge_graph(rt: &impl Abort, alloc: Global, edges: &[Edge], known: &Known) -> Result<(), Fail> {
    let pairs = pairs_of(alloc, edges)?;
    assert!(rt; pairs.as_slice() == known.edges, "edges of {}", known.log);
    let closing = first_closing(alloc, edges, known.events.len())?;
    assert!(rt; closing == known.closing, "closing event of {}", known.log);
    Ok(())
}

fn judge_open_blocks(rt: &impl Abort, trace: &Trace, known: &Known) {
    for (t, blocks) in [(0, known.open[0]), (1, known.open[1])] {
        let open = open_at_end(rt, trace, ThreadId(t));
        assert!(rt; open.as_slice() == blocks, "open blocks of {}", known.log);
    }
}

static OVER_VARIABLES_AND_THREADS: [Known; 3] = [
    Known {
        log: "the lost update",
        events: logs::LOST_UPDATE,
        owners: &[0, 1, 1, 3, 1],
        edges: &[(0, 1), (0, 3), (1, 3), (3, 1)],
        closing: Some(4),
        open: [&[block!(1, 7)], &[]],
    },
    Known {
        log: "two blocks",
        events: logs::TWO_BLOCKS,
        owners: &[0, 1, 1, 3, 3, 1, 3],
        edges: &[(0, 1), (0, 3), (3, 1), (1, 3)],
        closing: Some(6),
        open: [&[block!(1, 1)], &[block!(3, 2)]],
    },
    Known {
        log: "fork and join",
        events: logs::FORK_AND_JOIN,
        owners: &[0, 0, 2, 0],
        edges: &[(0, 2), (2, 0)],
        closing: Some(3),
        open: [&[block!(0, 1)], &[]],
    },
];

#[test]
fn cycles_over_variables_and_threads(rt: HostRuntime) -> Result<(), Fail> {
    for known in &OVER_VARIABLES_AND_THREADS {
        judge(&rt, rt.alloc(), known)?;
    }
    Ok(())
}

static NESTED: [Known; 2] = [
    Known {
        log: "inner block after the read",
        events: logs::INNER_BLOCK_AFTER_THE_READ,
        owners: &[0, 1, 1, 1, 4, 1],
        edges: &[(0, 1), (0, 4), (1, 4), (4, 1)],
        closing: Some(5),
        open: [&[block!(1, 1), block!(3, 2)], &[]],
    },
    Known {
        log: "inner block before the read",
        events: logs::INNER_BLOCK_BEFORE_THE_READ,
        owners: &[0, 1, 1, 1, 4, 1],
        edges: &[(0, 1), (0, 4), (1, 4), (4, 1)],
        closing: Some(5),
        open: [&[block!(1, 1), block!(2, 2)], &[]],
    },
];

#[test]
fn cycles_through_nested_blocks(rt: HostRuntime) -> Result<(), Fail> {
    for known in &NESTED {
        judge(&rt, rt.alloc(), known)?;
    }
    Ok(())
}

static TAKING_A_LOCK: [Known; 2] = [
    Known {
        log: "lock taken twice",
        events: logs::LOCK_TAKEN_TWICE,
        owners: &[0, 1, 1, 1, 1, 5, 6, 7, 1],
        edges: &[
            (0, 1),
            (0, 5),
            (1, 5),
            (0, 6),
            (1, 6),
            (5, 6),
            (0, 7),
            (1, 7),
            (5, 7),
            (6, 7),
            (5, 1),
            (7, 1),
        ],
        closing: Some(8),
        open: [&[block!(1, 1)], &[]],
    },
    Known {
        log: "handover",
        events: logs::HANDOVER,
        owners: &[0, 1, 1, 1, 1, 1, 1, 7, 7, 7, 7, 7, 7],
        edges: &[(0, 1), (0, 7), (1, 7)],
        closing: None,
        open: [&[], &[]],
    },
];

#[test]
fn blocks_that_take_a_lock(rt: HostRuntime) -> Result<(), Fail> {
    for known in &TAKING_A_LOCK {
        judge(&rt, rt.alloc(), known)?;
    }
    Ok(())
}

static SHARING_A_LOCK: [Known; 2] = [
    Known {
        log: "two sharers",
        events: logs::TWO_SHARERS,
        owners: &[0, 1, 1, 3, 3, 1, 3, 3, 1, 3, 1],
        edges: &[(0, 1), (0, 3)],
        closing: None,
        open: [&[], &[]],
    },
    Known {
        log: "lock shared twice",
        events: logs::LOCK_SHARED_TWICE,
        owners: &[0, 1, 1, 1, 4, 5, 1],
        edges: &[
            (0, 1),
            (0, 4),
            (1, 4),
            (0, 5),
            (1, 5),
            (4, 5),
            (4, 1),
            (5, 1),
        ],
        closing: Some(6),
        open: [&[block!(1, 1)], &[]],
    },
];

#[test]
fn blocks_that_share_a_lock(rt: HostRuntime) -> Result<(), Fail> {
    for known in &SHARING_A_LOCK {
        judge(&rt, rt.alloc(), known)?;
    }
    Ok(())
}

fn judge_flaw(
    rt: &impl Abort,
    alloc: Global,
    events: &[Event],
    position: usize,
    flaw: Flaw,
) -> Result<(), Fail> {
    let trace = trace_of(alloc, events)?;
    assert!(rt; well_formed(&trace, BOUNDS) == Err((position, flaw)));
    Ok(())
}

static OF_THREADS: [(&[Event], usize, Refusal); 10] = [
    (&[event!(1 wr 0 1)], 0, Refusal::NotLive),
    (&[event!(2 wr 0 1)], 0, Refusal::NotLive),
    (&[event!(0 exit), event!(0 begin 1)], 1, Refusal::NotLive),
    (&[event!(0 fork 2)], 0, Refusal::NoSuchThread),
    (&[event!(0 fork 0)], 0, Refusal::AlreadyForked),
    (
        &[event!(0 fork 1), event!(0 fork 1)],
        1,
        Refusal::AlreadyForked,
    ),
    (&[event!(0 join 1)], 0, Refusal::NotForked),
    (&[event!(0 fork 1), event!(0 join 1)], 1, Refusal::NotExited),
    (
        &[
            event!(0 fork 1),
            event!(1 exit),
            event!(0 join 1),
            event!(0 join 1),
        ],
        3,
        Refusal::AlreadyJoined,
    ),
    (&[event!(0 begin 1), event!(0 exit)], 1, Refusal::BlockOpen),
];

#[test]
fn flaws_of_threads(rt: HostRuntime) -> Result<(), Fail> {
    for (events, position, refusal) in &OF_THREADS {
        judge_flaw(&rt, rt.alloc(), *events, *position, Flaw::Refused(*refusal))?;
    }
    Ok(())
}

static OF_LOCKS_AND_BLOCKS: [(&[Event], usize, Refusal); 7] = [
    (&[event!(0 acq 1)], 0, Refusal::NoSuchLock),
    (
        &[event!(0 fork 1), event!(1 acq 0), event!(0 acq 0)],
        2,
        Refusal::Busy,
    ),
    (&[event!(0 acq 0), event!(0 acq 0)], 1, Refusal::AlreadyHeld),
    (&[event!(0 rel 0)], 0, Refusal::NotHolder),
    (
        &[event!(0 fork 1), event!(1 acq 0), event!(0 rel 0)],
        2,
        Refusal::NotHolder,
    ),
    (&[event!(0 acq 0), event!(0 exit)], 1, Refusal::LockHeld),
    (
        &[event!(0 begin 1), event!(0 end), event!(0 end)],
        2,
        Refusal::NoOpenBlock,
    ),
];

#[test]
fn flaws_of_locks_and_blocks(rt: HostRuntime) -> Result<(), Fail> {
    for (events, position, refusal) in &OF_LOCKS_AND_BLOCKS {
        judge_flaw(&rt, rt.alloc(), *events, *position, Flaw::Refused(*refusal))?;
    }
    Ok(())
}

static OF_SHARED_LOCKS: [(&[Event], usize, Refusal); 12] = [
    (&[event!(0 acqs 1)], 0, Refusal::NoSuchLock),
    (&[event!(0 rels 1)], 0, Refusal::NoSuchLock),
    (
        &[event!(0 acqs 0), event!(0 acq 0)],
        1,
        Refusal::AlreadyHeld,
    ),
    (
        &[event!(0 acqs 0), event!(0 acqs 0)],
        1,
        Refusal::AlreadyHeld,
    ),
    (
        &[event!(0 acq 0), event!(0 acqs 0)],
        1,
        Refusal::AlreadyHeld,
    ),
    (&[event!(0 acqs 0), event!(0 exit)], 1, Refusal::LockHeld),
    (&[event!(0 acqs 0), event!(0 rel 0)], 1, Refusal::NotHolder),
    (&[event!(0 acq 0), event!(0 rels 0)], 1, Refusal::NotHolder),
    (
        &[event!(0 acqs 0), event!(0 rels 0), event!(0 rels 0)],
        2,
        Refusal::NotHolder,
    ),
    (
        &[event!(0 fork 1), event!(0 acqs 0), event!(1 acq 0)],
        2,
        Refusal::Busy,
    ),
    (
        &[event!(0 fork 1), event!(0 acq 0), event!(1 acqs 0)],
        2,
        Refusal::Busy,
    ),
    // a lock that the thread shares itself is not busy
    (
        &[
            event!(0 fork 1),
            event!(0 acqs 0),
            event!(1 acqs 0),
            event!(1 acq 0),
        ],
        3,
        Refusal::AlreadyHeld,
    ),
];

#[test]
fn flaws_of_shared_locks(rt: HostRuntime) -> Result<(), Fail> {
    for (events, position, refusal) in &OF_SHARED_LOCKS {
        judge_flaw(&rt, rt.alloc(), *events, *position, Flaw::Refused(*refusal))?;
    }
    Ok(())
}

static OF_VARIABLES: [(&[Event], usize, Flaw); 4] = [
    (
        &[event!(0 rd 2 0)],
        0,
        Flaw::Refused(Refusal::NoSuchVariable),
    ),
    (&[event!(0 wr 0 5), event!(0 rd 0 4)], 1, Flaw::WrongValue),
    (&[event!(0 rd 1 1), event!(0 end)], 0, Flaw::WrongValue),
    (
        &[event!(0 wr 0 5), event!(0 wr 0 6), event!(0 rd 0 5)],
        2,
        Flaw::WrongValue,
    ),
];

#[test]
fn flaws_of_variables(rt: HostRuntime) -> Result<(), Fail> {
    for (events, position, flaw) in &OF_VARIABLES {
        judge_flaw(&rt, rt.alloc(), *events, *position, *flaw)?;
    }
    Ok(())
}

/// Thread 0 begins 32 blocks, each within the last.
fn thirty_two_blocks(alloc: Global) -> Result<Trace, Memory> {
    let mut trace = Trace::new(alloc);
    for label in 0..32 {
        trace.reserve_one()?;
        trace.push_reserved(begin(0, label));
    }
    Ok(trace)
}

#[test]
fn thirty_two_blocks_may_be_open(rt: HostRuntime) -> Result<(), Fail> {
    let mut trace = thirty_two_blocks(rt.alloc())?;
    let open = open_at_end(&rt, &trace, ThreadId(0));
    assert!(rt; open.last() == Some(&block!(31, 31)));
    trace.push(event!(0 begin 32))?;
    let too_deep = Flaw::Refused(Refusal::TooDeep);
    assert!(rt; well_formed(&trace, BOUNDS) == Err((32, too_deep)));
    Ok(())
}

#[test]
fn blocks_are_small(rt: HostRuntime) {
    assert!(rt; size_of::<Block>() <= 16);
}
