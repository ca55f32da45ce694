//! Tests of certificates.

mod growths;
mod slow;

use crate::traces::logs;
use crate::words::{event, trace_of};
use slow::{is_cycle, is_serial, trace_by_chance};
use std::alloc::Global;
use std::process::Abort;
use std::test::Fail;
use velo_certify::{CertFault, check_cycle, check_order, cycle_of, serial_order};
use velo_events::Event;
use velo_traces::Trace;

/// What is known of a log from outside.
#[derive(Clone, Copy)]
struct Known<'a> {
    log: &'a str,
    events: &'a [Event],
    /// Its serial order, or without one its cycle at the last position.
    list: &'a [usize],
    /// Whether the list is the order.
    serial: bool,
    /// Positions without a cycle.
    without: &'a [usize],
}

/// Each of two blocks reads what the other wrote.
static TWO_BLOCKS: [Event; 7] = [
    event!(0 fork 1),
    event!(0 begin 1),
    event!(0 wr 0 1),
    event!(1 begin 2),
    event!(1 wr 1 1),
    event!(0 rd 1 1),
    event!(1 rd 0 1),
];

/// A block reads what another thread wrote after its begin.
static CLEAN: [Event; 5] = [
    event!(0 fork 1),
    event!(0 begin 1),
    event!(1 wr 0 2),
    event!(0 rd 0 2),
    event!(0 end),
];

/// Compares the orders.
fn judge_order(rt: &impl Abort, alloc: Global, trace: &Trace, known: &Known) -> Result<(), Fail> {
    match serial_order(alloc, trace) {
        Ok(order) => {
            assert!(rt; known.serial, "no order of {}", known.log);
            assert!(rt; order.as_slice() == known.list, "order of {}", known.log);
            assert!(rt;
                check_order(alloc, trace, &order)?,
                "order of {}",
                known.log
            );
        }
        Err(fault) => {
            assert!(rt; !known.serial, "order of {}", known.log);
            assert!(rt; fault == CertFault::HasCycle, "fault of {}", known.log);
        }
    }
    Ok(())
}

/// Compares the cycles at the last position, at those without one, and after the last.
fn judge_cycles(rt: &impl Abort, alloc: Global, trace: &Trace, known: &Known) -> Result<(), Fail> {
    if !known.serial {
        match cycle_of(alloc, trace, trace.len().saturating_sub(1)) {
            Ok(cycle) => assert!(rt; cycle.as_slice() == known.list, "cycle of {}", known.log),
            Err(_) => panic!(rt; "no cycle of {}", known.log),
        }
    }
    for position in known.without {
        match cycle_of(alloc, trace, *position) {
            Ok(_) => panic!(rt; "a cycle of {}", known.log),
            Err(fault) => assert!(rt; fault == CertFault::NoCycle, "fault of {}", known.log),
        }
    }
    match cycle_of(alloc, trace, trace.len()) {
        Ok(_) => panic!(rt; "a cycle behind {}", known.log),
        Err(fault) => assert!(rt; fault == CertFault::NotThere, "behind {}", known.log),
    }
    Ok(())
}

fn judge_all(rt: &impl Abort, alloc: Global, logs: &[Known]) -> Result<(), Fail> {
    for known in logs {
        let trace = trace_of(alloc, known.events)?;
        judge_order(rt, alloc, &trace, known)?;
        judge_cycles(rt, alloc, &trace, known)?;
    }
    Ok(())
}

static WORKED: [Known; 4] = [
    Known {
        log: "the lost update",
        events: &[
            event!(0 fork 1),
            event!(0 begin 7),
            event!(0 rd 0 0),
            event!(1 wr 0 5),
            event!(0 wr 0 1),
        ],
        list: &[1, 3],
        serial: false,
        without: &[3],
    },
    Known {
        log: "fork and join in a block",
        events: &[
            event!(0 begin 1),
            event!(0 fork 1),
            event!(1 exit),
            event!(0 join 1),
        ],
        list: &[0, 2],
        serial: false,
        without: &[2],
    },
    Known {
        log: "two cycles of one length",
        events: &[
            event!(0 begin 1),
            event!(0 wr 0 1),
            event!(2 rd 0 1),
            event!(1 rd 0 1),
            event!(0 wr 0 2),
            event!(0 end),
        ],
        list: &[0, 2],
        serial: false,
        without: &[2],
    },
    Known {
        log: "a write before a block's read",
        events: &[
            event!(0 fork 1),
            event!(0 begin 1),
            event!(1 wr 0 2),
            event!(0 rd 0 2),
            event!(0 end),
        ],
        list: &[0, 2, 1, 3, 4],
        serial: true,
        without: &[4],
    },
];

#[test]
fn worked_logs(rt: HostRuntime) -> Result<(), Fail> {
    let empty = trace_of(rt.alloc(), &[])?;
    assert!(&rt;
        serial_order(rt.alloc(), &empty)?.is_empty(),
        "order of the empty log"
    );
    judge_all(&rt, rt.alloc(), &WORKED)
}

static SHARING: [Known; 2] = [
    Known {
        log: "two sharers",
        events: logs::TWO_SHARERS,
        list: &[0, 1, 2, 5, 8, 10, 3, 4, 6, 7, 9],
        serial: true,
        without: &[8, 10],
    },
    Known {
        log: "lock shared twice",
        events: logs::LOCK_SHARED_TWICE,
        list: &[1, 4],
        serial: false,
        without: &[4, 5],
    },
];

#[test]
fn logs_that_share_a_lock(rt: HostRuntime) -> Result<(), Fail> {
    judge_all(&rt, rt.alloc(), &SHARING)
}

/// Two ways lead from the second transaction back to the first, and the one that is found first
/// goes through the later block.
const TWO_WAYS_BACK: &[Event] = &[
    event!(0 begin 1),
    event!(0 wr 0 1),
    event!(1 begin 2),
    event!(1 rd 0 1),
    event!(1 wr 1 1),
    event!(1 wr 2 1),
    event!(1 end),
    event!(2 begin 3),
    event!(2 rd 1 1),
    event!(2 wr 3 1),
    event!(2 end),
    event!(3 begin 4),
    event!(3 rd 2 1),
    event!(3 wr 4 1),
    event!(0 rd 4 1),
    event!(0 rd 3 1),
];

/// Two blocks follow the first, and the earlier of them leads back to it through the later of two
/// others.
const TWO_WAYS_THERE: &[Event] = &[
    event!(0 begin 1),
    event!(0 wr 0 1),
    event!(1 begin 2),
    event!(1 rd 0 1),
    event!(2 begin 3),
    event!(2 rd 0 1),
    event!(2 wr 1 1),
    event!(1 wr 2 1),
    event!(3 begin 4),
    event!(3 rd 1 1),
    event!(3 wr 3 1),
    event!(4 begin 5),
    event!(4 rd 2 1),
    event!(4 wr 4 1),
    event!(0 rd 3 1),
    event!(0 rd 4 1),
];

static SEVERAL: [Known; 2] = [
    Known {
        log: "two ways back",
        events: TWO_WAYS_BACK,
        list: &[0, 2, 7],
        serial: false,
        without: &[13],
    },
    Known {
        log: "two ways there",
        events: TWO_WAYS_THERE,
        list: &[0, 2, 11],
        serial: false,
        without: &[13],
    },
];

#[test]
fn the_least_of_several_shortest_cycles(rt: HostRuntime) -> Result<(), Fail> {
    judge_all(&rt, rt.alloc(), &SEVERAL)
}

/// Orders of the clean log, and whether they are serial.
static ORDERS: [(&[usize], bool); 6] = [
    (&[0, 2, 1, 3, 4], true),
    (&[0, 1, 2, 3, 4], false),
    (&[0, 1, 3, 4, 2], false),
    (&[0, 2, 1, 3], false),
    (&[0, 2, 1, 3, 3], false),
    (&[0, 2, 1, 3, 9], false),
];

#[test]
fn forged_orders(rt: HostRuntime) -> Result<(), Fail> {
    let trace = trace_of(rt.alloc(), &CLEAN)?;
    for (order, serial) in &ORDERS {
        assert!(&rt; check_order(rt.alloc(), &trace, *order)? == *serial);
    }
    Ok(())
}

/// Positions, cycles of the two blocks, and whether they are shortest ones there.
static CYCLES: [(usize, &[usize], bool); 9] = [
    (6, &[3, 1], true),
    (6, &[1, 3], false),
    (6, &[3], false),
    (6, &[3, 2], false),
    (6, &[3, 9], false),
    (6, &[3, 1, 3, 1], false),
    (5, &[1, 3], false),
    (7, &[3, 1], false),
    (6, &[], false),
];

#[test]
fn forged_cycles(rt: HostRuntime) -> Result<(), Fail> {
    let trace = trace_of(rt.alloc(), &TWO_BLOCKS)?;
    let given = cycle_of(rt.alloc(), &trace, 6)?;
    let wanted: &[usize] = &[3, 1];
    assert!(&rt; given.as_slice() == wanted);
    for (position, cycle, shortest) in &CYCLES {
        assert!(&rt; check_cycle(rt.alloc(), &trace, *position, *cycle)? == *shortest);
    }
    Ok(())
}

/// Judges the certificates of a trace by all pairs.
fn judge_slowly(rt: &impl Abort, alloc: Global, trace: &Trace) -> Result<(), Fail> {
    let order = serial_order(alloc, trace);
    let mut on_cycle = false;
    for position in 0..trace.len() {
        if let Ok(cycle) = cycle_of(alloc, trace, position) {
            assert!(rt; is_cycle(trace, position, &cycle), "no cycle");
            assert!(rt;
                check_cycle(alloc, trace, position, &cycle)?,
                "cycle not taken"
            );
            on_cycle = true;
        }
    }
    match order {
        Ok(order) => {
            assert!(rt; !on_cycle, "an order in spite of a cycle");
            assert!(rt; is_serial(trace, &order), "no order");
            assert!(rt; check_order(alloc, trace, &order)?, "order not taken");
        }
        Err(fault) => {
            assert!(rt; on_cycle, "no order without a cycle");
            assert!(rt; fault == CertFault::HasCycle, "no order");
        }
    }
    Ok(())
}

#[test]
fn traces_by_chance(rt: HostRuntime) -> Result<(), Fail> {
    let mut seed = 1;
    for count in 0..40 {
        let trace = trace_by_chance(rt.alloc(), count / 2, &mut seed)?;
        judge_slowly(&rt, rt.alloc(), &trace)?;
    }
    Ok(())
}
