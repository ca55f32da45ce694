//! One allocation fails, whichever it is: the call reports it, and a second call returns what the
//! first would have. Without a failure each call is done once.
use super::{CLEAN, TWO_BLOCKS};
use crate::growths::again;
use crate::words::trace_of;
use std::alloc::Global;
use std::process::Abort;
use velo_certify::{CertFault, check_cycle, check_order, cycle_of, serial_order};
use velo_events::{Event, Memory};
use velo_traces::Trace;

fn trace(rt: &impl Abort, alloc: Global, events: &[Event]) -> Trace {
    again!(Memory, trace_of(alloc, events)).expect(rt, "memory")
}

#[test]
fn a_refused_growth_of_an_order(rt: HostRuntime) {
    let serial = trace(&rt, rt.alloc(), &CLEAN);
    let order = again!(CertFault::Memory, serial_order(rt.alloc(), &serial));
    let order = order.expect(&rt, "an order");
    assert!(rt; order.as_slice() == [0, 2, 1, 3, 4].as_slice());
    let cyclic = trace(&rt, rt.alloc(), &TWO_BLOCKS);
    let none = again!(CertFault::Memory, serial_order(rt.alloc(), &cyclic));
    assert!(rt; none.err() == Some(CertFault::HasCycle));
    drop((serial, order, cyclic));
}

#[test]
fn a_refused_growth_of_a_check_of_an_order(rt: HostRuntime) {
    let serial = trace(&rt, rt.alloc(), &CLEAN);
    for (order, is_serial) in [([0, 2, 1, 3, 4], true), ([0, 1, 2, 3, 4], false)] {
        let checked = again!(Memory, check_order(rt.alloc(), &serial, &order));
        assert!(rt; checked == Ok(is_serial));
    }
    drop(serial);
}

#[test]
fn a_refused_growth_of_a_cycle(rt: HostRuntime) {
    let cyclic = trace(&rt, rt.alloc(), &TWO_BLOCKS);
    let cycle = again!(CertFault::Memory, cycle_of(rt.alloc(), &cyclic, 6));
    let cycle = cycle.expect(&rt, "a cycle");
    assert!(rt; cycle.as_slice() == [3, 1].as_slice());
    let none = again!(CertFault::Memory, cycle_of(rt.alloc(), &cyclic, 5));
    assert!(rt; none.err() == Some(CertFault::NoCycle));
    drop((cyclic, cycle));
}

#[test]
fn a_refused_growth_of_a_check_of_a_cycle(rt: HostRuntime) {
    let cyclic = trace(&rt, rt.alloc(), &TWO_BLOCKS);
    for (cycle, is_shortest) in [([3, 1], true), ([1, 3], false)] {
        let checked = again!(Memory, check_cycle(rt.alloc(), &cyclic, 6, &cycle));
        assert!(rt; checked == Ok(is_shortest));
    }
    drop(cyclic);
}
