//! One allocation fails, whichever it is: the call reports it, and a second call returns what the
//! first would have. Without a failure each call is done once.
use super::{IN_ORDER, Known, checked};
use crate::words::{block, event};
use velo_blame::blamed;
use velo_events::Memory;

/// What the call returns, or if an allocation fails, what the same call then returns.
macro_rules! again {
    ($refused:pat, $call:expr) => {
        match $call {
            Err($refused) => $call,
            answer => answer,
        }
    };
}

static KNOWN: Known = Known {
    log: "inner block before the read",
    events: &[
        event!(0 fork 1),
        event!(0 begin 1),
        event!(0 begin 2),
        event!(0 rd 0 0),
        event!(1 wr 0 3),
        event!(0 wr 0 4),
    ],
    position: 5,
    ranks: &IN_ORDER,
    open: &[],
    blamed: &[block!(1, 1), block!(2, 2)],
};

#[test]
fn a_refused_growth_of_blame(rt: HostRuntime) {
    let known = &KNOWN;
    let trace = again!(Memory, checked(&rt, rt.alloc(), known)).expect(&rt, "memory");
    let blocks = again!(Memory, blamed(rt.alloc(), &trace, known.position));
    let blocks = blocks.expect(&rt, "memory");
    assert!(rt; blocks.as_slice() == known.blamed);
    drop((trace, blocks));
}
