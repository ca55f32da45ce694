//! One allocation fails, whichever it is: the call reports it, and a second call returns what the
//! first would have. Without a failure each call is done once.
use super::{OTHER, X, config};
use crate::growths::again;
use velo_events::growth::reserve;
use velo_events::{Memory, Refusal};
use velo_runtime::{Shared, close};

#[test]
fn a_refused_growth_of_a_run(rt: HostRuntime) {
    let config = config(1, 2, 100, false).expect(&rt, "in range");
    let opened = again!(Refusal::RuntimeMemory, Shared::open(rt.alloc(), config));
    let (shared, mut first) = opened.expect(&rt, "memory");
    assert!(rt; shared.room.lock(&rt).count_events() == 0);
    let forked = again!(Refusal::Memory, first.fork(&rt, &shared, OTHER));
    let mut second = forked.expect(&rt, "memory");
    let written = again!(Refusal::Memory, second.write(&rt, &shared, X, 5));
    assert!(rt; written.expect(&rt, "memory").position == 1);
    let read = again!(Refusal::Memory, first.read(&rt, &shared, X));
    assert!(rt; read == Ok(5));
    let mut seats = Vec::new(rt.alloc());
    again!(Memory, reserve(&mut seats, 2)).expect(&rt, "memory");
    assert!(rt; seats.push(first).is_ok() && seats.push(second).is_ok());
    let closed = close(shared, seats).expect(&rt, "a seat of each");
    assert!(rt; closed.total() == 3);
    drop(closed);
}
