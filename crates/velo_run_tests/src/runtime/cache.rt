//! The guide's cache under a reader-writer lock, as printed there.
use super::{close_both, pair};
use std::alloc::Global;
use std::sync::Wait;
use std::thread;
use std::thread::Threads;
use velo_events::{Label, LockId, Refusal, VarId};
use velo_runtime::{RunError, Seat, Shared};

/// What is kept; 0 where nothing is yet.
const KEPT: VarId = VarId(0);

/// Guards what is kept: shared to look, alone to fill.
const GUARD: LockId = LockId(0);

const LOOK: Label = Label(0);

const FILL: Label = Label(1);

const ANSWER: u64 = 42;

/// What the cache keeps, by a share of the lock.
fn look<R: Wait>(rt: &R, shared: &Shared, seat: &mut Seat) -> Result<u64, Refusal> {
    seat.begin(rt, shared, LOOK)?;
    seat.acquire_shared(rt, shared, GUARD)?;
    let kept = seat.read(rt, shared, KEPT)?;
    seat.release_shared(rt, shared, GUARD)?;
    seat.end(rt, shared)?;
    Ok(kept)
}

/// Fills the cache under the lock alone, unless another thread did so meanwhile.
fn fill<R: Wait>(rt: &R, shared: &Shared, seat: &mut Seat) -> Result<u64, Refusal> {
    seat.begin(rt, shared, FILL)?;
    seat.acquire(rt, shared, GUARD)?;
    let mut kept = seat.read(rt, shared, KEPT)?;
    if kept == 0 {
        kept = ANSWER;
        seat.write(rt, shared, KEPT, kept)?;
    }
    seat.release(rt, shared, GUARD)?;
    seat.end(rt, shared)?;
    Ok(kept)
}

/// What the cache keeps, filled first if need be.
fn get<R: Wait>(rt: &R, shared: &Shared, seat: &mut Seat) -> Result<u64, Refusal> {
    match look(rt, shared, seat)? {
        0 => fill(rt, shared, seat),
        kept => Ok(kept),
    }
}

/// Asks the cache twice.
fn get_twice<R: Wait>(rt: &R, shared: &Shared, seat: &mut Seat) -> Result<(u64, u64), Refusal> {
    let first = get(rt, shared, seat)?;
    Ok((first, get(rt, shared, seat)?))
}

/// Two threads ask at once. What each of them got, and whether no block collided with another.
fn ask_at_once<R: Threads + Wait + Sync>(
    rt: &R,
    alloc: Global,
) -> Result<((u64, u64), (u64, u64), bool), RunError> {
    let (shared, mut main, mut other) = pair(rt, alloc, false)?;
    let (one, two) = thread::join(
        rt,
        || get_twice(rt, &shared, &mut main),
        || get_twice(rt, &shared, &mut other),
    );
    let closed = close_both(alloc, shared, main, other)?;
    let is_clean = closed.alarm().is_none();
    drop(closed);
    Ok((one?, two?, is_clean))
}

#[test]
fn a_cache_is_filled_once(rt: HostRuntime) {
    let asked = ask_at_once(&rt, rt.alloc()).ok();
    assert!(rt; asked == Some(((ANSWER, ANSWER), (ANSWER, ANSWER), true)));
}

/// One thread looks and fills in one block, and the other fills in between.
fn look_and_fill<R: Wait>(
    rt: &R,
    shared: &Shared,
    main: &mut Seat,
    other: &mut Seat,
) -> Result<(), Refusal> {
    main.begin(rt, shared, FILL)?;
    look(rt, shared, main)?;
    fill(rt, shared, other)?;
    fill(rt, shared, main)?;
    main.end(rt, shared)?;
    Ok(())
}

/// Where the alarm is of a look and a fill in one block.
fn alarm_of_one_block<R: Wait>(rt: &R, alloc: Global) -> Result<Option<usize>, RunError> {
    let (shared, mut main, mut other) = pair(rt, alloc, false)?;
    let done = look_and_fill(rt, &shared, &mut main, &mut other);
    let closed = close_both(alloc, shared, main, other)?;
    let alarm = closed.alarm().map(|alarm| alarm.position);
    drop(closed);
    done?;
    Ok(alarm)
}

#[test]
fn a_look_and_a_fill_are_two_blocks(rt: HostRuntime) {
    let alarm = alarm_of_one_block(&rt, rt.alloc()).ok();
    assert!(rt; alarm == Some(Some(14)));
}
