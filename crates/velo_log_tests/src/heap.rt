//! Tests of the heap.
ghost use Rattle.std.specs.Prelude.{◌≡◌, ◌<◌, List};
ghost use Rattle.velo_events.specs.declared.event.Event.{Event};
ghost use Rattle.velo_heap.specs.Contents.{bounds_of, IsHeapOf};

use std::alloc::Global;
use std::process::Abort;
use velo_events::{
    Action, Bounds, Config, Event, Kind, Label, LockId, Refusal, Status, ThreadId, ThreadSet, VarId,
};
use velo_heap::Heap;

const BOUNDS: Bounds = Bounds {
    threads: 3,
    variables: 1,
    locks: 1,
};

fn heap_of_three_threads(rt: &impl Abort, alloc: Global) -> Heap
    ensures stands { (trace : List Event) × IsHeapOf result trace }
    ensures threads { (bounds_of result).threads ≡ 3 }
    ensures variables { (bounds_of result).variables ≡ 1 }
    ensures locks { (bounds_of result).locks ≡ 1 }
{
    let config = Config::new(1, BOUNDS, 100, 1, false).expect(rt, "in range");
    Heap::new(alloc, &config).expect(rt, "memory")
}

/// Does the action if it is admitted, and says why where it is not.
fn act(heap: &mut Heap, thread: ThreadId, action: Action) -> Option<Refusal>
    requires { (trace : List Event) × IsHeapOf heap.old trace }
    ensures stands { (trace : List Event) × IsHeapOf heap.new trace }
    ensures bounds { bounds_of heap.new ≡ bounds_of heap.old }
{
    match heap.admit(thread, action) {
        Ok(event) => {
            heap.apply(&event);
            None
        }
        Err(refusal) => Some(refusal),
    }
}

/// A thread, its action, and the refusal of it, or none.
type Step = (u8, Action, Option<Refusal>);

/// Does the actions one after another, up to the first whose refusal is not the one beside it.
fn first_surprise(heap: &mut Heap, steps: &[Step]) -> Option<usize>
    requires { (trace : List Event) × IsHeapOf heap.old trace }
    ensures stands { (trace : List Event) × IsHeapOf heap.new trace }
    ensures bounds { bounds_of heap.new ≡ bounds_of heap.old }
{
    for i in 0..steps.len() {
        let (thread, action, refusal) = steps[i];
        if act(heap, ThreadId(thread), action) != refusal {
            return Some(i);
        }
    }
    None
}

/// What is tried, one after another, and why it is refused, if it is.
static STEPS: [Step; 32] = [
    // an unborn thread, a thread that is not there, and what else would be refused
    (1, Action::Write(VarId(0), 1), Some(Refusal::NotLive)),
    (9, Action::Begin(Label(0)), Some(Refusal::NotLive)),
    (1, Action::Read(VarId(9)), Some(Refusal::NotLive)),
    (1, Action::Join(ThreadId(9)), Some(Refusal::NotLive)),
    // numbers out of range
    (0, Action::Read(VarId(1)), Some(Refusal::NoSuchVariable)),
    (0, Action::Write(VarId(1), 5), Some(Refusal::NoSuchVariable)),
    (0, Action::Acquire(LockId(1)), Some(Refusal::NoSuchLock)),
    (0, Action::Release(LockId(1)), Some(Refusal::NoSuchLock)),
    (0, Action::Fork(ThreadId(3)), Some(Refusal::NoSuchThread)),
    (0, Action::Join(ThreadId(3)), Some(Refusal::NoSuchThread)),
    // threads
    (0, Action::Fork(ThreadId(0)), Some(Refusal::AlreadyForked)),
    (0, Action::Join(ThreadId(1)), Some(Refusal::NotForked)),
    (0, Action::Fork(ThreadId(1)), None),
    (0, Action::Fork(ThreadId(1)), Some(Refusal::AlreadyForked)),
    (0, Action::Join(ThreadId(1)), Some(Refusal::NotExited)),
    // locks: one that the thread holds itself is not busy
    (0, Action::Release(LockId(0)), Some(Refusal::NotHolder)),
    (0, Action::Acquire(LockId(0)), None),
    (0, Action::Acquire(LockId(0)), Some(Refusal::AlreadyHeld)),
    (1, Action::Acquire(LockId(0)), Some(Refusal::Busy)),
    (1, Action::Release(LockId(0)), Some(Refusal::NotHolder)),
    // an exit with an open block and a held lock, then with the lock alone
    (0, Action::End, Some(Refusal::NoOpenBlock)),
    (0, Action::Begin(Label(7)), None),
    (0, Action::Exit, Some(Refusal::BlockOpen)),
    (0, Action::End, None),
    (0, Action::Exit, Some(Refusal::LockHeld)),
    (0, Action::Release(LockId(0)), None),
    // a thread that has exited
    (1, Action::Exit, None),
    (1, Action::Read(VarId(9)), Some(Refusal::NotLive)),
    (0, Action::Join(ThreadId(1)), None),
    (0, Action::Join(ThreadId(1)), Some(Refusal::AlreadyJoined)),
    (0, Action::Exit, None),
    (0, Action::Exit, Some(Refusal::NotLive)),
];

#[test]
fn refusals_in_their_order(rt: HostRuntime) {
    let mut heap = heap_of_three_threads(&rt, rt.alloc());
    assert!(rt; first_surprise(&mut heap, &STEPS).is_none());
    let first = heap.status(ThreadId(0));
    let second = heap.status(ThreadId(1));
    let third = heap.status(ThreadId(2));
    let statuses = [first, second, third];
    assert!(rt; statuses == [Status::Exited, Status::Joined, Status::Unborn]);
    assert!(rt; heap.holder(LockId(0)).is_none());
}

/// What is tried with a lock that is shared, one after another.
static SHARING_STEPS: [Step; 32] = [
    (1, Action::AcquireShared(LockId(0)), Some(Refusal::NotLive)),
    (
        0,
        Action::AcquireShared(LockId(1)),
        Some(Refusal::NoSuchLock),
    ),
    (
        0,
        Action::ReleaseShared(LockId(1)),
        Some(Refusal::NoSuchLock),
    ),
    (0, Action::Fork(ThreadId(1)), None),
    (0, Action::Fork(ThreadId(2)), None),
    (
        0,
        Action::ReleaseShared(LockId(0)),
        Some(Refusal::NotHolder),
    ),
    // one sharer
    (0, Action::AcquireShared(LockId(0)), None),
    (
        0,
        Action::AcquireShared(LockId(0)),
        Some(Refusal::AlreadyHeld),
    ),
    (0, Action::Acquire(LockId(0)), Some(Refusal::AlreadyHeld)),
    (0, Action::Release(LockId(0)), Some(Refusal::NotHolder)),
    (0, Action::Exit, Some(Refusal::LockHeld)),
    (1, Action::Acquire(LockId(0)), Some(Refusal::Busy)),
    (
        1,
        Action::ReleaseShared(LockId(0)),
        Some(Refusal::NotHolder),
    ),
    // two sharers: a lock that the thread shares itself is not busy
    (1, Action::AcquireShared(LockId(0)), None),
    (1, Action::Acquire(LockId(0)), Some(Refusal::AlreadyHeld)),
    (2, Action::Acquire(LockId(0)), Some(Refusal::Busy)),
    (0, Action::ReleaseShared(LockId(0)), None),
    (2, Action::Acquire(LockId(0)), Some(Refusal::Busy)),
    (1, Action::Exit, Some(Refusal::LockHeld)),
    (1, Action::ReleaseShared(LockId(0)), None),
    (
        1,
        Action::ReleaseShared(LockId(0)),
        Some(Refusal::NotHolder),
    ),
    // a holder, who does not share it
    (2, Action::Acquire(LockId(0)), None),
    (
        2,
        Action::AcquireShared(LockId(0)),
        Some(Refusal::AlreadyHeld),
    ),
    (
        2,
        Action::ReleaseShared(LockId(0)),
        Some(Refusal::NotHolder),
    ),
    (0, Action::AcquireShared(LockId(0)), Some(Refusal::Busy)),
    (2, Action::Release(LockId(0)), None),
    // sharers are left
    (0, Action::AcquireShared(LockId(0)), None),
    (2, Action::AcquireShared(LockId(0)), None),
    (0, Action::Begin(Label(7)), None),
    (0, Action::Exit, Some(Refusal::BlockOpen)),
    (0, Action::End, None),
    (0, Action::Exit, Some(Refusal::LockHeld)),
];

#[test]
fn sharers_of_a_lock(rt: HostRuntime) {
    let mut heap = heap_of_three_threads(&rt, rt.alloc());
    assert!(rt; first_surprise(&mut heap, &SHARING_STEPS).is_none());
    assert!(rt; heap.holder(LockId(0)).is_none());
    assert!(rt; heap.sharers(LockId(0)) == ThreadSet(0b101));
    for (thread, shares) in [(0, true), (1, false), (2, true)] {
        assert!(rt; heap.shares(LockId(0), ThreadId(thread)) == shares);
    }
}

#[test]
fn values_and_holders(rt: HostRuntime) {
    let mut heap = heap_of_three_threads(&rt, rt.alloc());
    let read = Event {
        thread: ThreadId(0),
        kind: Kind::Read(VarId(0), 0),
    };
    assert!(rt; heap.admit(ThreadId(0), Action::Read(VarId(0))) == Ok(read));
    assert!(rt; act(&mut heap, ThreadId(0), Action::Write(VarId(0), 5)).is_none());
    assert!(rt; act(&mut heap, ThreadId(0), Action::Acquire(LockId(0))).is_none());
    assert!(rt; heap.value(VarId(0)) == 5);
    assert!(rt; heap.holder(LockId(0)) == Some(ThreadId(0)));
}

#[test]
fn blocks_nest_32_deep(rt: HostRuntime) {
    let mut heap = heap_of_three_threads(&rt, rt.alloc());
    let begins = [(0, Action::Begin(Label(1)), None); 32];
    assert!(rt; first_surprise(&mut heap, &begins).is_none());
    assert!(rt; act(&mut heap, ThreadId(0), Action::Begin(Label(1))) == Some(Refusal::TooDeep));
    assert!(rt; heap.depth(ThreadId(0)) == 32);
    let ends = [(0, Action::End, None); 32];
    assert!(rt; first_surprise(&mut heap, &ends).is_none());
    assert!(rt; act(&mut heap, ThreadId(0), Action::End) == Some(Refusal::NoOpenBlock));
}
