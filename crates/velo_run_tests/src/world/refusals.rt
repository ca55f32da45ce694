//! A refused action leaves log, heap, alarm, book and share as they were.
ghost use Rattle.velo_world.specs.World.{HoldsLiveShares};

use super::{M, MAIN, OTHER, Step, X, act, is_the_alarm, open_world};
use std::alloc::Global;
use std::process::Abort;
use velo_events::{Action, Label, LockId, Refusal, Status, ThreadId, VarId};
use velo_ledger::{Shares, Tally};
use velo_world::World;

/// Steps that are events, and one that is refused after them.
#[derive(Clone, Copy)]
struct Refused<'a> {
    before: &'a [Step],
    step: Step,
    refusal: Refusal,
}

macro_rules! refused {
    ($refusal:expr, $thread:expr, $action:expr, $before:expr) => {
        Refused {
            before: $before,
            step: ($thread, $action),
            refusal: $refusal,
        }
    };
}

const FORK: Step = (MAIN, Action::Fork(OTHER));

const ACQUIRE: Step = (MAIN, Action::Acquire(M));

const SHARE: Step = (MAIN, Action::AcquireShared(M));

/// The lost update up to its alarm, at which the world halts.
const TO_THE_ALARM: [Step; 5] = [
    FORK,
    (MAIN, Action::Begin(Label(7))),
    (MAIN, Action::Read(X)),
    (OTHER, Action::Write(X, 5)),
    (MAIN, Action::Write(X, 1)),
];

/// Each refusal that a world gives for what an action is, and each way to come to it.
static REFUSED: [Refused<'static>; 32] = [
    refused!(Refusal::Halted, MAIN, Action::End, &TO_THE_ALARM),
    refused!(Refusal::Halted, OTHER, Action::Fork(OTHER), &TO_THE_ALARM),
    refused!(
        Refusal::NotLive,
        MAIN,
        Action::Begin(Label(1)),
        &[(MAIN, Action::Exit)]
    ),
    refused!(
        Refusal::NotLive,
        OTHER,
        Action::Fork(OTHER),
        &[FORK, (OTHER, Action::Exit)]
    ),
    refused!(Refusal::NoSuchVariable, MAIN, Action::Read(VarId(1)), &[]),
    refused!(
        Refusal::NoSuchVariable,
        MAIN,
        Action::Write(VarId(1), 1),
        &[]
    ),
    refused!(Refusal::NoSuchLock, MAIN, Action::Acquire(LockId(1)), &[]),
    refused!(Refusal::NoSuchLock, MAIN, Action::Release(LockId(1)), &[]),
    refused!(
        Refusal::NoSuchLock,
        MAIN,
        Action::AcquireShared(LockId(1)),
        &[]
    ),
    refused!(
        Refusal::NoSuchLock,
        MAIN,
        Action::ReleaseShared(LockId(1)),
        &[]
    ),
    refused!(Refusal::NoSuchThread, MAIN, Action::Fork(ThreadId(2)), &[]),
    refused!(Refusal::NoSuchThread, MAIN, Action::Join(ThreadId(2)), &[]),
    refused!(Refusal::Busy, OTHER, Action::Acquire(M), &[FORK, ACQUIRE]),
    refused!(
        Refusal::Busy,
        OTHER,
        Action::AcquireShared(M),
        &[FORK, ACQUIRE]
    ),
    refused!(Refusal::Busy, OTHER, Action::Acquire(M), &[FORK, SHARE]),
    refused!(Refusal::AlreadyHeld, MAIN, Action::Acquire(M), &[ACQUIRE]),
    refused!(
        Refusal::AlreadyHeld,
        MAIN,
        Action::AcquireShared(M),
        &[ACQUIRE]
    ),
    refused!(Refusal::AlreadyHeld, MAIN, Action::Acquire(M), &[SHARE]),
    refused!(
        Refusal::AlreadyHeld,
        MAIN,
        Action::AcquireShared(M),
        &[SHARE]
    ),
    refused!(
        Refusal::NotHolder,
        OTHER,
        Action::Release(M),
        &[FORK, ACQUIRE]
    ),
    refused!(Refusal::NotHolder, MAIN, Action::Release(M), &[SHARE]),
    refused!(
        Refusal::NotHolder,
        MAIN,
        Action::ReleaseShared(M),
        &[ACQUIRE]
    ),
    refused!(
        Refusal::NoOpenBlock,
        MAIN,
        Action::End,
        &[(MAIN, Action::Write(X, 1))]
    ),
    refused!(
        Refusal::TooDeep,
        MAIN,
        Action::Begin(Label(2)),
        &[(MAIN, Action::Begin(Label(1))); 32]
    ),
    refused!(Refusal::AlreadyForked, MAIN, Action::Fork(OTHER), &[FORK]),
    refused!(Refusal::NotForked, MAIN, Action::Join(OTHER), &[]),
    refused!(Refusal::NotExited, MAIN, Action::Join(OTHER), &[FORK]),
    refused!(
        Refusal::AlreadyJoined,
        MAIN,
        Action::Join(OTHER),
        &[FORK, (OTHER, Action::Exit), (MAIN, Action::Join(OTHER))]
    ),
    refused!(
        Refusal::BlockOpen,
        MAIN,
        Action::Exit,
        &[(MAIN, Action::Begin(Label(1)))]
    ),
    refused!(Refusal::LockHeld, MAIN, Action::Exit, &[ACQUIRE]),
    refused!(Refusal::LockHeld, MAIN, Action::Exit, &[SHARE]),
    refused!(
        Refusal::LogFull,
        MAIN,
        Action::Read(X),
        &[(MAIN, Action::Write(X, 1)); 100]
    ),
];

/// What heap, book and share say of a thread.
#[derive(Clone, Copy, PartialEq)]
struct ThreadTold {
    status: Status,
    depth: u8,
    is_sharer: bool,
    row: Tally,
    share: Option<Tally>,
}

/// What a world of two threads, one variable and one lock has besides its log.
#[derive(Clone, Copy, PartialEq)]
struct Told {
    value: u64,
    holder: Option<ThreadId>,
    has_alarm: bool,
    has_the_alarm: bool,
    is_halted: bool,
    threads: [ThreadTold; 2],
}

/// What the thread's share says, if it is there.
fn said_by(shares: &Shares, thread: ThreadId) -> Option<Tally> {
    let share = shares.get(thread)?;
    Some(Tally {
        events: share.events(),
        next: share.next(),
        last: share.last(),
        read_total: share.read_total(),
        written_total: share.written_total(),
    })
}

fn thread_told(rt: &impl Abort, world: &World, shares: &Shares, thread: ThreadId) -> ThreadTold {
    let bounds = world.bounds();
    assert!(rt; thread.0 < bounds.threads && bounds.locks == 1);
    ThreadTold {
        status: world.heap().status(thread),
        depth: world.heap().depth(thread),
        is_sharer: world.heap().shares(M, thread),
        row: world.book().tally(thread),
        share: said_by(shares, thread),
    }
}

fn told_by(rt: &impl Abort, world: &World, shares: &Shares) -> Told {
    let bounds = world.bounds();
    assert!(rt; bounds.variables == 1 && bounds.locks == 1);
    Told {
        value: world.heap().value(X),
        holder: world.heap().holder(M),
        has_alarm: world.alarm().is_some(),
        has_the_alarm: is_the_alarm(world.alarm()),
        is_halted: world.is_halted(),
        threads: [
            thread_told(rt, world, shares, MAIN),
            thread_told(rt, world, shares, OTHER),
        ],
    }
}

/// Does the steps, each of which is an event.
fn prepare(rt: &impl Abort, world: &mut World, shares: &mut Shares, steps: &[Step])
    requires { HoldsLiveShares world.old shares.old }
{
    let outcomes = world.run(shares, steps).expect(rt, "memory");
    assert!(rt; outcomes.iter().all(|outcome| outcome.is_ok()));
}

/// Does the refused step, and looks at everything before and after it.
fn look(
    rt: &impl Abort,
    alloc: Global,
    world: &mut World,
    shares: &mut Shares,
    case: &Refused<'_>,
) {
    let (thread, action) = case.step;
    let log = world.log().as_slice().to_vec(alloc).expect(rt, "memory");
    let before = told_by(rt, world, shares);
    let outcome = act(rt, world, shares, thread, action);
    assert!(rt; outcome == Err(case.refusal));
    assert!(rt; world.log().as_slice() == log.as_slice());
    assert!(rt; told_by(rt, world, shares) == before);
}

#[test]
fn a_refused_action_changes_nothing(rt: HostRuntime) {
    for case in &REFUSED {
        let (mut world, mut shares) = open_world(&rt, rt.alloc(), 2, 8, true);
        prepare(&rt, &mut world, &mut shares, case.before);
        look(&rt, rt.alloc(), &mut world, &mut shares, case);
        drop((world, shares));
    }
}
