//! Tests of seats under one lock.

mod cache;
mod growths;

use std::alloc::Global;
use std::process::Abort;
use std::sync::Wait;
use std::test::Fail;
use std::thread;
use std::thread::Threads;
use std::time::{Clock, Duration};
use velo_events::{
    Action, BadConfig, Bounds, Config, Kind, Label, LockId, Refusal, ThreadId, VarId,
};
use velo_runtime::{
    Missing, Room, RunError, Seat, Shared, Turn, Wanted, close, comes_back, fork_in, step_in,
    turn_in,
};
use velo_world::Closed;

const X: VarId = VarId(0);

const LOCK: LockId = LockId(0);

const MAIN: ThreadId = ThreadId(0);

const OTHER: ThreadId = ThreadId(1);

const THIRD: ThreadId = ThreadId(2);

/// So many threads, a variable more than threads, and a lock more than variables.
fn config(run: u64, threads: u8, events: u32, stop: bool) -> Result<Config, BadConfig> {
    let variables = u16::from(threads) + 1;
    let bounds = Bounds {
        threads,
        variables,
        locks: variables + 1,
    };
    Config::new(run, bounds, events, 1024, stop)
}

/// Opens a run, and forks `forks` threads by the first one.
fn open_with_forks<R: Wait>(
    rt: &R,
    alloc: Global,
    config: Config,
    forks: u8,
) -> Result<(Shared, Vec<Seat>), RunError> {
    let mut seats = Vec::new(alloc);
    let (shared, first) = Shared::open(alloc, config)?;
    match add_threads(rt, &shared, &mut seats, first, forks) {
        Ok(()) => Ok((shared, seats)),
        Err(error) => {
            drop((shared, seats));
            Err(error)
        }
    }
}

/// Adds the first seat, and the seats of the threads that it forks.
fn add_threads<R: Wait>(
    rt: &R,
    shared: &Shared,
    seats: &mut Vec<Seat>,
    first: Seat,
    forks: u8,
) -> Result<(), RunError> {
    seats.push(first)?;
    for child in 1..=forks {
        add_thread(rt, shared, seats, ThreadId(child))?;
    }
    Ok(())
}

/// Forks a thread by the first seat, and adds its seat.
fn add_thread<R: Wait>(
    rt: &R,
    shared: &Shared,
    seats: &mut Vec<Seat>,
    child: ThreadId,
) -> Result<(), RunError> {
    if let Some(first) = seats.first_mut() {
        let seat = first.fork(rt, shared, child)?;
        seats.push(seat)?;
    }
    Ok(())
}

#[test]
fn errors_are_told_by_their_texts(rt: HostRuntime) -> Result<(), Fail> {
    let refused = open_with_forks(&rt, rt.alloc(), config(1, 1, 100, false)?, 1);
    let error = refused.err().ok_or("not refused")?;
    assert!(rt; error.to_string(rt.alloc())?.as_str() == "no such thread");
    Ok(())
}

// ---- two threads that follow scripts

/// The value that was read, and whether an alarm is reported.
type Outcome = Result<(Option<u64>, bool), Refusal>;

const DONE: Outcome = Ok((None, false));

const ALARMED: Outcome = Ok((None, true));

/// What a thread does next.
#[derive(Clone, Copy)]
enum Step {
    /// The call of its seat that has this outcome.
    Do(Action, Outcome),
    Halt,
    /// Goes on once the log has this many events.
    At(usize),
    /// Goes on once each other thread waits for it.
    IsAwaited,
    /// Goes on once no other thread waits for it.
    IsNotAwaited,
}

/// Two threads, the second of which is forked first of all, and how their run ends.
#[derive(Clone, Copy)]
struct Case<'a> {
    stop: bool,
    first: &'a [Step],
    second: &'a [Step],
    log: &'a [(ThreadId, Kind)],
    /// The position of the alarm, and that of its transaction.
    alarm: Option<(usize, usize)>,
}

/// A block that nothing spoils, one in which the second thread writes between the first one's read
/// and write, and one after the alarm.
const LOST_UPDATE: Case = Case {
    stop: false,
    first: &[
        Step::Do(Action::Begin(Label(1)), DONE),
        Step::Do(Action::End, DONE),
        Step::Do(Action::Begin(Label(7)), DONE),
        Step::Do(Action::Read(X), Ok((Some(0), false))),
        Step::At(6),
        Step::Do(Action::Write(X, 1), ALARMED),
        Step::Do(Action::Begin(Label(2)), ALARMED),
        Step::At(9),
        Step::Do(Action::Read(X), Ok((Some(9), false))),
        Step::Do(Action::End, ALARMED),
    ],
    second: &[
        Step::At(5),
        Step::Do(Action::Write(X, 5), DONE),
        Step::At(8),
        Step::Do(Action::Write(X, 9), ALARMED),
    ],
    log: &[
        (MAIN, Kind::Fork(OTHER)),
        (MAIN, Kind::Begin(Label(1))),
        (MAIN, Kind::End),
        (MAIN, Kind::Begin(Label(7))),
        (MAIN, Kind::Read(X, 0)),
        (OTHER, Kind::Write(X, 5)),
        (MAIN, Kind::Write(X, 1)),
        (MAIN, Kind::Begin(Label(2))),
        (OTHER, Kind::Write(X, 9)),
        (MAIN, Kind::Read(X, 9)),
        (MAIN, Kind::End),
    ],
    alarm: Some((6, 3)),
};

/// A release wakes a thread that waits for the lock, and an exit one that waits to join.
const RELEASE_AND_EXIT: Case = Case {
    stop: false,
    first: &[
        Step::Do(Action::Acquire(LOCK), DONE),
        Step::IsAwaited,
        Step::Do(Action::Release(LOCK), DONE),
        Step::At(5),
        Step::Do(Action::Join(OTHER), DONE),
    ],
    second: &[
        Step::At(2),
        Step::Do(Action::Acquire(LOCK), DONE),
        Step::Do(Action::Release(LOCK), DONE),
        Step::IsAwaited,
        Step::Do(Action::Exit, DONE),
        Step::At(7),
    ],
    log: &[
        (MAIN, Kind::Fork(OTHER)),
        (MAIN, Kind::Acquire(LOCK)),
        (MAIN, Kind::Release(LOCK)),
        (OTHER, Kind::Acquire(LOCK)),
        (OTHER, Kind::Release(LOCK)),
        (OTHER, Kind::Exit),
        (MAIN, Kind::Join(OTHER)),
    ],
    alarm: None,
};

/// Two threads share a lock. The release of a share wakes a thread that waits for the lock alone,
/// and a release one that waits for a share.
const SHARES: Case = Case {
    stop: false,
    first: &[
        Step::Do(Action::AcquireShared(LOCK), DONE),
        Step::At(4),
        Step::IsAwaited,
        Step::Do(Action::ReleaseShared(LOCK), DONE),
        Step::At(6),
        Step::Do(Action::AcquireShared(LOCK), DONE),
    ],
    second: &[
        Step::At(2),
        Step::Do(Action::AcquireShared(LOCK), DONE),
        Step::Do(Action::ReleaseShared(LOCK), DONE),
        Step::Do(Action::Acquire(LOCK), DONE),
        Step::IsAwaited,
        Step::Do(Action::Release(LOCK), DONE),
        Step::At(8),
    ],
    log: &[
        (MAIN, Kind::Fork(OTHER)),
        (MAIN, Kind::AcquireShared(LOCK)),
        (OTHER, Kind::AcquireShared(LOCK)),
        (OTHER, Kind::ReleaseShared(LOCK)),
        (MAIN, Kind::ReleaseShared(LOCK)),
        (OTHER, Kind::Acquire(LOCK)),
        (OTHER, Kind::Release(LOCK)),
        (MAIN, Kind::AcquireShared(LOCK)),
    ],
    alarm: None,
};

/// A halt wakes a thread that waits.
const HALT: Case = Case {
    stop: false,
    first: &[
        Step::Do(Action::Acquire(LOCK), DONE),
        Step::IsAwaited,
        Step::Halt,
        Step::IsNotAwaited,
    ],
    second: &[
        Step::At(2),
        Step::Do(Action::Acquire(LOCK), Err(Refusal::Halted)),
    ],
    log: &[(MAIN, Kind::Fork(OTHER)), (MAIN, Kind::Acquire(LOCK))],
    alarm: None,
};

/// So does the event that halts the world at its alarm.
const HALT_AT_ALARM: Case = Case {
    stop: true,
    first: &[
        Step::Do(Action::Begin(Label(1)), DONE),
        Step::Do(Action::Read(X), Ok((Some(0), false))),
        Step::At(4),
        Step::Do(Action::Acquire(LOCK), DONE),
        Step::IsAwaited,
        Step::Do(Action::Write(X, 1), ALARMED),
        Step::IsNotAwaited,
    ],
    second: &[
        Step::At(3),
        Step::Do(Action::Write(X, 5), DONE),
        Step::At(5),
        Step::Do(Action::Acquire(LOCK), Err(Refusal::Halted)),
    ],
    log: &[
        (MAIN, Kind::Fork(OTHER)),
        (MAIN, Kind::Begin(Label(1))),
        (MAIN, Kind::Read(X, 0)),
        (OTHER, Kind::Write(X, 5)),
        (MAIN, Kind::Acquire(LOCK)),
        (MAIN, Kind::Write(X, 1)),
    ],
    alarm: Some((5, 1)),
};

/// The seat's call of the action's name.
fn call<R: Wait>(rt: &R, shared: &Shared, seat: &mut Seat, action: Action) -> Outcome {
    let reply = match action {
        Action::Read(x) => return Ok((Some(seat.read(rt, shared, x)?), false)),
        Action::Write(x, value) => seat.write(rt, shared, x, value)?,
        Action::Acquire(lock) => seat.acquire(rt, shared, lock)?,
        Action::Release(lock) => seat.release(rt, shared, lock)?,
        Action::AcquireShared(lock) => seat.acquire_shared(rt, shared, lock)?,
        Action::ReleaseShared(lock) => seat.release_shared(rt, shared, lock)?,
        Action::Begin(label) => seat.begin(rt, shared, label)?,
        Action::End => seat.end(rt, shared)?,
        Action::Fork(_) => return Err(Refusal::AlreadyForked),
        Action::Join(thread) => seat.join(rt, shared, thread)?,
        Action::Exit => seat.exit(rt, shared)?,
    };
    Ok((reply.value, reply.alarmed))
}

/// Whether all other threads wait for what the caller has, or none does.
fn do_others(room: &Room, caller: ThreadId, wait: bool) -> bool {
    for thread in 0..room.bounds().threads {
        let waits = comes_back(room, caller, Wanted::Thread(ThreadId(thread)));
        if thread != caller.0 && waits != wait {
            return false;
        }
    }
    true
}

/// Whether the thread may go on.
fn may_go_on(room: &Room, own: ThreadId, step: Step) -> bool {
    match step {
        Step::Do(_, _) | Step::Halt => true,
        Step::At(events) => room.count_events() >= events,
        Step::IsAwaited => do_others(room, own, true),
        Step::IsNotAwaited => do_others(room, own, false),
    }
}

/// Looks at the room once a millisecond, for some seconds, until the thread may go on.
fn comes_to(rt: &(impl Wait + Clock), shared: &Shared, own: ThreadId, step: Step) -> bool {
    for _ in 0..3_000 {
        if may_go_on(&shared.room.lock(rt), own, step) {
            return true;
        }
        thread::sleep(rt, Duration::from_millis(1));
    }
    false
}

/// Whether the step goes as it should.
fn goes(rt: &(impl Wait + Clock), shared: &Shared, seat: &mut Seat, step: Step) -> bool {
    match step {
        Step::Do(action, outcome) => call(rt, shared, seat, action) == outcome,
        Step::Halt => {
            shared.halt(rt);
            true
        }
        look => comes_to(rt, shared, seat.share().thread(), look),
    }
}

/// The first step that does not go as it should. Then the run is halted, so that the other thread
/// does not wait forever.
fn first_wrong(
    rt: &(impl Wait + Clock),
    shared: &Shared,
    seat: &mut Seat,
    steps: &[Step],
) -> Option<usize> {
    for (at, step) in steps.iter().enumerate() {
        if !goes(rt, shared, seat, *step) {
            shared.halt(rt);
            return Some(at);
        }
    }
    None
}

/// Has both threads follow their scripts at once, and returns the first step of each that goes
/// wrong.
fn follow<R: Wait + Clock + Threads + Sync>(
    rt: &R,
    shared: &Shared,
    first: &mut Seat,
    second: &mut Seat,
    case: &Case,
) -> (Option<usize>, Option<usize>) {
    thread::join(
        rt,
        || first_wrong(rt, shared, first, case.first),
        || first_wrong(rt, shared, second, case.second),
    )
}

/// Whether a run ended as it should.
fn ends_as(closed: &Closed, case: &Case) -> bool {
    let events = closed.log().as_slice().iter();
    let alarm = closed.alarm();
    events
        .map(|event| (event.thread, event.kind))
        .eq(case.log.iter().copied())
        && closed.total() == case.log.len() as u64
        && alarm.map(|alarm| (alarm.position, alarm.transaction)) == case.alarm
}

/// Opens a run of two threads, with their seats.
fn pair<R: Wait>(rt: &R, alloc: Global, stop: bool) -> Result<(Shared, Seat, Seat), RunError> {
    let (shared, mut first) = Shared::open(alloc, config(1, 2, 100, stop)?)?;
    match first.fork(rt, &shared, OTHER) {
        Ok(second) => Ok((shared, first, second)),
        Err(refusal) => {
            drop((shared, first));
            Err(refusal.into())
        }
    }
}

/// Plays a case. The first step of each thread that goes wrong, and whether the run ends as it
/// should.
fn play<R: Wait + Clock + Threads + Sync>(
    rt: &R,
    alloc: Global,
    case: &Case,
) -> Result<((Option<usize>, Option<usize>), bool), RunError> {
    let (shared, mut first, mut second) = pair(rt, alloc, case.stop)?;
    let wrong = follow(rt, &shared, &mut first, &mut second, case);
    let closed = close_both(alloc, shared, first, second)?;
    let is_right = ends_as(&closed, case);
    drop(closed);
    Ok((wrong, is_right))
}

/// Ends a run of two threads.
fn close_both(
    alloc: Global,
    shared: Shared,
    first: Seat,
    second: Seat,
) -> Result<Closed, RunError> {
    match vec![in alloc; first, second] {
        Ok(seats) => Ok(close(shared, seats)?),
        Err(error) => {
            drop(shared);
            Err(error.into())
        }
    }
}

static CASES: [Case<'static>; 5] = [LOST_UPDATE, RELEASE_AND_EXIT, SHARES, HALT, HALT_AT_ALARM];

#[test]
fn two_threads(rt: HostRuntime) {
    for case in &CASES {
        let outcome = play(&rt, rt.alloc(), case).ok();
        assert!(rt; outcome == Some(((None, None), true)));
    }
}

// ---- two threads that wait for one lock

/// What the first of three threads does, while the others wait for its lock.
static LETS_GO: [Step; 3] = [
    Step::Do(Action::Acquire(LOCK), DONE),
    Step::IsAwaited,
    Step::Do(Action::Release(LOCK), DONE),
];

/// What each of the others does. Neither goes on before both share the lock, so the release has to
/// wake both.
static SHARES_WITH_ANOTHER: [Step; 4] = [
    Step::At(3),
    Step::Do(Action::AcquireShared(LOCK), DONE),
    Step::At(6),
    Step::Do(Action::ReleaseShared(LOCK), DONE),
];

/// The first step of the seat's thread that goes wrong.
fn first_wrong_of_three(
    rt: &(impl Wait + Clock),
    shared: &Shared,
    mut seat: Seat,
) -> Option<usize> {
    if seat.share().thread() == MAIN {
        first_wrong(rt, shared, &mut seat, &LETS_GO)
    } else {
        first_wrong(rt, shared, &mut seat, &SHARES_WITH_ANOTHER)
    }
}

/// Has three threads follow their scripts at once, and returns the first step of each that goes
/// wrong.
fn all_wake<R: Wait + Clock + Threads + Sync>(
    rt: &R,
    alloc: Global,
) -> Result<Vec<Option<usize>>, RunError> {
    let (shared, seats) = open_with_forks(rt, alloc, config(1, 3, 100, false)?, 2)?;
    let wrong = thread::map_vec(rt, seats, &|seat| first_wrong_of_three(rt, &shared, seat));
    drop(shared);
    Ok(wrong?)
}

#[test]
fn a_release_wakes_all_who_wait(rt: HostRuntime) {
    let wrong = all_wake(&rt, rt.alloc()).expect(&rt, "memory");
    assert!(rt; wrong.as_slice() == [None; 3].as_slice());
}

// ---- a thread that is joined before the first one goes on

/// What the first thread does before the second is started.
static BEFORE: [Step; 2] = [
    Step::Do(Action::Begin(Label(7)), DONE),
    Step::Do(Action::Read(X), Ok((Some(0), false))),
];

/// What the second thread does, and what the first does once that is joined.
static JOINED: Case = Case {
    stop: false,
    first: &[Step::Do(Action::Write(X, 1), ALARMED)],
    second: &[Step::Do(Action::Write(X, 5), DONE)],
    log: &[
        (MAIN, Kind::Fork(OTHER)),
        (MAIN, Kind::Begin(Label(7))),
        (MAIN, Kind::Read(X, 0)),
        (OTHER, Kind::Write(X, 5)),
        (MAIN, Kind::Write(X, 1)),
    ],
    alarm: Some((4, 1)),
};

/// Has a thread that is started for it follow a script, joins it, and returns the first step that
/// goes wrong.
fn first_wrong_apart<R: Wait + Clock + Threads + Sync>(
    rt: &R,
    shared: &Shared,
    seat: &mut Seat,
    steps: &[Step],
) -> Option<usize> {
    thread::scope(thread::scope_env(), rt, |scope| {
        match scope.spawn(move || first_wrong(rt, shared, seat, steps)) {
            Ok(started) => started.join(rt),
            Err(_) => Some(0),
        }
    })
}

/// Plays the case of a thread that is joined. The first step of each part that goes wrong, and
/// whether the run ends as it should.
fn play_joined<R: Wait + Clock + Threads + Sync>(
    rt: &R,
    alloc: Global,
) -> Result<([Option<usize>; 3], bool), RunError> {
    let (shared, mut first, mut second) = pair(rt, alloc, JOINED.stop)?;
    let before = first_wrong(rt, &shared, &mut first, &BEFORE);
    let between = first_wrong_apart(rt, &shared, &mut second, JOINED.second);
    let after = first_wrong(rt, &shared, &mut first, JOINED.first);
    let closed = close_both(alloc, shared, first, second)?;
    let is_right = ends_as(&closed, &JOINED);
    drop(closed);
    Ok(([before, between, after], is_right))
}

#[test]
fn a_joined_thread(rt: HostRuntime) {
    let outcome = play_joined(&rt, rt.alloc()).ok();
    assert!(rt; outcome == Some(([None; 3], true)));
}

// ---- four threads at once

/// Writes 1 to 20 to the variable that has the number of the seat's thread.
fn write_numbers(rt: &(impl Wait + Abort), shared: &Shared, mut seat: Seat) -> Seat {
    let variable = VarId(u16::from(seat.share().thread().0));
    for value in 1..21 {
        assert!(rt; seat.write(rt, shared, variable, value).is_ok());
    }
    seat
}

/// Has four threads write at once.
fn all_write<R: Wait + Abort + Threads + Sync>(
    rt: &R,
    alloc: Global,
) -> Result<(Shared, Vec<Seat>), RunError> {
    let (shared, seats) = open_with_forks(rt, alloc, config(1, 4, 100, false)?, 3)?;
    match thread::map_vec(rt, seats, &|seat| write_numbers(rt, &shared, seat)) {
        Ok(seats) => Ok((shared, seats)),
        Err(error) => {
            drop(shared);
            Err(error.into())
        }
    }
}

/// Keeps the last seat back, so that the run is not closed.
fn close_too_early(shared: Shared, mut seats: Vec<Seat>) -> Option<(Missing, Seat)> {
    match seats.pop() {
        Some(kept) => Some((close(shared, seats).err()?, kept)),
        None => {
            drop((shared, seats));
            None
        }
    }
}

/// Whether the room is as it was, and the seats are in their order.
fn is_as_before(rt: &impl Wait, missing: &Missing) -> bool {
    let threads = missing.seats.iter().map(|seat| seat.share().thread().0);
    threads.eq([0, 1, 2]) && !missing.shared.room.lock(rt).is_halted()
}

/// Adds the seat that was kept back.
fn close_after_all(missing: Missing, kept: Seat) -> Option<Closed> {
    let Missing { shared, mut seats } = missing;
    match seats.push(kept) {
        Ok(()) => close(shared, seats).ok(),
        Err(_) => {
            drop((shared, seats));
            None
        }
    }
}

fn has_all_numbers(closed: &Closed) -> bool {
    if closed.bounds().threads != 4 {
        return false;
    }
    for thread in 0..4 {
        let tally = closed.tally(ThreadId(thread));
        let events = if thread == 0 { 23 } else { 20 };
        if tally.events != events || tally.written_total != 210 {
            return false;
        }
    }
    closed.total() == 83 && closed.alarm().is_none()
}

/// Whether a refused close gives all back, and the next one is as it should be.
fn close_twice(rt: &impl Wait, shared: Shared, seats: Vec<Seat>) -> Option<(bool, bool)> {
    let (missing, kept) = close_too_early(shared, seats)?;
    let is_back = is_as_before(rt, &missing);
    let closed = close_after_all(missing, kept)?;
    let has_all = has_all_numbers(&closed);
    drop(closed);
    Some((is_back, has_all))
}

#[test]
fn four_threads_write_at_once(rt: HostRuntime) {
    let (shared, seats) = all_write(&rt, rt.alloc()).expect(&rt, "written");
    assert!(rt; close_twice(&rt, shared, seats) == Some((true, true)));
}

// ---- one hold of a room

/// The position of the event, or none where the thread waits.
type Answer = Result<Option<usize>, Refusal>;

const WAITS: Answer = Ok(None);

/// A run, the actions of its seats in one hold, and what the room has at the end. The first seat is
/// there from the start, the second is that of another run, and a fork gives each that follows.
#[derive(Clone, Copy)]
struct Hold<'a> {
    threads: u8,
    events: u32,
    stop: bool,
    steps: &'a [(usize, Action, Answer)],
    /// How many events there are, whether the room is halted, and whether there is an alarm.
    end: (usize, bool, bool),
}

const CONFIGURED: Hold = Hold {
    threads: 2,
    events: 5,
    stop: false,
    steps: &[
        (1, Action::End, Err(Refusal::Foreign)),
        (1, Action::Fork(OTHER), Err(Refusal::Foreign)),
        (1, Action::Acquire(LOCK), Err(Refusal::Foreign)),
        (0, Action::Write(VarId(2), 1), Ok(Some(0))),
        (0, Action::Write(VarId(3), 1), Err(Refusal::NoSuchVariable)),
        (0, Action::Acquire(LockId(3)), Ok(Some(1))),
        (0, Action::Acquire(LockId(4)), Err(Refusal::NoSuchLock)),
        (0, Action::Fork(OTHER), Ok(Some(2))),
        (0, Action::Fork(ThreadId(2)), Err(Refusal::NoSuchThread)),
        (0, Action::Begin(Label(1)), Ok(Some(3))),
        (0, Action::End, Ok(Some(4))),
        (0, Action::Begin(Label(1)), Err(Refusal::LogFull)),
    ],
    end: (5, false, false),
};

/// The world stops at its alarm, and halted goes before all but foreign.
const HALTED: Hold = Hold {
    threads: 2,
    events: 100,
    stop: true,
    steps: &[
        (0, Action::Fork(OTHER), Ok(Some(0))),
        (0, Action::Begin(Label(7)), Ok(Some(1))),
        (0, Action::Read(X), Ok(Some(2))),
        (2, Action::Write(X, 5), Ok(Some(3))),
        (0, Action::Write(X, 1), Ok(Some(4))),
        (0, Action::End, Err(Refusal::Halted)),
        (0, Action::Fork(OTHER), Err(Refusal::Halted)),
        (2, Action::End, Err(Refusal::Halted)),
        (2, Action::Fork(OTHER), Err(Refusal::Halted)),
        (1, Action::End, Err(Refusal::Foreign)),
        (1, Action::Fork(OTHER), Err(Refusal::Foreign)),
    ],
    end: (5, true, true),
};

/// Nobody waits for a thread that waits for it, and who has acquired a lock waits no more.
const TURNS: Hold = Hold {
    threads: 2,
    events: 100,
    stop: false,
    steps: &[
        (0, Action::Fork(OTHER), Ok(Some(0))),
        (0, Action::Acquire(LOCK), Ok(Some(1))),
        (2, Action::Acquire(LOCK), WAITS),
        (0, Action::Join(OTHER), Err(Refusal::WouldDeadlock)),
        (0, Action::Acquire(LOCK), Err(Refusal::AlreadyHeld)),
        (0, Action::Release(LOCK), Ok(Some(2))),
        (2, Action::Acquire(LOCK), Ok(Some(3))),
        (0, Action::Acquire(LOCK), WAITS),
        (2, Action::Join(OTHER), Err(Refusal::WouldDeadlock)),
    ],
    end: (4, false, false),
};

/// Two threads share a lock, and a third waits for both: neither may wait for it then, and it goes
/// on only once neither shares the lock. Then both wait for it, and it may not wait for them.
const SHARERS: Hold = Hold {
    threads: 3,
    events: 100,
    stop: false,
    steps: &[
        (0, Action::Fork(OTHER), Ok(Some(0))),
        (0, Action::Fork(THIRD), Ok(Some(1))),
        (0, Action::AcquireShared(LOCK), Ok(Some(2))),
        (2, Action::AcquireShared(LOCK), Ok(Some(3))),
        (3, Action::Acquire(LOCK), WAITS),
        (2, Action::Join(THIRD), Err(Refusal::WouldDeadlock)),
        (0, Action::Join(THIRD), Err(Refusal::WouldDeadlock)),
        (0, Action::Acquire(LOCK), Err(Refusal::AlreadyHeld)),
        (0, Action::ReleaseShared(LOCK), Ok(Some(4))),
        (3, Action::Acquire(LOCK), WAITS),
        (2, Action::Join(THIRD), Err(Refusal::WouldDeadlock)),
        (0, Action::Join(THIRD), WAITS),
        (2, Action::Join(MAIN), Err(Refusal::WouldDeadlock)),
        (2, Action::ReleaseShared(LOCK), Ok(Some(5))),
        (3, Action::Acquire(LOCK), Ok(Some(6))),
        (0, Action::AcquireShared(LOCK), WAITS),
        (2, Action::AcquireShared(LOCK), WAITS),
        (3, Action::Join(OTHER), Err(Refusal::WouldDeadlock)),
        (3, Action::Release(LOCK), Ok(Some(7))),
        (0, Action::AcquireShared(LOCK), Ok(Some(8))),
        (2, Action::AcquireShared(LOCK), Ok(Some(9))),
        (3, Action::Join(OTHER), WAITS),
    ],
    end: (10, false, false),
};

/// An action that is no fork, by the call that is for it.
fn step_or_turn(room: &mut Room, seat: &mut Seat, action: Action) -> Answer {
    let turn = match action {
        Action::Fork(_) => return Err(Refusal::AlreadyForked),
        Action::Acquire(_) | Action::AcquireShared(_) | Action::Release(_) | Action::Join(_) => {
            turn_in(room, seat, action)
        }
        _ => return Ok(Some(step_in(room, seat, action)?.position)),
    };
    match turn {
        Turn::Done(reply) => Ok(Some(reply.position)),
        Turn::Refused(refusal) => Err(refusal),
        Turn::Wait => WAITS,
    }
}

/// Forks a thread, and adds its seat.
fn fork(room: &mut Room, seats: &mut Vec<Seat>, place: usize, child: ThreadId) -> Option<Answer> {
    let seat = seats.get_mut(place)?;
    match fork_in(room, seat, child) {
        Ok((reply, forked)) => {
            seats.push(forked).ok()?;
            Some(Ok(Some(reply.position)))
        }
        Err(refusal) => Some(Err(refusal)),
    }
}

/// The first step that does not return what it should.
fn first_other_answer(
    room: &mut Room,
    seats: &mut Vec<Seat>,
    steps: &[(usize, Action, Answer)],
) -> Option<usize> {
    for (at, (place, action, answer)) in steps.iter().enumerate() {
        let given = match *action {
            Action::Fork(child) => fork(room, seats, *place, child),
            action => seats
                .get_mut(*place)
                .map(|seat| step_or_turn(room, seat, action)),
        };
        if given != Some(*answer) {
            return Some(at);
        }
    }
    None
}

/// Does the actions of a hold. The first step that returns something else, and what the room has at
/// the end.
fn act_in_hold(
    rt: &impl Wait,
    shared: &Shared,
    seats: &mut Vec<Seat>,
    hold: &Hold,
) -> (Option<usize>, (usize, bool, bool)) {
    let mut room = shared.room.lock(rt);
    let other = first_other_answer(&mut room, seats, hold.steps);
    let has_alarm = room.alarm().is_some();
    (other, (room.count_events(), room.is_halted(), has_alarm))
}

/// Opens a run of `threads` threads.
fn open_of(
    rt: &impl Abort,
    alloc: Global,
    run: u64,
    threads: u8,
    events: u32,
    stop: bool,
) -> (Shared, Seat) {
    let config = config(run, threads, events, stop).expect(rt, "in range");
    Shared::open(alloc, config).expect(rt, "memory")
}

/// Opens a run of two threads.
fn open(rt: &impl Abort, alloc: Global, run: u64, events: u32, stop: bool) -> (Shared, Seat) {
    open_of(rt, alloc, run, 2, events, stop)
}

/// Does the actions of a hold in a run of its own, with the seat of another run as the second one.
fn held(
    rt: &(impl Wait + Abort),
    alloc: Global,
    hold: &Hold,
) -> (Option<usize>, (usize, bool, bool)) {
    let (foreign_shared, foreign) = open(rt, alloc, 2, 100, false);
    drop(foreign_shared);
    let (shared, first) = open_of(rt, alloc, 1, hold.threads, hold.events, hold.stop);
    let mut seats = vec![in alloc; first, foreign].expect(rt, "memory");
    let answered = act_in_hold(rt, &shared, &mut seats, hold);
    drop((shared, seats));
    answered
}

static HOLDS: [Hold<'static>; 4] = [CONFIGURED, HALTED, TURNS, SHARERS];

#[test]
fn one_hold_of_a_room(rt: HostRuntime) {
    for hold in &HOLDS {
        assert!(rt; held(&rt, rt.alloc(), hold) == (None, hold.end));
    }
}

// ---- a seat of another run

/// Does the action in one hold.
fn act_alone(rt: &impl Wait, shared: &Shared, seat: &mut Seat, action: Action) -> Answer {
    let mut room = shared.room.lock(rt);
    step_or_turn(&mut room, seat, action)
}

/// Closes a run with one seat.
fn close_with(
    rt: &impl Abort,
    alloc: Global,
    shared: Shared,
    seat: Seat,
) -> Result<Closed, Missing> {
    let seats = vec![in alloc; seat].expect(rt, "memory");
    close(shared, seats)
}

/// Closes a run with the seat of another one. Both are given back.
fn close_with_foreign(
    rt: &impl Abort,
    alloc: Global,
    shared: Shared,
    foreign: Seat,
) -> Option<(Shared, Seat)> {
    let Missing { shared, mut seats } = close_with(rt, alloc, shared, foreign).err()?;
    match seats.pop() {
        Some(seat) => Some((shared, seat)),
        None => {
            drop((shared, seats));
            None
        }
    }
}

/// Writes in the run, and closes it: the result of the write, and how many events there are.
fn write_and_close(
    rt: &(impl Wait + Abort),
    alloc: Global,
    shared: Shared,
    mut seat: Seat,
) -> (Answer, Option<u64>) {
    let written = act_alone(rt, &shared, &mut seat, Action::Write(X, 1));
    let closed = close_with(rt, alloc, shared, seat).ok();
    let total = closed.as_ref().map(|closed| closed.total());
    drop(closed);
    (written, total)
}

/// The seat of one run neither acts in another nor closes it, and both runs go on.
#[test]
fn a_foreign_seat(rt: HostRuntime) {
    let (first_run, mut first) = open(&rt, rt.alloc(), 1, 100, false);
    let (second_run, second) = open(&rt, rt.alloc(), 2, 100, false);
    let foreign = act_alone(&rt, &second_run, &mut first, Action::Write(X, 1));
    assert!(rt; foreign == Err(Refusal::Foreign));
    let given_back = close_with_foreign(&rt, rt.alloc(), second_run, first);
    let (second_run, first) = given_back.expect(&rt, "not closed");
    let told = write_and_close(&rt, rt.alloc(), first_run, first);
    assert!(rt; told == (Ok(Some(0)), Some(1)));
    let told = write_and_close(&rt, rt.alloc(), second_run, second);
    assert!(rt; told == (Ok(Some(0)), Some(1)));
}
