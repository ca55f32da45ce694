//! One allocation fails, whichever it is: the call reports it and leaves no trace, and a second
//! call returns what the first would have. Without a refusal each call is done once.
ghost use Rattle.std.specs.Prelude.{◌≤◌};

use super::{
    LOST_UPDATE, M, MAIN, OTHER, Outcome, RECORDED, X, act, events_at_its_end, is_alarm_at,
    lost_update_outcome, new_world, open_world, replied, two_threads,
};
use crate::growths::again;
use std::alloc::Global;
use std::process::Abort;
use velo_events::{Action, Bounds, Config, Event, Kind, Label, Memory, Refusal, ThreadId};
use velo_ledger::{Shares, Tally};
use velo_traces::Trace;
use velo_world::{Closed, LogReplayFault, World};

#[test]
fn a_refused_growth_of_a_new_world(rt: HostRuntime) {
    let bounds = Bounds {
        threads: 64,
        variables: 9,
        locks: 9,
    };
    let config = Config::new(1, bounds, 100, 1024, false).expect(&rt, "a configuration");
    let (world, share) = new_world(&rt, rt.alloc(), config);
    assert!(rt; world.fits(&share) && share.thread() == MAIN);
    assert!(rt; world.log().is_empty() && world.monitor().used() == 0);
    drop((world, share));
}

/// What shows a trace of an action.
fn traces_in(world: &World) -> (usize, u16, bool) {
    (
        world.log().len(),
        world.monitor().used(),
        world.alarm().is_some(),
    )
}

/// Does an action by the thread's share, and once more if an allocation fails.
fn act_again(
    rt: &impl Abort,
    world: &mut World,
    shares: &mut Shares,
    thread: ThreadId,
    action: Action,
) -> Outcome {
    let before = traces_in(world);
    match act(rt, world, shares, thread, action) {
        Err(Refusal::Memory) => {
            assert!(rt; traces_in(world) == before);
            act(rt, world, shares, thread, action)
        }
        outcome => outcome,
    }
}

/// The value that is read, and whether an alarm is reported.
type Told = Result<(Option<u64>, bool), Refusal>;

const DONE: Told = Ok((None, false));

const ALARMED: Told = Ok((None, true));

/// Each kind of action, two that have to wait, and an alarm, after which the run goes on. The fork
/// is the fifth event, and so one of those that make the log grow.
static STEPS: [(ThreadId, Action, Told); 21] = [
    (MAIN, Action::Write(X, 4), DONE),
    (MAIN, Action::Begin(Label(7)), DONE),
    (MAIN, Action::Acquire(M), DONE),
    (MAIN, Action::Read(X), Ok((Some(4), false))),
    (MAIN, Action::Fork(OTHER), DONE),
    (OTHER, Action::Acquire(M), Err(Refusal::Busy)),
    (MAIN, Action::Release(M), DONE),
    (OTHER, Action::Begin(Label(1)), DONE),
    (OTHER, Action::Acquire(M), DONE),
    (OTHER, Action::Read(X), Ok((Some(4), false))),
    (OTHER, Action::Write(X, 5), DONE),
    (OTHER, Action::Release(M), DONE),
    (OTHER, Action::End, DONE),
    (MAIN, Action::Join(OTHER), Err(Refusal::NotExited)),
    (OTHER, Action::Exit, DONE),
    (MAIN, Action::Begin(Label(2)), DONE),
    (MAIN, Action::Join(OTHER), ALARMED),
    (MAIN, Action::Read(X), Ok((Some(5), true))),
    (MAIN, Action::End, ALARMED),
    (MAIN, Action::End, ALARMED),
    (MAIN, Action::Exit, ALARMED),
];

static LOG: [(ThreadId, Kind); 19] = [
    (MAIN, Kind::Write(X, 4)),
    (MAIN, Kind::Begin(Label(7))),
    (MAIN, Kind::Acquire(M)),
    (MAIN, Kind::Read(X, 4)),
    (MAIN, Kind::Fork(OTHER)),
    (MAIN, Kind::Release(M)),
    (OTHER, Kind::Begin(Label(1))),
    (OTHER, Kind::Acquire(M)),
    (OTHER, Kind::Read(X, 4)),
    (OTHER, Kind::Write(X, 5)),
    (OTHER, Kind::Release(M)),
    (OTHER, Kind::End),
    (OTHER, Kind::Exit),
    (MAIN, Kind::Begin(Label(2))),
    (MAIN, Kind::Join(OTHER)),
    (MAIN, Kind::Read(X, 5)),
    (MAIN, Kind::End),
    (MAIN, Kind::End),
    (MAIN, Kind::Exit),
];

static TALLIES: [Tally; 2] = [
    Tally {
        events: 12,
        next: 19,
        last: Some(Event {
            thread: MAIN,
            kind: Kind::Exit,
        }),
        read_total: 9,
        written_total: 4,
    },
    Tally {
        events: 7,
        next: 13,
        last: Some(Event {
            thread: OTHER,
            kind: Kind::Exit,
        }),
        read_total: 4,
        written_total: 5,
    },
];

/// Does the steps, and compares the outcome of each.
fn play(rt: &impl Abort, world: &mut World, shares: &mut Shares) {
    for (thread, action, told) in &STEPS {
        let position = world.log().len();
        let wanted = match *told {
            Ok((value, alarmed)) => replied(position, value, alarmed),
            Err(refusal) => Err(refusal),
        };
        assert!(rt; act_again(rt, world, shares, *thread, *action) == wanted);
    }
}

fn has_the_log(closed: &Closed) -> bool {
    let events = closed.log().as_slice().iter();
    events
        .map(|event| (event.thread, event.kind))
        .eq(LOG.iter().copied())
}

/// Whether the world's heap and tallies are those after all steps.
fn has_the_ends(closed: &Closed) -> bool {
    let bounds = closed.bounds();
    if bounds.threads != 2 || bounds.variables != 1 || bounds.locks != 1 {
        return false;
    }
    [closed.tally(MAIN), closed.tally(OTHER)] == TALLIES
        && closed.heap().value(X) == 5
        && closed.heap().holder(M).is_none()
}

#[test]
fn a_refused_growth_of_an_action(rt: HostRuntime) {
    let (mut world, mut shares) = open_world(&rt, rt.alloc(), 2, 2, false);
    play(&rt, &mut world, &mut shares);
    assert!(rt; traces_in(&world) == (19, 2, true));
    match world.close(shares) {
        Ok(closed) => {
            assert!(rt; has_the_log(&closed) && has_the_ends(&closed));
            assert!(rt; is_alarm_at(closed.alarm(), 14));
            drop(closed);
        }
        Err(_) => panic!(rt; "a share is missing"),
    }
}

/// The first recorded events.
fn recorded(rt: &impl Abort, alloc: Global, count: usize) -> Trace
    requires { count ≤ 8 }
{
    let mut log = Trace::new(alloc);
    for (thread, kind) in &RECORDED[..count] {
        let event = Event {
            thread: *thread,
            kind: *kind,
        };
        again!(Memory, log.push(event)).expect(rt, "memory");
    }
    log
}

/// Replays the first recorded events, and lets the threads go on.
fn goes_on(rt: &impl Abort, alloc: Global, count: usize)
    requires { count ≤ 8 }
{
    let config = two_threads(rt, 100, 2);
    let replayed = again!(
        LogReplayFault::Memory,
        World::from_log(alloc, config, recorded(rt, alloc, count))
    );
    let (mut world, mut shares) = replayed.expect(rt, "a world");
    for place in count..8 {
        let (thread, action) = LOST_UPDATE[place];
        assert!(rt;
            act_again(rt, &mut world, &mut shares, thread, action)
                == lost_update_outcome(place, replied(place, None, true))
        );
    }
    assert!(rt; is_alarm_at(world.alarm(), 4));
    assert!(rt; events_at_its_end(world, shares) == Some(8));
}

#[test]
fn a_refused_growth_after_a_recorded_log(rt: HostRuntime) {
    for count in 0..8 {
        goes_on(&rt, rt.alloc(), count);
    }
}

/// The place of the step that found no memory.
fn refused_place(outcomes: &[Outcome]) -> Option<usize> {
    for (place, outcome) in outcomes.iter().enumerate() {
        if *outcome == Err(Refusal::Memory) {
            return Some(place);
        }
    }
    None
}

/// Compares a run of the lost update with one without the step at the place.
fn compare(rt: &impl Abort, alloc: Global, world: &World, outcomes: &[Outcome], place: usize) {
    assert!(rt; place < 8 && outcomes.len() == 8);
    let (mut other, mut shares) = open_world(rt, alloc, 2, 2, false);
    let before = other.run(&mut shares, &LOST_UPDATE[..place]);
    let behind = other.run(&mut shares, &LOST_UPDATE[place + 1..]);
    let before = before.expect(rt, "memory");
    let behind = behind.expect(rt, "memory");
    assert!(rt; before.as_slice() == &outcomes[..place]);
    assert!(rt; behind.as_slice() == &outcomes[place + 1..]);
    assert!(rt; world.log().as_slice() == other.log().as_slice());
    assert!(rt; world.alarm() == other.alarm() && traces_in(world) == traces_in(&other));
    drop((other, shares, before, behind));
}

/// Compares the outcomes of the lost update.
fn compare_all(rt: &impl Abort, outcomes: &[Outcome]) {
    assert!(rt; outcomes.len() == 8);
    for (place, outcome) in outcomes.iter().enumerate() {
        assert!(rt; *outcome == lost_update_outcome(place, replied(place, None, true)));
    }
}

/// In a run of many steps it is the outcome of one of them.
#[test]
fn a_refused_growth_in_a_run(rt: HostRuntime) {
    let (mut world, mut shares) = open_world(&rt, rt.alloc(), 2, 2, false);
    let outcomes = again!(Memory, world.run(&mut shares, &LOST_UPDATE)).expect(&rt, "memory");
    match refused_place(&outcomes) {
        None => compare_all(&rt, &outcomes),
        Some(place) => compare(&rt, rt.alloc(), &world, &outcomes, place),
    }
    let count = world.log().len() as u64;
    drop(outcomes);
    assert!(rt; events_at_its_end(world, shares) == Some(count));
}
