//! Tests of the world.
ghost use Rattle.std.specs.Prelude.{◌≡◌, false, None, Some, replicate, slice_set};
ghost use Rattle.velo_ledger.specs.Shares.{opening_share};
ghost use Rattle.velo_world.specs.World.{FitsLog, HoldsLiveShares, opening};

mod compaction;
mod growths;
mod refusals;

use crate::growths::again;
use std::alloc::Global;
use std::process::Abort;
use velo_events::{
    Action, Bounds, Config, Event, Kind, Label, LockId, Memory, Refusal, ThreadId, VarId,
};
use velo_ledger::{Share, Shares};
use velo_traces::{Block, Trace};
use velo_world::{Alarm, LogReplayFault, Reply, World};

type Step = (ThreadId, Action);

type Outcome = Result<Reply, Refusal>;

const X: VarId = VarId(0);

const M: LockId = LockId(0);

const MAIN: ThreadId = ThreadId(0);

const OTHER: ThreadId = ThreadId(1);

/// Two threads that update one variable: the second writes between the first one's read and write.
/// Then both go on.
static LOST_UPDATE: [Step; 8] = [
    (MAIN, Action::Fork(OTHER)),
    (MAIN, Action::Begin(Label(7))),
    (MAIN, Action::Read(X)),
    (OTHER, Action::Write(X, 5)),
    (MAIN, Action::Write(X, 1)),
    (MAIN, Action::End),
    (OTHER, Action::Begin(Label(1))),
    (MAIN, Action::Begin(Label(2))),
];

/// Whether the alarm is at the position, and blames the block that begins at 1.
fn is_alarm_at(alarm: Option<&Alarm>, position: usize) -> bool {
    let blamed = [Block {
        first: 1,
        label: Label(7),
    }];
    alarm.is_some_and(|alarm| {
        alarm.position == position
            && alarm.transaction == 1
            && alarm.blamed.as_slice() == blamed.as_slice()
    })
}

/// Whether the alarm is that of the lost update.
fn is_the_alarm(alarm: Option<&Alarm>) -> bool {
    is_alarm_at(alarm, 4)
}

/// So many places, with the share at its own.
fn holding(rt: &impl Abort, alloc: Global, threads: u8, share: Share) -> Shares
    ensures { result ≡ slice_set (replicate threads None) share.thread.0 (Some share) }
{
    let mut shares = again!(Memory, Shares::none(alloc, threads)).expect(rt, "memory");
    assert!(rt; shares.put(share).is_ok());
    shares
}

fn new_world(rt: &impl Abort, alloc: Global, config: Config) -> (World, Share)
    ensures world { result.0 ≡ opening config }
    ensures share { result.1 ≡ opening_share config.run 0 }
{
    again!(Memory, World::new(alloc, config)).expect(rt, "memory")
}

/// A world of `threads` threads, one variable and one lock, with thread 0's share at its place.
fn open_world(
    rt: &impl Abort,
    alloc: Global,
    threads: u8,
    nodes: u16,
    stop: bool,
) -> (World, Shares)
    ensures { HoldsLiveShares result.0 result.1 }
{
    let bounds = Bounds {
        threads,
        variables: 1,
        locks: 1,
    };
    let config = Config::new(1, bounds, 100, nodes, stop).expect(rt, "a configuration");
    let (world, share) = new_world(rt, alloc, config);
    (world, holding(rt, alloc, threads, share))
}

/// What became of a world in which steps were done.
#[derive(Drop)]
struct Played {
    outcomes: Vec<Outcome>,
    is_the_alarm: bool,
    is_halted: bool,
    used: u16,
}

/// What a world shows after steps with these outcomes.
fn played_in(world: &World, outcomes: Vec<Outcome>) -> Played {
    Played {
        outcomes,
        is_the_alarm: is_the_alarm(world.alarm()),
        is_halted: world.is_halted(),
        used: world.monitor().used(),
    }
}

/// Does the steps in a world of two threads.
fn play(rt: &impl Abort, alloc: Global, nodes: u16, stop: bool, steps: &[Step]) -> Played {
    let (mut world, mut shares) = open_world(rt, alloc, 2, nodes, stop);
    let outcomes = world.run(&mut shares, steps).expect(rt, "memory");
    let played = played_in(&world, outcomes);
    drop((world, shares));
    played
}

fn replied(position: usize, value: Option<u64>, alarmed: bool) -> Outcome {
    Ok(Reply {
        position,
        value,
        alarmed,
    })
}

/// The outcome of an action that reads nothing, before an alarm.
fn reply_without_value(position: usize) -> Outcome {
    replied(position, None, false)
}

/// Does an action by the thread's share.
fn act(
    rt: &impl Abort,
    world: &mut World,
    shares: &mut Shares,
    thread: ThreadId,
    action: Action,
) -> Outcome {
    let mut share = shares.take(thread).expect(rt, "no share");
    assert!(rt; world.fits(&share));
    let outcome = match action {
        Action::Fork(child) => fork(rt, world, shares, &mut share, child),
        _ => world.act(&mut share, action),
    };
    assert!(rt; world.fits(&share) && shares.put(share).is_ok());
    outcome
}

/// Forks a thread, whose share comes to its place.
fn fork(
    rt: &impl Abort,
    world: &mut World,
    shares: &mut Shares,
    share: &mut Share,
    child: ThreadId,
) -> Outcome
    requires { FitsLog world.old share.old }
    ensures { FitsLog world.new share.new }
{
    let (reply, born) = world.fork(share, child)?;
    assert!(rt; shares.put(born).is_ok());
    Ok(reply)
}

/// The 33rd begin is one too deep.
fn nested_outcome(place: usize) -> Outcome {
    if place == 32 {
        return Err(Refusal::TooDeep);
    }
    let position = if place < 32 { place } else { place - 1 };
    reply_without_value(position)
}

#[test]
fn blocks_nest_32_deep(rt: HostRuntime) {
    let mut steps = [(MAIN, Action::End); 65];
    for step in &mut steps[..33] {
        step.1 = Action::Begin(Label(0));
    }
    let played = play(&rt, rt.alloc(), 1, false, &steps);
    assert!(rt; played.outcomes.len() == 65);
    for (place, outcome) in played.outcomes.iter().enumerate() {
        assert!(rt; *outcome == nested_outcome(place));
    }
}

#[test]
fn refused_at_the_third_step(rt: HostRuntime) {
    for (thread, action, refusal) in [
        (OTHER, Action::Acquire(M), Refusal::Busy),
        (MAIN, Action::Acquire(M), Refusal::AlreadyHeld),
        (MAIN, Action::Exit, Refusal::LockHeld),
        (MAIN, Action::Join(OTHER), Refusal::NotExited),
    ] {
        let steps = [
            (MAIN, Action::Fork(OTHER)),
            (MAIN, Action::Acquire(M)),
            (thread, action),
        ];
        let played = play(&rt, rt.alloc(), 1, false, &steps);
        let wanted = [reply_without_value(0), reply_without_value(1), Err(refusal)];
        assert!(rt; played.outcomes.as_slice() == wanted.as_slice());
    }
}

/// What comes of the step of the lost update at the place, where an alarm leaves the rest to this.
fn lost_update_outcome(place: usize, rest: Outcome) -> Outcome {
    if place > 4 {
        return rest;
    }
    let value = if place == 2 { Some(0) } else { None };
    replied(place, value, place == 4)
}

#[test]
fn an_alarm_stays_and_needs_no_node(rt: HostRuntime) {
    let played = play(&rt, rt.alloc(), 2, false, &LOST_UPDATE);
    assert!(rt; played.outcomes.len() == 8);
    for (place, outcome) in played.outcomes.iter().enumerate() {
        assert!(rt; *outcome == lost_update_outcome(place, replied(place, None, true)));
    }
    assert!(rt; (played.is_the_alarm, played.is_halted) == (true, false));
}

#[test]
fn an_alarm_stops_the_world(rt: HostRuntime) {
    let played = play(&rt, rt.alloc(), 4096, true, &LOST_UPDATE);
    assert!(rt; played.outcomes.len() == 8);
    for (place, outcome) in played.outcomes.iter().enumerate() {
        assert!(rt; *outcome == lost_update_outcome(place, Err(Refusal::Halted)));
    }
    assert!(rt; (played.is_the_alarm, played.is_halted) == (true, true));
}

/// The second block finds no node while the first is open, and the log goes on.
#[test]
fn a_full_graph_refuses_a_block(rt: HostRuntime) {
    let steps = [
        (MAIN, Action::Fork(OTHER)),
        (MAIN, Action::Begin(Label(1))),
        (OTHER, Action::Begin(Label(2))),
        (MAIN, Action::Write(X, 1)),
        (MAIN, Action::End),
        (OTHER, Action::Begin(Label(2))),
    ];
    let played = play(&rt, rt.alloc(), 1, false, &steps);
    let wanted = [
        reply_without_value(0),
        reply_without_value(1),
        Err(Refusal::GraphFull),
        reply_without_value(2),
        reply_without_value(3),
        reply_without_value(4),
    ];
    assert!(rt; played.outcomes.as_slice() == wanted.as_slice());
    assert!(rt; played.used == 1);
}

/// A write in an open block, and five blocks of the other thread that read it.
static READ_BY_FIVE: [Step; 18] = [
    (MAIN, Action::Fork(OTHER)),
    (MAIN, Action::Begin(Label(1))),
    (MAIN, Action::Write(X, 1)),
    (OTHER, Action::Begin(Label(2))),
    (OTHER, Action::Read(X)),
    (OTHER, Action::End),
    (OTHER, Action::Begin(Label(2))),
    (OTHER, Action::Read(X)),
    (OTHER, Action::End),
    (OTHER, Action::Begin(Label(2))),
    (OTHER, Action::Read(X)),
    (OTHER, Action::End),
    (OTHER, Action::Begin(Label(2))),
    (OTHER, Action::Read(X)),
    (OTHER, Action::End),
    (OTHER, Action::Begin(Label(2))),
    (OTHER, Action::Read(X)),
    (OTHER, Action::End),
];

/// How many of the outcomes say that the graph is full.
fn times_full(outcomes: &[Outcome]) -> usize {
    let mut times: usize = 0;
    for outcome in outcomes {
        if *outcome == Err(Refusal::GraphFull) {
            times = times.saturating_add(1);
        }
    }
    times
}

/// Four nodes are enough for two threads, and three are not: of the blocks that read, each third
/// finds none, as the reads of a refused one go into the block before.
#[test]
fn enough_nodes_are_never_all_in_use(rt: HostRuntime) {
    for (nodes, full) in [(4, 0), (3, 3), (2, 4)] {
        let played = play(&rt, rt.alloc(), nodes, false, &READ_BY_FIVE);
        assert!(rt; times_full(played.outcomes.as_slice()) == full);
    }
}

/// A recorded lost update.
static RECORDED: [(ThreadId, Kind); 8] = [
    (MAIN, Kind::Fork(OTHER)),
    (MAIN, Kind::Begin(Label(7))),
    (MAIN, Kind::Read(X, 0)),
    (OTHER, Kind::Write(X, 5)),
    (MAIN, Kind::Write(X, 1)),
    (MAIN, Kind::End),
    (OTHER, Kind::Begin(Label(1))),
    (MAIN, Kind::Read(X, 1)),
];

/// The recorded events, the one at the place changed.
fn log_changed_at(rt: &impl Abort, alloc: Global, place: usize, kind: Kind) -> Trace {
    let mut log = Trace::new(alloc);
    for (i, (thread, recorded)) in RECORDED.iter().enumerate() {
        let thread = *thread;
        let kind = if i == place { kind } else { *recorded };
        log.push(Event { thread, kind }).expect(rt, "memory");
    }
    log
}

/// Whether the world has the alarm of the lost update and all its events.
fn has_it_all(world: &World) -> bool {
    is_the_alarm(world.alarm()) && world.log().len() == RECORDED.len()
}

/// A run of two threads, one variable and one lock that goes on after an alarm.
fn two_threads(rt: &impl Abort, events: u32, nodes: u16) -> Config
    ensures { result.stop ≡ false }
{
    let bounds = Bounds {
        threads: 2,
        variables: 1,
        locks: 1,
    };
    Config::new(1, bounds, events, nodes, false).expect(rt, "a configuration")
}

/// Replays the recorded events, the one at the place changed, and returns whether the world has the
/// alarm and the whole log.
fn replay_changed_at(
    rt: &impl Abort,
    alloc: Global,
    events: u32,
    nodes: u16,
    place: usize,
    kind: Kind,
) -> Result<bool, LogReplayFault> {
    let config = two_threads(rt, events, nodes);
    match World::from_log(alloc, config, log_changed_at(rt, alloc, place, kind)) {
        Ok(replayed) => {
            let has_it_all = has_it_all(&replayed.0);
            drop(replayed);
            Ok(has_it_all)
        }
        Err(fault) => Err(fault),
    }
}

/// Limits, a changed event, and what comes of the log.
static REPLAYED: [(u32, u16, usize, Kind, Result<bool, LogReplayFault>); 8] = [
    (100, 2, 0, Kind::Fork(OTHER), Ok(true)),
    (8, 2, 0, Kind::Fork(OTHER), Ok(true)),
    (
        7,
        2,
        0,
        Kind::Fork(OTHER),
        Err(LogReplayFault::Refused {
            position: 7,
            refusal: Refusal::LogFull,
        }),
    ),
    (
        100,
        1,
        0,
        Kind::Fork(OTHER),
        Err(LogReplayFault::Refused {
            position: 3,
            refusal: Refusal::GraphFull,
        }),
    ),
    (100, 2, 3, Kind::Write(X, 0), Ok(true)),
    (
        100,
        2,
        5,
        Kind::Exit,
        Err(LogReplayFault::Refused {
            position: 5,
            refusal: Refusal::BlockOpen,
        }),
    ),
    (
        100,
        2,
        2,
        Kind::Read(X, 9),
        Err(LogReplayFault::WrongValue { position: 2 }),
    ),
    (
        7,
        2,
        7,
        Kind::Read(X, 9),
        Err(LogReplayFault::WrongValue { position: 7 }),
    ),
];

#[test]
fn a_recorded_log_is_replayed(rt: HostRuntime) {
    for (events, nodes, place, kind, wanted) in &REPLAYED {
        let replayed = replay_changed_at(&rt, rt.alloc(), *events, *nodes, *place, *kind);
        assert!(rt; replayed == *wanted);
    }
}

/// Replays the recorded events, lets the threads go on by the steps, and returns whether the alarm
/// of the lost update comes.
fn goes_on(rt: &impl Abort, alloc: Global, recorded: &[(ThreadId, Kind)], steps: &[Step]) -> bool {
    let mut log = Trace::new(alloc);
    for (thread, kind) in recorded {
        log.push(Event {
            thread: *thread,
            kind: *kind,
        })
        .expect(rt, "memory");
    }
    let replayed = World::from_log(alloc, two_threads(rt, 100, 2), log);
    let (mut world, mut shares) = replayed.expect(rt, "a world");
    let outcomes = world.run(&mut shares, steps);
    let alarmed = is_the_alarm(world.alarm());
    drop((world, shares, outcomes));
    alarmed
}

#[test]
fn threads_go_on_after_a_recorded_log(rt: HostRuntime) {
    for count in 0..6 {
        assert!(rt; goes_on(&rt, rt.alloc(), &RECORDED[..count], &LOST_UPDATE[count..]));
    }
}

#[test]
fn a_share_is_missing(rt: HostRuntime) {
    let (world, shares) = open_world(&rt, rt.alloc(), 2, 1, false);
    let none = Shares::none(rt.alloc(), 2).expect(&rt, "memory");
    match world.close(none) {
        Ok(_) => panic!(rt; "closed without a share"),
        Err((world, _)) => assert!(rt; events_at_its_end(world, shares) == Some(0)),
    }
}

/// How many events a world has at its end; none where it is not closed.
fn events_at_its_end(world: World, shares: Shares) -> Option<u64> {
    match world.close(shares) {
        Ok(closed) => {
            let total = closed.total();
            drop(closed);
            Some(total)
        }
        Err(given_back) => {
            drop(given_back);
            None
        }
    }
}

/// Forks the other thread, reads, and returns the result of the read.
fn forks_and_reads(world: &mut World, main: &mut Share) -> Outcome
    requires { FitsLog world.old main.old }
{
    world.fork(main, OTHER)?;
    world.act(main, Action::Read(X))
}

#[test]
fn a_share_acts_again(rt: HostRuntime) {
    let (mut world, mut shares) = open_world(&rt, rt.alloc(), 2, 1, false);
    let mut main = shares.take(MAIN).expect(&rt, "no share");
    assert!(rt; world.fits(&main));
    assert!(rt; forks_and_reads(&mut world, &mut main) == replied(1, Some(0), false));
    drop((world, shares));
}
