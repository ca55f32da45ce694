//! Worlds with too few nodes for all that is live: from the square of the threads on blocks give
//! way to earlier ones.
ghost use Rattle.std.specs.Prelude.{◌≡◌, false};
ghost use Rattle.velo_world.specs.World.{HoldsLiveShares};

use super::{M, MAIN, OTHER, Outcome, Step, X, replied};
use crate::growths::again;
use crate::words::holds_for;
use std::alloc::Global;
use std::process::Abort;
use velo_events::{Action, Bounds, Config, Label, Memory, Refusal, ThreadId, VarId};
use velo_ledger::Shares;
use velo_traces::Trace;
use velo_world::{LogReplayFault, World};

const THIRD: ThreadId = ThreadId(2);

const Y: VarId = VarId(1);

const Z: VarId = VarId(2);

/// A run of `threads` threads, three variables and one lock that goes on after an alarm.
fn config_of(rt: &impl Abort, threads: u8, nodes: u16) -> Config
    ensures { result.stop ≡ false }
{
    let bounds = Bounds {
        threads,
        variables: 3,
        locks: 1,
    };
    Config::new(1, bounds, 1_000, nodes, false).expect(rt, "a configuration")
}

/// A world of such a run before its first event.
fn open(rt: &impl Abort, alloc: Global, threads: u8, nodes: u16) -> (World, Shares)
    ensures { HoldsLiveShares result.0 result.1 }
{
    let config = config_of(rt, threads, nodes);
    let opened = again!(
        LogReplayFault::Memory,
        World::from_log(alloc, config, Trace::new(alloc))
    );
    opened.expect(rt, "a world")
}

/// The outcomes of steps.
#[derive(Drop)]
struct Played {
    outcomes: Vec<Outcome>,
    /// The position of the alarm, its transaction, and how many blocks are to blame.
    alarm: Option<(usize, usize, usize)>,
    used: u16,
}

/// What a world shows after steps with these outcomes.
fn played_in(world: &World, outcomes: Vec<Outcome>) -> Played {
    let alarm = match world.alarm() {
        Some(alarm) => Some((alarm.position, alarm.transaction, alarm.blamed.len())),
        None => None,
    };
    Played {
        outcomes,
        alarm,
        used: world.monitor().used(),
    }
}

/// Does the steps in a world of `threads` threads and `nodes` nodes.
fn play(rt: &impl Abort, alloc: Global, threads: u8, nodes: u16, steps: &[Step]) -> Played {
    let (mut world, mut shares) = open(rt, alloc, threads, nodes);
    let outcomes = world.run(&mut shares, steps).expect(rt, "memory");
    let played = played_in(&world, outcomes);
    drop((world, shares));
    played
}

/// Three blocks that one open block reaches, four that a second one reaches too, the last of which
/// writes, and one more. Then the second open block reads what was written.
static READ_BY_EIGHT: [Step; 31] = [
    (MAIN, Action::Fork(OTHER)),
    (MAIN, Action::Fork(THIRD)),
    (MAIN, Action::Begin(Label(1))),
    (MAIN, Action::Write(X, 1)),
    (OTHER, Action::Begin(Label(2))),
    (OTHER, Action::Read(X)),
    (OTHER, Action::End),
    (OTHER, Action::Begin(Label(2))),
    (OTHER, Action::Read(X)),
    (OTHER, Action::End),
    (OTHER, Action::Begin(Label(2))),
    (OTHER, Action::Read(X)),
    (OTHER, Action::End),
    (THIRD, Action::Begin(Label(3))),
    (THIRD, Action::Write(Y, 1)),
    (OTHER, Action::Begin(Label(2))),
    (OTHER, Action::Read(Y)),
    (OTHER, Action::End),
    (OTHER, Action::Begin(Label(2))),
    (OTHER, Action::Read(Y)),
    (OTHER, Action::End),
    (OTHER, Action::Begin(Label(2))),
    (OTHER, Action::Read(Y)),
    (OTHER, Action::End),
    (OTHER, Action::Begin(Label(2))),
    (OTHER, Action::Read(Y)),
    (OTHER, Action::Write(Z, 7)),
    (OTHER, Action::End),
    (OTHER, Action::Begin(Label(2))),
    (OTHER, Action::End),
    (THIRD, Action::Read(Z)),
];

/// With nine nodes the first of the three blocks and the first of the four stay, since one more
/// open block reaches the latter. With ten all stay, and the alarm is the same.
#[test]
fn a_block_that_one_more_reaches_stays(rt: HostRuntime) {
    for (nodes, used) in [(9, 5), (10, 10)] {
        let played = play(&rt, rt.alloc(), 3, nodes, &READ_BY_EIGHT);
        assert!(rt; (played.alarm, played.used) == (Some((30, 13, 1)), used));
        assert!(rt; played.outcomes.last() == Some(&replied(30, Some(7), true)));
    }
}

/// What a thread with short blocks may do.
static SHORT: [Action; 16] = [
    Action::Begin(Label(1)),
    Action::Begin(Label(1)),
    Action::Begin(Label(1)),
    Action::Begin(Label(1)),
    Action::End,
    Action::End,
    Action::End,
    Action::End,
    Action::End,
    Action::Read(X),
    Action::Read(X),
    Action::Read(Y),
    Action::Write(Z, 1),
    Action::Read(Z),
    Action::Acquire(M),
    Action::Release(M),
];

/// What one with long blocks may do.
static LONG: [Action; 16] = [
    Action::Begin(Label(2)),
    Action::Begin(Label(2)),
    Action::Begin(Label(2)),
    Action::Begin(Label(2)),
    Action::Begin(Label(2)),
    Action::End,
    Action::Write(X, 1),
    Action::Write(X, 2),
    Action::Write(X, 3),
    Action::Write(Y, 1),
    Action::Write(Y, 2),
    Action::Read(X),
    Action::Read(Y),
    Action::Read(Z),
    Action::Acquire(M),
    Action::Release(M),
];

/// The high bits of the next state of a linear congruential generator of D. E. Knuth's (MMIX).
fn throw(state: &mut u64) -> usize {
    *state = state
        .wrapping_mul(6_364_136_223_846_793_005)
        .wrapping_add(1_442_695_040_888_963_407);
    (*state >> 33) as usize
}

/// A step by a throw of the dice: one of the threads with long blocks has a turn in eight.
fn step_by(throw: usize) -> Step {
    let place = throw % 32;
    let actions = if place < 4 { &LONG } else { &SHORT };
    let thread = if place == 0 {
        THIRD
    } else if place < 4 {
        MAIN
    } else if place < 10 {
        THIRD
    } else {
        OTHER
    };
    (thread, actions[throw / 32 % 16])
}

/// Random steps, of which the first two fork.
fn steps_by_chance(seed: u64) -> [Step; 200] {
    let mut steps = [(MAIN, Action::Fork(OTHER)); 200];
    let mut state = seed;
    for step in &mut steps[1..] {
        *step = step_by(throw(&mut state));
    }
    steps[1] = (MAIN, Action::Fork(THIRD));
    steps
}

/// With nine nodes for three threads, each action has the outcome that it has with a node for each.
#[test]
fn worlds_with_few_nodes_answer_as_large_ones(rt: HostRuntime) {
    for seed in 0..300 {
        let steps = steps_by_chance(seed);
        let few = play(&rt, rt.alloc(), 3, 9, &steps);
        let many = play(&rt, rt.alloc(), 3, 200, &steps);
        assert!(rt; !few.outcomes.contains(&Err(Refusal::GraphFull)), "{seed}");
        assert!(rt;
            few.outcomes.as_slice() == many.outcomes.as_slice(),
            "{seed}"
        );
        holds_for(&rt, few.alarm == many.alarm, &seed);
        drop((few, many));
    }
}

/// Two threads with four nodes. The log grows for the 17th event, before which blocks give way; the
/// last one closes a cycle.
static GROWING: [Step; 24] = [
    (MAIN, Action::Fork(OTHER)),
    (MAIN, Action::Begin(Label(7))),
    (MAIN, Action::Write(X, 1)),
    (OTHER, Action::Begin(Label(1))),
    (OTHER, Action::Read(X)),
    (OTHER, Action::Read(X)),
    (OTHER, Action::Read(X)),
    (OTHER, Action::End),
    (OTHER, Action::Begin(Label(1))),
    (OTHER, Action::Read(X)),
    (OTHER, Action::Read(X)),
    (OTHER, Action::End),
    (OTHER, Action::Begin(Label(1))),
    (OTHER, Action::Write(Y, 5)),
    (OTHER, Action::Read(X)),
    (OTHER, Action::End),
    (OTHER, Action::Begin(Label(1))),
    (OTHER, Action::End),
    (OTHER, Action::Begin(Label(1))),
    (OTHER, Action::End),
    (OTHER, Action::Begin(Label(1))),
    (OTHER, Action::End),
    (OTHER, Action::Exit),
    (MAIN, Action::Read(Y)),
];

/// The values of the first two variables.
fn values_in(world: &World) -> (u64, u64) {
    if world.bounds().variables < 2 {
        return (0, 0);
    }
    (world.heap().value(X), world.heap().value(Y))
}

/// What a refusal has to leave: the length of the log, two values, whether there is an alarm, and
/// whether the shares fit.
fn shown_by(world: &World, shares: &Shares) -> (usize, (u64, u64), bool, bool) {
    (
        world.log().len(),
        values_in(world),
        world.alarm().is_some(),
        world.is_complete(shares),
    )
}

/// Does a step, and once more if an allocation fails.
fn act_again(rt: &impl Abort, world: &mut World, shares: &mut Shares, step: Step) -> Outcome
    requires { HoldsLiveShares world.old shares.old }
    ensures { HoldsLiveShares world.new shares.new }
{
    let before = shown_by(world, shares);
    match world.act_as(shares, step.0, step.1) {
        Err(Refusal::Memory) => {
            assert!(rt; shown_by(world, shares) == before);
            world.act_as(shares, step.0, step.1)
        }
        outcome => outcome,
    }
}

/// The outcome of the action at the place.
fn growing_outcome(place: usize, action: Action) -> Outcome {
    let value = match action {
        Action::Read(Y) => Some(5),
        Action::Read(_) => Some(1),
        _ => None,
    };
    replied(place, value, place == 23)
}

/// Blocks give way before the refusal, and no other trace of the call is left.
#[test]
fn a_refused_growth_behind_a_compaction(rt: HostRuntime) {
    let (mut world, mut shares) = open(&rt, rt.alloc(), 2, 4);
    for place in 0..24 {
        let step = GROWING[place];
        let outcome = act_again(&rt, &mut world, &mut shares, step);
        holds_for(&rt, outcome == growing_outcome(place, step.1), &place);
    }
    assert!(rt; shown_by(&world, &shares) == (24, (1, 5), true, true));
    drop((world, shares));
}
