//! Random logs, and their reports by the definitions in the slowest way.
ghost use Rattle.std.specs.Prelude.{◌≤◌, ◌<◌, length};

use std::alloc::{AllocError, Global};
use std::process::Abort;
use std::test::Fail;
use velo_check::config_of;
use velo_events::{
    Action, Bounds, Label, LockId, MAX_EVENTS, MAX_NODES, ThreadId, VarId, conflicts,
};
use velo_traces::Trace;
use velo_world::World;

/// The bounds of random logs.
pub const BOUNDS: Bounds = Bounds {
    threads: 4,
    variables: 2,
    locks: 1,
};

const X: VarId = VarId(0);

const Y: VarId = VarId(1);

const LOCK: LockId = LockId(0);

/// What a throw of the dice may say.
static ACTIONS: [Action; 32] = [
    Action::Read(X),
    Action::Read(X),
    Action::Read(X),
    Action::Read(Y),
    Action::Read(Y),
    Action::Write(X, 1),
    Action::Write(X, 2),
    Action::Write(X, 3),
    Action::Write(X, 4),
    Action::Write(X, 5),
    Action::Write(Y, 1),
    Action::Write(Y, 2),
    Action::Write(Y, 3),
    Action::Write(Y, 4),
    Action::Acquire(LOCK),
    Action::Acquire(LOCK),
    Action::Release(LOCK),
    Action::Release(LOCK),
    Action::AcquireShared(LOCK),
    Action::AcquireShared(LOCK),
    Action::ReleaseShared(LOCK),
    Action::ReleaseShared(LOCK),
    Action::Begin(Label(1)),
    Action::Begin(Label(1)),
    Action::Begin(Label(1)),
    Action::End,
    Action::End,
    Action::End,
    Action::Fork(ThreadId(3)),
    Action::Join(ThreadId(2)),
    Action::Join(ThreadId(3)),
    Action::Exit,
];

/// An action by a throw of the dice.
fn action_by(dice: u64) -> Action {
    ACTIONS[(dice % 32) as usize]
}

/// What a turn does by a throw of the dice. The first two fork.
fn turn_by(turn: u8, throw: u64) -> (ThreadId, Action) {
    match turn {
        0 => (ThreadId(0), Action::Fork(ThreadId(1))),
        1 => (ThreadId(0), Action::Fork(ThreadId(2))),
        _ => (ThreadId((throw % 4) as u8), action_by(throw >> 2)),
    }
}

/// Random throws, each sequence by its seed: a linear congruential generator of D. E. Knuth's
/// (MMIX).
#[derive(Drop)]
pub struct Dice {
    state: u64,
}

impl Dice {
    pub fn new(seed: u64) -> Dice {
        Dice { state: seed }
    }

    /// The high bits of the next state.
    pub fn throw(&mut self) -> u64 {
        self.state = self
            .state
            .wrapping_mul(6_364_136_223_846_793_005)
            .wrapping_add(1_442_695_040_888_963_407);
        self.state >> 33
    }

    /// A number below this one, or 0.
    pub fn below(&mut self, count: usize) -> usize {
        match (self.throw() as usize).checked_rem(count) {
            Some(number) => number,
            None => 0,
        }
    }
}

/// A world with a random log: of 48 actions those that were not refused.
pub fn world_by_chance(rt: &impl Abort, alloc: Global, seed: u64) -> World {
    let config = config_of(BOUNDS, MAX_EVENTS, MAX_NODES);
    let replayed = World::from_log(alloc, config, Trace::new(alloc));
    let (mut world, mut shares) = replayed.expect(rt, "a world");
    let mut dice = Dice::new(seed);
    for i in 0..48u8 {
        let (thread, action) = turn_by(i, dice.throw());
        let _outcome = world.act_as(&mut shares, thread, action);
    }
    drop(shares);
    world
}

/// Adds what reaches the start of an edge to the sources, and what its end reaches to the targets.
fn list_ends(
    reaches: &[(usize, usize)],
    from: usize,
    to: usize,
    sources: &mut Vec<usize>,
    targets: &mut Vec<usize>,
) -> Result<(), AllocError> {
    sources.push(from)?;
    targets.push(to)?;
    for (a, b) in reaches {
        if *b == from {
            sources.push(*a)?;
        }
        if *a == to {
            targets.push(*b)?;
        }
    }
    Ok(())
}

/// Adds the pairs of a source with each target that are not there.
fn add_pairs(
    reaches: &mut Vec<(usize, usize)>,
    source: usize,
    targets: &[usize],
) -> Result<(), AllocError> {
    for target in targets {
        if !reaches.contains(&(source, *target)) {
            reaches.push((source, *target))?;
        }
    }
    Ok(())
}

/// Joins to the pairs, where the first reaches the second, all that one more edge makes reachable.
fn add_edge(
    alloc: Global,
    reaches: &mut Vec<(usize, usize)>,
    from: usize,
    to: usize,
) -> Result<(), AllocError> {
    let mut sources = Vec::new(alloc);
    let mut targets = Vec::new(alloc);
    list_ends(reaches.as_slice(), from, to, &mut sources, &mut targets)?;
    for source in &sources {
        add_pairs(reaches, *source, &targets)?;
    }
    Ok(())
}

/// Joins to the pairs what the edges to an event make reachable. Returns whether one of them closes
/// a cycle.
fn closes(
    alloc: Global,
    reaches: &mut Vec<(usize, usize)>,
    trace: &Trace,
    at: usize,
) -> Result<bool, AllocError>
    requires { at < length trace.now.events }
{
    let events = trace.as_slice();
    let to = trace.owner_of(at);
    for before in 0..at {
        let from = trace.owner_of(before);
        if from != to && conflicts(&events[before], &events[at]) {
            if reaches.contains(&(to, from)) {
                return Ok(true);
            }
            add_edge(alloc, reaches, from, to)?;
        }
    }
    Ok(false)
}

/// The first position up to which the events have a cycle, by all pairs of events.
fn first_closing(alloc: Global, trace: &Trace) -> Result<Option<usize>, AllocError> {
    let mut reaches = Vec::new(alloc);
    for at in 0..trace.len() {
        if closes(alloc, &mut reaches, trace, at)? {
            return Ok(Some(at));
        }
    }
    Ok(None)
}

/// How many events of a trace a thread has.
fn count_of(trace: &Trace, thread: ThreadId) -> usize {
    let mut count = 0usize;
    for event in trace.as_slice() {
        if event.thread == thread {
            count = count.wrapping_add(1);
        }
    }
    count
}

/// Writes how many events each thread has.
fn write_counts(text: &mut String, trace: &Trace, threads: u8) -> Result<(), Fail> {
    for t in 0..threads {
        let count = count_of(trace, ThreadId(t));
        writeln!(text, "thread {t} {count}")?;
    }
    Ok(())
}

/// Writes the verdict, with an alarm's transaction.
fn write_verdict(text: &mut String, trace: &Trace, closing: Option<usize>) -> Result<(), Fail> {
    match closing {
        Some(at) => {
            let transaction = if at < trace.len() {
                trace.owner_of(at)
            } else {
                at
            };
            writeln!(text, "verdict alarm {at}\ntransaction {transaction}")?;
        }
        None => writeln!(text, "verdict clean")?,
    }
    Ok(())
}

/// The first lines of the report of a trace, up to the transaction of an alarm.
pub fn first_lines(alloc: Global, trace: &Trace, threads: u8) -> Result<String, Fail> {
    let closing = first_closing(alloc, trace)?;
    let mut text = format!(in alloc; "events {}\n", trace.len())?;
    write_counts(&mut text, trace, threads)?;
    write_verdict(&mut text, trace, closing)?;
    Ok(text)
}
