//! Live runs of a workload: each of its threads is a thread.
ghost use Rattle.std.specs.Prelude.{◌≡◌, ◌<◌, ◌↔◌, ◌++◌, ◌∷◌, [], All, Err, IfOk, IfSome, IsTrue, OnErr, map, vec_len, vec_capacity};
ghost use Rattle.velo_events.specs.Graph.{HasCycle};
ghost use Rattle.velo_events.specs.Refusals.{GrowthRefused};
ghost use Rattle.velo_worker.specs.declared.ending.Ending.TheVariants as ending;
ghost use Rattle.velo_worker.specs.declared.living.LiveFault.TheVariants as live_fault;
ghost use Rattle.velo_worker.specs.declared.outcome.Outcome.TheVariants as outcome;
ghost use Rattle.velo_worker.specs.Causes.{EndsWithCause};
ghost use Rattle.velo_worker.specs.Live.{AllDone, EndsAs, HaltsAtAlarm, HasDone};
ghost use Rattle.velo_worker.specs.Logs.{IsLogOf};
ghost use Rattle.velo_worker.specs.Progress.{start_of};

use crate::counting::count_events;
use crate::ending::Ending;
use crate::gate::Gate;
use crate::growth::channel;
use crate::outcome::{Ended, Outcome, ending_of};
use crate::progress::{Progress, threads_of};
use crate::retracing::all_follow;
use crate::starting::{Unstarted, start_worker};
use crate::worker::{Birth, Message, Site};
use crossbeam_channel::Receiver;
use std::alloc::Global;
use std::sync::Wait;
use std::thread;
use std::thread::{Scope, Threads};
use thiserror::Error;
use velo_events::growth::{reserve, with_capacity};
use velo_events::{Config, Event, Kind, Memory, Refusal};
use velo_runtime::{Seat, Shared, close};
use velo_workload::Workload;
use velo_world::Closed;

/// Why a live run has no world to show.
#[derive(Clone, Copy, Debug, PartialEq, Eq, Error)]
pub enum LiveFault {
    /// An allocation failed before the first event.
    #[error("out of memory")]
    Memory,
    /// A seat did not come back, or is not that of a thread that did its body; or the log has an
    /// event that no body leads to.
    #[error("seat lost")]
    Lost,
}

impl From<Memory> for LiveFault {
    ghost from_gives = { λ _ fault. fault ≡ live_fault.Memory };

    fn from(_memory: Memory) -> LiveFault {
        LiveFault::Memory
    }
}

/// Lets each thread of a workload do its body in a thread of its own, and closes the world after
/// the last has ended. Returns that world, and how the run ended. The configuration has to have the
/// workload's bounds. However the run ended, each thread's events are those that its body leads to,
/// one after another: the log is retraced by the bodies at the end, in one pass.
///
/// Before each of its events a thread asks the gate. One that the gate does not let pass, or whose
/// action is refused, halts the world: what the others try after that is refused. It may wait for
/// locks, for threads to join, and for the gate.
///
/// # Errors
/// `Memory` if an allocation failed before the first event; one that fails later ends the run as
/// `Refused`. `Lost` where a seat did not come back, or is not that of the body that its worker
/// says was done; and where the log would have an event that no body leads to, or the run would be
/// halted without an alarm at which it is to stop.
pub fn live<G: Gate + Sync, R: Threads + Wait + Sync>(
    rt: &R,
    alloc: Global,
    workload: &Workload,
    config: Config,
    gate: &G,
) -> Result<(Closed, Ending), LiveFault>
    requires { config.bounds ≡ workload.now.bounds }
    ensures config { IfOk result (λ run. run.0.config ≡ config) }
    ensures log { IfOk result (λ run. IsLogOf workload.now run.0.log) }
    ensures done { IfOk result (λ run. run.1 ≡ ending.Done → AllDone workload.now run.0) }
    ensures halted { IfOk result (λ run. HaltsAtAlarm config.stop run.0.log run.1) }
    ensures cause { IfOk result (λ run. EndsWithCause run.1) }
    ensures memory { result ≡ Err live_fault.Memory → GrowthRefused }
{
    let (sender, messages) = channel(alloc)?;
    let (nursery, births) = channel(alloc)?;
    let mut ended = with_capacity(alloc, usize::from(config.bounds.threads))?;
    let seats = with_capacity(alloc, usize::from(config.bounds.threads))?;
    let threads = threads_of(alloc, workload)?;
    let Ok((shared, seat)) = Shared::open(alloc, config) else {
        return Err(LiveFault::Memory);
    };
    let first = Birth {
        seat,
        messages: sender,
    };
    if nursery.send(rt, first).is_err() {
        return Err(LiveFault::Lost);
    }
    let site = Site {
        alloc,
        workload,
        shared: &shared,
        gate,
        nursery: &nursery,
        births: &births,
    };
    run(rt, &site, &messages, &mut ended);
    let (closed, ending) = finish(workload, shared, ended, seats)?;
    retraced(workload, threads, config.stop, closed, ending)
}

/// The closed world and how its run ended, if each thread's events are those that its body leads
/// to, and a run that is halted was so by its alarm.
fn retraced(
    workload: &Workload,
    threads: Vec<Progress>,
    stop: bool,
    closed: Closed,
    ending: Ending,
) -> Result<(Closed, Ending), LiveFault>
    requires bounds { closed.config.bounds ≡ workload.now.bounds }
    requires threads { threads.items ≡ map start_of workload.now.bodies }
    ensures same { IfOk result (λ run. (run.0 ≡ closed) × (run.1 ≡ ending)) }
    ensures log { IfOk result (λ run. IsLogOf workload.now run.0.log) }
    ensures halted { IfOk result (λ run. HaltsAtAlarm stop run.0.log run.1) }
    ensures lost { OnErr result (result ≡ Err live_fault.Lost) }
{
    if !halts_at_alarm(stop, &closed, ending) {
        return Err(LiveFault::Lost);
    }
    if all_follow(threads, closed.log().as_slice()) {
        Ok((closed, ending))
    } else {
        Err(LiveFault::Lost)
    }
}

/// Whether the run was halted by an alarm at which it is to stop, if it ended as halted.
fn halts_at_alarm(stop: bool, closed: &Closed, ending: Ending) -> bool
    ensures { IsTrue result → HaltsAtAlarm stop closed.now.log ending }
{
    match ending {
        Ending::Halted => stop && has_alarm(closed),
        Ending::Done | Ending::Stuck | Ending::Refused(..) | Ending::Gated => true,
    }
}

/// Whether the log has a cycle.
fn has_alarm(closed: &Closed) -> bool
    ensures { IsTrue result ↔ HasCycle closed.now.log }
{
    match closed.alarm() {
        Some(_) => true,
        None => false,
    }
}

/// Starts a worker for each forked thread; returns when all have ended.
fn run<'a, G: Gate + Sync, R: Threads + Wait + Sync>(
    rt: &'a R,
    site: &'a Site<'a, G>,
    messages: &'a Receiver<Message>,
    ended: &mut Vec<Ended>,
) {
    thread::scope(thread::scope_env(), rt, |scope| {
        tend(scope, rt, site, messages, ended);
    });
}

/// Starts a worker for each thread that is born, and enters those that end, until no worker is left
/// to report either.
fn tend<'s, E, G: Gate + Sync, R: Wait + Sync>(
    scope: &Scope<'s, E>,
    rt: &'s R,
    site: &'s Site<'s, G>,
    messages: &'s Receiver<Message>,
    ended: &mut Vec<Ended>,
) {
    start(scope, rt, site, ended);
    for message in messages.iter(rt) {
        match message {
            Message::Born => start(scope, rt, site, ended),
            Message::Ended(worker) => enter(ended, worker),
        }
    }
}

/// Starts a worker for a thread that was born.
fn start<'s, E, G: Gate + Sync, R: Wait + Sync>(
    scope: &Scope<'s, E>,
    rt: &'s R,
    site: &'s Site<'s, G>,
    ended: &mut Vec<Ended>,
) {
    let Err(Unstarted) = start_worker(scope, rt, site) else {
        return;
    };
    site.shared.halt(rt);
    if let Ok(birth) = site.births.recv(rt) {
        let outcome = Outcome::Refused(Refusal::RuntimeMemory);
        enter(
            ended,
            Ended {
                seat: birth.seat,
                outcome,
            },
        );
    }
}

/// Enters a worker that has ended. There is room for all: a seat that found none would be missing
/// at the end.
fn enter(ended: &mut Vec<Ended>, worker: Ended)
    ensures { vec_len ended.old < vec_capacity ended.old → ended.new.items ≡ ended.old.items ++ worker ∷ [] }
{
    let _ = ended.push(worker);
}

/// Closes the world.
fn finish(
    workload: &Workload,
    shared: Shared,
    ended: Vec<Ended>,
    seats: Vec<Seat>,
) -> Result<(Closed, Ending), LiveFault>
    requires { seats.items ≡ [] }
    ensures config { IfOk result (λ run. run.0.config ≡ shared.config) }
    ensures ending { IfOk result (λ run. EndsAs ended.items run.1) }
    ensures done { IfOk result (λ run. run.1 ≡ ending.Done → AllDone workload.now run.0) }
    ensures cause { IfOk result (λ run. EndsWithCause run.1) }
    ensures lost { OnErr result (result ≡ Err live_fault.Lost) }
{
    let ending = ending_of(ended.as_slice());
    let Some(seats) = seats_of(workload, ended, seats) else {
        return Err(LiveFault::Lost);
    };
    match close(shared, seats) {
        Ok(closed) => Ok((closed, ending)),
        Err(_) => Err(LiveFault::Lost),
    }
}

/// The seats of the workers, in the room that was made for them. None where a worker says that it
/// is done, and its seat does not.
fn seats_of(workload: &Workload, mut ended: Vec<Ended>, mut seats: Vec<Seat>) -> Option<Vec<Seat>>
    requires { seats.items ≡ [] }
    ensures { IfSome result (λ seats.
        All (λ worker. worker.outcome ≡ outcome.Done) ended.items → All (HasDone workload.now) seats.items) }
{
    while let Some(worker) = ended.pop() {
        if !is_whole(workload, &worker) {
            return None;
        }
        if reserve(&mut seats, 1).is_err() {
            return None;
        }
        let Ended { seat, .. } = worker;
        seats.push_reserved(seat);
    }
    Some(seats)
}

/// Whether the worker did its body, if it says so.
fn is_whole(workload: &Workload, worker: &Ended) -> bool
    ensures { IsTrue result → worker.now.outcome ≡ outcome.Done → HasDone workload.now worker.now.seat }
{
    match worker.outcome {
        Outcome::Done => has_done(workload, &worker.seat),
        Outcome::Gated | Outcome::Refused(_) => true,
    }
}

/// Whether the seat is that of a thread that did its body.
fn has_done(workload: &Workload, seat: &Seat) -> bool
    ensures { IsTrue result → HasDone workload.now seat.now }
{
    let share = seat.share();
    let thread = share.thread();
    if thread.0 >= workload.bounds().threads {
        return false;
    }
    // A count at its maximum may mean more events.
    let count = count_events(workload.body(thread));
    let exit = Event {
        thread,
        kind: Kind::Exit,
    };
    count < u64::MAX && share.events() == count && share.last() == Some(exit)
}
