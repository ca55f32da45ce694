//! The workers of a live run: each does the body of one thread, in a thread of its own.
ghost use Rattle.std.specs.Prelude.{IfErr};
ghost use Rattle.velo_workload.specs.Bodies.{IsBody};
ghost use Rattle.velo_worker.specs.Causes.{EndedWithCause, HasCause};

use crate::gate::Gate;
use crate::growth::copy;
use crate::outcome::{Ended, Outcome};
use crate::progress::Progress;
use crossbeam_channel::{Receiver, Sender};
use std::alloc::Global;
use std::sync::Wait;
use velo_events::{Action, Refusal, ThreadId};
use velo_runtime::{Seat, Shared};
use velo_workload::{Statement, Workload};

/// What a worker reports to the starter.
#[derive(Drop)]
pub enum Message {
    /// A thread was born, and waits among the births for its worker.
    Born,
    /// The worker has ended.
    Ended(Ended),
}

/// The seat of a thread that was born, with a sender for its worker.
///
/// It goes through a channel of its own, since a message cannot carry a sender of its own channel.
#[derive(Drop)]
pub struct Birth {
    /// The seat.
    pub seat: Seat,
    /// The sender for what its worker reports to the starter.
    pub messages: Sender<Message>,
}

/// What the workers of a run share.
#[derive(Drop)]
pub struct Site<'a, G> {
    /// Where they take memory.
    pub alloc: Global,
    /// Whose bodies they do.
    pub workload: &'a Workload,
    /// The room in which they act.
    pub shared: &'a Shared,
    /// What they ask before each event.
    pub gate: &'a G,
    /// Where births go.
    pub nursery: &'a Sender<Birth>,
    /// Where the threads that were born wait for their workers.
    pub births: &'a Receiver<Birth>,
}

/// Does the body of a thread that was born, and hands its seat back.
pub fn work<G: Gate, R: Wait>(rt: &R, site: &Site<'_, G>) {
    let Ok(Birth { mut seat, messages }) = site.births.recv(rt) else {
        return;
    };
    let outcome = work_through(rt, site, &mut seat, &messages);
    if !matches!(outcome, Outcome::Done) {
        site.shared.halt(rt);
    }
    hand_back(rt, site, &messages, Ended { seat, outcome });
}

/// Does the body of the seat's thread, event by event.
fn work_through<G: Gate, R: Wait>(
    rt: &R,
    site: &Site<'_, G>,
    seat: &mut Seat,
    messages: &Sender<Message>,
) -> Outcome
    ensures { EndedWithCause result }
{
    let thread = seat.share().thread();
    let Ok(mut progress) = Progress::start(site.alloc, body_of(site.workload, thread)) else {
        return Outcome::Refused(Refusal::RuntimeMemory);
    };
    for _ in rt.forever() {
        if progress.done {
            return Outcome::Done;
        }
        if !site.gate.pass(thread, seat.share().events()) {
            return Outcome::Gated;
        }
        progress.settle();
        match act(rt, site, seat, messages, progress.wanted()) {
            Ok(read) => progress.go_on(read),
            Err(refusal) => return Outcome::Refused(refusal),
        }
    }
    unreachable!()
}

/// The body of a thread; none where there is no such thread.
#[tactic(auto, using(std::proofs::lemmas::Grind::common_steps, crate::proofs::OnBodies::body_there, crate::proofs::OnBodies::body_none))]
fn body_of(workload: &Workload, thread: ThreadId) -> &[Statement]
    ensures { IsBody result.now }
{
    if thread.0 < workload.bounds().threads {
        workload.body(thread)
    } else {
        &[]
    }
}

/// Does an action by the seat, and returns the value that it read, if it read one.
fn act<G: Gate, R: Wait>(
    rt: &R,
    site: &Site<'_, G>,
    seat: &mut Seat,
    messages: &Sender<Message>,
    action: Action,
) -> Result<Option<u64>, Refusal>
    ensures { IfErr result HasCause }
{
    let shared = site.shared;
    match action {
        Action::Read(x) => return Ok(Some(seat.read(rt, shared, x)?)),
        Action::Write(x, value) => seat.write(rt, shared, x, value)?,
        Action::Acquire(lock) => seat.acquire(rt, shared, lock)?,
        Action::Release(lock) => seat.release(rt, shared, lock)?,
        Action::AcquireShared(lock) => seat.acquire_shared(rt, shared, lock)?,
        Action::ReleaseShared(lock) => seat.release_shared(rt, shared, lock)?,
        Action::Begin(label) => seat.begin(rt, shared, label)?,
        Action::End => seat.end(rt, shared)?,
        Action::Fork(child) => {
            let born = seat.fork(rt, shared, child)?;
            announce(rt, site, messages, born);
            return Ok(None);
        }
        Action::Join(thread) => seat.join(rt, shared, thread)?,
        Action::Exit => seat.exit(rt, shared)?,
    };
    Ok(None)
}

/// Has the starter start a worker for a thread that was born.
fn announce<G: Gate, R: Wait>(rt: &R, site: &Site<'_, G>, messages: &Sender<Message>, seat: Seat) {
    let Ok(copy) = copy(messages) else {
        site.shared.halt(rt);
        let outcome = Outcome::Refused(Refusal::RuntimeMemory);
        hand_back(rt, site, messages, Ended { seat, outcome });
        return;
    };
    let birth = Birth {
        seat,
        messages: copy,
    };
    if site.nursery.send(rt, birth).is_err() || messages.send(rt, Message::Born).is_err() {
        site.shared.halt(rt);
    }
}

/// Hands a seat back to the starter.
fn hand_back<G: Gate, R: Wait>(
    rt: &R,
    site: &Site<'_, G>,
    messages: &Sender<Message>,
    ended: Ended,
) {
    if messages.send(rt, Message::Ended(ended)).is_err() {
        site.shared.halt(rt);
    }
}
