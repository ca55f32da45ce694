//! How the workers of a run ended, and what that makes of the run.
ghost use Rattle.std.specs.Prelude.{◌≡◌, ◌↔◌, IfSome, IsTrue};
ghost use Rattle.velo_worker.specs.Causes.{EndsWithCause, HasCause};
ghost use Rattle.velo_worker.specs.Live.{EndsAs, IsAnyGated, IsAnyHalted, LeastMet, lesser, met};

use crate::ending::Ending;
use std::marker::Model;
use velo_events::{Refusal, ThreadId};
use velo_runtime::Seat;

/// How a worker ended.
#[derive(Clone, Copy, PartialEq, Eq)]
pub enum Outcome {
    /// It did the whole body of its thread.
    Done,
    /// The gate did not let it pass.
    Gated,
    /// Its action was refused.
    Refused(Refusal),
}

/// What a worker returns at its end. If it was refused with `Memory` or `RuntimeMemory`, an
/// allocation or the start of a thread failed.
#[derive(Drop)]
pub struct Ended {
    /// Its seat.
    pub seat: Seat,
    /// How it ended.
    pub outcome: Outcome,
}

impl Model for Ended {
    ghost use Rattle.velo_worker.specs.Causes.{EndedWithCause};
    ghost use Rattle.velo_worker.specs.Live.{WorkerEnd};

    ghost Value = { WorkerEnd };

    ghost view = { λ ended. record { seat = ended.seat; outcome = ended.outcome } };

    ghost invariant = { λ ended. EndedWithCause ended.outcome };
}

/// How the run of these workers ends.
pub fn ending_of(ended: &[Ended]) -> Ending
    ensures ending { EndsAs ended.now result }
    ensures cause { EndsWithCause result }
{
    if is_any_gated(ended) {
        return Ending::Gated;
    }
    match least_met(ended) {
        Some((_, Refusal::WouldDeadlock)) => Ending::Stuck,
        Some((thread, refusal)) => Ending::Refused(thread, refusal),
        None if is_any_halted(ended) => Ending::Halted,
        None => Ending::Done,
    }
}

/// Whether the gate kept some worker from going on.
fn is_any_gated(ended: &[Ended]) -> bool
    ensures { IsTrue result ↔ IsAnyGated ended.now }
{
    ended
        .iter()
        .any(|worker| matches!(worker.outcome, Outcome::Gated))
}

/// Whether some worker found the world halted.
fn is_any_halted(ended: &[Ended]) -> bool
    ensures { IsTrue result ↔ IsAnyHalted ended.now }
{
    ended.iter().any(|worker| matches!(worker.outcome, Outcome::Refused(Refusal::Halted)))
}

/// The refusal that a worker met in a world that was not halted.
fn met(outcome: Outcome) -> Option<Refusal>
    ensures { result ≡ met outcome }
{
    match outcome {
        Outcome::Done | Outcome::Gated | Outcome::Refused(Refusal::Halted) => None,
        Outcome::Refused(refusal) => Some(refusal),
    }
}

/// The least thread whose worker met a refusal in a world that was not halted, and that refusal.
fn least_met(ended: &[Ended]) -> Option<(ThreadId, Refusal)>
    ensures least { LeastMet ended.now result }
    ensures cause { IfSome result (λ found. HasCause found.1) }
{
    let mut least: Option<(ThreadId, Refusal)> = None;
    for worker in ended {
        let Some(refusal) = met(worker.outcome) else {
            continue;
        };
        least = Some(lesser(least, worker.seat.share().thread(), refusal));
    }
    least
}

/// The one of the lesser thread.
fn lesser(
    least: Option<(ThreadId, Refusal)>,
    thread: ThreadId,
    refusal: Refusal,
) -> (ThreadId, Refusal)
    ensures { result ≡ lesser least thread refusal }
{
    match least {
        Some((other, met)) if other.0 <= thread.0 => (other, met),
        _ => (thread, refusal),
    }
}
