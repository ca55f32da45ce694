//! Which goals a run shows.
ghost use Rattle.std.specs.Prelude.{◌≡◌, ◌↔◌, Bool, IsFalse, IsTrue};
ghost use Rattle.velo_search.specs.declared.fault.Fault.TheVariants.{Refusing, Stuck};
ghost use Rattle.velo_events.specs.Graph.{HasCycle};
ghost use Rattle.velo_explore.specs.Goals.{KnowsAlarm, Reaches, goal_in};
ghost use Rattle.velo_explore.specs.Logs.{is_for_room};
ghost use Rattle.velo_worker.specs.declared.ending.Ending.TheVariants.{Refused};

use crate::goal::Goal;
use velo_events::{Refusal, ThreadId};
use velo_search::Fault;
use velo_worker::Ending;
use velo_world::Closed;

/// What a run came to.
#[derive(Clone, Copy, PartialEq, Eq)]
pub struct RunOutcome {
    /// Whether its log has a cycle.
    pub alarm: bool,
    /// How it ended.
    pub ending: Ending,
}

impl RunOutcome {
    /// That of a run which left this world, and ended so.
    pub fn of(closed: &Closed, ending: Ending) -> RunOutcome
        ensures alarm { IsTrue result.alarm ↔ HasCycle closed.now.log }
        ensures known { KnowsAlarm closed.now.log }
        ensures ending { result.ending ≡ ending }
    {
        RunOutcome {
            alarm: closed.alarm().is_some(),
            ending,
        }
    }

    /// What it shows of a fault, if it has it.
    pub fn goal(self, fault: Fault) -> Option<Goal>
        ensures { result ≡ goal_in fault self.alarm self.ending }
    {
        match fault {
            Fault::Cycle if self.alarm => Some(Goal::Alarm),
            Fault::Cycle => None,
            Fault::Stuck => stuck(self.ending),
            Fault::Refusing => lasting_refusal(self.ending),
        }
    }
}

impl Goal {
    /// Whether a run shows it, which left this world and ended so.
    pub fn is_reached(self, closed: &Closed, ending: Ending) -> bool
        ensures reached { IsTrue result ↔ Reaches self ending closed.now }
        ensures known { KnowsAlarm closed.now.log }
    {
        let outcome = RunOutcome::of(closed, ending);
        match self {
            Goal::Alarm => outcome.alarm,
            Goal::Stuck => ending == Ending::Stuck,
            Goal::Refused(thread, refusal) => is_refused(ending, thread, refusal),
        }
    }
}

/// The deadlock, where a run ended so.
fn stuck(ending: Ending) -> Option<Goal>
    ensures { (alarm : Bool) → result ≡ goal_in Stuck alarm ending }
{
    match ending {
        Ending::Stuck => Some(Goal::Stuck),
        Ending::Done | Ending::Halted | Ending::Refused(..) | Ending::Gated => None,
    }
}

/// The refusal, where a run ended so and not for want of room.
fn lasting_refusal(ending: Ending) -> Option<Goal>
    ensures { (alarm : Bool) → result ≡ goal_in Refusing alarm ending }
{
    match ending {
        Ending::Refused(thread, refusal) => {
            if is_for_room(refusal) {
                None
            } else {
                Some(Goal::Refused(thread, refusal))
            }
        }
        Ending::Done | Ending::Stuck | Ending::Halted | Ending::Gated => None,
    }
}

/// Whether a run ended as this thread was refused, for this reason, which is no want of room.
fn is_refused(ending: Ending, thread: ThreadId, refusal: Refusal) -> bool
    ensures { IsTrue result
        ↔ ((ending ≡ Refused thread refusal) × IsFalse (is_for_room refusal)) }
{
    match ending {
        Ending::Refused(other, reason) if !is_for_room(reason) => {
            other == thread && reason == refusal
        }
        _ => false,
    }
}

/// Whether a refusal is for want of room.
fn is_for_room(refusal: Refusal) -> bool
    ensures { result ≡ is_for_room refusal }
{
    matches!(
        refusal,
        Refusal::LogFull | Refusal::Memory | Refusal::GraphFull
    )
}
