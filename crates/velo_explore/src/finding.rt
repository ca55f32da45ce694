//! What is known of each fault over some schedules, with the schedules that show it.
ghost use Rattle.std.specs.Prelude.{◌≡◌, IfNone, IfSome, None, Some};

use crate::goal::Goal;
use velo_events::ThreadId;

/// A schedule whose replay shows a goal.
#[derive(Drop)]
pub struct Witness {
    /// What its replay shows.
    pub goal: Goal,
    /// The schedule.
    pub schedule: Vec<ThreadId>,
}

/// What is known of a fault over some schedules of a workload, or over all.
#[derive(Drop)]
pub enum Finding {
    /// The replay by this one has it.
    Shown(Witness),
    /// The replay by none of them has it.
    Never,
    /// Neither is known.
    Open,
}

impl Finding {
    ghost use Rattle.velo_explore.specs.Goals.{shown_by};

    /// The schedule that shows it, if one does.
    pub fn witness(&self) -> Option<&Witness>
        ensures some { IfSome result (λ witness. shown_by self.now ≡ Some witness.now) }
        ensures none { IfNone result (shown_by self.now ≡ None) }
    {
        match self {
            Finding::Shown(witness) => Some(witness),
            Finding::Never | Finding::Open => None,
        }
    }
}

/// What is known of each fault.
#[derive(Drop)]
pub struct Findings {
    /// Of logs that are not serializable.
    pub alarm: Finding,
    /// Of runs that are stuck.
    pub stuck: Finding,
    /// Of runs that end as a thread is refused, and not for want of room.
    pub refused: Finding,
}

impl Findings {
    ghost use Rattle.velo_explore.specs.Goals.{first_of};

    /// The first that is shown: the alarm, else the deadlock, else the refusal.
    pub fn first(&self) -> Option<&Witness>
        ensures some { IfSome result (λ witness. first_of self.now ≡ Some witness.now) }
        ensures none { IfNone result (first_of self.now ≡ None) }
    {
        if let Some(witness) = self.alarm.witness() {
            return Some(witness);
        }
        if let Some(witness) = self.stuck.witness() {
            return Some(witness);
        }
        self.refused.witness()
    }
}
