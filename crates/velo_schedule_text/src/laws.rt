//! What holds of schedules and their texts, whoever reads or writes them.
ghost use Rattle.std.specs.Prelude.{◌≡◌, ◌≤◌, ◌<◌, ℕ, List, All, length};
ghost use Rattle.velo_events.specs.declared.event.ThreadId.{ThreadId};
ghost use Rattle.velo_events.specs.declared.limits.TheConstants.{MAX_THREADS};
ghost use Rattle.velo_schedule_text.specs.declared.limits.TheConstants.{MAX_TURNS};
ghost use Rattle.velo_schedule_text.specs.Schedule.{IsSchedule, SaysTurns};
ghost use Rattle.velo_schedule_text.specs.Short.{short_text};

/// A text says the turns of one schedule.
pub fn one_schedule()
    ensures { (text : List ℕ) (one other : List ThreadId) → SaysTurns text one → SaysTurns text other → one ≡ other }
{}

/// Thread numbers alone say the turns of the same schedule.
pub fn numbers_are_turns()
    ensures { (text : List ℕ) (schedule : List ThreadId) → IsSchedule text schedule → SaysTurns text schedule }
{}

/// The short text of a schedule says its turns.
pub fn reads_back()
    ensures { (schedule : List ThreadId) → All (λ t. t.0 < MAX_THREADS) schedule
        → length schedule ≤ MAX_TURNS → SaysTurns (short_text schedule) schedule }
{}
