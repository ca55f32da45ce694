//! What holds of every log that is judged by some of its events, whichever labels are left out.
ghost use Rattle.std.specs.Prelude.{◌≡◌, ℕ, Bool, List};
ghost use Rattle.velo_events.specs.declared.config.Bounds.{Bounds};
ghost use Rattle.velo_events.specs.declared.event.Event.{Event};
ghost use Rattle.velo_events.specs.WellFormed.{IsWellFormed};
ghost use Rattle.velo_filter.specs.Left.{rest_of, place_of};
ghost use Rattle.velo_laws.specs.Ordered.{only, IsOrderedWithin};
ghost use Rattle.velo_laws.specs.Repeats.{AreRepeats, without, place_with};
ghost use Rattle.velo_laws.specs.Judged.{IsJudgedBy};

/// A log is judged by what is left of it without operations that are in order within blocks.
pub fn judged_without_operations()
    ensures { (labels locks variables : ℕ → Bool) (bounds : Bounds) (log : List Event)
        → IsWellFormed bounds log → IsOrderedWithin (only locks variables) log
        → IsJudgedBy labels log (rest_of (only locks variables) log) (place_of (only locks variables) log) }
{}

/// And by what is left of it without accesses that repeat earlier ones of their thread.
pub fn judged_without_repeats()
    ensures { (labels goes : ℕ → Bool) (log : List Event) → AreRepeats goes log
        → IsJudgedBy labels log (without goes log) (place_with goes log) }
{}

/// What judges the events by which a log is judged judges the log.
pub fn judged_through()
    ensures { (labels : ℕ → Bool) (log events fewer : List Event) (place further : ℕ → ℕ)
        → IsJudgedBy labels log events place → IsJudgedBy labels events fewer further
        → IsJudgedBy labels log fewer (λ k. place (further k)) }
{}
