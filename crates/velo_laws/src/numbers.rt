//! What holds of every log whose threads get other numbers.
ghost use Rattle.std.specs.Prelude.{◌≡◌, ℕ, ◌<◌, List};
ghost use Rattle.velo_events.specs.declared.config.Bounds.{Bounds};
ghost use Rattle.velo_events.specs.declared.event.Event.{Event};
ghost use Rattle.velo_events.specs.WellFormed.{IsWellFormed};
ghost use Rattle.velo_laws.specs.Renumber.{KeepsApart, IsJudgedAlike, renumbered};

/// A log is judged the same under other numbers of its threads, where different threads get different ones. Where thread 0
/// keeps its own, and none is out of bounds, it is well-formed too.
pub fn renumber()
    ensures judged { (number : ℕ → ℕ) (trace : List Event) → KeepsApart number
        → IsJudgedAlike number trace }
    ensures run { (bounds : Bounds) (number : ℕ → ℕ) (trace : List Event) → KeepsApart number
        → number 0 ≡ 0 → ((t : ℕ) → t < bounds.threads → number t < bounds.threads)
        → IsWellFormed bounds trace → IsWellFormed bounds (renumbered number trace) }
{}
