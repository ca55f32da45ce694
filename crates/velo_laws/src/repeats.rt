//! What holds of every log of which accesses are left out that repeat earlier ones of their thread.
ghost use Rattle.std.specs.Prelude.{◌↔◌, ℕ, Bool, List};
ghost use Rattle.velo_events.specs.declared.config.Bounds.{Bounds};
ghost use Rattle.velo_events.specs.declared.event.Event.{Event};
ghost use Rattle.velo_events.specs.WellFormed.{IsWellFormed};
ghost use Rattle.velo_events.specs.Graph.{HasCycle};
ghost use Rattle.velo_laws.specs.Repeats.{AreRepeats, AreEqualAccesses, BlamesSameRepeated, ClosesAtSameRepeated, without};

/// A log has a cycle exactly where it has one without the accesses that repeat earlier ones of their thread.
pub fn same_cycles_without_repeats()
    ensures { (goes : ℕ → Bool) (log : List Event) → AreRepeats goes log
        → HasCycle log ↔ HasCycle (without goes log) }
{}

/// Then the first event that closes a cycle repeats none, and is the first that closes one without those that do.
pub fn same_closing_without_repeats()
    ensures { (goes : ℕ → Bool) (log : List Event) → AreRepeats goes log
        → ClosesAtSameRepeated goes log }
{}

/// And the same blocks are to blame, at each event that stays.
pub fn same_blame_without_repeats()
    ensures { (goes : ℕ → Bool) (log : List Event) → AreRepeats goes log
        → BlamesSameRepeated goes log }
{}

/// Without accesses of variables that repeat equal ones a log that can happen can happen.
pub fn well_formed_without_repeats()
    ensures { (goes : ℕ → Bool) (bounds : Bounds) (log : List Event) (repeats : AreRepeats goes log)
        → AreEqualAccesses goes log repeats → IsWellFormed bounds log
        → IsWellFormed bounds (without goes log) }
{}
