//! What holds of every run that goes on after a cut as a log of its own.
ghost use Rattle.std.specs.Prelude.{List, ◌++◌};
ghost use Rattle.velo_events.specs.declared.config.Bounds.{Bounds};
ghost use Rattle.velo_events.specs.declared.event.Event.{Event};
ghost use Rattle.velo_events.specs.WellFormed.{IsWellFormed};
ghost use Rattle.velo_events.specs.Graph.{HasCycle};
ghost use Rattle.velo_laws.specs.Cut.{NoBlockOpen, IsQuiet};
ghost use Rattle.velo_laws.specs.Restart.{HasNoBegin, IsPrologueOf, StandsFor, IsAboutNoJoined, IsJudgedTheSame, GoesOnAfresh};

/// After two cuts with no cycle before them a run is judged the same, whatever was before.
pub fn judged_the_same()
    ensures { (before prologue after : List Event) → IsQuiet before → IsQuiet prologue
        → ¬ HasCycle before → ¬ HasCycle prologue → IsJudgedTheSame before prologue after }
{}

/// What may come after all that was before may come after a prologue that stands for it.
pub fn goes_on()
    ensures { (bounds : Bounds) (before prologue after : List Event)
        → IsWellFormed bounds before → IsWellFormed bounds prologue
        → NoBlockOpen before → NoBlockOpen prologue → StandsFor prologue before
        → IsWellFormed bounds (before ++ after) → IsWellFormed bounds (prologue ++ after) }
{}

/// And back, where nothing in it is about a thread that was joined before.
pub fn goes_back()
    ensures { (bounds : Bounds) (before prologue after : List Event)
        → IsWellFormed bounds before → IsWellFormed bounds prologue
        → NoBlockOpen before → NoBlockOpen prologue → StandsFor prologue before
        → IsAboutNoJoined before after
        → IsWellFormed bounds (prologue ++ after) → IsWellFormed bounds (before ++ after) }
{}

/// A log in which no block begins has no open block and no cycle.
pub fn quiet_prologue()
    ensures { (prologue : List Event) → HasNoBegin prologue
        → NoBlockOpen prologue × IsQuiet prologue × (¬ HasCycle prologue) }
{}

/// Each log that can happen has a prologue that stands for it.
pub fn has_prologue()
    ensures { (bounds : Bounds) (before : List Event) → IsWellFormed bounds before
        → (prologue : List Event) × IsPrologueOf bounds before prologue }
{}

/// With a prologue that stands for what was before, a run goes on after a cut as a log of its own.
pub fn afresh()
    ensures { (bounds : Bounds) (before prologue after : List Event)
        → IsPrologueOf bounds before prologue → IsWellFormed bounds before → NoBlockOpen before
        → ¬ HasCycle before → GoesOnAfresh bounds before prologue after }
{}
