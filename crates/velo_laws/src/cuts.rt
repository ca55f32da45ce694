//! What holds of every log that is cut in two where no block is open.
ghost use Rattle.std.specs.Prelude.{List, ◌++◌, ◌↔◌};
ghost use Rattle.velo_events.specs.declared.config.Bounds.{Bounds};
ghost use Rattle.velo_events.specs.declared.event.Event.{Event};
ghost use Rattle.velo_events.specs.WellFormed.{IsWellFormed};
ghost use Rattle.velo_laws.specs.Cut.{NoBlockOpen, IsQuiet, IsJudgedApart};

/// A log that is cut where no thread has an open block is judged as its two sides are judged apart.
pub fn cut()
    ensures { (bounds : Bounds) (before after : List Event) → IsWellFormed bounds before
        → NoBlockOpen before → IsJudgedApart before after }
{}

/// Where no thread has an open block no begin is without its end.
pub fn quiet()
    ensures { (bounds : Bounds) (before : List Event) → IsWellFormed bounds before
        → NoBlockOpen before → IsQuiet before }
{}

/// And this is all that a cut wants, of any list of events.
pub fn cut_anywhere()
    ensures { (before after : List Event) → IsQuiet before → IsJudgedApart before after }
{}

/// After such a cut a log has no open block exactly where the events after the cut alone have none: so cuts may be chained.
pub fn chain()
    ensures { (before after : List Event) → IsQuiet before
        → IsQuiet (before ++ after) ↔ IsQuiet after }
{}
