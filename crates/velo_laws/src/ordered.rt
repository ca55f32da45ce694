//! What holds of every log of which operations are left out that other conflicts keep in order.
ghost use Rattle.std.specs.Prelude.{◌≡◌, ◌↔◌, ℕ, Bool, List};
ghost use Rattle.velo_events.specs.declared.config.Bounds.{Bounds};
ghost use Rattle.velo_events.specs.declared.event.Event.{Event};
ghost use Rattle.velo_events.specs.Graph.{HasCycle};
ghost use Rattle.velo_events.specs.WellFormed.{IsWellFormed};
ghost use Rattle.velo_filter.specs.Left.{Omitted, rest_of};
ghost use Rattle.velo_laws.specs.Ordered.{only, dissolving, leaving_out, IsOrdered, IsOrderedWithin, IsOrderedAtLast, IsChained, BlamesSame, ClosesAtSame, ClosesAtSameWithout, HasSameTransactions};

/// What is left of a log that can happen can happen.
pub fn well_formed()
    ensures { (locks variables : ℕ → Bool) (bounds : Bounds) (log : List Event)
        → IsWellFormed bounds log → IsWellFormed bounds (rest_of (only locks variables) log) }
{}

/// A log has a cycle exactly where what is left of it has one, if the operations that are left out were in order.
pub fn same_cycles()
    ensures { (locks variables : ℕ → Bool) (bounds : Bounds) (log : List Event)
        → IsWellFormed bounds log → IsOrdered (only locks variables) log
        → HasCycle log ↔ HasCycle (rest_of (only locks variables) log) }
{}

/// Then the first event that closes a cycle in the log is none that is left out, and what is left closes its first cycle with it.
pub fn same_closing()
    ensures { (locks variables : ℕ → Bool) (bounds : Bounds) (log : List Event)
        → IsWellFormed bounds log → IsOrdered (only locks variables) log
        → ClosesAtSame (only locks variables) log }
{}

/// The events that are left have the transactions that they had.
pub fn same_transactions()
    ensures { (locks variables : ℕ → Bool) (log : List Event)
        → HasSameTransactions (only locks variables) log }
{}

/// If the operations that are left out were in order, the blocks to blame at an event that is left are those to blame at it in the log.
pub fn same_blame()
    ensures { (locks variables : ℕ → Bool) (bounds : Bounds) (log : List Event)
        → IsWellFormed bounds log → IsOrdered (only locks variables) log
        → BlamesSame (only locks variables) log }
{}

/// Operations that chains keep in order are in order within blocks.
pub fn chained_in_order()
    ensures { (locks variables : ℕ → Bool) (log : List Event)
        → IsChained (only locks variables) log → IsOrderedWithin (only locks variables) log }
{}

/// They are so where each comes in order after the last operations before it that it conflicts with.
pub fn last_in_order()
    ensures { (locks variables : ℕ → Bool) (log : List Event)
        → IsOrderedAtLast (only locks variables) log
        → IsOrderedWithin (only locks variables) log }
{}

/// Operations that are in order within blocks are in order.
pub fn within_in_order()
    ensures { (locks variables : ℕ → Bool) (log : List Event)
        → IsOrderedWithin (only locks variables) log → IsOrdered (only locks variables) log }
{}

/// And they stay in order in what is left without the blocks of some labels.
pub fn ordered_within()
    ensures { (labels locks variables : ℕ → Bool) (log : List Event)
        → IsOrderedWithin (only locks variables) log
        → IsOrdered (only locks variables) (rest_of (dissolving labels) log) }
{}

/// What is left without some operations of what is left without some labels is what is left without both.
pub fn rest_of_rest()
    ensures { (labels locks variables : ℕ → Bool) (log : List Event)
        → rest_of (only locks variables) (rest_of (dissolving labels) log)
        ≡ rest_of (leaving_out labels locks variables) log }
{}

/// So whichever labels are left out, leaving out operations that are in order within blocks neither adds nor takes a cycle.
pub fn same_cycles_without_labels()
    ensures { (labels locks variables : ℕ → Bool) (bounds : Bounds) (log : List Event)
        → IsWellFormed bounds log → IsOrderedWithin (only locks variables) log
        → HasCycle (rest_of (dissolving labels) log)
        ↔ HasCycle (rest_of (leaving_out labels locks variables) log) }
{}

/// Both close their first cycle with the same event of the log.
pub fn same_closing_without_labels()
    ensures { (labels locks variables : ℕ → Bool) (bounds : Bounds) (log : List Event)
        → IsWellFormed bounds log → IsOrderedWithin (only locks variables) log
        → ClosesAtSameWithout labels (leaving_out labels locks variables) log }
{}

/// And the same blocks are to blame.
pub fn same_blame_without_labels()
    ensures { (labels locks variables : ℕ → Bool) (bounds : Bounds) (log : List Event)
        → IsWellFormed bounds log → IsOrderedWithin (only locks variables) log
        → BlamesSame (only locks variables) (rest_of (dissolving labels) log) }
{}
