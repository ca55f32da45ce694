//! Which operations of two threads are rivals, and which are twins.
ghost use Rattle.std.specs.Prelude.{◌≡◌};
ghost use Rattle.velo_movers.specs.Free.{are_rivals, are_twins, do_clash, gives_up, is_private};

use velo_events::{Access, Kind};

/// Whether the operation is always free: nobody else can hinder it, or conflict with it before it is done.
pub fn is_private(kind: Kind) -> bool
    ensures { result ≡ is_private kind }
{
    matches!(
        kind,
        Kind::Begin(_) | Kind::End | Kind::Release(_) | Kind::ReleaseShared(_) | Kind::Exit
    )
}

/// Whether the operation gives up a lock, or a share of one.
fn gives_up(kind: Kind) -> bool
    ensures { result ≡ gives_up kind }
{
    matches!(kind, Kind::Release(_) | Kind::ReleaseShared(_))
}

/// Whether both access one variable or one lock, and one of them not as a reader or sharer.
fn do_clash(one: Kind, other: Kind) -> bool
    ensures { result ≡ do_clash one other }
{
    match (one.access(), other.access()) {
        (Access::Shared(c), Access::Exclusive(d)) => c == d,
        (Access::Exclusive(c), Access::Shared(d) | Access::Exclusive(d)) => c == d,
        _ => false,
    }
}

/// Whether they do, and neither gives up a lock.
pub fn are_rivals(one: Kind, other: Kind) -> bool
    ensures { result ≡ are_rivals one other }
{
    do_clash(one, other) && !(gives_up(one) || gives_up(other))
}

/// Whether both fork one thread, or both join one, or the second joins the thread that the first forks.
pub fn are_twins(one: Kind, other: Kind) -> bool
    ensures { result ≡ are_twins one other }
{
    match (one.access(), other.access()) {
        (Access::Fork(u), Access::Fork(v) | Access::Join(v)) => u == v,
        (Access::Join(u), Access::Join(v)) => u == v,
        _ => false,
    }
}
