//! Bounds with no more variables and locks than scripts name.
ghost use Rattle.std.specs.Prelude.{◌≡◌, ◌<◌, ◌≤◌, ℕ, Some, map, slice_get};
ghost use Rattle.velo_events.specs.declared.event.Kind.{Kind};
ghost use Rattle.velo_events.specs.WellFormed.{NamesKnown};
ghost use Rattle.velo_search.specs.Fitting.{AreAlike, IsWithin, NamesStay};

use velo_events::{Bounds, Kind};

/// So many, or as many more as it takes for the name to be one of them, if it is one of the most.
fn with_name(count: u16, name: u16, most: u16) -> u16
    requires { count ≤ most }
    ensures more { count ≤ result }
    ensures most { result ≤ most }
    ensures named { name < most → name < result }
{
    if name < count || name >= most {
        count
    } else {
        name + 1
    }
}

/// The bounds, or larger ones in which the operation names as much as in the largest.
fn with_names(bounds: Bounds, kind: Kind, most: Bounds) -> Bounds
    requires { IsWithin bounds most }
    ensures more { IsWithin bounds result }
    ensures most { IsWithin result most }
    ensures named { NamesStay most result kind }
{
    let Bounds {
        threads,
        mut variables,
        mut locks,
    } = bounds;
    match kind {
        Kind::Read(x, _) | Kind::Write(x, _) => {
            variables = with_name(variables, x.0, most.variables);
        }
        Kind::Acquire(m) | Kind::Release(m) | Kind::AcquireShared(m) | Kind::ReleaseShared(m) =>
            locks = with_name(locks, m.0, most.locks),
        Kind::Begin(_) | Kind::End | Kind::Fork(_) | Kind::Join(_) | Kind::Exit => {}
    }
    Bounds {
        threads,
        variables,
        locks,
    }
}

/// The bounds, or larger ones in which the operations of the script name as much as in the largest.
fn with_script(bounds: Bounds, script: &[Kind], most: Bounds) -> Bounds
    requires { IsWithin bounds most }
    ensures more { IsWithin bounds result }
    ensures most { IsWithin result most }
    ensures named { (i : ℕ) (k : Kind) → slice_get script.now i ≡ Some k → NamesStay most result k }
{
    let mut bounds = bounds;
    for place in 0..script.len() {
        bounds = with_names(bounds, script[place], most);
    }
    bounds
}

/// The bounds without the variables and locks behind the last that the scripts name.
pub fn fitted(scripts: &[Vec<Kind>], most: Bounds) -> Bounds
    ensures most { IsWithin result most }
    ensures alike { AreAlike most result (map (λ v. v.items) scripts.now) }
{
    let mut bounds = Bounds {
        threads: most.threads,
        variables: 0,
        locks: 0,
    };
    for thread in 0..scripts.len() {
        bounds = with_script(bounds, &scripts[thread], most);
    }
    bounds
}
