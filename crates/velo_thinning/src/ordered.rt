//! The variables whose accesses are in order.
ghost use Rattle.std.specs.Prelude.{◌≡◌, ◌≤◌, ◌<◌, ℕ, length, IfOk, IsTrue};
ghost use Rattle.velo_events.specs.declared.limits.TheConstants.{MAX_EVENTS};
ghost use Rattle.velo_events.specs.WellFormed.{IsWellFormed};
ghost use Rattle.velo_laws.specs.Ordered.{only, IsOrderedWithin};
ghost use Rattle.velo_filter.specs.Tables.{marked};
ghost use Rattle.velo_thinning.specs.Races.{no_lock, IsFreeOfRaces, IsJudgedWithout};

use crate::sweep::Sweep;
use std::alloc::Global;
use velo_events::{Config, Memory};
use velo_traces::Trace;

/// For each variable of a log that can happen, whether locks, forks, joins and the order of each thread keep all accesses to
/// it in order. Then the log is judged the same without them, whichever labels are left out as well.
///
/// # Errors
/// `Memory` where a growth was refused.
pub fn ordered_variables(alloc: Global, config: &Config, log: &Trace) -> Result<Vec<bool>, Memory>
    requires few { length log.now.events ≤ MAX_EVENTS }
    requires well_formed { IsWellFormed config.now.bounds log.now.events }
    ensures count { IfOk result (λ ordered. length ordered.items ≡ config.now.bounds.variables) }
    ensures ordered { IfOk result (λ ordered.
        IsOrderedWithin (only no_lock (marked ordered.items)) log.now.events) }
    ensures free { IfOk result (λ ordered. (x : ℕ) → x < config.now.bounds.variables
        → IsFreeOfRaces log.now.events x → IsTrue (marked ordered.items x)) }
    ensures judged { IfOk result (λ ordered. IsJudgedWithout (marked ordered.items) log.now.events) }
{
    let events = log.as_slice();
    let mut sweep = Sweep::new(alloc, config)?;
    for position in 0..events.len() {
        sweep.take_in(events, position)?;
    }
    Ok(sweep.ordered)
}
