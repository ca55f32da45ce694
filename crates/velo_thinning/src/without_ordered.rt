//! A log without the variables that are in order.
ghost use Rattle.std.specs.Prelude.{◌≡◌, ◌≤◌, ◌<◌, length, IfOk, OnOk};
ghost use Rattle.velo_events.specs.declared.limits.TheConstants.{MAX_EVENTS};
ghost use Rattle.velo_events.specs.WellFormed.{IsWellFormed};
ghost use Rattle.velo_filter.specs.Tables.{left_of, marked};
ghost use Rattle.velo_laws.specs.Ordered.{only};
ghost use Rattle.velo_thinning.specs.Races.{no_lock, IsThinned};
ghost use Rattle.velo_thinning.specs.Sweep.{with_marked};

use crate::ordered::ordered_variables;
use std::alloc::Global;
use velo_events::{Config, Memory, VarId};
use velo_filter::{LeftOut, Thinned, thin};
use velo_traces::Trace;

/// Leaves out the variable too, if it is marked.
///
/// # Errors
/// `Memory` where a growth was refused.
fn leave_out_marked(left: &mut LeftOut, marks: &[bool], variable: u16) -> Result<(), Memory>
    requires within { variable < length marks.now }
    ensures { OnOk result (left_of left.new ≡ with_marked marks.now variable (left_of left.old)) }
{
    if marks[usize::from(variable)] {
        left.leave_out_variable(VarId(variable))?;
    }
    Ok(())
}

/// The variables that are marked.
///
/// # Errors
/// `Memory` where a growth was refused.
fn marked_out(alloc: Global, marks: &[bool], variables: u16) -> Result<LeftOut, Memory>
    requires count { length marks.now ≡ variables }
    ensures { IfOk result (λ left. left_of left ≡ only no_lock (marked marks.now)) }
{
    let mut left = LeftOut::new(alloc);
    for variable in 0..variables {
        leave_out_marked(&mut left, marks, variable)?;
    }
    Ok(left)
}

/// What is left of a log that can happen without the accesses to the variables that locks, forks and joins keep in order,
/// with the places of its events in the log. It is judged the same, whichever labels are left out as well.
///
/// # Errors
/// `Memory` where a growth was refused.
pub fn thin_ordered(alloc: Global, config: &Config, log: &Trace) -> Result<Thinned, Memory>
    requires few { length log.now.events ≤ MAX_EVENTS }
    requires well_formed { IsWellFormed config.now.bounds log.now.events }
    ensures { IfOk result (IsThinned config.now.bounds log.now.events) }
{
    let ordered = ordered_variables(alloc, config, log)?;
    let left = marked_out(alloc, &ordered, config.bounds.variables)?;
    thin(alloc, log, &left)
}
