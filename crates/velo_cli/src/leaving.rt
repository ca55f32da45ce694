//! What is left of a log where a command leaves something out.
ghost use Rattle.std.specs.Prelude.{◌≡◌, false};

use std::alloc::Global;
use velo_check::Limits;
use velo_events::{Config, Label, LockId, MAX_LOCKS, Memory, VarId};
use velo_filter::LeftOut;
use velo_finding::Asked;
use velo_world::Closed;

/// Leaves out the labels.
fn leave_out_labels(left: &mut LeftOut, labels: &[Label]) -> Result<(), Memory> {
    for label in labels {
        left.leave_out_label(*label)?;
    }
    Ok(())
}

/// Leaves out the locks.
fn leave_out_locks(left: &mut LeftOut, locks: &[LockId]) -> Result<(), Memory> {
    for lock in locks {
        left.leave_out_lock(*lock)?;
    }
    Ok(())
}

/// Leaves out all locks that a log can have.
fn leave_out_all_locks(left: &mut LeftOut) -> Result<(), Memory> {
    for number in 0..MAX_LOCKS {
        left.leave_out_lock(LockId(number))?;
    }
    Ok(())
}

/// Leaves them out, if this was asked for.
fn leave_out_all_locks_if(left: &mut LeftOut, all: bool) -> Result<(), Memory> {
    if !all {
        return Ok(());
    }
    leave_out_all_locks(left)
}

/// Leaves out the variables.
fn leave_out_variables(left: &mut LeftOut, variables: &[VarId]) -> Result<(), Memory> {
    for variable in variables {
        left.leave_out_variable(*variable)?;
    }
    Ok(())
}

/// What was asked for, left out.
///
/// # Errors
/// `Memory` if an allocation failed.
pub fn left_out(alloc: Global, asked: &Asked) -> Result<LeftOut, Memory> {
    let mut left = LeftOut::new(alloc);
    leave_out_labels(&mut left, asked.labels)?;
    leave_out_locks(&mut left, asked.locks)?;
    leave_out_all_locks_if(&mut left, asked.all_locks)?;
    leave_out_variables(&mut left, asked.variables)?;
    Ok(left)
}

/// The configuration in which what is left of a log is judged: that of the log, within the limits.
pub fn config_of_rounds(closed: &Closed, limits: Limits) -> Config
    ensures bounds { result.bounds ≡ closed.now.config.bounds }
    ensures events { result.events ≡ limits.events }
    ensures nodes { result.nodes ≡ limits.nodes }
    ensures goes_on { result.stop ≡ false }
{
    match Config::new(0, closed.bounds(), limits.events, limits.nodes, false) {
        Ok(config) => config,
        Err(_) => unreachable!(),
    }
}
