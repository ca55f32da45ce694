//! The start of a worker's thread, with the fact that its refusal leaves. No other code can show
//! this fact.
ghost use Rattle.std.specs.Prelude.{OnErr};
ghost use Rattle.velo_worker.specs.Causes.{StartRefused};

use crate::gate::Gate;
use crate::worker::{Site, work};
use std::sync::Wait;
use std::thread::Scope;

/// The start of a thread was refused.
#[derive(Clone, Copy, PartialEq, Eq)]
pub struct Unstarted;

/// Starts a thread for a worker.
///
/// # Errors
/// `Unstarted` where the start was refused.
pub fn start_worker<'s, E, G: Gate + Sync, R: Wait + Sync>(
    scope: &Scope<'s, E>,
    rt: &'s R,
    site: &'s Site<'s, G>,
) -> Result<(), Unstarted>
    ensures start { OnErr result StartRefused }
{
    match scope.spawn(move || work(rt, site)) {
        Ok(_) => Ok(()),
        Err(_) => Err(Unstarted),
    }
}
