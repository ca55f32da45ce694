//! Threads that no thread forks.
ghost use Rattle.std.specs.Prelude.{◌≡◌, ◌<◌, IfOk, OnOk, not, ◌++◌, [], ◌∷◌, if◌then◌else◌};
ghost use Rattle.std.specs.List.{list_any};
ghost use Rattle.velo_finding.specs.Forks.{forks, is_forked, never_forked};

use std::alloc::Global;
use velo_events::growth::reserve;
use velo_events::{Memory, ThreadId};
use velo_workload::{Statement, Workload};

/// Whether the statement forks the thread.
fn forks(thread: ThreadId, statement: Statement) -> bool
    ensures { result ≡ forks thread statement }
{
    match statement {
        Statement::Fork(forked) => forked.0 == thread.0,
        _ => false,
    }
}

/// Whether one of the statements forks the thread.
fn has_fork(thread: ThreadId, body: &[Statement]) -> bool
    ensures { result ≡ list_any (forks thread) body.now }
{
    body.iter().any(|statement| forks(thread, *statement))
}

/// Whether some body forks the thread.
#[tactic(auto, unfolding(crate::specs::Forks::is_forked))]
fn is_forked(workload: &Workload, thread: ThreadId) -> bool
    ensures { result ≡ is_forked workload.now thread }
{
    let mut forked = false;
    for other in 0..workload.bounds().threads {
        forked = forked || has_fork(thread, workload.body(ThreadId(other)));
    }
    forked
}

/// Adds the thread, if no body forks it.
fn add_unless_forked(
    threads: &mut Vec<ThreadId>,
    workload: &Workload,
    thread: ThreadId,
) -> Result<(), Memory>
    ensures { OnOk result (threads.new.items ≡ threads.old.items
        ++ (if not (is_forked workload.now thread) then thread ∷ [] else [])) }
{
    if is_forked(workload, thread) {
        return Ok(());
    }
    reserve(threads, 1)?;
    threads.push_reserved(thread);
    Ok(())
}

/// The threads, but the first, that no body forks: they do nothing, whatever the schedule.
///
/// # Errors
/// `Memory` if an allocation failed.
#[tactic(auto, unfolding(crate::specs::Forks::never_forked))]
pub fn never_forked(alloc: Global, workload: &Workload) -> Result<Vec<ThreadId>, Memory>
    ensures { IfOk result (λ threads. threads.items ≡ never_forked workload.now) }
{
    let mut threads = Vec::new(alloc);
    for thread in 1..workload.bounds().threads {
        add_unless_forked(&mut threads, workload, ThreadId(thread))?;
    }
    Ok(threads)
}
