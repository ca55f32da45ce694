//! The next statement of each thread at the end of a run.
ghost use Rattle.std.specs.Prelude.{◌≡◌, ◌<◌, Some, IfOk};
ghost use Rattle.velo_events.specs.Event.{are_same};
ghost use Rattle.velo_events.specs.Heap.{holder_in, shares_in, status_in};
ghost use Rattle.velo_events.specs.Meaning.{is_live};
ghost use Rattle.velo_words.specs.Waits.{next_of};

use std::alloc::Global;
use velo_events::{LockId, Memory, ThreadId};
use velo_worker::event_at;
use velo_workload::{Statement, Workload};
use velo_world::Closed;

/// Whether a thread was born and has not ended.
pub fn is_live(closed: &Closed, thread: ThreadId) -> bool
    requires { thread.0 < closed.now.config.bounds.threads }
    ensures { result ≡ is_live (status_in closed.now.log thread.0) }
{
    closed.heap().status(thread).is_live()
}

/// Whether a thread holds a lock alone.
pub fn holds_alone(closed: &Closed, lock: LockId, thread: ThreadId) -> bool
    requires { lock.0 < closed.now.config.bounds.locks }
    ensures { result ≡ are_same (holder_in closed.now.log lock.0) (Some thread.0) }
{
    match closed.heap().holder(lock) {
        Some(holder) => holder.0 == thread.0,
        None => false,
    }
}

/// Whether a thread shares a lock.
pub fn shares(closed: &Closed, lock: LockId, thread: ThreadId) -> bool
    requires { lock.0 < closed.now.config.bounds.locks }
    ensures { result ≡ shares_in closed.now.log lock.0 thread.0 }
{
    closed.heap().shares(lock, thread)
}

/// The statement that a thread does next, if one is left. It ends after its last.
///
/// # Errors
/// `Memory` if an allocation failed.
pub fn next_statement(
    alloc: Global,
    workload: &Workload,
    closed: &Closed,
    thread: ThreadId,
) -> Result<Option<Statement>, Memory>
    requires bounds { closed.now.config.bounds ≡ workload.now.bounds }
    requires there { thread.0 < workload.now.bounds.threads }
    ensures { IfOk result (λ next. next ≡ next_of workload.now closed.now.log thread.0) }
{
    let done = closed.tally(thread).events;
    event_at(alloc, workload.body(thread), done)
}
