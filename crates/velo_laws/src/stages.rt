//! A log that leaves what a heap has.
ghost use Rattle.std.specs.Prelude.{◌≡◌, ◌+◌, ◌<◌, [], length, IfOk, OnOk};
ghost use Rattle.velo_heap.specs.Contents.{bounds_of, ForItsTraces};
ghost use Rattle.velo_laws.specs.Length.{events_to_leave};
ghost use Rattle.velo_laws.specs.Restart.{IsPrologueOf};
ghost use Rattle.velo_laws.specs.Stages.{is_there, is_exited, HasForked, HasWritten, HasAcquired, HasShared, HasExited};

use std::alloc::Global;
use velo_events::{Bounds, Event, Kind, LockId, Memory, Status, ThreadId, VarId};
use velo_heap::Heap;
use velo_traces::Trace;

/// A log that leaves what the heap has: its values, holders and sharers, and each thread as it is
/// there, but for those that were joined. No block begins in it. It stands for every log that
/// leaves the heap.
///
/// Thread 0 forks and writes, each lock is acquired by those that hold it, and at last those that
/// have exited exit.
///
/// # Errors
/// `Memory` if an allocation failed.
pub fn prologue(alloc: Global, bounds: Bounds, heap: &Heap) -> Result<Trace, Memory>
    requires { bounds_of heap.now ≡ bounds }
    ensures stands { IfOk result (λ made. ForItsTraces heap.now (λ log.
        IsPrologueOf bounds log made.events)) }
    ensures length { IfOk result (λ made. ForItsTraces heap.now (λ log.
        length made.events ≡ events_to_leave bounds log)) }
{
    let mut made = Trace::new(alloc);
    fork_threads(&mut made, bounds, heap)?;
    write_values(&mut made, bounds, heap)?;
    acquire_locks(&mut made, bounds, heap)?;
    share_locks(&mut made, bounds, heap)?;
    exit_threads(&mut made, bounds, heap)?;
    Ok(made)
}

/// Whether a thread of the status was forked, or is thread 0, and was not joined.
fn is_there(status: Status) -> bool
    ensures { result ≡ is_there status }
{
    matches!(status, Status::Live | Status::Exited)
}

/// Whether a thread of the status has exited and was not joined.
fn is_exited(status: Status) -> bool
    ensures { result ≡ is_exited status }
{
    matches!(status, Status::Exited)
}

/// Forks the threads that are there.
fn fork_threads(made: &mut Trace, bounds: Bounds, heap: &Heap) -> Result<(), Memory>
    requires bounds { bounds_of heap.now ≡ bounds }
    requires nothing { made.old.events ≡ [] }
    ensures { OnOk result (ForItsTraces heap.now (λ log.
        HasForked bounds log made.new.events bounds.threads)) }
{
    for thread in 0..bounds.threads {
        fork_thread(made, bounds, heap, ThreadId(thread))?;
    }
    Ok(())
}

/// Forks the thread, if it is there and is not thread 0.
fn fork_thread(
    made: &mut Trace,
    bounds: Bounds,
    heap: &Heap,
    thread: ThreadId,
) -> Result<(), Memory>
    requires bounds { bounds_of heap.now ≡ bounds }
    requires within { thread.0 < bounds.threads }
    ensures { OnOk result (ForItsTraces heap.now (λ log.
        HasForked bounds log made.old.events thread.0
        → HasForked bounds log made.new.events (thread.0 + 1))) }
{
    if thread.0 == 0 {
        return Ok(());
    }
    if !is_there(heap.status(thread)) {
        return Ok(());
    }
    made.push(Event {
        thread: ThreadId(0),
        kind: Kind::Fork(thread),
    })
}

/// Writes the variables' values.
fn write_values(made: &mut Trace, bounds: Bounds, heap: &Heap) -> Result<(), Memory>
    requires { bounds_of heap.now ≡ bounds }
    ensures { OnOk result (ForItsTraces heap.now (λ log.
        HasForked bounds log made.old.events bounds.threads
        → HasWritten bounds log made.new.events bounds.variables)) }
{
    for variable in 0..bounds.variables {
        write_value(made, bounds, heap, VarId(variable))?;
    }
    Ok(())
}

/// Writes the variable's value, if it is not 0.
fn write_value(made: &mut Trace, bounds: Bounds, heap: &Heap, variable: VarId) -> Result<(), Memory>
    requires bounds { bounds_of heap.now ≡ bounds }
    requires within { variable.0 < bounds.variables }
    ensures { OnOk result (ForItsTraces heap.now (λ log.
        HasWritten bounds log made.old.events variable.0
        → HasWritten bounds log made.new.events (variable.0 + 1))) }
{
    let value = heap.value(variable);
    if value == 0 {
        return Ok(());
    }
    made.push(Event {
        thread: ThreadId(0),
        kind: Kind::Write(variable, value),
    })
}

/// Acquires the locks that are held alone.
fn acquire_locks(made: &mut Trace, bounds: Bounds, heap: &Heap) -> Result<(), Memory>
    requires { bounds_of heap.now ≡ bounds }
    ensures { OnOk result (ForItsTraces heap.now (λ log.
        HasWritten bounds log made.old.events bounds.variables
        → HasAcquired bounds log made.new.events bounds.locks)) }
{
    for lock in 0..bounds.locks {
        acquire_lock(made, bounds, heap, LockId(lock))?;
    }
    Ok(())
}

/// Acquires the lock, if it is held alone.
fn acquire_lock(made: &mut Trace, bounds: Bounds, heap: &Heap, lock: LockId) -> Result<(), Memory>
    requires bounds { bounds_of heap.now ≡ bounds }
    requires within { lock.0 < bounds.locks }
    ensures { OnOk result (ForItsTraces heap.now (λ log.
        HasAcquired bounds log made.old.events lock.0
        → HasAcquired bounds log made.new.events (lock.0 + 1))) }
{
    let Some(thread) = heap.holder(lock) else {
        return Ok(());
    };
    made.push(Event {
        thread,
        kind: Kind::Acquire(lock),
    })
}

/// Acquires the locks that are shared, for each of their sharers.
fn share_locks(made: &mut Trace, bounds: Bounds, heap: &Heap) -> Result<(), Memory>
    requires { bounds_of heap.now ≡ bounds }
    ensures { OnOk result (ForItsTraces heap.now (λ log.
        HasAcquired bounds log made.old.events bounds.locks
        → HasShared bounds log made.new.events bounds.locks 0)) }
{
    for lock in 0..bounds.locks {
        share_lock(made, bounds, heap, LockId(lock))?;
    }
    Ok(())
}

/// Acquires the lock for each of its sharers.
fn share_lock(made: &mut Trace, bounds: Bounds, heap: &Heap, lock: LockId) -> Result<(), Memory>
    requires bounds { bounds_of heap.now ≡ bounds }
    requires within { lock.0 < bounds.locks }
    ensures { OnOk result (ForItsTraces heap.now (λ log.
        HasShared bounds log made.old.events lock.0 0
        → HasShared bounds log made.new.events (lock.0 + 1) 0)) }
{
    for thread in 0..bounds.threads {
        share_with(made, bounds, heap, lock, ThreadId(thread))?;
    }
    Ok(())
}

/// Acquires the lock for the thread, if it shares it.
fn share_with(
    made: &mut Trace,
    bounds: Bounds,
    heap: &Heap,
    lock: LockId,
    thread: ThreadId,
) -> Result<(), Memory>
    requires bounds { bounds_of heap.now ≡ bounds }
    requires known { lock.0 < bounds.locks }
    requires within { thread.0 < bounds.threads }
    ensures { OnOk result (ForItsTraces heap.now (λ log.
        HasShared bounds log made.old.events lock.0 thread.0
        → HasShared bounds log made.new.events lock.0 (thread.0 + 1))) }
{
    if !heap.shares(lock, thread) {
        return Ok(());
    }
    made.push(Event {
        thread: thread,
        kind: Kind::AcquireShared(lock),
    })
}

/// Lets the threads exit that have exited and were not joined.
fn exit_threads(made: &mut Trace, bounds: Bounds, heap: &Heap) -> Result<(), Memory>
    requires { bounds_of heap.now ≡ bounds }
    ensures { OnOk result (ForItsTraces heap.now (λ log.
        HasShared bounds log made.old.events bounds.locks 0
        → HasExited bounds log made.new.events bounds.threads)) }
{
    for thread in 0..bounds.threads {
        exit_thread(made, bounds, heap, ThreadId(thread))?;
    }
    Ok(())
}

/// Lets the thread exit, if it has exited and was not joined.
fn exit_thread(
    made: &mut Trace,
    bounds: Bounds,
    heap: &Heap,
    thread: ThreadId,
) -> Result<(), Memory>
    requires bounds { bounds_of heap.now ≡ bounds }
    requires within { thread.0 < bounds.threads }
    ensures { OnOk result (ForItsTraces heap.now (λ log.
        HasExited bounds log made.old.events thread.0
        → HasExited bounds log made.new.events (thread.0 + 1))) }
{
    if !is_exited(heap.status(thread)) {
        return Ok(());
    }
    made.push(Event {
        thread: thread,
        kind: Kind::Exit,
    })
}
