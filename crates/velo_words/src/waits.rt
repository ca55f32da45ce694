//! The lines of those who wait.
ghost use Rattle.std.specs.Prelude.{◌≡◌, ◌<◌, ◌++◌, map, IfOk, OnOk};
ghost use Rattle.std.specs.String.{string_bytes};
ghost use Rattle.velo_words.specs.Waits.{end_text, holder_text, holders_text, lock_text, name_or_number, wait_text, waits_text};

use crate::standing::{holds_alone, is_live, next_statement, shares};
use std::alloc::Global;
use velo_bytes::{append, append_number};
use velo_events::{LockId, Memory, ThreadId};
use velo_workload::{Statement, Workload};
use velo_world::Closed;

/// Adds the name at a number, or the number, where there is none.
fn add_name(text: &mut Vec<u8>, names: &[String], number: u16) -> Result<(), Memory>
    ensures { OnOk result (text.new.items ≡ text.old.items ++ name_or_number (map string_bytes names.now) number) }
{
    match names.get(usize::from(number)) {
        Some(name) => append(text, name.as_bytes()),
        None => append_number(text, u64::from(number)),
    }
}

/// Adds words, and a thread's name after them.
fn add_thread(
    text: &mut Vec<u8>,
    words: &[u8],
    workload: &Workload,
    thread: ThreadId,
) -> Result<(), Memory>
    ensures { OnOk result (text.new.items ≡ text.old.items ++ words.now ++ name_or_number workload.now.thread_names thread.0) }
{
    append(text, words)?;
    add_name(text, workload.thread_names(), u16::from(thread.0))
}

/// Adds a thread, if it holds the lock.
fn add_holder(
    text: &mut Vec<u8>,
    workload: &Workload,
    closed: &Closed,
    lock: LockId,
    thread: ThreadId,
) -> Result<(), Memory>
    requires { lock.0 < closed.now.config.bounds.locks }
    ensures { OnOk result (text.new.items ≡ text.old.items ++ holder_text workload.now closed.now.log lock.0 thread.0) }
{
    if holds_alone(closed, lock, thread) {
        return add_thread(text, b", held by ", workload, thread);
    }
    if shares(closed, lock, thread) {
        return add_thread(text, b", shared by ", workload, thread);
    }
    Ok(())
}

/// Adds the threads that hold a lock, if there is such a lock.
fn add_holders(
    text: &mut Vec<u8>,
    workload: &Workload,
    closed: &Closed,
    lock: LockId,
) -> Result<(), Memory>
    requires { closed.now.config.bounds ≡ workload.now.bounds }
    ensures { OnOk result (text.new.items ≡ text.old.items ++ holders_text workload.now closed.now.log lock.0) }
{
    let bounds = workload.bounds();
    if lock.0 >= bounds.locks {
        return Ok(());
    }
    for thread in 0..bounds.threads {
        add_holder(text, workload, closed, lock, ThreadId(thread))?;
    }
    Ok(())
}

/// Adds the line of a thread that waits for a lock.
fn add_lock_wait(
    text: &mut Vec<u8>,
    workload: &Workload,
    closed: &Closed,
    thread: ThreadId,
    lock: LockId,
) -> Result<(), Memory>
    requires { closed.now.config.bounds ≡ workload.now.bounds }
    ensures { OnOk result (text.new.items ≡ text.old.items ++ lock_text workload.now closed.now.log thread.0 lock.0) }
{
    append(text, b"waiting: ")?;
    add_name(text, workload.thread_names(), u16::from(thread.0))?;
    append(text, b" for lock ")?;
    add_name(text, workload.lock_names(), lock.0)?;
    add_holders(text, workload, closed, lock)?;
    append(text, b"\n")
}

/// Adds the line of a thread that waits for the end of another.
fn add_end_wait(
    text: &mut Vec<u8>,
    workload: &Workload,
    thread: ThreadId,
    other: ThreadId,
) -> Result<(), Memory>
    ensures { OnOk result (text.new.items ≡ text.old.items ++ end_text workload.now thread.0 other.0) }
{
    append(text, b"waiting: ")?;
    add_name(text, workload.thread_names(), u16::from(thread.0))?;
    append(text, b" for the end of ")?;
    add_name(text, workload.thread_names(), u16::from(other.0))?;
    append(text, b"\n")
}

/// Adds the line of a thread, if it waits.
fn add_wait(
    alloc: Global,
    text: &mut Vec<u8>,
    workload: &Workload,
    closed: &Closed,
    thread: ThreadId,
) -> Result<(), Memory>
    requires bounds { closed.now.config.bounds ≡ workload.now.bounds }
    requires there { thread.0 < workload.now.bounds.threads }
    ensures { OnOk result (text.new.items ≡ text.old.items ++ wait_text workload.now closed.now.log thread.0) }
{
    if !is_live(closed, thread) {
        return Ok(());
    }
    match next_statement(alloc, workload, closed, thread)? {
        Some(Statement::Acquire(lock) | Statement::Share(lock)) => {
            add_lock_wait(text, workload, closed, thread, lock)
        }
        Some(Statement::Join(other)) => add_end_wait(text, workload, thread, other),
        _ => Ok(()),
    }
}

/// The lines of a deadlock, where a stuck run of the workload has left this world: which thread
/// waits for which lock, held by whom, or for whose end. The world has to have the workload's
/// bounds.
///
/// # Errors
/// `Memory` if an allocation failed.
pub fn waits_of(alloc: Global, workload: &Workload, closed: &Closed) -> Result<Vec<u8>, Memory>
    requires { closed.now.config.bounds ≡ workload.now.bounds }
    ensures { IfOk result (λ text. text.items ≡ waits_text workload.now closed.now.log) }
{
    let mut text = Vec::new(alloc);
    for thread in 0..workload.bounds().threads {
        add_wait(alloc, &mut text, workload, closed, ThreadId(thread))?;
    }
    Ok(text)
}
