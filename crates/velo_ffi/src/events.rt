//! One call for each event. A caller takes a lock of its own round each call of one handle.
ghost use Rattle.std.specs.Prelude.{◌≡◌, ◌≢◌, Some, option_map};
ghost use Rattle.velo_events.specs.declared.event.Action.TheVariants.{Read, Write, Acquire, Release, AcquireShared, ReleaseShared, Begin, End, Fork, Join, Exit};
ghost use Rattle.velo_ffi.specs.Answers.{Does};
ghost use Rattle.velo_ffi.specs.Numbers.{lock_of, thread_of, variable_of};

use crate::answers::Answer;
use crate::live::act;
use crate::monitor::Monitor;
use crate::numbers::{lock_of, thread_of, variable_of};
use std::alloc::Global;
use velo_events::{Action, Label};

/// A thread reads a variable, and gets the value that was written last.
///
/// Where the status is not 0, nothing changes: a number is beyond its type (`BAD_NUMBER`), or the
/// event is refused, and the status is the number of its refusal.
#[unsafe(no_mangle)]
pub extern "C" fn velo_read(
    alloc: Global,
    monitor: &mut Monitor,
    thread: u32,
    variable: u32,
    answer: &mut Answer,
) -> u32
    ensures does { Does monitor.old.kept.watch (thread_of thread) (option_map Read (variable_of variable))
        answer.old result answer.new monitor.new.kept.watch }
    ensures refused { result ≢ 0 → monitor.new.kept.watch ≡ monitor.old.kept.watch }
{
    act(
        alloc,
        monitor,
        thread,
        variable_of(variable).map(Action::Read),
        answer,
    )
}

/// A thread writes a value to a variable. As `velo_read`.
#[unsafe(no_mangle)]
pub extern "C" fn velo_write(
    alloc: Global,
    monitor: &mut Monitor,
    thread: u32,
    variable: u32,
    value: u64,
    answer: &mut Answer,
) -> u32
    ensures does { Does monitor.old.kept.watch (thread_of thread) (option_map (λ x. Write x value) (variable_of variable))
        answer.old result answer.new monitor.new.kept.watch }
    ensures refused { result ≢ 0 → monitor.new.kept.watch ≡ monitor.old.kept.watch }
{
    act(
        alloc,
        monitor,
        thread,
        variable_of(variable).map(|x| Action::Write(x, value)),
        answer,
    )
}

/// A thread acquires a lock. As `velo_read`.
#[unsafe(no_mangle)]
pub extern "C" fn velo_acquire(
    alloc: Global,
    monitor: &mut Monitor,
    thread: u32,
    lock: u32,
    answer: &mut Answer,
) -> u32
    ensures does { Does monitor.old.kept.watch (thread_of thread) (option_map Acquire (lock_of lock))
        answer.old result answer.new monitor.new.kept.watch }
    ensures refused { result ≢ 0 → monitor.new.kept.watch ≡ monitor.old.kept.watch }
{
    act(
        alloc,
        monitor,
        thread,
        lock_of(lock).map(Action::Acquire),
        answer,
    )
}

/// A thread releases a lock. As `velo_read`.
#[unsafe(no_mangle)]
pub extern "C" fn velo_release(
    alloc: Global,
    monitor: &mut Monitor,
    thread: u32,
    lock: u32,
    answer: &mut Answer,
) -> u32
    ensures does { Does monitor.old.kept.watch (thread_of thread) (option_map Release (lock_of lock))
        answer.old result answer.new monitor.new.kept.watch }
    ensures refused { result ≢ 0 → monitor.new.kept.watch ≡ monitor.old.kept.watch }
{
    act(
        alloc,
        monitor,
        thread,
        lock_of(lock).map(Action::Release),
        answer,
    )
}

/// A thread acquires a lock beside others that share it. As `velo_read`.
#[unsafe(no_mangle)]
pub extern "C" fn velo_acquire_shared(
    alloc: Global,
    monitor: &mut Monitor,
    thread: u32,
    lock: u32,
    answer: &mut Answer,
) -> u32
    ensures does { Does monitor.old.kept.watch (thread_of thread) (option_map AcquireShared (lock_of lock))
        answer.old result answer.new monitor.new.kept.watch }
    ensures refused { result ≢ 0 → monitor.new.kept.watch ≡ monitor.old.kept.watch }
{
    act(
        alloc,
        monitor,
        thread,
        lock_of(lock).map(Action::AcquireShared),
        answer,
    )
}

/// A thread releases its share of a lock. As `velo_read`.
#[unsafe(no_mangle)]
pub extern "C" fn velo_release_shared(
    alloc: Global,
    monitor: &mut Monitor,
    thread: u32,
    lock: u32,
    answer: &mut Answer,
) -> u32
    ensures does { Does monitor.old.kept.watch (thread_of thread) (option_map ReleaseShared (lock_of lock))
        answer.old result answer.new monitor.new.kept.watch }
    ensures refused { result ≢ 0 → monitor.new.kept.watch ≡ monitor.old.kept.watch }
{
    act(
        alloc,
        monitor,
        thread,
        lock_of(lock).map(Action::ReleaseShared),
        answer,
    )
}

/// A thread begins an atomic block. As `velo_read`.
#[unsafe(no_mangle)]
pub extern "C" fn velo_begin(
    alloc: Global,
    monitor: &mut Monitor,
    thread: u32,
    label: u32,
    answer: &mut Answer,
) -> u32
    ensures does { Does monitor.old.kept.watch (thread_of thread) (Some (Begin (record { 0 = label })))
        answer.old result answer.new monitor.new.kept.watch }
    ensures refused { result ≢ 0 → monitor.new.kept.watch ≡ monitor.old.kept.watch }
{
    act(
        alloc,
        monitor,
        thread,
        Some(Action::Begin(Label(label))),
        answer,
    )
}

/// A thread ends its innermost open block. As `velo_read`.
#[unsafe(no_mangle)]
pub extern "C" fn velo_end(
    alloc: Global,
    monitor: &mut Monitor,
    thread: u32,
    answer: &mut Answer,
) -> u32
    ensures does { Does monitor.old.kept.watch (thread_of thread) (Some End)
        answer.old result answer.new monitor.new.kept.watch }
    ensures refused { result ≢ 0 → monitor.new.kept.watch ≡ monitor.old.kept.watch }
{
    act(alloc, monitor, thread, Some(Action::End), answer)
}

/// A thread forks a thread. As `velo_read`.
#[unsafe(no_mangle)]
pub extern "C" fn velo_fork(
    alloc: Global,
    monitor: &mut Monitor,
    thread: u32,
    child: u32,
    answer: &mut Answer,
) -> u32
    ensures does { Does monitor.old.kept.watch (thread_of thread) (option_map Fork (thread_of child))
        answer.old result answer.new monitor.new.kept.watch }
    ensures refused { result ≢ 0 → monitor.new.kept.watch ≡ monitor.old.kept.watch }
{
    act(
        alloc,
        monitor,
        thread,
        thread_of(child).map(Action::Fork),
        answer,
    )
}

/// A thread joins a thread. As `velo_read`.
#[unsafe(no_mangle)]
pub extern "C" fn velo_join(
    alloc: Global,
    monitor: &mut Monitor,
    thread: u32,
    child: u32,
    answer: &mut Answer,
) -> u32
    ensures does { Does monitor.old.kept.watch (thread_of thread) (option_map Join (thread_of child))
        answer.old result answer.new monitor.new.kept.watch }
    ensures refused { result ≢ 0 → monitor.new.kept.watch ≡ monitor.old.kept.watch }
{
    act(
        alloc,
        monitor,
        thread,
        thread_of(child).map(Action::Join),
        answer,
    )
}

/// A thread acts no more. As `velo_read`.
#[unsafe(no_mangle)]
pub extern "C" fn velo_exit(
    alloc: Global,
    monitor: &mut Monitor,
    thread: u32,
    answer: &mut Answer,
) -> u32
    ensures does { Does monitor.old.kept.watch (thread_of thread) (Some Exit)
        answer.old result answer.new monitor.new.kept.watch }
    ensures refused { result ≢ 0 → monitor.new.kept.watch ≡ monitor.old.kept.watch }
{
    act(alloc, monitor, thread, Some(Action::Exit), answer)
}
