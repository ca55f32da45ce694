//! The life of a handle, and the step that each event is.
ghost use Rattle.std.specs.Prelude.{◌≡◌, ◌≢◌, ◌↔◌, None, false, IfOk};
ghost use Rattle.velo_events.specs.declared.event.Action.{Action as ActionOf};
ghost use Rattle.velo_ffi.specs.Answers.{Does, IsOpened, Opens, Tells, Tries, number_of};
ghost use Rattle.velo_ffi.specs.Numbers.{thread_of};

use crate::answers::{Answer, BAD_NUMBER, CLOSED, DONE, NO_MEMORY};
use crate::growth::boxed;
use crate::monitor::Monitor;
use crate::numbers::{config_of, thread_of};
use crate::watch::Watch;
use std::alloc::Global;
use velo_events::{Action, Config, Memory, Refusal};
use velo_world::Reply;

/// A watch without events, in a box of its own.
///
/// # Errors
/// `Memory` if an allocation failed.
fn start(alloc: Global, config: Config) -> Result<Box<Watch>, Memory>
    requires { config.stop ≡ false }
    ensures { IfOk result (λ watch.
        IsOpened config.bounds config.events config.nodes watch.value.world) }
{
    let watch = Watch::start(alloc, config)?;
    boxed(alloc, watch)
}

/// Opens a monitor without events, with these numbers of threads, variables and locks, and these
/// limits of events and of nodes. What the handle had before is not read. `BAD_NUMBER` where a
/// number is out of its range, `NO_MEMORY` if an allocation failed; it is closed then.
#[unsafe(no_mangle)]
pub extern "C" fn velo_open(
    alloc: Global,
    monitor: &mut Monitor,
    threads: u32,
    variables: u32,
    locks: u32,
    events: u32,
    nodes: u32,
) -> u32
    ensures opens { Opens (record { threads = threads; variables = variables; locks = locks })
        events nodes result monitor.new.kept.watch }
{
    *monitor = Monitor::closed(alloc);
    let Some(config) = config_of(threads, variables, locks, events, nodes) else {
        return BAD_NUMBER;
    };
    let Ok(watch) = start(alloc, config) else {
        return NO_MEMORY;
    };
    *monitor = Monitor::of(watch);
    DONE
}

/// Closes a monitor, and frees what it held.
#[unsafe(no_mangle)]
pub extern "C" fn velo_close(alloc: Global, monitor: &mut Monitor) -> u32
    ensures closed { monitor.new.kept.watch ≡ None }
    ensures done { result ≡ DONE ↔ monitor.old.kept.watch ≢ None }
    ensures already { result ≡ CLOSED ↔ monitor.old.kept.watch ≡ None }
{
    match monitor.take(alloc) {
        None => CLOSED,
        Some(watch) => {
            drop(watch);
            DONE
        }
    }
}

/// The number that is returned for a refusal.
pub fn number_of(refusal: Refusal) -> u32
    ensures { result ≡ number_of refusal }
{
    match refusal {
        Refusal::Halted => 1,
        Refusal::NotLive => 2,
        Refusal::NoSuchVariable => 3,
        Refusal::NoSuchLock => 4,
        Refusal::NoSuchThread => 5,
        Refusal::Busy => 6,
        Refusal::AlreadyHeld => 7,
        Refusal::NotHolder => 8,
        Refusal::NoOpenBlock => 9,
        Refusal::TooDeep => 10,
        Refusal::AlreadyForked => 11,
        Refusal::NotForked => 12,
        Refusal::NotExited => 13,
        Refusal::AlreadyJoined => 14,
        Refusal::BlockOpen => 15,
        Refusal::LockHeld => 16,
        Refusal::LogFull => 17,
        Refusal::GraphFull => 18,
        Refusal::Memory => 19,
        Refusal::WouldDeadlock => 20,
        Refusal::RuntimeMemory => 21,
        Refusal::Foreign => 22,
    }
}

/// Writes a reply down, and gives the status.
fn tell(outcome: Result<Reply, Refusal>, answer: &mut Answer) -> u32
    ensures { Tells outcome answer.old result answer.new }
{
    match outcome {
        Ok(reply) => {
            *answer = Answer {
                position: reply.position as u64,
                value: reply.value.unwrap_or(0),
                alarmed: reply.alarmed,
            };
            DONE
        }
        Err(refusal) => number_of(refusal),
    }
}

/// Does what a call's numbers mean.
fn try_to(watch: &mut Watch, thread: u32, action: Option<Action>, answer: &mut Answer) -> u32
    ensures { Tries watch.old (thread_of thread) action answer.old result answer.new watch.new }
{
    let Some(thread) = thread_of(thread) else {
        return BAD_NUMBER;
    };
    let Some(action) = action else {
        return BAD_NUMBER;
    };
    tell(watch.act(thread, action), answer)
}

/// Does an action of a thread; no action where a number of it is beyond its type.
pub fn act(
    alloc: Global,
    monitor: &mut Monitor,
    thread: u32,
    action: Option<Action>,
    answer: &mut Answer,
) -> u32
    ensures does { Does monitor.old.kept.watch (thread_of thread) action answer.old result answer.new monitor.new.kept.watch }
    ensures refused { result ≢ 0 → monitor.new.kept.watch ≡ monitor.old.kept.watch }
{
    let Some(mut watch) = monitor.take(alloc) else {
        return CLOSED;
    };
    let status = try_to(&mut watch, thread, action, answer);
    *monitor = Monitor::of(watch);
    status
}
