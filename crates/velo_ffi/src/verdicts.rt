//! The verdict so far, and the blocks to blame.
ghost use Rattle.std.specs.Prelude.{◌≡◌, ◌≢◌, ◌≤◌, None, length, map, take, IfSome};
ghost use Rattle.velo_ffi.specs.Answers.{IsVerdict, TellsBlocks, blamed_of};

use crate::answers::{Blamed, CLOSED, DONE, TOO_SHORT, Verdict};
use crate::monitor::Monitor;
use crate::watch::Watch;
use std::alloc::Global;
use velo_traces::Block;

/// The verdict of the events so far.
fn verdict_of(watch: &Watch) -> Verdict
    ensures { IsVerdict watch.now.world.log result }
{
    let events = watch.world.log().len() as u64;
    match watch.world.alarm() {
        None => Verdict {
            events,
            position: 0,
            transaction: 0,
            blamed: 0,
            alarmed: false,
        },
        Some(alarm) => Verdict {
            events,
            position: alarm.position as u64,
            transaction: alarm.transaction as u64,
            blamed: alarm.blamed.len() as u64,
            alarmed: true,
        },
    }
}

/// Returns the verdict so far.
#[unsafe(no_mangle)]
pub extern "C" fn velo_verdict(alloc: Global, monitor: &mut Monitor, verdict: &mut Verdict) -> u32
    ensures kept { monitor.new.kept.watch ≡ monitor.old.kept.watch }
    ensures told { IfSome monitor.old.kept.watch (λ watch. IsVerdict watch.world.log verdict.new) }
    ensures open { monitor.old.kept.watch ≢ None → result ≡ DONE }
    ensures closed { monitor.old.kept.watch ≡ None → result ≡ CLOSED }
    ensures same { result ≢ DONE → verdict.new ≡ verdict.old }
{
    let Some(watch) = monitor.take(alloc) else {
        return CLOSED;
    };
    *verdict = verdict_of(&watch);
    *monitor = Monitor::of(watch);
    DONE
}

/// Puts blocks at the front of a buffer that has room for them.
fn put_blocks(blocks: &[Block], buffer: &mut [Blamed])
    requires { length blocks.now ≤ length buffer.old }
    ensures { take (length blocks.now) buffer.new ≡ map blamed_of blocks.now }
{
    for i in 0..blocks.len() {
        buffer[i] = Blamed {
            first: blocks[i].first as u64,
            label: blocks[i].label.0,
        };
    }
}

/// Returns the blocks to blame, and how many they are.
fn put_blamed(watch: &Watch, buffer: &mut [Blamed], count: &mut usize) -> u32
    ensures told { TellsBlocks watch.now.world.log result buffer.new count.new }
    ensures same { result ≢ DONE → buffer.new ≡ buffer.old }
{
    match watch.world.alarm() {
        None => {
            *count = 0;
            DONE
        }
        Some(alarm) => {
            let blocks = alarm.blamed.as_slice();
            *count = blocks.len();
            if blocks.len() > buffer.len() {
                return TOO_SHORT;
            }
            put_blocks(blocks, buffer);
            DONE
        }
    }
}

/// Returns the blocks to blame, outermost first, and how many they are; none without an alarm.
///
/// Where there is no room for all, `TOO_SHORT` with their number; the buffer is as it was. One of
/// 32 is always long enough.
#[unsafe(no_mangle)]
pub extern "C" fn velo_blamed(
    alloc: Global,
    monitor: &mut Monitor,
    buffer: &mut [Blamed],
    count: &mut usize,
) -> u32
    ensures kept { monitor.new.kept.watch ≡ monitor.old.kept.watch }
    ensures told { IfSome monitor.old.kept.watch (λ watch. TellsBlocks watch.world.log result buffer.new count.new) }
    ensures closed { monitor.old.kept.watch ≡ None → result ≡ CLOSED }
    ensures same { result ≢ DONE → buffer.new ≡ buffer.old }
    ensures untold { result ≡ CLOSED → count.new ≡ count.old }
{
    let Some(watch) = monitor.take(alloc) else {
        return CLOSED;
    };
    let status = put_blamed(&watch, buffer, count);
    *monitor = Monitor::of(watch);
    status
}
