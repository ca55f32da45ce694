//! A run that goes on in a new log.
ghost use Rattle.std.specs.Prelude.{◌≡◌, ◌≢◌};
ghost use Rattle.velo_ffi.specs.Renewal.{RenewsKept, RenewsOrNot, status_of};

use crate::answers::{ALARMED, CLOSED, DONE, IN_BLOCK, NO_MEMORY};
use crate::live::number_of;
use crate::monitor::Monitor;
use crate::watch::Watch;
use std::alloc::Global;
use velo_events::Refusal;
use velo_laws::NotRenewed;

/// The status of a reason.
fn status_of(reason: NotRenewed) -> u32
    ensures { result ≡ status_of reason }
{
    match reason {
        NotRenewed::Alarm => ALARMED,
        NotRenewed::BlockOpen(_) => IN_BLOCK,
        NotRenewed::LogFull => number_of(Refusal::LogFull),
        NotRenewed::Memory => NO_MEMORY,
    }
}

/// Goes on in a new log, if it can.
fn renew(alloc: Global, watch: &mut Watch) -> u32
    ensures { RenewsOrNot watch.old result watch.new }
{
    match watch.renew(alloc) {
        Ok(()) => DONE,
        Err(reason) => status_of(reason),
    }
}

/// Goes on in a new log, with the same threads, but for those that were joined, and the same
/// values, holders and sharers of locks: whatever comes after is judged as after all that was
/// before, by positions from the new log's end on.
///
/// `ALARMED` where there is an alarm; `IN_BLOCK` where a block is open; 17, the number of
/// `LogFull`, where the new log is longer than it may be; `NO_MEMORY` if an allocation failed.
/// Nothing has changed then.
#[unsafe(no_mangle)]
pub extern "C" fn velo_renew(alloc: Global, monitor: &mut Monitor) -> u32
    ensures renews { RenewsKept monitor.old.kept.watch result monitor.new.kept.watch }
    ensures same { result ≢ DONE → monitor.new.kept.watch ≡ monitor.old.kept.watch }
{
    let Some(mut watch) = monitor.take(alloc) else {
        return CLOSED;
    };
    let status = renew(alloc, &mut watch);
    *monitor = Monitor::of(watch);
    status
}
