//! Going along a log by the bodies of a workload, to see that each thread did its own.
ghost use Rattle.std.specs.Prelude.{◌≡◌, Some, IsTrue};
ghost use Rattle.velo_events.specs.Meaning.{action_of};
ghost use Rattle.velo_events.specs.Event.{value_read};
ghost use Rattle.velo_worker.specs.Logs.{AllFollow, tried};
ghost use Rattle.velo_worker.specs.Progress.{after_event, settled};

use crate::progress::Progress;
use velo_events::{Event, Kind};

/// Whether each thread's events are those that it tries one after another, where the threads start
/// so. One pass over the log.
pub fn all_follow(mut threads: Vec<Progress<'_>>, log: &[Event]) -> bool
    ensures { IsTrue result → AllFollow threads.entry.items log.now }
{
    for event in log {
        let thread = usize::from(event.thread.0);
        if thread >= threads.len() || !follow(&mut threads[thread], event.kind) {
            return false;
        }
    }
    true
}

/// Goes past the next event of a thread, if that is what it tries. Otherwise its progress is
/// undefined.
fn follow(progress: &mut Progress<'_>, kind: Kind) -> bool
    ensures tries { IsTrue result → tried progress.old ≡ Some (action_of kind) }
    ensures after { IsTrue result → progress.new ≡ after_event (settled progress.old) (value_read kind) }
{
    if progress.done {
        return false;
    }
    progress.settle();
    let tries = progress.wanted() == kind.action();
    progress.go_on(kind.value_read());
    tries
}
