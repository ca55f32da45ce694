//! `velodrome replay`.

use crate::scheduling::{schedule_beside, schedule_of_source};
use crate::work::{config_of_run, finish_run, open_workload};
use std::alloc::Global;
use velo_bytes::Sink;
use velo_check::{Fate, Files, ReplayOptions, RunOptions};
use velo_events::{Memory, ThreadId};
use velo_worker::replay;
use velo_workload::Workload;

/// Replays a workload by a schedule, and writes what it shows.
fn replay_workload<F: Files, O: Sink>(
    alloc: Global,
    workload: &Workload,
    schedule: &[ThreadId],
    options: &RunOptions,
    files: &mut F,
    out: &mut O,
) -> Fate {
    let config = config_of_run(workload, options);
    match replay(alloc, workload, schedule, config) {
        Ok(ended) => finish_run(alloc, workload, ended, options, files, out),
        Err(Memory) => Fate::Memory,
    }
}

/// Replays the workload that was asked for by its schedule, and writes what it shows.
fn replay_by<F: Files, O: Sink>(
    alloc: Global,
    schedule: &[ThreadId],
    options: &ReplayOptions,
    files: &mut F,
    out: &mut O,
) -> Fate {
    let run = &options.run;
    match open_workload(alloc, run, &[schedule_beside(options.schedule)], files) {
        Ok(workload) => {
            let fate = replay_workload(alloc, &workload, schedule, run, files, out);
            drop(workload);
            fate
        }
        Err(fate) => fate,
    }
}

/// Replays the workload that was asked for, and writes what it shows. The schedule is read before
/// the workload, and where it is none that is told.
pub fn replay_file<F: Files, O: Sink>(
    alloc: Global,
    options: &ReplayOptions,
    files: &mut F,
    out: &mut O,
) -> Fate {
    match schedule_of_source(alloc, options.schedule, files) {
        Ok(schedule) => {
            let fate = replay_by(alloc, &schedule, options, files, out);
            drop(schedule);
            fate
        }
        Err(fate) => fate,
    }
}
