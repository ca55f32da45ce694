//! `velodrome run`.

use crate::work::{config_of_run, finish_run, open_workload};
use std::alloc::Global;
use std::sync::Wait;
use std::thread::Threads;
use velo_bytes::Sink;
use velo_check::{Fate, Files, RunOptions};
use velo_worker::{Ending, LiveFault, OpenGate, live};
use velo_workload::Workload;
use velo_world::Closed;

/// Whether no event came after the one that closes the first cycle.
fn has_nothing_after_cycle(closed: &Closed) -> bool {
    let events = closed.log().len();
    match closed.alarm() {
        Some(alarm) => alarm.position < events && alarm.position + 1 == events,
        None => true,
    }
}

/// Whether a run by threads keeps to what was asked for: the gate let all go on, and where it is to stop at its first cycle, it did.
fn keeps_to(run: &(Closed, Ending), stop: bool) -> bool {
    let is_last = has_nothing_after_cycle(&run.0);
    match run.1 {
        Ending::Gated => false,
        _ => !stop || is_last,
    }
}

/// Runs a workload by threads of its own, and writes what the run shows.
fn run_workload<R: Threads + Wait + Sync, F: Files, O: Sink>(
    rt: &R,
    alloc: Global,
    workload: &Workload,
    options: &RunOptions,
    files: &mut F,
    out: &mut O,
) -> Fate {
    let config = config_of_run(workload, options);
    match live(rt, alloc, workload, config, &OpenGate) {
        Ok(ended) => {
            if keeps_to(&ended, options.stop) {
                finish_run(alloc, workload, ended, options, files, out)
            } else {
                drop(ended);
                Fate::Lost
            }
        }
        Err(LiveFault::Memory) => Fate::Memory,
        Err(LiveFault::Lost) => Fate::Lost,
    }
}

/// Runs the workload that was asked for, and writes what the run shows.
pub fn run_file<R: Threads + Wait + Sync, F: Files, O: Sink>(
    rt: &R,
    alloc: Global,
    options: &RunOptions,
    files: &mut F,
    out: &mut O,
) -> Fate {
    match open_workload(alloc, options, &[], files) {
        Ok(workload) => {
            let fate = run_workload(rt, alloc, &workload, options, files, out);
            drop(workload);
            fate
        }
        Err(fate) => fate,
    }
}
