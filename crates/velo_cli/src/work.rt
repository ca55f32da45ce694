//! Workloads that run: where they are read, and what their runs show.
ghost use Rattle.std.specs.Prelude.{◌≡◌};

use crate::reporting::{RunReport, report_run};
use std::alloc::Global;
use velo_bytes::{Sink, Source};
use velo_check::{
    Beside, Fate, Files, Operand, ReadFault, RunOptions, is_alarm, open_apart, read_whole,
    verdict_of,
};
use velo_events::{Config, Memory, Refusal};
use velo_worker::Ending;
use velo_workload::{MAX_WORKLOAD_BYTES, WorkFault, Workload, parse, text_of};
use velo_world::Closed;

/// Reads a workload from a source.
fn read_workload<I: Source>(alloc: Global, source: &mut I) -> Result<Workload, Fate> {
    match read_whole(alloc, source, MAX_WORKLOAD_BYTES) {
        Ok(bytes) => {
            let workload = workload_of(alloc, &bytes);
            drop(bytes);
            match workload {
                Ok(workload) => Ok(workload),
                Err(fault) => Err(Fate::Work(fault)),
            }
        }
        Err(ReadFault::Failed) => Err(Fate::ReadFailed),
        Err(ReadFault::Memory) => Err(Fate::Memory),
    }
}

/// The workload of a file's bytes.
fn workload_of(alloc: Global, bytes: &[u8]) -> Result<Workload, WorkFault> {
    match text_of(bytes) {
        Ok(text) => parse(alloc, text),
        Err(fault) => Err(fault),
    }
}

/// Reads the workload that was asked for. The command also reads these files beside it.
pub fn open_workload<F: Files>(
    alloc: Global,
    options: &RunOptions,
    reads: &[Beside],
    files: &F,
) -> Result<Workload, Fate> {
    let names = Beside {
        operand: Operand::NamesOut,
        path: options.names_target,
    };
    match open_apart(
        files,
        Operand::File,
        options.input,
        reads,
        options.target,
        names,
    ) {
        Ok(mut file) => read_workload(alloc, &mut file),
        Err(fate) => Err(fate),
    }
}

/// The configuration of a run of the workload.
pub fn config_of_run(workload: &Workload, options: &RunOptions) -> Config
    ensures { result.bounds ≡ workload.now.bounds }
{
    let limits = options.limits;
    match Config::new(
        0,
        workload.bounds(),
        limits.events,
        limits.nodes,
        options.stop,
    ) {
        Ok(config) => config,
        Err(_) => unreachable!(),
    }
}

/// Whether a run that ends so has no report: memory, or the start of a thread, was refused.
pub fn is_unreported(ending: Ending) -> bool {
    matches!(
        ending,
        Ending::Refused(_, Refusal::Memory | Refusal::RuntimeMemory)
    )
}

/// Reports a run of a workload, and lets go of it.
pub fn finish_run<F: Files, O: Sink>(
    alloc: Global,
    workload: &Workload,
    ended: (Closed, Ending),
    options: &RunOptions,
    files: &mut F,
    out: &mut O,
) -> Fate {
    let (closed, ending) = ended;
    let fate = show_run(alloc, workload, &closed, ending, options, files, out);
    drop(closed);
    fate
}

/// Reports a run of a workload. One in which a growth was refused has no report.
fn show_run<F: Files, O: Sink>(
    alloc: Global,
    workload: &Workload,
    closed: &Closed,
    ending: Ending,
    options: &RunOptions,
    files: &mut F,
    out: &mut O,
) -> Fate {
    if is_unreported(ending) {
        return Fate::Finished {
            ending,
            alarm: false,
        };
    }
    let alarm = is_alarm(verdict_of(closed));
    let report = RunReport {
        before: &[],
        closed,
        after: &[],
        end: Fate::Finished { ending, alarm },
    };
    report_run(alloc, workload, &report, options, files, out)
}
