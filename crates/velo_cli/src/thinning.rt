//! `velodrome thin`: what is left out of the log goes first, and the rest is thinned.

use crate::asked::Command;
use crate::context::{ContextOptions, InContext, do_in_context, reads_of};
use crate::leaving::left_out;
use std::alloc::Global;
use velo_bytes::{Sink, Source};
use velo_check::{
    Beside, CheckFault, Fate, Files, Operand, ThinOptions, fate_of_failure, open_apart,
};
use velo_events::Memory;
use velo_filter::LeftOut;
use velo_finding::Asked;
use velo_names::Names;
use velo_sidecars::Sites;
use velo_thinning::{Targets, ThinFault, ThinnedLog, deliver_thinned, read_thinned};
use velo_worker::Ending;

/// The same fault of a check.
fn fault_of(fault: ThinFault) -> CheckFault {
    match fault {
        ThinFault::Log(fault) => CheckFault::Log(fault),
        ThinFault::Refused { position, refusal } => CheckFault::Refused { position, refusal },
        ThinFault::WrongValue { position } => CheckFault::WrongValue { position },
        ThinFault::Memory => CheckFault::Memory,
    }
}

/// Saves what is left of a log, and then the map, if it is asked for; and then prints the counts.
fn send_thinned<F: Files, O: Sink>(
    alloc: Global,
    options: &ThinOptions,
    thinned: &ThinnedLog,
    files: &mut F,
    out: &mut O,
) -> Fate {
    let targets = Targets {
        log: options.target,
        map: options.map,
    };
    match deliver_thinned(alloc, thinned, &targets, files, out) {
        Ok(()) => Fate::Finished {
            ending: Ending::Done,
            alarm: false,
        },
        Err(failure) => fate_of_failure(failure),
    }
}

/// Reads a whole log, thins it without what is left out of it, and writes what is left. Nothing is
/// written where its events can't come about.
fn thin_input<I: Source, F: Files, O: Sink>(
    alloc: Global,
    options: &ThinOptions,
    omitted: &LeftOut,
    source: &mut I,
    files: &mut F,
    out: &mut O,
) -> Fate {
    match read_thinned(alloc, source, omitted) {
        Ok(thinned) => {
            let fate = send_thinned(alloc, options, &thinned, files, out);
            drop(thinned);
            fate
        }
        Err(fault) => Fate::Check(fault_of(fault)),
    }
}

/// What is known before the log is opened.
fn context_of<'a>(options: &ThinOptions<'a>) -> ContextOptions<'a> {
    ContextOptions {
        names: options.names,
        ignored: options.ignored,
        sites: None,
    }
}

/// Opens the log that was asked for, and thins it without what is left out of it.
fn thin_without<F: Files, O: Sink>(
    alloc: Global,
    options: &ThinOptions,
    omitted: &LeftOut,
    files: &mut F,
    out: &mut O,
) -> Fate {
    let map = Beside {
        operand: Operand::Map,
        path: options.map,
    };
    let reads = reads_of(&context_of(options));
    match open_apart(
        files,
        Operand::Log,
        options.input,
        &reads,
        Some(options.target),
        map,
    ) {
        Ok(mut log) => thin_input(alloc, options, omitted, &mut log, files, out),
        Err(fate) => fate,
    }
}

impl InContext for Command<'_, ThinOptions<'_>> {
    fn do_in<F: Files, O: Sink>(
        &self,
        alloc: Global,
        _names: &Names,
        asked: &Asked,
        _sites: &Option<Sites>,
        files: &mut F,
        out: &mut O,
    ) -> Fate {
        match left_out(alloc, asked) {
            Ok(omitted) => {
                let fate = thin_without(alloc, self.options, &omitted, files, out);
                drop(omitted);
                fate
            }
            Err(Memory) => Fate::Memory,
        }
    }
}

/// Thins the log that was asked for. The names are read first, and then the list of known labels.
pub fn thin_file<F: Files, O: Sink>(
    alloc: Global,
    options: &ThinOptions,
    files: &mut F,
    out: &mut O,
) -> Fate {
    do_in_context(
        alloc,
        &Command { options },
        &context_of(options),
        files,
        out,
    )
}
