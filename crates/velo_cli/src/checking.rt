//! `velodrome check`.

use crate::asked::Command;
use crate::naming::{ByNames, do_by_names, shown_by};
use std::alloc::Global;
use velo_bytes::Sink;
use velo_check::{CheckOptions, Fate, Files, Operand, check_source, fate_of, open_input};
use velo_report::Names;

/// Checks the log that was asked for, and reports it by the names.
fn check_named<F: Files, O: Sink>(
    alloc: Global,
    options: &CheckOptions,
    names: &Names,
    files: &F,
    out: &mut O,
) -> Fate {
    match open_input(files, Operand::Log, options.input, None) {
        Ok(mut log) => fate_of(check_source(
            alloc,
            &mut log,
            out,
            options.limits,
            names,
            options.certificate,
        )),
        Err(fate) => fate,
    }
}

impl ByNames for Command<'_, CheckOptions<'_>> {
    fn do_by<F: Files, O: Sink>(
        &self,
        alloc: Global,
        names: &velo_names::Names,
        files: &mut F,
        out: &mut O,
    ) -> Fate {
        let shown = shown_by(self.options.names, names);
        check_named(alloc, self.options, &shown, files, out)
    }
}

/// Checks the log that was asked for. The names are read first.
pub fn check_file<F: Files, O: Sink>(
    alloc: Global,
    options: &CheckOptions,
    files: &mut F,
    out: &mut O,
) -> Fate {
    do_by_names(alloc, &Command { options }, options.names, files, out)
}
