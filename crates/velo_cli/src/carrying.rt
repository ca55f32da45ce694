//! `velodrome carry`.

use std::alloc::Global;
use velo_bytes::Source;
use velo_check::{CarryOptions, Fate, Files, Operand, carry_run, fate_of_carrying, open_input};

/// Carries a log over to the file that was asked for, which is emptied before the log is read.
fn carry_log<I: Source, F: Files>(
    alloc: Global,
    options: &CarryOptions,
    source: &mut I,
    files: &mut F,
) -> Fate {
    let Some(mut file) = files.create(options.target) else {
        return Fate::CannotOpen;
    };
    let answer = carry_run(alloc, source, &mut file);
    files.close(options.target, file);
    fate_of_carrying(answer)
}

/// Carries the log that was asked for over.
pub fn carry_file<F: Files>(alloc: Global, options: &CarryOptions, files: &mut F) -> Fate {
    match open_input(files, Operand::Log, options.input, Some(options.target)) {
        Ok(mut log) => carry_log(alloc, options, &mut log, files),
        Err(fate) => fate,
    }
}
