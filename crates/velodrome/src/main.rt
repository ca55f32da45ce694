//! Checks whether the atomic blocks of an observed run can be serialized.
#![tactic(auto)]

mod host;
mod notes;
mod place;
mod progress;
mod terminal;
mod why;

use host::HostFiles;
use notes::Notes;
use progress::ProgressLine;
use std::io::ErrorKind;
use std::process::ExitCode;
use terminal::{STANDARD_ERROR, is_terminal};
use velo_bytes::WriterSink;
use velo_cli::{end_without_words, run};
use why::with_why;

/// The words of the command line.
fn words_of(rt: &HostRuntime) -> Result<Vec<String>, ErrorKind> {
    match std::env::args(rt) {
        Ok(words) => match words.collect::<Vec<String>>(rt.alloc()) {
            Ok(words) => Ok(words),
            Err(_) => Err(ErrorKind::OutOfMemory),
        },
        Err(error) => Err(error.kind()),
    }
}

fn main(rt: HostRuntime) -> ExitCode {
    let notes = Notes::new();
    let mut err = WriterSink::new(rt.stderr());
    let told = WriterSink::new(rt.stderr());
    let is_terminal = is_terminal(&rt, STANDARD_ERROR);
    let mut progress = ProgressLine::new(&rt, rt.alloc(), told, is_terminal);
    let words = match words_of(&rt) {
        Ok(words) => words,
        Err(kind) => return ExitCode::from(end_without_words(kind, &mut err)),
    };
    let mut out = WriterSink::new(rt.stdout());
    let status = match with_why(rt.alloc(), &words, is_terminal) {
        Ok(passed) => run(
            &rt,
            rt.alloc(),
            passed.as_slice(),
            &mut HostFiles::new(&rt, &notes),
            &mut out,
            &mut err,
            &mut progress,
        ),
        Err(_) => end_without_words(ErrorKind::OutOfMemory, &mut err),
    };
    ExitCode::from(status)
}
