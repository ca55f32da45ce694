//! `velodrome verify`.

use crate::told::tell;
use std::alloc::Global;
use velo_bytes::{Sink, Source};
use velo_check::{CheckFault, Fate, Files, Operand, VerifyOptions, open_input, read_file};
use velo_claims::{Claim, MAX_REPORT_BYTES, judge};
use velo_events::Memory;
use velo_logtext::read_log;

/// What the bytes of a report claim.
///
/// # Errors
/// `Report` with the fault for which they claim nothing.
fn claim_in(alloc: Global, bytes: &[u8]) -> Result<Claim, Fate> {
    match Claim::parse(alloc, bytes) {
        Ok(claim) => Ok(claim),
        Err(fault) => Err(Fate::Report(fault)),
    }
}

/// What the report at a path claims. Its bytes are let go before the log is read.
///
/// # Errors
/// As `read_file`; else `Report` with the fault for which it claims nothing.
fn claim_at<F: Files>(alloc: Global, path: &str, files: &F) -> Result<Claim, Fate> {
    let bytes = match read_file(alloc, path, MAX_REPORT_BYTES, files) {
        Ok(bytes) => bytes,
        Err(fate) => return Err(fate),
    };
    let claim = claim_in(alloc, &bytes);
    drop(bytes);
    claim
}

/// Reads a whole log, judges the claim by it, and prints what became of it.
fn verify_source<I: Source, O: Sink>(
    alloc: Global,
    claim: &Claim,
    source: &mut I,
    out: &mut O,
) -> Fate {
    let (_, log) = match read_log(alloc, source) {
        Ok(read) => read,
        Err(fault) => return Fate::Check(CheckFault::Log(fault)),
    };
    match judge(alloc, &log, claim) {
        Ok(outcome) => tell(outcome, out),
        Err(Memory) => Fate::Memory,
    }
}

/// Judges the claim by the log that was asked for.
fn verify_claim<F: Files, O: Sink>(
    alloc: Global,
    options: &VerifyOptions,
    claim: &Claim,
    files: &F,
    out: &mut O,
) -> Fate {
    match open_input(files, Operand::Log, options.input, None) {
        Ok(mut log) => verify_source(alloc, claim, &mut log, out),
        Err(fate) => fate,
    }
}

/// Judges by its certificate what the report that was asked for claims of the log. The report is
/// read first.
pub fn verify_file<F: Files, O: Sink>(
    alloc: Global,
    options: &VerifyOptions,
    files: &F,
    out: &mut O,
) -> Fate {
    match claim_at(alloc, options.report, files) {
        Ok(claim) => {
            let fate = verify_claim(alloc, options, &claim, files, out);
            drop(claim);
            fate
        }
        Err(fate) => fate,
    }
}
