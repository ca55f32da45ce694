//! Reading a log whole.
ghost use Rattle.std.specs.Prelude.{◌≡◌, ◌≤◌, length, IfOk, OnOk, IfSome, Err};
ghost use Rattle.std.specs.Io.KnownBytes.{IsAtEnd};
ghost use Rattle.velo_events.specs.Refusals.{GrowthRefused};
ghost use Rattle.velo_events.specs.declared.limits.TheConstants.{MAX_EVENTS};
ghost use Rattle.velo_logtext.specs.declared.fault.LogFault.TheVariants as log_fault;
ghost use Rattle.velo_logtext.specs.Text.{AreBounds, AreEvents};
ghost use Rattle.velo_logtext.specs.Finding.{Finding, Stands, ReadsAs, IsFindingOrFailure, finding_of, failures_after};

use crate::fault::LogFault;
use crate::reader::LogReader;
use std::alloc::Global;
use velo_bytes::Source;
use velo_events::Bounds;
use velo_traces::Trace;

/// Reads a log up to the end of the source.
///
/// What it finds is what stands in the source's bytes, however they are cut into pieces: the text of a log, or the
/// first line that is wrong.
///
/// # Errors
/// `BadHeader`, `BadLine`, `Truncated` or `TooLong` for the first line that is wrong; `Read` only where the source
/// failed in this call, and `Memory` only where a growth was refused.
pub fn read_log<S: Source>(alloc: Global, source: &mut S) -> Result<(Bounds, Trace), LogFault>
    // What is returned stands in the bytes.
    ensures found { IfSome (S.remaining source.old) (λ bytes. ReadsAs MAX_EVENTS bytes (finding_of result)) }

    // What stands in the bytes is returned, unless the source failed or a growth was refused.
    ensures only { IfSome (S.remaining source.old) (λ bytes. (finding : Finding) → Stands MAX_EVENTS bytes finding
        → IsFindingOrFailure finding (finding_of result)) }

    ensures within { IfOk result (λ log.
        AreBounds log.0 × AreEvents log.1.events × (length log.1.events ≤ MAX_EVENTS)) }
    ensures end { OnOk result (IsAtEnd (S.remaining source.new)) }

    // One failure more after `Read`, and none after any other answer.
    ensures failures { S.failures source.new ≡ failures_after result (S.failures source.old) }
    ensures memory { result ≡ Err log_fault.Memory → GrowthRefused }
{
    let mut reader = LogReader::open(alloc, source)?;
    let mut trace = Trace::new(alloc);
    while let Some(event) = reader.next(source)? {
        trace.push(event)?;
        reader.take_lines(&mut trace)?;
    }
    Ok((reader.bounds(), trace))
}
