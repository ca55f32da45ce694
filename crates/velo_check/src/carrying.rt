//! A log is carried over to the newest version of its text.
ghost use Rattle.std.specs.Prelude.{◌≡◌};
ghost use Rattle.velo_check.specs.Carrying.{Carries, fate_of_carrying};
ghost use Rattle.velo_check.specs.Failures.{failures_told};
ghost use Rattle.velo_check.specs.Writing.{writing};

use crate::failure::Operand;
use crate::fate::Fate;
use crate::fault::CheckFault;
use crate::files::Files;
use crate::operands::open_input;
use crate::request::CarryOptions;
use std::alloc::Global;
use thiserror::Error;
use velo_bytes::{Sink, Source, WriteFault};
use velo_logtext::{LogFault, read_log, write_log};
use velo_worker::Ending;

/// Why a log was not carried over.
#[derive(Clone, Copy, Debug, PartialEq, Eq, Error)]
pub enum CarryFault {
    /// The log could not be read.
    #[error(transparent)]
    Log(LogFault),
    /// The sink failed; a beginning of the log was written.
    #[error("write failed")]
    Write,
}

/// Reads a whole log of either version, and writes its text of version 2. Whether its events can
/// happen is not judged.
///
/// # Errors
/// `Log` where the log could not be read; nothing was written then. `Write` where the sink failed;
/// a beginning of the text was written.
pub fn carry_run<I: Source, O: Sink>(
    alloc: Global,
    source: &mut I,
    sink: &mut O,
) -> Result<(), CarryFault>
    ensures answer { Carries (I.remaining source.old)
        (writing O.contents O.failures sink.old sink.new) (fate_of_carrying result) }
    ensures read { I.failures source.new ≡ failures_told (fate_of_carrying result)
        (I.failures source.old) }
{
    let (bounds, log) = match read_log(alloc, source) {
        Ok(read) => read,
        Err(fault) => return Err(CarryFault::Log(fault)),
    };
    let written = write_log(bounds, &log, sink);
    drop(log);
    match written {
        Ok(()) => Ok(()),
        Err(WriteFault) => Err(CarryFault::Write),
    }
}

/// The fate of carrying a log over.
pub fn fate_of_carrying(answer: Result<(), CarryFault>) -> Fate
    ensures { result ≡ fate_of_carrying answer }
{
    match answer {
        Ok(()) => Fate::Finished {
            ending: Ending::Done,
            alarm: false,
        },
        Err(CarryFault::Log(fault)) => Fate::Check(CheckFault::Log(fault)),
        Err(CarryFault::Write) => Fate::WriteFailed,
    }
}
