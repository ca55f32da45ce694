//! A text that is saved.
ghost use Rattle.velo_check.specs.Saving.{IsSavedText};

use crate::answer::StreamedText;
use velo_bytes::{Sink, WriteFault, write_all};
use velo_logtext::write_log;
use velo_world::Closed;

/// A text that is saved.
#[derive(Drop)]
pub enum Saved<'c, 't> {
    /// The log of a run.
    Log(&'c Closed),
    /// These bytes.
    Bytes(&'t [u8]),
}

impl<'c, 't> StreamedText for Saved<'c, 't> {
    ghost is_text = { IsSavedText };

    fn write_to<S: Sink>(&self, sink: &mut S) -> Result<(), WriteFault> {
        match self {
            Saved::Log(closed) => write_log(closed.bounds(), closed.log(), sink),
            Saved::Bytes(bytes) => write_all(sink, bytes),
        }
    }
}
