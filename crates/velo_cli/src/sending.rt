//! An answer is saved, and printed.

use velo_bytes::{Sink, WriteFault, write_all};
use velo_check::{Fate, Files, Operand, Save, Saved, fate_of_failure, save_all};
use velo_worker::Ending;

/// Saves a text at a path.
///
/// # Errors
/// `CannotOpen` where no file opens there; `WriteFailed` where it failed, after a beginning.
pub fn save_text<F: Files>(text: &[u8], path: &str, files: &mut F) -> Result<(), Fate> {
    let saves = [Save {
        operand: Operand::Out,
        path: Some(path),
        text: Saved::Bytes(text),
    }];
    match save_all(&saves, files) {
        Ok(()) => Ok(()),
        Err(failure) => Err(fate_of_failure(failure)),
    }
}

/// Prints the words of a verdict.
pub fn print<O: Sink>(words: &[u8], alarm: bool, out: &mut O) -> Fate {
    match write_all(out, words) {
        Ok(()) => Fate::Finished {
            ending: Ending::Done,
            alarm,
        },
        Err(WriteFault) => Fate::WriteFailed,
    }
}
