//! What a command has to say, and how it goes out.
ghost use Rattle.std.specs.Prelude.{List, ℕ};
ghost use Rattle.velo_check.specs.Answers.{AreSaved, IsAnswered, IsSaved, PrintsText};
ghost use Rattle.velo_check.specs.Answers.{WritesText};
ghost use Rattle.velo_check.specs.Disk.{store};
ghost use Rattle.velo_check.specs.Writing.{writing};

use crate::failure::{Failure, Operand};
use crate::files::Files;
use velo_bytes::{Sink, WriteFault};

/// A text that goes out piece by piece.
pub trait StreamedText {
    /// Its bytes.
    ghost is_text: { Self → List ℕ → Type 0 };

    /// Writes it.
    ///
    /// # Errors
    /// `WriteFault` where the sink failed; a beginning of the text was written.
    fn write_to<O: Sink>(&self, sink: &mut O) -> Result<(), WriteFault>
        ensures { WritesText (is_text self.now)
            (writing O.contents O.failures sink.old sink.new) result };
}

/// A text that is to be saved.
#[derive(Drop)]
pub struct Save<'p, T> {
    /// The file that it is saved in.
    pub operand: Operand,
    /// Its path, if the text is asked for.
    pub path: Option<&'p str>,
    /// The text.
    pub text: T,
}

/// What a command has to say.
#[derive(Drop)]
pub struct Answer<'s, 'p, T, P, E> {
    /// The texts that are saved, one after another.
    pub saves: &'s [Save<'p, T>],
    /// The text that is printed on standard output, if there is one.
    pub printed: Option<P>,
    /// What it comes to.
    pub end: E,
}

/// Saves a text at its path, if it has one.
fn save_one<T: StreamedText, F: Files>(save: &Save<T>, files: &mut F) -> Result<(), Failure>
    ensures { IsSaved T.is_text (store F.disk files.old files.new) save.now result }
{
    let Some(path) = save.path else {
        return Ok(());
    };
    let Some(mut file) = files.create(path) else {
        return Err(Failure::CannotOpen(save.operand));
    };
    let written = save.text.write_to(&mut file);
    files.close(path, file);
    match written {
        Ok(()) => Ok(()),
        Err(WriteFault) => Err(Failure::WriteFailed(save.operand)),
    }
}

/// Saves the texts, one after another. Where one fails nothing behind it is done.
///
/// # Errors
/// `CannotOpen` where a file does not open; `WriteFailed` where one failed: a beginning of the text was
/// written.
pub fn save_all<T: StreamedText, F: Files>(saves: &[Save<T>], files: &mut F) -> Result<(), Failure>
    ensures { AreSaved T.is_text (store F.disk files.old files.new) saves.now result }
{
    for one in saves {
        save_one(one, files)?;
    }
    Ok(())
}

/// Prints a text, if there is one.
fn print<P: StreamedText, O: Sink>(text: &Option<P>, out: &mut O) -> Result<(), Failure>
    ensures { PrintsText P.is_text (writing O.contents O.failures out.old out.new)
        text.now result }
{
    match text {
        Some(text) => match text.write_to(out) {
            Ok(()) => Ok(()),
            Err(WriteFault) => Err(Failure::PrintFailed),
        },
        None => Ok(()),
    }
}

/// Saves what is to be saved, and then prints what is to be printed. Where one of them fails nothing
/// behind it goes out.
///
/// # Errors
/// `CannotOpen` where a file does not open; `WriteFailed` where one failed, and `PrintFailed` where
/// the sink failed: a beginning of the text was written.
pub fn deliver<T: StreamedText, P: StreamedText, E: Copy, F: Files, O: Sink>(
    answer: &Answer<T, P, E>,
    files: &mut F,
    out: &mut O,
) -> Result<E, Failure>
    ensures { IsAnswered T.is_text P.is_text (store F.disk files.old files.new)
        (writing O.contents O.failures out.old out.new) answer.now result }
{
    save_all(answer.saves, files)?;
    print(&answer.printed, out)?;
    Ok(answer.end)
}
