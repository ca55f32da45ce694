//! Lines on their way to a sink, which sees few writes.
ghost use Rattle.std.specs.Prelude.{◌≡◌, ◌≤◌, ◌+◌, ◌++◌, [], ◌∷◌, codes, decimal, drop, length, take, OnOk, OnErr};
ghost use Rattle.std.specs.Io.KnownBytes.{Appends};
ghost use Rattle.velo_bytes.specs.Device.{with_failure, AppendsBeginning};
ghost use Rattle.velo_report.specs.Lines.{word_text, spaced, words_text, line_of, numbers_line, Buffers};

use itoa::{Buffer, write_digits};
use std::marker::Model;
use velo_bytes::{Sink, WriteFault, write_all};

/// How many bytes are gathered before they are written.
const ROOM: usize = 1_024;

/// How many bytes a space and a number take at most.
const LONGEST: usize = 24;

/// Writes a space and a number at the end of the bytes, all at once rather than in two pieces. The answer is where the space
/// is.
fn write_spaced(number: u64, text: &mut [u8; LONGEST]) -> usize
    ensures written { drop result text.new ≡ spaced (decimal number) }
    ensures all { result + 1 + length (decimal number) ≡ 24 }
{
    let start = write_digits(number, text, LONGEST) - 1;
    text[start] = b' ';
    start
}

/// A word of a line.
#[derive(Clone, Copy)]
pub(crate) enum Word<'a> {
    /// A word as it is.
    Text(&'a str),
    /// The digits of a number.
    Number(u64),
    /// A name as it stands in a file.
    Bytes(&'a [u8]),
}

/// The bytes of lines that are still to be written.
#[derive(Drop)]
pub(crate) struct Lines {
    bytes: [u8; ROOM],
    used: usize,
}

impl Model for Lines {
    ghost use Rattle.std.specs.Prelude.{◌≤◌, ℕ, List, take, length};
    ghost use Rattle.velo_report.specs.declared.lines.TheConstants.{ROOM};

    ghost Value = { List ℕ };

    ghost view = { λ l. take l.used l.bytes };

    ghost invariant = { λ l. l.used ≤ ROOM };
}

impl Lines {
    /// None so far.
    pub fn new() -> Lines
        ensures { result ≡ [] }
    {
        Lines {
            bytes: [0; ROOM],
            used: 0,
        }
    }

    /// Appends bytes for which there is room to those gathered.
    fn append(&mut self, piece: &[u8])
        requires { length self.old + length piece.now ≤ ROOM }
        ensures { self.new ≡ self.old ++ piece.now }
    {
        let end = self.used + piece.len();
        self.bytes[self.used..end].copy_from_slice(piece);
        self.used = end;
    }

    /// Writes what was gathered.
    ///
    /// # Errors
    /// `WriteFault` where the sink failed. A beginning of what was gathered was written then.
    pub fn flush<S: Sink>(&mut self, sink: &mut S) -> Result<(), WriteFault>
        ensures ok { OnOk result (Appends (S.contents sink.old) (S.contents sink.new) self.old) }
        ensures empty { OnOk result (self.new ≡ []) }
        ensures err { OnErr result (AppendsBeginning (S.contents sink.old) (S.contents sink.new) self.old) }
        ensures no_failure { OnOk result (S.failures sink.new ≡ S.failures sink.old) }
        ensures failure { OnErr result (S.failures sink.new ≡ with_failure (S.failures sink.old)) }
    {
        write_all(sink, &self.bytes[..self.used])?;
        self.used = 0;
        Ok(())
    }

    /// Adds bytes: they are gathered, and what is too long for that is written.
    pub fn add<S: Sink>(&mut self, sink: &mut S, piece: &[u8]) -> Result<(), WriteFault>
        ensures ok { OnOk result (Buffers (S.contents sink.old) (S.contents sink.new) self.old self.new piece.now) }
        ensures err { OnErr result
            (AppendsBeginning (S.contents sink.old) (S.contents sink.new) (self.old ++ piece.now)) }
        ensures no_failure { OnOk result (S.failures sink.new ≡ S.failures sink.old) }
        ensures failure { OnErr result (S.failures sink.new ≡ with_failure (S.failures sink.old)) }
    {
        if piece.len() <= ROOM - self.used {
            self.append(piece);
            return Ok(());
        }
        self.flush(sink)?;
        if piece.len() <= ROOM {
            self.append(piece);
            return Ok(());
        }
        write_all(sink, piece)
    }

    /// Adds a word.
    pub fn add_word<S: Sink>(&mut self, sink: &mut S, word: Word) -> Result<(), WriteFault>
        ensures ok { OnOk result
            (Buffers (S.contents sink.old) (S.contents sink.new) self.old self.new (word_text word.entry)) }
        ensures err { OnErr result
            (AppendsBeginning (S.contents sink.old) (S.contents sink.new) (self.old ++ word_text word.entry)) }
        ensures no_failure { OnOk result (S.failures sink.new ≡ S.failures sink.old) }
        ensures failure { OnErr result (S.failures sink.new ≡ with_failure (S.failures sink.old)) }
    {
        match word {
            Word::Text(text) => self.add(sink, text.as_bytes()),
            Word::Bytes(bytes) => self.add(sink, bytes),
            Word::Number(number) => {
                let mut digits = Buffer::new();
                self.add(sink, digits.format(number).as_bytes())
            }
        }
    }

    /// Adds a space and a word.
    pub fn add_spaced<S: Sink>(&mut self, sink: &mut S, word: Word) -> Result<(), WriteFault>
        ensures ok { OnOk result
            (Buffers (S.contents sink.old) (S.contents sink.new) self.old self.new (spaced (word_text word.entry))) }
        ensures err { OnErr result
            (AppendsBeginning (S.contents sink.old) (S.contents sink.new)
            (self.old ++ spaced (word_text word.entry))) }
        ensures no_failure { OnOk result (S.failures sink.new ≡ S.failures sink.old) }
        ensures failure { OnErr result (S.failures sink.new ≡ with_failure (S.failures sink.old)) }
    {
        self.add(sink, b" ")?;
        self.add_word(sink, word)
    }

    /// Adds a space and a number.
    fn add_number<S: Sink>(&mut self, sink: &mut S, number: u64) -> Result<(), WriteFault>
        ensures ok { OnOk result
            (Buffers (S.contents sink.old) (S.contents sink.new) self.old self.new (spaced (decimal number))) }
        ensures err { OnErr result
            (AppendsBeginning (S.contents sink.old) (S.contents sink.new) (self.old ++ spaced (decimal number))) }
        ensures no_failure { OnOk result (S.failures sink.new ≡ S.failures sink.old) }
        ensures failure { OnErr result (S.failures sink.new ≡ with_failure (S.failures sink.old)) }
    {
        let mut text = [0; LONGEST];
        let start = write_spaced(number, &mut text);
        self.add(sink, &text[start..])
    }

    /// Adds a line: its first word, the others, each after a space, and a newline.
    ///
    /// # Errors
    /// `WriteFault` where the sink failed. A beginning of what was gathered and of the line was written then.
    pub fn add_line<S: Sink>(
        &mut self,
        sink: &mut S,
        first: &str,
        others: &[Word],
    ) -> Result<(), WriteFault>
        ensures ok { OnOk result
            (Buffers (S.contents sink.old) (S.contents sink.new) self.old self.new
            (line_of first.now (words_text others.now))) }
        ensures err { OnErr result
            (AppendsBeginning (S.contents sink.old) (S.contents sink.new)
            (self.old ++ line_of first.now (words_text others.now))) }
        ensures no_failure { OnOk result (S.failures sink.new ≡ S.failures sink.old) }
        ensures failure { OnErr result (S.failures sink.new ≡ with_failure (S.failures sink.old)) }
    {
        self.add_word(sink, Word::Text(first))?;
        for word in others {
            self.add_spaced(sink, *word)?;
        }
        self.add(sink, b"\n")
    }

    /// Adds a line of numbers: its first word, the numbers, each after a space, and a newline.
    ///
    /// # Errors
    /// `WriteFault` where the sink failed. A beginning of what was gathered and of the line was written then.
    pub fn add_numbers<S: Sink>(
        &mut self,
        sink: &mut S,
        first: &str,
        numbers: &[usize],
    ) -> Result<(), WriteFault>
        ensures ok { OnOk result
            (Buffers (S.contents sink.old) (S.contents sink.new) self.old self.new
            (numbers_line first.now numbers.now)) }
        ensures err { OnErr result
            (AppendsBeginning (S.contents sink.old) (S.contents sink.new)
            (self.old ++ numbers_line first.now numbers.now)) }
        ensures no_failure { OnOk result (S.failures sink.new ≡ S.failures sink.old) }
        ensures failure { OnErr result (S.failures sink.new ≡ with_failure (S.failures sink.old)) }
    {
        self.add_word(sink, Word::Text(first))?;
        for number in numbers {
            self.add_number(sink, *number as u64)?;
        }
        self.add(sink, b"\n")
    }
}
