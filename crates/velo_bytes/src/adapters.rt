//! Readers and writers of the standard library as sources and sinks.
ghost use Rattle.std.specs.Prelude.{◌≡◌};

use crate::device::{Failed, Sink, Source};
use std::io::{Read, Write};

/// A reader as a source. An error of any kind is a failure, and nothing is tried again.
#[derive(Drop)]
pub struct ReaderSource<R> {
    /// The reader.
    pub reader: R,
    failures: u64,
}

impl<R> ReaderSource<R> {
    /// The reader as a source, of which no read has failed.
    pub fn new(reader: R) -> ReaderSource<R>
        ensures reader { result.reader ≡ reader }
        ensures failures { result.failures ≡ 0 }
    {
        ReaderSource {
            reader,
            failures: 0,
        }
    }

    /// How many reads have failed, modulo 2 ^ 64.
    pub fn failures(&self) -> u64
        ensures { result ≡ self.now.failures }
    {
        self.failures
    }
}

impl<R: Read> Source for ReaderSource<R> {
    ghost remaining = { λ s. R.remaining s.reader };

    ghost failures = { λ s. s.failures };

    fn read(&mut self, piece: &mut [u8]) -> Result<usize, Failed> {
        match self.reader.read(piece) {
            Ok(count) => Ok(count),
            Err(_) => {
                self.failures = self.failures.wrapping_add(1);
                Err(Failed)
            }
        }
    }
}

/// A writer as a sink. An error of any kind is a failure, and so is a write that takes nothing of a
/// piece that is not empty; nothing is tried again.
#[derive(Drop)]
pub struct WriterSink<W> {
    /// The writer.
    pub writer: W,
    failures: u64,
}

impl<W> WriterSink<W> {
    /// The writer as a sink, of which no write has failed.
    pub fn new(writer: W) -> WriterSink<W>
        ensures writer { result.writer ≡ writer }
        ensures failures { result.failures ≡ 0 }
    {
        WriterSink {
            writer,
            failures: 0,
        }
    }

    /// How many writes have failed, modulo 2 ^ 64.
    pub fn failures(&self) -> u64
        ensures { result ≡ self.now.failures }
    {
        self.failures
    }
}

impl<W: Write> Sink for WriterSink<W> {
    ghost contents = { λ s. W.contents s.writer };

    ghost failures = { λ s. s.failures };

    fn write(&mut self, piece: &[u8]) -> Result<usize, Failed> {
        if let Ok(count) = self.writer.write(piece) {
            if count > 0 || piece.is_empty() {
                return Ok(count);
            }
        }
        self.failures = self.failures.wrapping_add(1);
        Err(Failed)
    }
}
