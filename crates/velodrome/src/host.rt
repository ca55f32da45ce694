//! The files of the system.

use crate::notes::Notes;
use crate::place::{are_one_place, node_of};
use crate::terminal::STANDARD_INPUT;
use std::fs::{self, File, Metadata};
use std::io::{self, Read, Stdin, Write};
use velo_bytes::{ReaderSource, WriterSink};
use velo_cli::{Files, Recall, SystemReason};

/// A file, or standard input.
#[derive(Drop)]
enum Opened {
    /// A file.
    File(File),
    /// Standard input.
    StandardInput(Stdin),
}

impl Read for Opened {
    fn read(&mut self, piece: &mut [u8]) -> io::Result<usize> {
        match self {
            Opened::File(file) => file.read(piece),
            Opened::StandardInput(input) => input.read(piece),
        }
    }
}

/// What is read, and the notes of what fails.
#[derive(Drop)]
pub struct HostInput<'a> {
    opened: Opened,
    notes: &'a Notes,
}

impl Read for HostInput<'_> {
    fn read(&mut self, piece: &mut [u8]) -> io::Result<usize> {
        let answer = self.opened.read(piece);
        if let Err(error) = &answer {
            self.notes.fail_read(error.kind());
        }
        answer
    }
}

/// A file that is written, and the notes of what fails.
#[derive(Drop)]
pub struct HostOutput<'a> {
    file: File,
    notes: &'a Notes,
}

impl Write for HostOutput<'_> {
    fn write(&mut self, piece: &[u8]) -> io::Result<usize> {
        let answer = self.file.write(piece);
        if let Err(error) = &answer {
            self.notes.fail_write(error.kind());
        }
        answer
    }

    fn flush(&mut self) -> io::Result<()> {
        self.file.flush()
    }
}

/// The files of the system.
#[derive(Drop)]
pub struct HostFiles<'a> {
    rt: &'a HostRuntime,
    notes: &'a Notes,
}

impl<'a> HostFiles<'a> {
    /// The files of the system, and where it is noted which of them fails.
    pub fn new(rt: &'a HostRuntime, notes: &'a Notes) -> HostFiles<'a> {
        HostFiles { rt, notes }
    }

    /// What was opened, as a source.
    fn input(&self, opened: Opened) -> ReaderSource<HostInput<'a>> {
        let notes = self.notes;
        ReaderSource::new(HostInput { opened, notes })
    }
}

impl Recall for HostFiles<'_> {
    fn failure_at(&self, path: &str) -> Option<SystemReason> {
        self.notes.failure_at(path)
    }
}

impl<'a> Files for HostFiles<'a> {
    type Input = ReaderSource<HostInput<'a>>;

    type Output = WriterSink<HostOutput<'a>>;

    fn open(&self, path: &str) -> Option<ReaderSource<HostInput<'a>>> {
        self.notes.open_to_read(path);
        match File::open(self.rt, path) {
            Ok(file) => Some(self.input(Opened::File(file))),
            Err(error) => {
                self.notes.fail_read(error.kind());
                None
            }
        }
    }

    fn standard_input(&self) -> ReaderSource<HostInput<'a>> {
        self.notes.open_to_read("-");
        self.input(Opened::StandardInput(self.rt.stdin()))
    }

    fn are_one(&self, path: &str, other: &str) -> bool {
        match (fs::metadata(self.rt, path), fs::metadata(self.rt, other)) {
            (Ok(input), Ok(target)) => is_same_file(&input, &target),
            (Err(_), Err(_)) => are_one_place(self.rt, path, other).unwrap_or(false),
            _ => false,
        }
    }

    fn is_input(&self, target: &str) -> bool {
        self.are_one(STANDARD_INPUT, target)
    }

    fn create(&mut self, path: &str) -> Option<WriterSink<HostOutput<'a>>> {
        let notes = self.notes;
        notes.open_to_write(path);
        match File::create(self.rt, path) {
            Ok(file) => Some(WriterSink::new(HostOutput { file, notes })),
            Err(error) => {
                notes.fail_write(error.kind());
                None
            }
        }
    }

    fn close(&mut self, _path: &str, file: WriterSink<HostOutput<'a>>) {
        drop(file);
    }
}

/// Whether both are of one regular file, by its device and its inode. Only such a file loses what
/// it has when it is opened to be written.
fn is_same_file(one: &Metadata, other: &Metadata) -> bool {
    one.is_file() && other.is_file() && node_of(one) == node_of(other)
}
