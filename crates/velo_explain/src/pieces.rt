//! Text that is put together in memory, piece by piece.

use std::alloc::Global;
use velo_bytes::{append, append_number};
use velo_events::{Event, Kind, Memory, ThreadId};
use velo_logtext::{KIND_ROOM, put_kind};
use velo_names::{NameKind, Names};

/// A piece of text.
#[derive(Clone, Copy)]
pub enum Piece<'a> {
    /// A text as it is.
    Text(&'a str),
    /// The digits of a number.
    Number(u64),
    /// An event as in the log.
    Words(Event),
    /// What a transaction is, by its first operation.
    Block(Kind),
    /// A first and a last line.
    Lines(u64, u64),
    /// A name after a space, if there is one.
    Name(Option<&'a [u8]>),
    /// An operation as in the log.
    Operation(Kind),
    /// The name of a thread after a space, if it has one.
    ThreadName(&'a Names<'a>, ThreadId),
    /// The name of what an operation is about after a space, if it has one.
    KindName(&'a Names<'a>, Kind),
    /// The name of the label of the block that an operation begins, after a space, if there is one.
    BlockName(&'a Names<'a>, Kind),
}

/// The name of a thread, if it has one.
fn thread_name<'a>(names: &Names<'a>, thread: ThreadId) -> Option<&'a [u8]> {
    names.name_of(NameKind::Thread, u32::from(thread.0))
}

/// The name of what an operation is about, if it has one.
fn name_about<'a>(names: &Names<'a>, kind: Kind) -> Option<&'a [u8]> {
    match kind {
        Kind::Read(x, _) | Kind::Write(x, _) => names.name_of(NameKind::Variable, u32::from(x.0)),
        Kind::Acquire(m) | Kind::Release(m) => names.name_of(NameKind::Lock, u32::from(m.0)),
        Kind::AcquireShared(m) | Kind::ReleaseShared(m) => {
            names.name_of(NameKind::Lock, u32::from(m.0))
        }
        Kind::Begin(label) => names.name_of(NameKind::Label, label.0),
        Kind::Fork(thread) | Kind::Join(thread) => thread_name(names, thread),
        Kind::End | Kind::Exit => None,
    }
}

/// The name of the label of the block that an operation begins, if there is one.
fn block_name<'a>(names: &Names<'a>, kind: Kind) -> Option<&'a [u8]> {
    match kind {
        Kind::Begin(label) => names.name_of(NameKind::Label, label.0),
        _ => None,
    }
}

/// A whole text, which was made in memory.
#[derive(Drop)]
pub struct Page {
    bytes: Vec<u8>,
}

impl Page {
    /// No text yet.
    pub fn new(alloc: Global) -> Page {
        Page {
            bytes: Vec::new(alloc),
        }
    }

    /// The text.
    pub fn as_slice(&self) -> &[u8] {
        self.bytes.as_slice()
    }

    /// Adds bytes.
    ///
    /// # Errors
    /// `Memory` if an allocation failed.
    pub fn add_bytes(&mut self, bytes: &[u8]) -> Result<(), Memory> {
        append(&mut self.bytes, bytes)
    }

    /// Adds the digits of a number.
    fn add_number(&mut self, number: u64) -> Result<(), Memory> {
        append_number(&mut self.bytes, number)
    }

    /// Adds an operation as in the log.
    fn add_operation(&mut self, kind: Kind) -> Result<(), Memory> {
        let mut buffer = [0u8; KIND_ROOM];
        let end = put_kind(&mut buffer, 0, kind);
        self.add_bytes(&buffer[..end])
    }

    /// Adds an event as in the log.
    fn add_event(&mut self, event: Event) -> Result<(), Memory> {
        self.add_number(u64::from(event.thread.0))?;
        self.add_bytes(b" ")?;
        self.add_operation(event.kind)
    }

    /// Adds what a transaction is.
    fn add_block(&mut self, kind: Kind) -> Result<(), Memory> {
        match kind {
            Kind::Begin(label) => {
                self.add_bytes(b"block ")?;
                self.add_number(u64::from(label.0))?;
                Ok(())
            }
            _ => self.add_bytes(b"outside blocks"),
        }
    }

    /// Adds a first and a last line.
    fn add_lines(&mut self, first: u64, last: u64) -> Result<(), Memory> {
        if first == last {
            self.add_bytes(b"line ")?;
            self.add_number(first)?;
            return Ok(());
        }
        self.add_bytes(b"lines ")?;
        self.add_number(first)?;
        self.add_bytes(b" to ")?;
        self.add_number(last)?;
        Ok(())
    }

    /// Adds a name after a space, if there is one.
    fn add_name(&mut self, name: Option<&[u8]>) -> Result<(), Memory> {
        match name {
            None => Ok(()),
            Some(name) => {
                self.add_bytes(b" ")?;
                self.add_bytes(name)
            }
        }
    }

    /// Adds a piece.
    fn add_piece(&mut self, piece: Piece) -> Result<(), Memory> {
        match piece {
            Piece::Text(text) => self.add_bytes(text.as_bytes()),
            Piece::Number(number) => self.add_number(number),
            Piece::Words(event) => self.add_event(event),
            Piece::Block(kind) => self.add_block(kind),
            Piece::Lines(first, last) => self.add_lines(first, last),
            Piece::Name(name) => self.add_name(name),
            Piece::Operation(kind) => self.add_operation(kind),
            Piece::ThreadName(names, thread) => self.add_name(thread_name(names, thread)),
            Piece::KindName(names, kind) => self.add_name(name_about(names, kind)),
            Piece::BlockName(names, kind) => self.add_name(block_name(names, kind)),
        }
    }

    /// Adds pieces.
    ///
    /// # Errors
    /// `Memory` if an allocation failed; the text can then have a part of them, and is no more to
    /// be used.
    pub fn add(&mut self, pieces: &[Piece]) -> Result<(), Memory> {
        for piece in pieces {
            self.add_piece(*piece)?;
        }
        Ok(())
    }
}
