//! The text of a log: reading it from a source of bytes, and writing it to a sink.
#![tactic(auto)]

mod fault;
mod laws;
mod lines;
mod read;
mod reader;
mod window;
mod write;

pub use fault::LogFault;
pub use laws::{one_finding, one_text};
pub use read::read_log;
pub use reader::LogReader;
pub use velo_bytes::{Failed, ReaderSource, Sink, Source, WriteFault, WriterSink};
pub use write::{KIND_ROOM, put_kind, write_log};
