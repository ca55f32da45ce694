//! Bytes: where they come from and where they go, and numbers and words in them.
#![tactic(auto)]

mod adapters;
mod buffer;
mod device;
mod growing;
mod memory_sink;
mod memory_source;
mod numbers;
mod words;

pub use adapters::{ReaderSource, WriterSink};
pub use buffer::{put_bytes, put_number};
pub use device::{Failed, Sink, Source, WriteFault, write_all};
pub use growing::{append, append_number};
pub use memory_sink::Text;
pub use memory_source::Bytes;
pub use numbers::{number, spaced_number, whole_number};
pub use words::after;
