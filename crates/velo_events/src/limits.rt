//! The limits of a run, each in one place.

/// The most threads of a run.
pub const MAX_THREADS: u8 = 64;

/// The most locks of a run.
pub const MAX_LOCKS: u16 = 4_096;

/// The most events that a log takes.
pub const MAX_EVENTS: u32 = 16_777_216;

/// The most nodes that the graph has at one time.
pub const MAX_NODES: u16 = 4_096;

/// The most blocks of one thread that are open at one time.
pub const MAX_OPEN_BLOCKS: usize = 32;
