//! What a run remembers of its last accesses: their steps, from which the predecessors of the next event are looked up, and how
//! far they know each thread, from which blame is computed.
#![tactic(auto)]

mod cells;
mod clocks;
mod entry;
mod place_rows;
mod rows;
mod tables;

pub use clocks::ClockTables;
pub use tables::{MAX_PREDECESSORS, Tables};
