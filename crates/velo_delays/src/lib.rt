//! Predictions of a log with a cycle or a deadlock, searched by delays: the recorded order, in which one thread is stopped within
//! a block or before it acquires a second lock, or another is held back into the block.
#![tactic(auto)]

mod anew;
mod deadlocks;
mod drawing;
mod judged;
mod lookup;
mod marks;
mod rounds;
mod run;
mod sources;
mod stuck;
mod trying;

pub use anew::with_lines;
pub use deadlocks::{Deadlocks, search_deadlocks};
pub use judged::{Differing, PredictedCycle};
pub use rounds::{Draws, PredictedCycles, search};
pub use stuck::{Awaited, Deadlock};
