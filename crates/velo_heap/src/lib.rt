//! The shared heap of monitored threads: what an action may do, and what its event changes.
#![tactic(auto)]

mod heap;
mod lock;
mod thread_state;

pub use heap::Heap;
pub use velo_events::Status;
