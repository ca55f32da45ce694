//! Threads at one world: each has a seat, and a lock guards the room that the world is in.
#![tactic(auto)]

mod error;
mod room;
mod seat;
mod shared;
mod wait;

pub use error::RunError;
pub use room::{Room, comes_back, fork_in, step_in, turn_in};
pub use seat::Seat;
pub use shared::{Missing, Shared, close};
pub use wait::{Turn, Wanted};
