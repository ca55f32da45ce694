//! Slots for the nodes of a graph: each node bears a stamp, and its slot serves again once it is free.
#![tactic(auto)]

mod arena;
mod step;

pub use arena::{Arena, GraphFull};
pub use step::{Heir, Node, Step};
