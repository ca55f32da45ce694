//! Watches a run event by event, and finds the event that closes its first cycle.
//!
//! The graph is that of Flanagan, Freund and Yi, "Velodrome: A Sound and Complete Dynamic Atomicity Checker for
//! Multithreaded Programs", PLDI 2008: of the transactions it has those that can still be on a cycle.
#![tactic(auto)]

mod edges;
mod heirs;
mod monitor;

pub use monitor::{Monitor, Seen};
