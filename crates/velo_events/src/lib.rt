//! What monitored threads do: events, when two of them conflict, the limits of a run, and the reasons for which an action
//! is refused.
//!
//! Events and their conflicts are those of Flanagan, Freund and Yi, "Velodrome: A Sound and Complete Dynamic Atomicity
//! Checker for Multithreaded Programs", PLDI 2008. Forks, joins and exits are events here too.
#![tactic(auto)]

mod config;
mod event;
pub mod growth;
mod limits;
mod memory;
mod refusal;
mod resolved;
mod thread_set;

pub use config::{BadConfig, Bounds, Config};
pub use event::{
    Access, Action, Cell, Event, Kind, Label, LockId, Status, ThreadId, VarId, conflicts,
};
pub use limits::{MAX_EVENTS, MAX_LOCKS, MAX_NODES, MAX_OPEN_BLOCKS, MAX_THREADS};
pub use memory::Memory;
pub use refusal::Refusal;
pub use resolved::Resolved;
pub use thread_set::ThreadSet;
