//! One world: a log, the heap that it leaves and a book of it, where each action is one event and the first cycle raises the alarm.
#![tactic(auto)]

mod analysis;
mod closed;
mod first_cycle;
mod log_replay;
mod logged_run;
mod node_room;
mod recorded;
mod recorded_world;
mod world;

pub use analysis::{Alarm, Reply};
pub use closed::Closed;
pub use log_replay::LogReplayFault;
pub use recorded_world::RecordedWorld;
pub use world::World;
