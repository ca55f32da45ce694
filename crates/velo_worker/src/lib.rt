//! Workloads that run.
#![tactic(auto)]

mod counting;
mod cursor;
mod ending;
mod gate;
mod growth;
mod listing;
mod living;
mod outcome;
mod progress;
mod replay_state;
mod replaying;
mod retracing;
mod starting;
mod walk;
mod worker;

pub use counting::count_events;
pub use ending::Ending;
pub use gate::{Gate, OpenGate};
pub use listing::{event_at, list_events};
pub use living::{LiveFault, live};
pub use replaying::replay;
