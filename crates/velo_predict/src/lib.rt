//! What one recorded log says of other schedules of the same program: which traces it foretells.
#![tactic(auto)]

mod circle;
mod cycle;
mod difference;
mod feasible;
mod judge;
mod sources;
mod waits;

pub use cycle::predicts_cycle;
pub use difference::Difference;
pub use feasible::{
    blame_is_feasible, cycles_are_feasible, deadlocks_are_feasible, kept_are_runs, kept_deadlocks,
};
pub use judge::{differing_reads, is_prediction};
pub use sources::sources_of;
pub use waits::{Waiting, predicts_deadlock};
