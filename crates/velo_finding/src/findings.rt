//! What was found.
use velo_audit::Told;
use velo_delays::{Deadlock, PredictedCycle};

/// What a log shows and foretells.
#[derive(Drop)]
pub struct PredictedFindings {
    /// The rounds of the log's own audit.
    pub rounds: Vec<Told>,
    /// Predictions with a cycle.
    pub cycles: Vec<PredictedCycle>,
    /// Deadlocks.
    pub deadlocks: Vec<Deadlock>,
    /// How many delays were tried.
    pub tries: u64,
}
