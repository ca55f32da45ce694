//! What is reported of the schedules of a workload.

use velo_explore::{BlamedLabel, Shrunk};

/// How the schedules of a workload were tried.
#[derive(Clone, Copy, PartialEq, Eq)]
pub enum Tried {
    /// All of them, by a search of states.
    All {
        /// How many events all bodies have together; the largest number where there are more.
        events: u64,
        /// How many states were looked at.
        states: u64,
    },
    /// Some of them, drawn randomly.
    ByChance {
        /// The seed that they were drawn by.
        seed: u64,
        /// How many runs were made.
        runs: u64,
    },
}

/// Who is to blame for the alarms of some runs.
#[derive(Drop)]
pub struct ToBlame {
    /// How many of the runs have an alarm.
    pub alarms: u64,
    /// The labels that these alarms blame, those of most alarms first.
    pub labels: Vec<BlamedLabel>,
}

/// A survey: what is reported of the schedules of a workload.
#[derive(Drop)]
pub struct Survey {
    /// How they were tried.
    pub tried: Tried,
    /// What they show, by simple schedules, and the replay of the first finding.
    pub shrunk: Shrunk,
    /// Who is to blame.
    pub blame: ToBlame,
}
