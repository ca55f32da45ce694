//! What some runs led to, and whom they blame.
use crate::Findings;
use velo_events::Label;

/// What some runs came to.
#[derive(Drop)]
pub struct RunTally {
    /// How many runs were made.
    pub runs: u64,
    /// What the runs show: of each fault the first that has it, or that none has it. None is left
    /// open.
    pub findings: Findings,
    /// How many runs have an alarm.
    pub alarms: u64,
    /// The labels that alarms of these runs blame, each once, those of most alarms first.
    pub blamed: Vec<BlamedLabel>,
}

/// A label, and how many runs have an alarm that blames a block with it.
#[derive(Clone, Copy, PartialEq, Eq)]
pub struct BlamedLabel {
    /// The label.
    pub label: Label,
    /// How many runs, one at least.
    pub alarms: u64,
}
