//! What can go wrong with a run.

/// What can go wrong with a run of a workload.
#[derive(Clone, Copy, PartialEq, Eq)]
pub enum Fault {
    /// Its log has a cycle, so it is not serializable.
    Cycle,
    /// It is stuck: somebody waits, and nobody can go on.
    Stuck,
    /// An operation is refused for good.
    Refusing,
}
