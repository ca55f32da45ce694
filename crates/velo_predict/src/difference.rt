//! A read that gets another value than in the log.

/// A read of a trace that gets another value than its thread's event in the log.
#[derive(Clone, Copy, PartialEq, Eq)]
pub struct Difference {
    /// The position of the read in the trace.
    pub position: usize,
    /// The position in the log of the event that its thread did there after the same events.
    pub recorded: usize,
}
