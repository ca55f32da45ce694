//! An atomic block of a trace.
use velo_events::Label;

/// An atomic block of a trace.
#[derive(Clone, Copy, Default, PartialEq, Eq)]
pub struct Block {
    /// The position of its begin.
    pub first: usize,
    /// The label of its begin.
    pub label: Label,
}
