//! How long a schedule may be.

/// The most turns that a schedule has.
pub const MAX_TURNS: usize = 1_000_000;

/// The most bytes that the text of a schedule has with a newline after it: three for each turn.
pub const MAX_SCHEDULE_BYTES: usize = 3_000_000;
