//! The statuses that the program ends with.

/// Done, without an alarm, or help was shown.
pub const DONE: u8 = 0;

/// The words, the text or one of its events are at fault.
pub const BAD_INPUT: u8 = 2;

/// Done or halted, with an alarm.
pub const ALARM: u8 = 3;

/// A limit was met, or the run could not go on.
pub const INCOMPLETE: u8 = 4;

/// Memory or a device failed.
pub const FAILED: u8 = 5;
