//! What is returned to a caller.

/// The result of an event.
#[repr(C)]
#[derive(Drop, Clone, Copy)]
pub struct Answer {
    /// The position of the event in the log.
    pub position: u64,
    /// The value that a read read, else 0.
    pub value: u64,
    /// Whether there is an alarm after it.
    pub alarmed: bool,
}

/// The verdict so far.
#[repr(C)]
#[derive(Drop, Clone, Copy)]
pub struct Verdict {
    /// How many events there are.
    pub events: u64,
    /// The position of the first event that closed a cycle, if there is an alarm, else 0.
    pub position: u64,
    /// The first position of its transaction, else 0.
    pub transaction: u64,
    /// How many blocks are to blame.
    pub blamed: u64,
    /// Whether there is an alarm.
    pub alarmed: bool,
}

/// A block to blame.
#[repr(C)]
#[derive(Drop, Clone, Copy)]
pub struct Blamed {
    /// The position of its begin.
    pub first: u64,
    /// The label of its begin.
    pub label: u32,
}

/// Done.
pub const DONE: u32 = 0;

/// The handle is closed.
pub const CLOSED: u32 = 100;

/// A number is out of its range.
pub const BAD_NUMBER: u32 = 102;

/// An allocation failed.
pub const NO_MEMORY: u32 = 103;

/// The buffer is too short. It is as it was.
pub const TOO_SHORT: u32 = 104;

/// A line of the names says no name, or a name for a second time, or they are too many or no UTF-8.
pub const BAD_NAMES: u32 = 105;

/// A block is open.
pub const IN_BLOCK: u32 = 106;

/// There is an alarm.
pub const ALARMED: u32 = 107;

/// A line of the sites is not what their header asks for there, or they end early, or they are too
/// many bytes or no UTF-8.
pub const BAD_SITES: u32 = 108;

/// The sites are of another number of events than the log.
pub const OTHER_SITES: u32 = 109;
