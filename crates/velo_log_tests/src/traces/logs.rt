//! Logs whose transactions, edges and blame are known from outside.
use crate::words::event;
use velo_events::Event;

/// Another thread writes between a block's read and its write.
pub const LOST_UPDATE: &[Event] = &[
    event!(0 fork 1),
    event!(0 begin 7),
    event!(0 rd 0 0),
    event!(1 wr 0 5),
    event!(0 wr 0 1),
];

/// Each of two blocks reads what the other wrote.
pub const TWO_BLOCKS: &[Event] = &[
    event!(0 fork 1),
    event!(0 begin 1),
    event!(0 wr 0 1),
    event!(1 begin 2),
    event!(1 wr 1 1),
    event!(0 rd 1 1),
    event!(1 rd 0 1),
];

/// A block forks a thread and joins it.
pub const FORK_AND_JOIN: &[Event] = &[
    event!(0 begin 1),
    event!(0 fork 1),
    event!(1 exit),
    event!(0 join 1),
];

/// An inner block begins after the read that another thread overwrites.
pub const INNER_BLOCK_AFTER_THE_READ: &[Event] = &[
    event!(0 fork 1),
    event!(0 begin 1),
    event!(0 rd 0 0),
    event!(0 begin 2),
    event!(1 wr 0 3),
    event!(0 wr 0 4),
];

/// An inner block begins before the read that another thread overwrites.
pub const INNER_BLOCK_BEFORE_THE_READ: &[Event] = &[
    event!(0 fork 1),
    event!(0 begin 1),
    event!(0 begin 2),
    event!(0 rd 0 0),
    event!(1 wr 0 3),
    event!(0 wr 0 4),
];

/// A block takes a lock twice, and another thread has it in between.
pub const LOCK_TAKEN_TWICE: &[Event] = &[
    event!(0 fork 1),
    event!(0 begin 1),
    event!(0 acq 0),
    event!(0 rd 0 0),
    event!(0 rel 0),
    event!(1 acq 0),
    event!(1 wr 0 9),
    event!(1 rel 0),
    event!(0 acq 0),
];

/// One block hands a variable over to the next, under a lock.
pub const HANDOVER: &[Event] = &[
    event!(0 fork 1),
    event!(0 begin 1),
    event!(0 acq 0),
    event!(0 rd 0 0),
    event!(0 wr 0 1),
    event!(0 rel 0),
    event!(0 end),
    event!(1 begin 1),
    event!(1 acq 0),
    event!(1 rd 0 1),
    event!(1 wr 0 2),
    event!(1 rel 0),
    event!(1 end),
];

/// Two blocks read under a lock that both share.
pub const TWO_SHARERS: &[Event] = &[
    event!(0 fork 1),
    event!(0 begin 1),
    event!(0 acqs 0),
    event!(1 begin 2),
    event!(1 acqs 0),
    event!(0 rd 0 0),
    event!(1 rd 0 0),
    event!(1 rels 0),
    event!(0 rels 0),
    event!(1 end),
    event!(0 end),
];

/// A block shares a lock twice, and another thread has it alone in between.
pub const LOCK_SHARED_TWICE: &[Event] = &[
    event!(0 fork 1),
    event!(0 begin 1),
    event!(0 acqs 0),
    event!(0 rels 0),
    event!(1 acq 0),
    event!(1 rel 0),
    event!(0 acqs 0),
];
