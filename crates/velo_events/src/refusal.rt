//! Why an action is refused.
use thiserror::Error;

/// Why an action is refused. A refused action changes nothing.
///
/// Where several reasons apply, the one with the least number is answered, and `Foreign` before all of them. The numbers
/// are those that a report shows, as `refusal as u8` gives them.
#[derive(Clone, Copy, Debug, PartialEq, Eq, Error)]
pub enum Refusal {
    /// The world is halted.
    #[error("halted")]
    Halted = 1,
    /// The acting thread is beyond the threads, not forked yet, or has exited.
    #[error("thread not live")]
    NotLive = 2,
    /// A read or write beyond the variables.
    #[error("no such variable")]
    NoSuchVariable = 3,
    /// An operation on a lock beyond the locks.
    #[error("no such lock")]
    NoSuchLock = 4,
    /// A fork or join beyond the threads.
    #[error("no such thread")]
    NoSuchThread = 5,
    /// Another thread holds the lock; for a shared acquire, holds it alone.
    #[error("lock busy")]
    Busy = 6,
    /// An acquire, also a shared one, of a lock that the thread holds already, alone or with others: locks are not re-entrant.
    #[error("lock already held")]
    AlreadyHeld = 7,
    /// A release of a lock that the thread does not hold alone, or a shared one where it does not share it.
    #[error("not the holder")]
    NotHolder = 8,
    /// An end where the thread has no open block.
    #[error("no open block")]
    NoOpenBlock = 9,
    /// A begin where the thread has [`MAX_OPEN_BLOCKS`](crate::MAX_OPEN_BLOCKS) open blocks.
    #[error("blocks too deep")]
    TooDeep = 10,
    /// A fork of thread 0, or of a thread that was forked before.
    #[error("thread already forked")]
    AlreadyForked = 11,
    /// A join of a thread that nobody has forked.
    #[error("thread not forked")]
    NotForked = 12,
    /// A join of a thread that has not exited yet.
    #[error("thread not exited")]
    NotExited = 13,
    /// A join of a thread that was joined before.
    #[error("thread already joined")]
    AlreadyJoined = 14,
    /// An exit with an open block.
    #[error("block open")]
    BlockOpen = 15,
    /// An exit with a lock held, alone or with others.
    #[error("lock held")]
    LockHeld = 16,
    /// The log has as many events as it may take.
    #[error("log full")]
    LogFull = 17,
    /// The event needs a node of the graph, and all of them are in use.
    #[error("graph full")]
    GraphFull = 18,
    /// A growth was refused.
    #[error("out of memory")]
    Memory = 19,
    /// To wait here would be to wait for oneself, by a chain of waiting threads.
    #[error("would deadlock")]
    WouldDeadlock = 20,
    /// A room could not be made; or of a live run a thread could not be started, or a growth was refused for what a thread needs
    /// at its start: the copy of a sender, or the walk through its body.
    #[error("runtime out of memory")]
    RuntimeMemory = 21,
    /// The seat's share does not say what the room's log says of its thread, as that of another room's seat.
    #[error("foreign seat")]
    Foreign = 22,
}
