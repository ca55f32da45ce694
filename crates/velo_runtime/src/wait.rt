//! What a thread waits for, and the result of its turn.
use velo_events::{LockId, Refusal, ThreadId};
use velo_world::Reply;

/// What a thread waits for.
#[derive(Clone, Copy, PartialEq, Eq)]
pub enum Wanted {
    /// That each thread that holds the lock, alone or with others, releases it.
    Lock(LockId),
    /// That the thread that holds the lock alone releases it.
    LockShared(LockId),
    /// That the thread exits.
    Thread(ThreadId),
}

/// The result of a turn.
#[derive(Clone, Copy, PartialEq, Eq)]
pub enum Turn {
    /// The action is an event of the log.
    Done(Reply),
    /// Nothing was done, and the thread waits for nothing; but for a foreign share, whose thread's
    /// wait stays as it was.
    Refused(Refusal),
    /// Nothing was done yet: the thread waits until no other thread holds the lock in its way, or
    /// the thread to join has exited.
    Wait,
}
