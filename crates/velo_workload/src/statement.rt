//! The statements of a program.

use velo_events::{Label, LockId, ThreadId, VarId};

/// A statement of a thread's body. Each thread has one register, which is 0 at its start.
#[derive(Clone, Copy, PartialEq, Eq)]
pub enum Statement {
    /// An event; the register takes the variable's value.
    Read(VarId),
    /// An event; the variable takes the register's value.
    Write(VarId),
    /// The register becomes this number.
    Set(u64),
    /// The register grows by this number, and wraps at 64 bits.
    Add(u64),
    /// An event; the thread acquires the lock.
    Acquire(LockId),
    /// An event; the thread releases the lock.
    Release(LockId),
    /// An event; the thread acquires a share of the lock.
    Share(LockId),
    /// An event; the thread releases its share of the lock.
    Unshare(LockId),
    /// An event; the thread begins a block with the label.
    Begin(Label),
    /// An event; the thread ends its innermost open block.
    End,
    /// An event; the thread forks this one.
    Fork(ThreadId),
    /// An event; the thread joins this one.
    Join(ThreadId),
    /// The statements up to the matching `Done` are done this many times.
    Repeat(u64),
    /// The end of the innermost `Repeat` that is open there.
    Done,
}
