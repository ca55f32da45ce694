//! The state of a thread.
ghost use Rattle.std.specs.Prelude.{◌≡◌};
ghost use Rattle.velo_heap.specs.Steps.{begin_in, end_in, exit_in, fork_by, join_by, unborn};

use velo_events::{Kind, Label, MAX_OPEN_BLOCKS, Refusal, Status, ThreadId};

/// The state of one thread.
#[derive(Clone, Copy, PartialEq, Eq)]
pub struct ThreadState {
    /// How far it has come.
    pub status: Status,
    /// How many blocks it has open.
    pub depth: u8,
    /// How many locks it holds, alone or with others.
    pub locks: u16,
}

impl ThreadState {
    /// A thread that nobody has forked yet.
    pub fn unborn() -> ThreadState
        ensures { result ≡ unborn }
    {
        ThreadState {
            status: Status::Unborn,
            depth: 0,
            locks: 0,
        }
    }

    /// The begin of a block by this thread.
    ///
    /// # Errors
    /// `TooDeep` where as many blocks are open as may be.
    pub fn admit_begin(self, label: Label) -> Result<Kind, Refusal>
        ensures { result ≡ begin_in self label }
    {
        if usize::from(self.depth) >= MAX_OPEN_BLOCKS {
            Err(Refusal::TooDeep)
        } else {
            Ok(Kind::Begin(label))
        }
    }

    /// The end of a block by this thread.
    ///
    /// # Errors
    /// `NoOpenBlock` where it has none open.
    pub fn admit_end(self) -> Result<Kind, Refusal>
        ensures { result ≡ end_in self }
    {
        if self.depth == 0 {
            Err(Refusal::NoOpenBlock)
        } else {
            Ok(Kind::End)
        }
    }

    /// The exit of this thread.
    ///
    /// # Errors
    /// `BlockOpen` where it has a block open, and else `LockHeld` where it holds a lock.
    pub fn admit_exit(self) -> Result<Kind, Refusal>
        ensures { result ≡ exit_in self }
    {
        if self.depth != 0 {
            Err(Refusal::BlockOpen)
        } else if self.locks != 0 {
            Err(Refusal::LockHeld)
        } else {
            Ok(Kind::Exit)
        }
    }

    /// The fork of this thread, whose number is `u`.
    ///
    /// # Errors
    /// `AlreadyForked` where it is born already.
    pub fn admit_fork(self, u: ThreadId) -> Result<Kind, Refusal>
        ensures { result ≡ fork_by u self.status }
    {
        match self.status {
            Status::Unborn => Ok(Kind::Fork(u)),
            Status::Live | Status::Exited | Status::Joined => Err(Refusal::AlreadyForked),
        }
    }

    /// The join of this thread, whose number is `u`.
    ///
    /// # Errors
    /// `NotForked`, `NotExited` or `AlreadyJoined`, by how far it has come.
    pub fn admit_join(self, u: ThreadId) -> Result<Kind, Refusal>
        ensures { result ≡ join_by u self.status }
    {
        match self.status {
            Status::Unborn => Err(Refusal::NotForked),
            Status::Live => Err(Refusal::NotExited),
            Status::Exited => Ok(Kind::Join(u)),
            Status::Joined => Err(Refusal::AlreadyJoined),
        }
    }
}
