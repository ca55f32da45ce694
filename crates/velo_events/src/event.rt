//! Threads, variables, locks, labels, and what an event does with them.
ghost use Rattle.std.specs.Prelude.{◌≡◌, ◌+◌};
ghost use Rattle.velo_events.specs.Event.{access_of, value_read};
ghost use Rattle.velo_events.specs.Meaning.{action_of, is_live, is_unborn};
ghost use Rattle.velo_events.specs.Conflict.{conflict};

/// The number of a thread. A run has at most [`MAX_THREADS`](crate::MAX_THREADS); thread 0 is there from the start.
#[derive(Clone, Copy, PartialEq, Eq, PartialOrd, Ord, Hash)]
pub struct ThreadId(pub u8);

/// The number of a shared variable, which starts at the value 0.
#[derive(Clone, Copy, PartialEq, Eq, PartialOrd, Ord, Hash)]
pub struct VarId(pub u16);

/// The number of a lock. A run has at most [`MAX_LOCKS`](crate::MAX_LOCKS); all are free at the start, and none is
/// re-entrant.
#[derive(Clone, Copy, PartialEq, Eq, PartialOrd, Ord, Hash)]
pub struct LockId(pub u16);

/// The label of an atomic block, which reports show. Blocks may share one.
#[derive(Clone, Copy, Default, PartialEq, Eq, PartialOrd, Ord, Hash)]
pub struct Label(pub u32);

/// What a thread did, in one operation.
#[derive(Clone, Copy, PartialEq, Eq)]
pub enum Kind {
    /// It read this value from the variable.
    Read(VarId, u64),
    /// It wrote this value to the variable.
    Write(VarId, u64),
    /// It acquired the lock.
    Acquire(LockId),
    /// It released the lock.
    Release(LockId),
    /// It acquired the lock beside others that share it.
    AcquireShared(LockId),
    /// It released its share of the lock.
    ReleaseShared(LockId),
    /// It began an atomic block, within those that it has open.
    Begin(Label),
    /// It ended its innermost open block.
    End,
    /// It forked the thread, which may act from now on.
    Fork(ThreadId),
    /// It joined the thread, which has exited.
    Join(ThreadId),
    /// It acts no more.
    Exit,
}

/// One operation of one thread.
#[derive(Clone, Copy, PartialEq, Eq)]
pub struct Event {
    /// The thread that did it.
    pub thread: ThreadId,
    /// What it did.
    pub kind: Kind,
}

/// What a thread wants to do: as [`Kind`], but a read has no value yet.
#[derive(Clone, Copy, PartialEq, Eq)]
pub enum Action {
    /// To read the variable.
    Read(VarId),
    /// To write this value to the variable.
    Write(VarId, u64),
    /// To acquire the lock.
    Acquire(LockId),
    /// To release the lock.
    Release(LockId),
    /// To acquire the lock beside others that share it.
    AcquireShared(LockId),
    /// To release its share of the lock.
    ReleaseShared(LockId),
    /// To begin an atomic block, within those that it has open.
    Begin(Label),
    /// To end its innermost open block.
    End,
    /// To fork the thread.
    Fork(ThreadId),
    /// To join the thread.
    Join(ThreadId),
    /// To act no more.
    Exit,
}

/// A variable or a lock: what operations of several threads access. The variables have the even numbers, the locks the odd ones.
#[derive(Clone, Copy, PartialEq, Eq, PartialOrd, Ord, Hash)]
pub struct Cell(pub u32);

impl VarId {
    /// The cell of the variable.
    #[inline(always)]
    pub fn cell(self) -> Cell
        ensures { result.0 ≡ self.0 + self.0 }
    {
        Cell(u32::from(self.0) + u32::from(self.0))
    }
}

impl LockId {
    /// The cell of the lock.
    #[inline(always)]
    pub fn cell(self) -> Cell
        ensures { result.0 ≡ self.0 + self.0 + 1 }
    {
        Cell(u32::from(self.0) + u32::from(self.0) + 1)
    }
}

/// What an operation bears on beside its own thread.
#[derive(Clone, Copy, PartialEq, Eq)]
pub enum Access {
    /// A cell, as a read of a variable or a share of a lock: it does not conflict with others of this kind.
    Shared(Cell),
    /// A cell, as a write of a variable or a lock taken or given up alone: it conflicts with all accesses of the cell.
    Exclusive(Cell),
    /// A thread that it forks.
    Fork(ThreadId),
    /// A thread that it joins.
    Join(ThreadId),
    /// Nothing else.
    Nothing,
}

impl Kind {
    /// What the operation bears on beside its own thread.
    #[inline(always)]
    pub fn access(self) -> Access
        ensures { result ≡ access_of self }
    {
        match self {
            Kind::Read(x, _) => Access::Shared(x.cell()),
            Kind::Write(x, _) => Access::Exclusive(x.cell()),
            Kind::Acquire(m) | Kind::Release(m) => Access::Exclusive(m.cell()),
            Kind::AcquireShared(m) | Kind::ReleaseShared(m) => Access::Shared(m.cell()),
            Kind::Fork(u) => Access::Fork(u),
            Kind::Join(u) => Access::Join(u),
            Kind::Begin(_) | Kind::End | Kind::Exit => Access::Nothing,
        }
    }

    /// The action that asks for the operation.
    #[inline]
    pub fn action(self) -> Action
        ensures { result ≡ action_of self }
    {
        match self {
            Kind::Read(x, _) => Action::Read(x),
            Kind::Write(x, value) => Action::Write(x, value),
            Kind::Acquire(m) => Action::Acquire(m),
            Kind::Release(m) => Action::Release(m),
            Kind::AcquireShared(m) => Action::AcquireShared(m),
            Kind::ReleaseShared(m) => Action::ReleaseShared(m),
            Kind::Begin(label) => Action::Begin(label),
            Kind::End => Action::End,
            Kind::Fork(u) => Action::Fork(u),
            Kind::Join(u) => Action::Join(u),
            Kind::Exit => Action::Exit,
        }
    }

    /// The value that a read returned, and `None` for any other operation.
    #[inline]
    pub fn value_read(self) -> Option<u64>
        ensures { result ≡ value_read self }
    {
        match self {
            Kind::Read(_, value) => Some(value),
            _ => None,
        }
    }
}

/// Whether two events of one trace conflict, so that no equivalent trace exchanges them.
///
/// They do where one thread did both, where both access one variable and one of them writes it, where both operate on one
/// lock and one of them not as a sharer of it (but for the sharers these are the rules of Flanagan, Freund and Yi, *Velodrome*,
/// PLDI 2008), and where one of them forks or joins the other's thread. Two forks or joins of one thread by two others do not
/// conflict by themselves.
pub fn conflicts(earlier: &Event, later: &Event) -> bool
    ensures { result ≡ conflict earlier.now later.now }
{
    if earlier.thread == later.thread {
        return true;
    }
    match (earlier.kind.access(), later.kind.access()) {
        (Access::Shared(c), Access::Exclusive(d)) => c == d,
        (Access::Exclusive(c), Access::Shared(d) | Access::Exclusive(d)) => c == d,
        (Access::Fork(u) | Access::Join(u), _) if u == later.thread => true,
        (_, Access::Fork(u) | Access::Join(u)) => u == earlier.thread,
        _ => false,
    }
}

/// How far a thread has come.
#[derive(Clone, Copy, PartialEq, Eq)]
pub enum Status {
    /// Nobody has forked it, and it is not thread 0.
    Unborn,
    /// It may act.
    Live,
    /// It has exited, and nobody has joined it.
    Exited,
    /// It has exited and was joined.
    Joined,
}

impl Status {
    /// Whether the thread may act.
    #[inline]
    pub fn is_live(self) -> bool
        ensures { result ≡ is_live self }
    {
        matches!(self, Status::Live)
    }

    /// Whether nobody has forked the thread, which is not thread 0.
    #[inline]
    pub fn is_unborn(self) -> bool
        ensures { result ≡ is_unborn self }
    {
        matches!(self, Status::Unborn)
    }
}
