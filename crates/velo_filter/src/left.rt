//! What is left out of a log.
ghost use Rattle.std.specs.Prelude.{◌≡◌, ◌<◌, [], ◌∷◌, ◌||◌, OnOk, OnErr};
ghost use Rattle.velo_events.specs.Event.{lock_of, variable_of};
ghost use Rattle.velo_filter.specs.Left.{is_among, with_labels, with_number, with_lock, with_variable, nothing};
ghost use Rattle.velo_filter.specs.Tables.{left_of, marked};

use crate::labels::LabelSet;
use std::alloc::Global;
use velo_events::growth::fill_up_to;
use velo_events::{Kind, Label, LockId, Memory, VarId};

/// What is left out of a log: the blocks of some labels, and the operations on some locks and variables.
#[derive(Drop)]
pub struct LeftOut {
    labels: LabelSet,
    locks: Vec<bool>,
    variables: Vec<bool>,
}

impl LeftOut {
    /// Nothing is left out. It takes no memory yet.
    pub fn new(alloc: Global) -> LeftOut
        ensures { left_of result ≡ nothing }
    {
        LeftOut {
            labels: LabelSet::new(alloc),
            locks: Vec::new(alloc),
            variables: Vec::new(alloc),
        }
    }

    /// Leaves out the blocks of a label.
    ///
    /// # Errors
    /// `Memory` where a growth was refused. The same is left out as before then.
    pub fn leave_out_label(&mut self, label: Label) -> Result<(), Memory>
        ensures ok { OnOk result (left_of self.new ≡ with_labels (left_of self.old) (label.0 ∷ [])) }
        ensures err { OnErr result (left_of self.new ≡ left_of self.old) }
    {
        self.labels.insert(label)
    }

    /// Leaves out the operations on a lock.
    ///
    /// # Errors
    /// `Memory` where a growth was refused. The same is left out as before then.
    pub fn leave_out_lock(&mut self, lock: LockId) -> Result<(), Memory>
        ensures ok { OnOk result (left_of self.new ≡ with_lock (left_of self.old) lock.0) }
        ensures err { OnErr result (left_of self.new ≡ left_of self.old) }
    {
        mark(&mut self.locks, usize::from(lock.0))
    }

    /// Leaves out the accesses to a variable.
    ///
    /// # Errors
    /// `Memory` where a growth was refused. The same is left out as before then.
    pub fn leave_out_variable(&mut self, variable: VarId) -> Result<(), Memory>
        ensures ok { OnOk result (left_of self.new ≡ with_variable (left_of self.old) variable.0) }
        ensures err { OnErr result (left_of self.new ≡ left_of self.old) }
    {
        mark(&mut self.variables, usize::from(variable.0))
    }

    /// Whether the blocks of the label are left out.
    #[inline]
    pub fn has_label(&self, label: Label) -> bool
        ensures { result ≡ (left_of self.now).labels label.0 }
    {
        self.labels.contains(label)
    }

    /// Whether the operations on the lock are left out.
    #[inline]
    pub fn has_lock(&self, lock: LockId) -> bool
        ensures { result ≡ (left_of self.now).locks lock.0 }
    {
        is_marked(&self.locks, usize::from(lock.0))
    }

    /// Whether the accesses to the variable are left out.
    #[inline]
    pub fn has_variable(&self, variable: VarId) -> bool
        ensures { result ≡ (left_of self.now).variables variable.0 }
    {
        is_marked(&self.variables, usize::from(variable.0))
    }

    /// Whether the operation is on a lock or a variable that is left out.
    #[inline]
    pub fn has_access(&self, kind: Kind) -> bool
        ensures { result ≡ (is_among (left_of self.now).locks (lock_of kind) || is_among (left_of self.now).variables (variable_of kind)) }
    {
        match kind {
            Kind::Read(x, _) | Kind::Write(x, _) => self.has_variable(x),
            Kind::Acquire(m) | Kind::Release(m) | Kind::AcquireShared(m) | Kind::ReleaseShared(m) =>
                self.has_lock(m),
            _ => false,
        }
    }
}

/// Marks a number.
///
/// # Errors
/// `Memory` where a growth was refused. The same numbers are marked as before then.
fn mark(marks: &mut Vec<bool>, number: usize) -> Result<(), Memory>
    requires small { number < 65536 }
    ensures ok { OnOk result (marked marks.new.items ≡ with_number (marked marks.old.items) number) }
    ensures err { OnErr result (marks.new.items ≡ marks.old.items) }
{
    fill_up_to(marks, number, false)?;
    marks[number] = true;
    Ok(())
}

/// Whether the number is marked.
#[inline]
fn is_marked(marks: &[bool], number: usize) -> bool
    ensures { result ≡ marked marks.now number }
{
    match marks.get(number) {
        Some(mark) => *mark,
        None => false,
    }
}
