//! A set of labels.
ghost use Rattle.std.specs.Prelude.{◌≡◌, OnOk, OnErr};
ghost use Rattle.velo_filter.specs.Left.{nothing, with_number};
ghost use Rattle.velo_filter.specs.Tables.{members};

use crate::growth::insert;
use indexmap::IndexSet;
use std::alloc::Global;
use velo_events::{Label, Memory};

/// A set of labels.
#[derive(Drop)]
pub struct LabelSet {
    labels: IndexSet<u32>,
}

impl LabelSet {
    /// No label is in it. It takes no memory yet.
    pub fn new(alloc: Global) -> LabelSet
        ensures { members result ≡ nothing.labels }
    {
        LabelSet {
            labels: IndexSet::new(alloc),
        }
    }

    /// Puts the label into it, if it is not there.
    ///
    /// # Errors
    /// `Memory` where a growth was refused. The same labels are in it as before then.
    pub fn insert(&mut self, label: Label) -> Result<(), Memory>
        ensures ok { OnOk result (members self.new ≡ with_number (members self.old) label.0) }
        ensures err { OnErr result (members self.new ≡ members self.old) }
    {
        insert(&mut self.labels, label.0)
    }

    /// Whether the label is in it.
    #[inline]
    pub fn contains(&self, label: Label) -> bool
        ensures { result ≡ members self.now label.0 }
    {
        self.labels.contains(&label.0)
    }
}
