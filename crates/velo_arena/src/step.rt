//! A node's name: its slot and its stamp.
ghost use Rattle.std.specs.Prelude.{◌≡◌};
ghost use Rattle.velo_arena.specs.Heirs.{renamed};

/// A node by its slot and its stamp. It names no node any more once that node was freed.
#[derive(Clone, Copy, Default, PartialEq, Eq)]
pub struct Step {
    /// The slot into which the node was put.
    pub slot: u16,
    /// The stamp that the node was given. A later node has a later one.
    pub stamp: u32,
}

/// What a slot in use bears.
#[derive(Clone, Copy, PartialEq, Eq)]
pub struct Node {
    /// The stamp that the node was given.
    pub stamp: u32,
    /// Whether the node was marked as finished.
    pub finished: bool,
}

/// The node with the first stamp gives way to that of the step.
#[derive(Clone, Copy, PartialEq, Eq)]
pub struct Heir {
    /// The stamp of the node that gives way.
    pub of: u32,
    /// The node that it gives way to.
    pub step: Step,
}

impl Step {
    /// This step, redirected to its node's heir, if `heirs[slot]` has one.
    pub fn renamed(self, heirs: &[Option<Heir>]) -> Step
        ensures { result ≡ renamed heirs.now self }
    {
        match heirs.get(self.slot as usize) {
            Some(Some(heir)) if heir.of == self.stamp => heir.step,
            _ => self,
        }
    }
}
