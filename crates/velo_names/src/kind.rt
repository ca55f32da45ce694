//! What a name is a name of.
ghost use Rattle.std.specs.Prelude.{◌≡◌, ◌≤◌};
ghost use Rattle.velo_names.specs.Line.{greatest};

/// What a name is a name of.
#[derive(Clone, Copy, PartialEq, Eq)]
pub enum NameKind {
    /// A thread.
    Thread,
    /// A variable.
    Variable,
    /// A lock.
    Lock,
    /// The label of blocks.
    Label,
}

impl NameKind {
    /// The greatest number of this kind, which is that of its ids.
    pub fn greatest(self) -> u32
        ensures { result ≡ greatest self }
    {
        match self {
            NameKind::Thread => 255,
            NameKind::Variable | NameKind::Lock => 65_535,
            NameKind::Label => 4_294_967_295,
        }
    }
}
