//! A command, by what it was asked for.

/// A command that is done by the names of a file: what it was asked for.
#[derive(Clone, Copy)]
pub struct Command<'o, O> {
    /// What it was asked for.
    pub options: &'o O,
}
