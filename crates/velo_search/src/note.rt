//! An operation that may hinder those of other threads.
ghost use Rattle.std.specs.Prelude.{◌≡◌};

use crate::held::Held;
use crate::rivals::{are_rivals, are_twins};
use velo_events::Kind;

/// An operation of a thread that may hinder those of others, and how the thread has the locks before it.
#[derive(Drop)]
pub struct Note {
    pub thread: usize,
    pub kind: Kind,
    pub held: Held,
}

impl Note {
    ghost use Rattle.velo_search.specs.Notes.{note_hinders};

    /// Whether it hinders an operation of another thread that has the locks so: it is a rival and no lock keeps the threads
    /// apart, or it is a twin.
    pub fn hinders(&self, kind: Kind, held: &Held) -> bool
        ensures { result ≡ note_hinders held.now.locks.items kind self.now }
    {
        if are_twins(kind, self.kind) {
            return true;
        }
        if !are_rivals(kind, self.kind) {
            return false;
        }
        !held.excludes(&self.held)
    }
}
