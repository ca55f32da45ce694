//! The scripts of a search, and what each operation is of what is left of their logs.
ghost use Rattle.std.specs.Prelude.{◌≡◌, false, map, slice_get};
ghost use Rattle.std.specs.Option.{option_map_or};

use crate::part::Part;
use crate::parts::part_at;
use crate::scripts::Scripts;
use std::marker::Model;
use velo_events::{Kind, ThreadId};

/// The operations of each thread, and the part of each of them in what is left of a log.
#[derive(Drop)]
pub(crate) struct MarkedScripts {
    scripts: Scripts,
    parts: Vec<Vec<Part>>,
}

impl Model for MarkedScripts {
    ghost use Rattle.std.specs.Prelude.{map};
    ghost use Rattle.velo_search.specs.Marked.{Marked};

    ghost Value = { Marked };

    ghost view = { λ s. record { kinds = s.scripts.kinds; locks = s.scripts.locks; parts = map (λ v. v.items) s.parts.items } };
}

impl MarkedScripts {
    ghost use Rattle.velo_search.specs.Free.{is_free_at};
    ghost use Rattle.velo_search.specs.Parts.{part_at};
    ghost use Rattle.velo_search.specs.Runs.{script_of};

    /// The scripts, with these parts of their operations.
    pub(crate) fn new(scripts: Scripts, parts: Vec<Vec<Part>>) -> MarkedScripts
        ensures kinds { result.kinds ≡ scripts.kinds }
        ensures parts { result.parts ≡ map (λ v. v.items) parts.items }
    {
        MarkedScripts { scripts, parts }
    }

    /// An operation of a thread, if it has so many.
    pub(crate) fn kind(&self, thread: ThreadId, index: u32) -> Option<Kind>
        ensures { result ≡ slice_get (script_of self.now.kinds thread.0) index }
    {
        self.scripts.kind(thread, index)
    }

    /// Whether an operation of a thread is free at any time.
    pub(crate) fn is_free(&self, thread: ThreadId, index: u32) -> bool
        ensures { result ≡ option_map_or (is_free_at self.now.locks self.now.kinds thread.0 index)
            (slice_get (script_of self.now.kinds thread.0) index) false }
    {
        self.scripts.is_free(thread, index)
    }

    /// The part of an operation of a thread.
    pub(crate) fn part(&self, thread: ThreadId, index: u32) -> Part
        ensures { result ≡ part_at self.now.parts thread.0 index }
    {
        part_at(&self.parts, usize::from(thread.0), index as usize)
    }
}
