//! The open blocks of a thread behind the first operations of its script.
ghost use Rattle.std.specs.Prelude.{◌≡◌, ◌∷◌, [], count_by, not, reverse, if◌then◌else◌, IfOk, OnOk};
ghost use Rattle.std.specs.List.{list_any};
ghost use Rattle.velo_filter.specs.Tables.{left_of};
ghost use Rattle.velo_search.specs.Parts.{innermost, open_after, part_of, without_innermost, Inside, Outside};

use crate::part::Part;
use std::alloc::Global;
use velo_events::growth::reserve;
use velo_events::{Kind, Memory};
use velo_filter::LeftOut;

/// The open blocks of a thread, and which of them are left out.
#[derive(Drop)]
pub(crate) struct OpenBlocks {
    /// Of each block whether it is left out, the innermost last.
    outs: Vec<bool>,
    /// How many of them stay.
    staying: usize,
    ghost count: { staying ≡ count_by not outs.items },
}

impl OpenBlocks {
    /// None.
    pub(crate) fn none(alloc: Global) -> OpenBlocks
        ensures { result.outs.items ≡ [] }
    {
        OpenBlocks {
            outs: Vec::new(alloc),
            staying: 0,
        }
    }

    /// Opens a block, which is left out or not.
    fn open(&mut self, out: bool) -> Result<(), Memory>
        ensures { OnOk result (reverse self.new.outs.items ≡ out ∷ reverse self.old.outs.items) }
    {
        reserve(&mut self.outs, 1)?;
        self.outs.push_reserved(out);
        if !out {
            self.staying += 1;
        }
        Ok(())
    }

    /// Ends the innermost block, if there is one. Whether it is left out.
    fn close(&mut self) -> bool
        ensures out { result ≡ innermost (reverse self.old.outs.items) }
        ensures blocks { reverse self.new.outs.items ≡ without_innermost (reverse self.old.outs.items) }
    {
        let Some(out) = self.outs.pop() else {
            return false;
        };
        if !out {
            self.staying -= 1;
        }
        out
    }

    /// The part of an operation behind which the blocks are these, if it is not left out.
    fn place(&self) -> Part
        ensures { result ≡ (if list_any not (reverse self.now.outs.items) then Inside else Outside) }
    {
        if self.staying > 0 {
            Part::Inside
        } else {
            Part::Outside
        }
    }

    /// Takes in one more operation. Its part in what is left.
    ///
    /// # Errors
    /// `Memory` where a growth was refused.
    pub(crate) fn take_in(&mut self, left: &LeftOut, kind: Kind) -> Result<Part, Memory>
        ensures part { IfOk result (λ part. part ≡ part_of (left_of left.now) (reverse self.old.outs.items) kind) }
        ensures blocks { OnOk result (reverse self.new.outs.items ≡
            open_after (left_of left.now) (reverse self.old.outs.items) kind) }
    {
        let out = match kind {
            Kind::Begin(label) => {
                let out = left.has_label(label);
                self.open(out)?;
                out
            }
            Kind::End => self.close(),
            _ => left.has_access(kind),
        };
        if out {
            Ok(Part::LeftOut)
        } else {
            Ok(self.place())
        }
    }
}
