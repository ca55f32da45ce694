//! A step or none, in eight bytes.
ghost use Rattle.std.specs.Prelude.{◌≡◌, None, map, option_map, slice_index_or};
ghost use Rattle.velo_arena.specs.Heirs.{renamed};

use std::marker::Model;
use velo_arena::{Heir, Step};

/// A step or none, in eight bytes.
#[derive(Clone, Copy)]
pub(crate) struct Entry {
    slot: u16,
    is_there: bool,
    stamp: u32,
}

impl Model for Entry {
    ghost use Rattle.std.specs.Prelude.{Option};
    ghost use Rattle.velo_arena.specs.declared.step.Step.{Step};

    ghost Value = { Option Step };

    ghost use Rattle.velo_tables.specs.Entry.{step_in, IsBlankOrThere, entry_of, entry_of-step_in};

    ghost view = { step_in };

    ghost invariant = { IsBlankOrThere };

    ghost inverse = { entry_of };

    ghost inverse_ok = { entry_of-step_in };
}

impl Entry {
    /// The entry of the step, or of none.
    pub fn new(step: Option<Step>) -> Entry
        ensures { result ≡ step }
    {
        match step {
            Some(step) => Entry {
                slot: step.slot,
                is_there: true,
                stamp: step.stamp,
            },
            None => Entry {
                slot: 0,
                is_there: false,
                stamp: 0,
            },
        }
    }

    /// The step, if there is one.
    pub fn step(self) -> Option<Step>
        ensures { result ≡ self }
    {
        if self.is_there {
            Some(Step {
                slot: self.slot,
                stamp: self.stamp,
            })
        } else {
            None
        }
    }

    /// The entry with its step by its heir.
    pub fn renamed(self, heirs: &[Option<Heir>]) -> Entry
        ensures { result ≡ option_map (renamed heirs.now) self }
    {
        match self.step() {
            Some(step) => Entry::new(Some(step.renamed(heirs))),
            None => self,
        }
    }
}

/// The step of the entry with this number, or none where there is no room for it.
pub(crate) fn entry_at(entries: &[Entry], number: usize) -> Option<Step>
    ensures { result ≡ slice_index_or entries.now number None }
{
    if number < entries.len() {
        let entry = entries[number];
        entry.step()
    } else {
        None
    }
}

/// Puts each step by its heir.
pub(crate) fn rename_entries(entries: &mut [Entry], heirs: &[Option<Heir>])
    ensures { entries.new ≡ map (option_map (renamed heirs.now)) entries.old }
{
    for number in 0..entries.len() {
        let entry = entries[number];
        entries[number] = entry.renamed(heirs);
    }
}
