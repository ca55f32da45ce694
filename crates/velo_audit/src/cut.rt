//! A cut: a place in the log from which a round may go on.
ghost use Rattle.std.specs.Prelude.{◌≡◌, ◌<◌, ◌≤◌, ◌+◌, List, All, IfOk, OnOk, IsFalse, length, map};
ghost use Rattle.velo_events.specs.declared.event.Event.{Event as EventOf};
ghost use Rattle.velo_traces.specs.declared.block.Block.{Block as BlockOf};
ghost use Rattle.velo_filter.specs.Left.{Omitted, with_labels};
ghost use Rattle.velo_filter.specs.Tables.{members};
ghost use Rattle.velo_audit.specs.Cut.{AreBegun, IsCut};

use std::alloc::Global;
use velo_events::{Event, Kind, Memory};
use velo_filter::{LabelSet, no_marks};
use velo_traces::{Block, Trace};

/// A place in the log where no block of the rest is open, and before which the rest has no cycle.
#[derive(Drop)]
pub struct Cut {
    /// How many events of the log come before it.
    pub place: usize,
    /// For each thread, which of its blocks that are open there in the log are left out.
    pub marks: Vec<u64>,
    /// A log without a block, after which the events of the rest after the cut may happen.
    pub prologue: Trace,
    /// The labels that are begun before it.
    pub begun: LabelSet,
}

impl Cut {
    /// The cut before all events.
    pub fn at_start(alloc: Global) -> Result<Cut, Memory>
        ensures { IfOk result (λ cut. (left : Omitted) (log : List EventOf) → IsCut left log cut) }
    {
        let marks = no_marks(alloc)?;
        Ok(Cut {
            place: 0,
            marks,
            prologue: Trace::new(alloc),
            begun: LabelSet::new(alloc),
        })
    }

    /// Follows a round in which the labels of these blocks were left out: if one of them is begun before
    /// the cut, there is another rest before it, and the cut goes back to the start.
    pub fn follow(&mut self, alloc: Global, blocks: &[Block]) -> Result<(), Memory>
        ensures { OnOk result ((left : Omitted) (log : List EventOf) → IsCut left log self.old
            → IsCut (with_labels left (map (λ (b : BlockOf). b.label.0) blocks.now)) log self.new) }
    {
        if self.has_begun(blocks) {
            *self = Cut::at_start(alloc)?;
        }
        Ok(())
    }

    /// Whether a label of these blocks is begun before the cut.
    fn has_begun(&self, blocks: &[Block]) -> bool
        ensures { IsFalse result
            → All (λ (b : BlockOf). IsFalse (members self.now.begun b.label.0)) blocks.now }
    {
        for block in blocks {
            if self.begun.contains(block.label) {
                return true;
            }
        }
        false
    }
}

/// Adds the labels that are begun from a place to a later one to those begun before it.
pub fn add_begun(
    begun: &mut LabelSet,
    events: &[Event],
    from: usize,
    to: usize,
) -> Result<(), Memory>
    requires rising { from ≤ to }
    requires within { to ≤ length events.now }
    requires begun { AreBegun (members begun.old) events.now from }
    ensures { OnOk result (AreBegun (members begun.new) events.now to) }
{
    for position in from..to {
        add_label(begun, events, position)?;
    }
    Ok(())
}

/// Adds the label that is begun at the position, if one is.
fn add_label(begun: &mut LabelSet, events: &[Event], position: usize) -> Result<(), Memory>
    requires within { position < length events.now }
    requires begun { AreBegun (members begun.old) events.now position }
    ensures { OnOk result (AreBegun (members begun.new) events.now (position + 1)) }
{
    let Kind::Begin(label) = events[position].kind else {
        return Ok(());
    };
    begun.insert(label)?;
    Ok(())
}
