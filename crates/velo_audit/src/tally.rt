//! How many blocks of a label are to blame.
ghost use Rattle.std.specs.Prelude.{◌≡◌, ◌+◌, ◌<◌, ◌^◌, ◌&&◌, not, if◌then◌else◌};
ghost use Rattle.velo_audit.specs.Marks.{AreMarks};
ghost use Rattle.velo_audit.specs.Tally.{IsTally, begins_label};

use crate::marks::BlameMarks;
use velo_events::{Event, Kind, Label};
use velo_traces::Trace;

/// The blocks of a label in a log.
#[derive(Clone, Copy, PartialEq, Eq)]
pub struct LabelTally {
    /// How many there are.
    pub blocks: usize,
    /// How many of them are to blame.
    pub blamed: usize,
    /// How many of these have no block inside them that is to blame.
    pub innermost: usize,
}

/// Whether the event begins a block with the label.
fn begins(event: &Event, label: Label) -> bool
    ensures { result ≡ begins_label label.0 event.now.kind }
{
    match event.kind {
        Kind::Begin(its) => its == label,
        _ => false,
    }
}

/// With one position more: whether a block of the label begins there, whether one that is to blame
/// does, and whether one around another that is does.
fn counted(tally: LabelTally, block: bool, blamed: bool, around: bool) -> LabelTally
    requires blocks { tally.blocks + 1 < 2 ^ 64 }
    requires blamed { tally.blamed + 1 < 2 ^ 64 }
    requires innermost { tally.innermost + 1 < 2 ^ 64 }
    ensures blocks { result.blocks ≡ tally.blocks + (if block then 1 else 0) }
    ensures blamed { result.blamed ≡ tally.blamed + (if block && blamed then 1 else 0) }
    ensures innermost { result.innermost
        ≡ tally.innermost + (if block && (blamed && not around) then 1 else 0) }
{
    let mut counted = tally;
    if block {
        counted.blocks += 1;
        if blamed {
            counted.blamed += 1;
            if !around {
                counted.innermost += 1;
            }
        }
    }
    counted
}

/// Counts the blocks of a label, by the marks of the log: one pass over it.
pub fn tally_of(log: &Trace, marks: &BlameMarks, label: Label) -> LabelTally
    requires { AreMarks log.now.events marks.now }
    ensures { IsTally log.now.events label.0 result }
{
    let events = log.as_slice();
    let mut tally = LabelTally {
        blocks: 0,
        blamed: 0,
        innermost: 0,
    };
    for at in 0..events.len() {
        let block = begins(&events[at], label);
        tally = counted(tally, block, marks.blamed[at], marks.around[at]);
    }
    tally
}
