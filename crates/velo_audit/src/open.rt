//! The blocks that a thread has open, one event after another.
ghost use Rattle.std.specs.Prelude.{◌≡◌, ◌+◌, ◌++◌, ◌∷◌, [], List, Some, slice_get, OnOk};
ghost use Rattle.velo_events.specs.declared.event.Event.{Event as EventOf};
ghost use Rattle.velo_events.specs.Event.{thread_of};
ghost use Rattle.velo_audit.specs.Open.{AreOpen};

use velo_events::growth::reserve;
use velo_events::{Event, Kind, Memory};

/// Adds a block.
fn add(blocks: &mut Vec<usize>, at: usize) -> Result<(), Memory>
    ensures { OnOk result (blocks.new.items ≡ blocks.old.items ++ at ∷ []) }
{
    reserve(blocks, 1)?;
    blocks.push_reserved(at);
    Ok(())
}

/// The open blocks of the event's thread after it, outermost first, from those before it.
pub(crate) fn follow(blocks: &mut Vec<usize>, event: Event, at: usize) -> Result<(), Memory>
    ensures { OnOk result ((log : List EventOf) → slice_get log at ≡ Some event
        → AreOpen log (thread_of event) at blocks.old.items
        → AreOpen log (thread_of event) (at + 1) blocks.new.items) }
{
    match event.kind {
        Kind::Begin(_) => add(blocks, at),
        Kind::End => {
            let _ = blocks.pop();
            Ok(())
        }
        _ => Ok(()),
    }
}
