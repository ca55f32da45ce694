//! An alarm of what is left of a log, at the positions of the whole log.
ghost use Rattle.std.specs.Prelude.{◌≡◌, ◌<◌, length, map, slice_index, All, IfOk};
ghost use Rattle.velo_audit.specs.Witness.{block_as_read};
ghost use Rattle.velo_watch.specs.Alarm.{IsAlarmWithin, IsMoved};

use smallvec::SmallVec;
use std::alloc::Global;
use velo_events::Memory;
use velo_events::growth::with_capacity;
use velo_traces::Block;
use velo_world::Alarm;

/// The same blocks, at the positions of the whole log.
fn blocks_as_read(alloc: Global, blocks: &[Block], places: &[u32]) -> Result<Vec<Block>, Memory>
    requires { All (λ block. block.first < length places.now) blocks.now }
    ensures { IfOk result (λ moved.
        moved.items ≡ map (block_as_read (slice_index places.now)) blocks.now) }
{
    let mut moved = with_capacity(alloc, blocks.len())?;
    for block in blocks {
        moved.push_reserved(Block {
            first: places[block.first] as usize,
            label: block.label,
        });
    }
    Ok(moved)
}

/// The same alarm, at the positions of the whole log: what is left stands at these places there.
///
/// # Errors
/// `Memory` where a growth was refused.
pub fn alarm_as_read(alloc: Global, alarm: &Alarm, places: &[u32]) -> Result<Alarm, Memory>
    requires { IsAlarmWithin (length places.now) alarm.now }
    ensures { IfOk result (IsMoved (slice_index places.now) alarm.now) }
{
    let blamed = blocks_as_read(alloc, alarm.blamed.as_slice(), places)?;
    Ok(Alarm {
        position: places[alarm.position] as usize,
        transaction: places[alarm.transaction] as usize,
        blamed: SmallVec::from_vec(blamed),
    })
}
