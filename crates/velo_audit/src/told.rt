//! What a round reports of the alarm of the rest, by the log as read.
ghost use Rattle.std.specs.Prelude.{◌≡◌, ◌<◌, length, map, slice_index, All, IfOk};
ghost use Rattle.velo_traces.specs.Blocks.{block_at};
ghost use Rattle.velo_world.specs.World.{IsAlarm};
ghost use Rattle.velo_audit.specs.Tells.{Tells, blocks_told};
ghost use Rattle.velo_audit.specs.Witness.{block_as_read, WitnessTells};

use crate::witness::{block_as_read, place_at, witness_of};
use std::alloc::Global;
use velo_events::growth::with_capacity;
use velo_events::{Event, Kind, Label, Memory};
use velo_explain::Evidence;
use velo_traces::{Block, Trace};
use velo_world::Alarm;

/// What a round reports. Its positions are those of the log as read.
#[derive(Drop)]
pub struct Told {
    /// Of the event that closes the first cycle of the rest.
    pub closing: usize,
    /// Of the first event of its transaction in the rest.
    pub transaction: usize,
    /// The blocks that are reported, outermost first.
    pub blocks: Vec<Block>,
    /// Whether they are to blame. If not, there is one, with which the transaction begins.
    pub to_blame: bool,
    /// What explains the alarm, if this was asked for.
    pub witness: Option<Evidence>,
}

/// What is reported of the alarm of the rest, with a witness if this is asked for.
pub(crate) fn told_of(
    alloc: Global,
    with_witness: bool,
    what: &Trace,
    places: &[u32],
    alarm: &Alarm,
) -> Result<Told, Memory>
    requires alarm { IsAlarm what.now.events alarm.now }
    requires as_many { length places.now ≡ length what.now.events }
    ensures { IfOk result (λ told. Tells with_witness what.now.events places.now alarm.now told) }
{
    let blocks = blocks_told(alloc, what.as_slice(), places, alarm)?;
    let witness = witness_if_asked(alloc, with_witness, what, places, alarm)?;
    Ok(Told {
        closing: place_at(places, alarm.position),
        transaction: place_at(places, alarm.transaction),
        blocks,
        to_blame: !alarm.blamed.is_empty(),
        witness,
    })
}

/// What explains the alarm, if it is asked for.
fn witness_if_asked(
    alloc: Global,
    with_witness: bool,
    what: &Trace,
    places: &[u32],
    alarm: &Alarm,
) -> Result<Option<Evidence>, Memory>
    requires alarm { IsAlarm what.now.events alarm.now }
    requires as_many { length places.now ≡ length what.now.events }
    ensures { IfOk result (λ witness. WitnessTells with_witness what.now.events places.now alarm.now witness) }
{
    if !with_witness {
        return Ok(None);
    }
    let evidence = witness_of(alloc, what, places, alarm)?;
    Ok(Some(evidence))
}

/// The blocks to blame or, where none is, the outermost block of the closing transaction.
fn blocks_told(
    alloc: Global,
    events: &[Event],
    places: &[u32],
    alarm: &Alarm,
) -> Result<Vec<Block>, Memory>
    requires alarm { IsAlarm events.now alarm.now }
    requires as_many { length places.now ≡ length events.now }
    ensures { IfOk result (λ blocks. blocks.items ≡ blocks_told events.now places.now alarm.now) }
{
    let blamed = alarm.blamed.as_slice();
    if blamed.is_empty() {
        return all_as_read(alloc, places, &[first_block(events, alarm.transaction)]);
    }
    all_as_read(alloc, places, blamed)
}

/// The block that begins at the position.
fn first_block(events: &[Event], first: usize) -> Block
    requires { first < length events.now }
    ensures { result ≡ block_at events.now first }
{
    match events[first].kind {
        Kind::Begin(label) => Block { first, label },
        _ => Block {
            first,
            label: Label(0),
        },
    }
}

/// The blocks as they stand in the log as read.
fn all_as_read(alloc: Global, places: &[u32], blocks: &[Block]) -> Result<Vec<Block>, Memory>
    requires { All (λ block. block.first < length places.now) blocks.now }
    ensures { IfOk result (λ read. read.items ≡ map (block_as_read (slice_index places.now)) blocks.now) }
{
    let mut read = with_capacity(alloc, blocks.len())?;
    for block in blocks {
        read.push_reserved(block_as_read(places, *block));
    }
    Ok(read)
}
