//! The open blocks of a thread, found in one pass from the end of a trace towards its start.
ghost use Rattle.std.specs.Prelude.{◌≡◌, ◌≤◌, ◌<◌, ◌+◌, [], ◌∷◌, ℕ, IsFalse, length, map};
ghost use Rattle.velo_events.specs.declared.limits.TheConstants.{MAX_OPEN_BLOCKS};
ghost use Rattle.velo_events.specs.Block.{is_open_at, open_blocks};
ghost use Rattle.velo_events.specs.Scan.{LeavesEnds, open_from};
ghost use Rattle.velo_traces.specs.Blocks.{block_at};
ghost use Rattle.velo_traces.specs.Open.{open_block_at};

use crate::block::Block;
use smallvec::SmallVec;
use std::alloc::Global;
use velo_events::{Event, Kind, MAX_OPEN_BLOCKS, ThreadId};

/// Puts a block before the others. There is room for it.
fn put_first(blocks: &mut SmallVec<Block, MAX_OPEN_BLOCKS>, block: Block)
    requires room { length blocks.old.items < MAX_OPEN_BLOCKS }
    requires inline { blocks.old.capacity ≡ MAX_OPEN_BLOCKS }
    ensures items { blocks.new.items ≡ block ∷ blocks.old.items }
    ensures inline { blocks.new.capacity ≡ MAX_OPEN_BLOCKS }
{
    match blocks.insert(0, block) {
        Ok(()) => {}
        Err(_) => unreachable!(),
    }
}

/// What a scan from the end of a trace finds at a position.
#[derive(Clone, Copy)]
pub struct ScannedBack {
    /// The ends of the thread from here on that wait for a begin further up.
    pub ends: usize,
    /// The block that begins here, if it is open at the end of the trace.
    pub block: Option<Block>,
}

/// Looks at the event at a position, by the ends that wait after it: a begin that meets one is closed, another is open.
pub fn scan_back(events: &[Event], thread: ThreadId, at: usize, ends: usize) -> ScannedBack
    requires within { at < length events.now }
    requires few_ends { ends + at < length events.now }
    requires ends { LeavesEnds events.now thread.0 (at + 1) ends }
    ensures few_ends { result.ends + at ≤ length events.now }
    ensures ends { LeavesEnds events.now thread.0 at result.ends }
    ensures block { result.block ≡ open_block_at events.now thread.0 at }
{
    let event = events[at];
    if event.thread != thread {
        return ScannedBack { ends, block: None };
    }
    match event.kind {
        Kind::End => ScannedBack {
            ends: ends + 1,
            block: None,
        },
        Kind::Begin(label) => {
            if ends > 0 {
                return ScannedBack {
                    ends: ends - 1,
                    block: None,
                };
            }
            ScannedBack {
                ends,
                block: Some(Block { first: at, label }),
            }
        }
        _ => ScannedBack { ends, block: None },
    }
}

/// Puts the block that begins at a position before the others, if it is open at the end. The answer is the number of ends
/// that wait for a begin further up.
fn take_in(
    events: &[Event],
    thread: ThreadId,
    at: usize,
    ends: usize,
    blocks: &mut SmallVec<Block, MAX_OPEN_BLOCKS>,
) -> usize
    requires within { at < length events.now }
    requires few_ends { ends + at < length events.now }
    requires few_blocks { length (open_blocks events.now thread.0) ≤ MAX_OPEN_BLOCKS }
    requires ends { LeavesEnds events.now thread.0 (at + 1) ends }
    requires blocks { blocks.old.items ≡ map (block_at events.now) (open_from events.now thread.0 (at + 1)) }
    requires inline { blocks.old.capacity ≡ MAX_OPEN_BLOCKS }
    ensures few_ends { result + at ≤ length events.now }
    ensures ends { LeavesEnds events.now thread.0 at result }
    ensures blocks { blocks.new.items ≡ map (block_at events.now) (open_from events.now thread.0 at) }
    ensures inline { blocks.new.capacity ≡ MAX_OPEN_BLOCKS }
{
    let found = scan_back(events, thread, at, ends);
    if let Some(block) = found.block {
        put_first(blocks, block);
    }
    found.ends
}

/// The blocks of a thread that are open at the end of the events, outermost first. At most [`MAX_OPEN_BLOCKS`] may be
/// open.
pub fn open_blocks_in(
    events: &[Event],
    thread: ThreadId,
    alloc: Global,
) -> SmallVec<Block, MAX_OPEN_BLOCKS>
    requires { length (open_blocks events.now thread.0) ≤ MAX_OPEN_BLOCKS }
    ensures { result.items ≡ map (block_at events.now) (open_blocks events.now thread.0) }
{
    open_blocks_since(events, thread, 0, alloc)
}

/// The blocks of a thread that are open at the end of the events, outermost first, where at most [`MAX_OPEN_BLOCKS`]
/// are open and none of them begins before the position `first`. It looks at no event before that position.
pub fn open_blocks_since(
    events: &[Event],
    thread: ThreadId,
    first: usize,
    alloc: Global,
) -> SmallVec<Block, MAX_OPEN_BLOCKS>
    requires few { length (open_blocks events.now thread.0) ≤ MAX_OPEN_BLOCKS }
    requires none_before { (b : ℕ) → b < first → IsFalse (is_open_at events.now thread.0 b (length events.now)) }
    ensures { result.items ≡ map (block_at events.now) (open_blocks events.now thread.0) }
{
    let mut blocks = SmallVec::new(alloc);
    let mut ends: usize = 0;
    let mut at = events.len();
    while at > first {
        at -= 1;
        ends = take_in(events, thread, at, ends, &mut blocks);
    }
    blocks
}
