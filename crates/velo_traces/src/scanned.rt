//! The open blocks of a thread, scanned event by event from the start of a trace.
ghost use Rattle.std.specs.Prelude.{◌≤◌, ◌+◌, ◌<◌, length};
ghost use Rattle.velo_events.specs.Scan.{IsScanned};

use velo_events::{Event, Kind, ThreadId};

/// What is known of a thread's open blocks before some position of a trace.
#[derive(Clone, Copy)]
pub struct ThreadBlocks {
    /// How many are open.
    pub depth: usize,
    /// Where the outermost begins, if one is open.
    pub first: usize,
}

/// The open blocks of a thread after the event at a position, by those before it.
pub fn blocks_after(
    events: &[Event],
    thread: ThreadId,
    at: usize,
    blocks: ThreadBlocks,
) -> ThreadBlocks
    requires within { at < length events.now }
    requires small { blocks.depth ≤ at }
    requires scanned { IsScanned events.now thread.0 at blocks.depth blocks.first }
    ensures small { result.depth ≤ at + 1 }
    ensures scanned { IsScanned events.now thread.0 (at + 1) result.depth result.first }
{
    let event = events[at];
    if event.thread != thread {
        return blocks;
    }
    match event.kind {
        Kind::Begin(_) => {
            if blocks.depth == 0 {
                ThreadBlocks {
                    depth: 1,
                    first: at,
                }
            } else {
                ThreadBlocks {
                    depth: blocks.depth + 1,
                    ..blocks
                }
            }
        }
        Kind::End => ThreadBlocks {
            depth: blocks.depth.saturating_sub(1),
            ..blocks
        },
        _ => blocks,
    }
}
