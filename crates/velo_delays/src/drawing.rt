//! Delays that are drawn randomly.
ghost use Rattle.std.specs.Prelude.{◌≤◌};

use crate::lookup::{Lookup, Span};
use rand_core::Rng;
use rand_xoshiro::Xoshiro256PlusPlus;
use std::alloc::Global;
use velo_events::growth::reserve;
use velo_events::{Event, Memory, ThreadId};

/// How far back from where a block is cut a transaction is looked for that is held back, and how far the others go on meanwhile.
pub(crate) const WINDOW: usize = 3_000;

/// A change of the recorded order: a thread is stopped within a block, and perhaps another one is held back into it.
#[derive(Clone, Copy)]
pub(crate) struct Delay {
    /// The block that is to be broken.
    pub(crate) block: Span,
    /// The block's thread stops before its event at this position.
    pub(crate) cut: usize,
    /// The position at which the run leaves the log.
    pub(crate) from: usize,
    /// Whether a thread without a lock does a read after which its next action is unknown.
    pub(crate) is_bold: bool,
    /// A thread that waits from there until the block's thread has come to the cut, and then goes on up to this position.
    pub(crate) held: Option<(ThreadId, usize)>,
}

/// A number below this one, or 0.
fn below(random: &mut Xoshiro256PlusPlus, count: usize) -> usize
    ensures { result ≤ count }
{
    (random.next_u64() % (count.max(1) as u64)) as usize
}

/// How many of the spans have the label of the first.
fn count_alike(spans: &[Span], first: usize) -> usize {
    let mut count = 0;
    for at in first..spans.len() {
        if spans[at].label != spans[first].label {
            break;
        }
        count = at - first + 1;
    }
    count
}

/// The position at which a transaction of the thread begins, so many before this one.
fn start_before(
    events: &[Event],
    lookup: &Lookup,
    thread: ThreadId,
    position: usize,
    count: usize,
) -> Option<usize> {
    let mut found = None;
    let mut left = count;
    let least = position.saturating_sub(4 * WINDOW);
    for back in 0..position - least {
        let at = position - 1 - back;
        if left == 0 {
            break;
        }
        let is_its = events.get(at).map_or(false, |event| event.thread == thread);
        if is_its && lookup.starts(at) {
            found = Some(at);
            left -= 1;
        }
    }
    found
}

/// The position at which the thread's next but so many transactions begins, or the number of events.
fn start_after(events: &[Event], lookup: &Lookup, start: usize, count: usize) -> usize {
    let mut place = start;
    let mut left = count;
    for _ in start..events.len() {
        place = lookup.next_of(place);
        if place >= events.len() {
            break;
        }
        if lookup.starts(place) {
            left = left.saturating_sub(1);
            if left == 0 {
                break;
            }
        }
    }
    place
}

/// How many transactions a thread goes on that was held back.
const RUNS: [usize; 5] = [1, 2, 4, 8, 40];

fn draw_held(
    random: &mut Xoshiro256PlusPlus,
    events: &[Event],
    lookup: &Lookup,
    threads: u8,
    block: Span,
    cut: usize,
) -> Option<Delay> {
    let other = ThreadId(below(random, usize::from(threads)) as u8);
    if other == block.thread {
        return None;
    }
    let back = 1 + below(random, 4);
    let from = start_before(events, lookup, other, cut, back)?;
    let count = RUNS.get(below(random, RUNS.len())).copied()?;
    let to = start_after(events, lookup, from, count);
    Some(Delay {
        block,
        cut,
        from,
        is_bold: below(random, 2) == 0,
        held: Some((other, to)),
    })
}

/// A delay into one of the blocks, if there is room in it.
fn draw(
    random: &mut Xoshiro256PlusPlus,
    events: &[Event],
    lookup: &Lookup,
    threads: u8,
    block: Span,
) -> Option<Delay> {
    let steps = 1 + below(random, block.size.saturating_sub(1));
    let cut = lookup.further(block.first, steps);
    if cut > block.last {
        return None;
    }
    if below(random, 2) == 0 {
        return Some(Delay {
            block,
            cut,
            from: cut,
            is_bold: below(random, 2) == 0,
            held: None,
        });
    }
    draw_held(random, events, lookup, threads, block, cut)
}

/// So many delays for the blocks of each label, by where the run leaves the log.
pub(crate) fn draw_all(
    alloc: Global,
    random: &mut Xoshiro256PlusPlus,
    events: &[Event],
    lookup: &Lookup,
    threads: u8,
    tries: u32,
) -> Result<Vec<Delay>, Memory> {
    let mut delays = Vec::new(alloc);
    let spans = &lookup.blocks;
    for first in 0..spans.len() {
        if first > 0 && spans[first - 1].label == spans[first].label {
            continue;
        }
        let count = count_alike(spans, first);
        for _ in 0..tries {
            let Some(block) = spans
                .get(first.saturating_add(below(random, count)))
                .copied()
            else {
                continue;
            };
            if let Some(delay) = draw(random, events, lookup, threads, block) {
                reserve(&mut delays, 1)?;
                delays.push_reserved(delay);
            }
        }
    }
    delays.sort_unstable_by_key(|delay| delay.from);
    Ok(delays)
}
