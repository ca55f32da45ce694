//! One word of a schedule's text.
ghost use Rattle.std.specs.Prelude.{◌≡◌};
ghost use Rattle.velo_schedule_text.specs.Words.{count_in, turns_in};

use crate::limits::MAX_TURNS;
use velo_bytes::{after, number};
use velo_events::{MAX_THREADS, ThreadId};

/// Turns of one thread that come one after another.
#[derive(Clone, Copy, PartialEq, Eq)]
pub(crate) struct Turns {
    /// Whose turns.
    pub thread: ThreadId,
    /// How many.
    pub count: usize,
}

/// How many turns a word means, by what follows the thread's number.
fn count_in(rest: &[u8]) -> Option<usize>
    ensures { result ≡ count_in rest.now }
{
    if rest.is_empty() {
        return Some(1);
    }
    let digits = after(rest, b"*")?;
    let (count, rest) = number(digits, MAX_TURNS as u64)?;
    if rest.is_empty() && count >= 2 {
        Some(count as usize)
    } else {
        None
    }
}

/// The turns that a word says.
pub(crate) fn turns_in(word: &[u8]) -> Option<Turns>
    ensures { result ≡ turns_in word.now }
{
    let (thread, rest) = number(word, u64::from(MAX_THREADS - 1))?;
    let count = count_in(rest)?;
    Some(Turns {
        thread: ThreadId(thread as u8),
        count,
    })
}
