//! Writing a schedule in as few words as there can be.
ghost use Rattle.std.specs.Prelude.{◌≡◌, ◌≤◌, ◌<◌, ◌++◌, ◌∷◌, drop, length, OnOk};
ghost use Rattle.velo_schedule_text.specs.Schedule.{spaced, turns_text};
ghost use Rattle.velo_schedule_text.specs.Short.{stretches_of};

use crate::turns::Turns;
use velo_bytes::{append, append_number};
use velo_events::{Memory, ThreadId};

/// Appends a word.
fn append_word(text: &mut Vec<u8>, turns: Turns) -> Result<(), Memory>
    ensures { OnOk result (text.new.items ≡ text.old.items ++ turns_text turns) }
{
    append_number(text, u64::from(turns.thread.0))?;
    if turns.count == 1 {
        return Ok(());
    }
    append(text, b"*")?;
    append_number(text, turns.count as u64)
}

/// The turns at the front that are all of one thread.
fn first_turns(schedule: &[ThreadId]) -> Turns
    requires { 0 < length schedule.now }
    ensures first { stretches_of schedule.now ≡ result ∷ stretches_of (drop result.count schedule.now) }
    ensures some { 1 ≤ result.count }
    ensures within { result.count ≤ length schedule.now }
{
    let thread = schedule[0];
    let mut count = 1;
    while count < schedule.len() && schedule[count] == thread {
        count += 1;
    }
    Turns { thread, count }
}

/// Appends the short text of a schedule, each word after a space: longest stretches of turns of one
/// thread, a star from two turns on.
///
/// # Errors
/// `Memory` if an allocation failed.
pub fn append_turns(text: &mut Vec<u8>, schedule: &[ThreadId]) -> Result<(), Memory>
    ensures { OnOk result (text.new.items ≡ text.old.items ++ spaced (stretches_of schedule.now)) }
{
    let mut rest = schedule;
    while !rest.is_empty() {
        let turns = first_turns(rest);
        append(text, b" ")?;
        append_word(text, turns)?;
        rest = &rest[turns.count..];
    }
    Ok(())
}
