//! Reading a schedule: as thread numbers alone, or as turns.
ghost use Rattle.std.specs.Prelude.{◌≡◌, ◌≤◌, ◌+◌, ◌<◌, ◌++◌, replicate, vec_len, Err, OnOk, IfOk, IfErr};
ghost use Rattle.velo_events.specs.Refusals.{GrowthRefused};
ghost use Rattle.velo_schedule_text.specs.declared.schedule.ScheduleFault.TheVariants as schedule_fault;
ghost use Rattle.velo_schedule_text.specs.Schedule.{IsFaultOfSchedule, IsFaultOfTurns, IsSchedule, SaysTurns};

use crate::limits::MAX_TURNS;
use crate::turns::{Turns, turns_in};
use std::alloc::Global;
use thiserror::Error;
use velo_events::growth::resize;
use velo_events::{Memory, ThreadId};

/// Why a text is no schedule.
#[derive(Clone, Copy, Debug, PartialEq, Eq, Error)]
pub enum ScheduleFault {
    /// It is the text of no schedule: see [`schedule_of`] and [`turns_of`].
    #[error("bad schedule")]
    Bad,
    /// An allocation failed.
    #[error("out of memory")]
    Memory,
}

/// Adds the turns of a word to a schedule.
fn push(schedule: &mut Vec<ThreadId>, turns: Turns) -> Result<(), ScheduleFault>
    ensures pushed { OnOk result (schedule.new.items ≡ schedule.old.items ++ replicate turns.count turns.thread) }
    ensures few { OnOk result (vec_len schedule.new ≤ MAX_TURNS) }
    ensures full { result ≡ Err schedule_fault.Bad → MAX_TURNS < vec_len schedule.old + turns.count }
    ensures memory { result ≡ Err schedule_fault.Memory → GrowthRefused }
{
    let len = schedule.len();
    if len > MAX_TURNS || turns.count > MAX_TURNS - len {
        return Err(ScheduleFault::Bad);
    }
    match resize(schedule, len + turns.count, turns.thread) {
        Ok(()) => Ok(()),
        Err(Memory) => Err(ScheduleFault::Memory),
    }
}

/// Reads a schedule of turns: the threads whose turns come one after another. The text has words
/// separated by one space. A word is a thread's number, below
/// [`MAX_THREADS`](velo_events::MAX_THREADS), for one turn, or such a number, a star and how many
/// turns, 2 or more. Numbers have no leading zeros. There are at most [`MAX_TURNS`] turns in all;
/// the empty text is the empty schedule.
///
/// # Errors
/// `Bad` for another text, `Memory` if an allocation failed.
pub fn turns_of(alloc: Global, text: &str) -> Result<Vec<ThreadId>, ScheduleFault>
    ensures schedule { IfOk result (λ schedule. SaysTurns text.now schedule.items) }
    ensures fault { IfErr result (IsFaultOfTurns text.now) }
{
    let mut schedule = Vec::new(alloc);
    if text.is_empty() {
        return Ok(schedule);
    }
    for word in text.split(' ') {
        let Some(turns) = turns_in(word.as_bytes()) else {
            return Err(ScheduleFault::Bad);
        };
        match push(&mut schedule, turns) {
            Ok(()) => {}
            Err(fault) => return Err(fault),
        }
    }
    Ok(schedule)
}

/// Reads a schedule of thread numbers alone, one for each turn. They are below
/// [`MAX_THREADS`](velo_events::MAX_THREADS), have no leading zeros and are separated by one space.
/// There are at most [`MAX_TURNS`]; the empty text is the empty schedule. So these are the texts
/// that [`turns_of`] takes and that have no star.
///
/// # Errors
/// `Bad` for another text, `Memory` if an allocation failed.
pub fn schedule_of(alloc: Global, text: &str) -> Result<Vec<ThreadId>, ScheduleFault>
    ensures schedule { IfOk result (λ schedule. IsSchedule text.now schedule.items) }
    ensures fault { IfErr result (IsFaultOfSchedule text.now) }
{
    if text.contains('*') {
        return Err(ScheduleFault::Bad);
    }
    turns_of(alloc, text)
}
