//! The event that closes the first cycle of a log, and its alarm.
ghost use Rattle.std.specs.Prelude.{◌≡◌, ◌≤◌, IfOk, length, take};
ghost use Rattle.velo_events.specs.declared.limits.TheConstants.{MAX_EVENTS};
ghost use Rattle.velo_events.specs.WellFormed.{IsWellFormed};
ghost use Rattle.velo_tables.specs.Clocks.{AreClocksOf};
ghost use Rattle.velo_world.specs.World.{AlarmOf, IsAlarm};
ghost use Rattle.velo_world.specs.FirstCycle.{AreNoted, ClosesFirst, IsFirstClosing};

use crate::analysis::Alarm;
use std::alloc::Global;
use velo_blame::Clocks;
use velo_events::{Config, Event, Memory, Resolved};
use velo_traces::open_blocks_since;

/// The event that closes the first cycle of a log.
#[derive(Clone, Copy, PartialEq, Eq)]
pub struct Closing {
    /// Its position in the log.
    pub position: usize,
    /// The first position of its transaction.
    pub transaction: usize,
}

/// The alarm of the event that closes the first cycle of the log. The clocks are those of the events before it.
pub fn alarm_at(alloc: Global, clocks: &Clocks, events: &[Event], closing: Closing) -> Alarm
    requires closes { ClosesFirst events.now closing }
    requires well_formed { IsWellFormed clocks.now.bounds events.now }
    requires clocks { AreClocksOf clocks.now.state (take closing.position events.now) }
    ensures alarm { IsAlarm events.now result }
    ensures position { result.position ≡ closing.position }
{
    let position = closing.position;
    let event = &events[position];
    // the transaction begins with the outermost of its open blocks
    let so_far = &events[..position + 1];
    let blocks = open_blocks_since(so_far, event.thread, closing.transaction, alloc);
    let blamed = clocks.blamed(&blocks, position, event);
    Alarm {
        position: closing.position,
        transaction: closing.transaction,
        blamed,
    }
}

/// The clocks of a log's events, noted in one pass over them.
///
/// # Errors
/// `Memory` where a growth was refused.
pub fn clocks_of(alloc: Global, config: &Config, events: &[Event]) -> Result<Clocks, Memory>
    requires well_formed { IsWellFormed config.now.bounds events.now }
    requires few { length events.now ≤ MAX_EVENTS }
    ensures bounds { IfOk result (λ clocks. clocks.bounds ≡ config.now.bounds) }
    ensures clocks { IfOk result (λ clocks. AreClocksOf clocks.state events.now) }
{
    let mut clocks = Clocks::new(alloc, config)?;
    for position in 0..events.len() {
        let event = Resolved::of(&events[position]);
        if !clocks.has_room_for(&event) {
            clocks.reserve_for(event.event())?;
        }
        clocks.note_resolved(position, &event);
    }
    Ok(clocks)
}

/// The alarm of a log, and the clocks of the events before it. Without one they are those of all events.
///
/// # Errors
/// `Memory` where a growth was refused.
pub fn noted(
    alloc: Global,
    config: &Config,
    events: &[Event],
    closing: Option<Closing>,
) -> Result<(Clocks, Option<Alarm>), Memory>
    requires closing { IsFirstClosing events.now closing }
    requires well_formed { IsWellFormed config.now.bounds events.now }
    requires few { length events.now ≤ MAX_EVENTS }
    ensures { IfOk result (AreNoted config.now.bounds events.now) }
{
    match closing {
        None => Ok((clocks_of(alloc, config, events)?, None)),
        Some(closing) => {
            let clocks = clocks_of(alloc, config, &events[..closing.position])?;
            let alarm = alarm_at(alloc, &clocks, events, closing);
            Ok((clocks, Some(alarm)))
        }
    }
}

/// The alarm of a log. Clocks are made only where there is one.
///
/// # Errors
/// `Memory` where a growth was refused.
pub fn alarm_of(
    alloc: Global,
    config: &Config,
    events: &[Event],
    closing: Option<Closing>,
) -> Result<Option<Alarm>, Memory>
    requires closing { IsFirstClosing events.now closing }
    requires well_formed { IsWellFormed config.now.bounds events.now }
    requires few { length events.now ≤ MAX_EVENTS }
    ensures { IfOk result (AlarmOf events.now) }
{
    if closing.is_none() {
        return Ok(None);
    }
    let (_, alarm) = noted(alloc, config, events, closing)?;
    Ok(alarm)
}
