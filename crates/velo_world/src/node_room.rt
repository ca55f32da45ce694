//! The room for the node of an event.
ghost use Rattle.std.specs.Prelude.{OnOk, OnErr, ◌≡◌};
ghost use Rattle.velo_events.specs.WellFormed.{MayFollow};
ghost use Rattle.velo_monitor.specs.Collection.{HasManyLive};
ghost use Rattle.velo_world.specs.World.{FindsNoNode};
ghost use Rattle.velo_world.specs.NodeRoom.{IsLimitedMonitorOf, HasSlot};

use velo_arena::GraphFull;
use velo_events::{Config, Event};
use velo_monitor::Monitor;

/// Makes room for the node of the next event, if it needs one: where all that there may be are in use, the graph is compacted.
/// The events are those that the monitor took in.
///
/// # Errors
/// `GraphFull` where these are too few for a compaction. Nothing changes then.
#[inline(always)]
pub fn make_node_room(
    monitor: &mut Monitor,
    events: &[Event],
    event: &Event,
    config: &Config,
) -> Result<(), GraphFull>
    requires stands { IsLimitedMonitorOf config.now monitor.old events.now }
    requires follows { MayFollow config.now.bounds events.now event.now }
    ensures stands { IsLimitedMonitorOf config.now monitor.new events.now }
    ensures slot { OnOk result (HasSlot monitor.new events.now event.now) }
    ensures full { OnErr result (FindsNoNode config.now.bounds.threads events.now event.now config.now.nodes) }
    ensures same { OnErr result (monitor.new ≡ monitor.old) }
{
    if monitor.used() < config.nodes {
        return Ok(());
    }
    compact_for(monitor, events, event, config)
}

/// Makes the room where all nodes that there may be are in use. If they are enough for it, a compaction leaves one for the
/// event.
#[inline(never)]
fn compact_for(
    monitor: &mut Monitor,
    events: &[Event],
    event: &Event,
    config: &Config,
) -> Result<(), GraphFull>
    requires many { HasManyLive events.now config.now.nodes }
    requires stands { IsLimitedMonitorOf config.now monitor.old events.now }
    requires follows { MayFollow config.now.bounds events.now event.now }
    ensures stands { IsLimitedMonitorOf config.now monitor.new events.now }
    ensures slot { OnOk result (HasSlot monitor.new events.now event.now) }
    ensures full { OnErr result (FindsNoNode config.now.bounds.threads events.now event.now config.now.nodes) }
    ensures same { OnErr result (monitor.new ≡ monitor.old) }
{
    if !monitor.needs_node(event) {
        return Ok(());
    }
    let threads = config.bounds.threads as u16;
    if config.nodes < threads * threads {
        return Err(GraphFull);
    }
    monitor.compact(events);
    Ok(())
}
