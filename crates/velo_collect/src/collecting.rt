//! The collection of finished nodes that no unfinished one reaches.
ghost use Rattle.std.specs.Prelude.{◌≡◌, ◌≤◌, [], IfOk};
ghost use Rattle.velo_arena.specs.Slots.{limit_of};
ghost use Rattle.velo_graph.specs.Collects.{Collects, TellsFreed, HasNothingLeft};
ghost use Rattle.velo_graph.specs.Nodes.{IsSound};

use std::alloc::Global;
use std::marker::Model;
use velo_events::Memory;
use velo_events::growth::with_capacity;
use velo_graph::Graph;
use velo_rows::Ancestors;

/// The stamps of the nodes that the last collection freed.
#[derive(Drop)]
pub struct Freed {
    stamps: Vec<u32>,
}

impl Model for Freed {
    ghost use Rattle.std.specs.Prelude.{vec_capacity};
    ghost use Rattle.velo_collect.specs.Told.{Told};

    ghost Value = { Told };

    ghost view = { λ f. record { stamps = f.stamps.items; room = vec_capacity f.stamps } };
}

impl Freed {
    /// Room for that many stamps, and none reported.
    ///
    /// # Errors
    /// `Memory` where a growth was refused.
    pub fn new(alloc: Global, limit: u16) -> Result<Freed, Memory>
        ensures stamps { IfOk result (λ freed. freed.stamps ≡ []) }
        ensures room { IfOk result (λ freed. freed.room ≡ limit) }
    {
        let stamps = with_capacity(alloc, limit as usize)?;
        Ok(Freed { stamps })
    }

    /// The stamps that were reported.
    pub fn stamps(&self) -> &[u32]
        ensures { result.now ≡ self.now.stamps }
    {
        &self.stamps
    }
}

/// Frees exactly the finished nodes without an unfinished ancestor. Their stamps are reported, for which there has to be
/// room: as many as the graph has slots.
pub fn collect<A: Ancestors>(graph: &mut Graph<A>, freed: &mut Freed)
    requires room { limit_of graph.old.slots ≤ freed.old.room }
    ensures collects { Collects graph.old graph.new }
    ensures nothing_left { HasNothingLeft graph.new }
    ensures tells { TellsFreed graph.old.slots graph.new.slots freed.new.stamps }
    ensures room { freed.new.room ≡ freed.old.room }
    ensures sound { IsSound graph.new }
{
    graph.free_unneeded(&mut freed.stamps);
}
