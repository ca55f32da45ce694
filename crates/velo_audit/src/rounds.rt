//! All rounds of an audit.
ghost use Rattle.std.specs.Prelude.{◌≡◌, ◌≤◌, ◌+◌, ◌++◌, ◌∷◌, [], List, false, length, map, All, IfOk, IfErr, OnOk, OnErr};
ghost use Rattle.velo_events.specs.Refusals.{GrowthRefused};
ghost use Rattle.velo_events.specs.Reordering.{IsSerializable};
ghost use Rattle.velo_events.specs.WellFormed.{IsWellFormed};
ghost use Rattle.velo_traces.specs.declared.block.Block.{Block as BlockOf};
ghost use Rattle.velo_audit.specs.Audit.{RoundTells, TellsTruly, AreWitnessed, IsRoundFault, IsAuditFault, left_behind, out_of_memory};
ghost use Rattle.velo_filter.specs.Left.{rest_of, with_labels};
ghost use Rattle.velo_audit.specs.Rounds.{Rounds, AreTheOnlyRounds, AreFound, labels_found, labels_left};
ghost use Rattle.velo_audit.specs.Cut.{IsCut};
ghost use Rattle.velo_events.specs.declared.event.Event.{Event as EventOf};
ghost use Rattle.velo_filter.specs.Tables.{left_of};
ghost use Rattle.velo_audit.specs.Tells.{numbers_of};

use crate::cut::Cut;
use crate::round::{AuditFault, round};
use crate::told::Told;
use std::alloc::Global;
use velo_events::growth::reserve;
use velo_events::{Config, Memory};
use velo_filter::LeftOut;
use velo_traces::{Block, Trace};

/// Checks the rest of a log, leaves out the labels of the blocks that the first alarm blames, and so on until there is
/// no alarm. Each round has its witness if this is asked for. The log can happen, within its limits. The configuration has
/// to go on after an alarm.
///
/// # Errors
/// `GraphFull` where the graph of the rest in a round needs more nodes than there may be, `Memory` where a growth was
/// refused.
pub fn audit(
    alloc: Global,
    config: &Config,
    log: &Trace,
    left: &mut LeftOut,
    with_witness: bool,
) -> Result<Vec<Told>, AuditFault>
    requires goes_on { config.now.stop ≡ false }
    requires short { length log.now.events ≤ config.now.events }
    requires well_formed { IsWellFormed config.now.bounds log.now.events }
    ensures rounds { IfOk result (λ rounds. Rounds log.now.events (left_of left.old) (map numbers_of rounds.items)) }
    ensures only { IfOk result (λ rounds. AreTheOnlyRounds log.now.events (left_of left.old) (map numbers_of rounds.items)) }
    ensures truly { IfOk result (λ rounds. All (TellsTruly log.now.events) rounds.items) }
    ensures witnessed { IfOk result (λ rounds. AreWitnessed with_witness log.now.events (left_of left.old) rounds.items) }
    ensures found { IfOk result (λ rounds. AreFound log.now.events (left_of left.old) (labels_found log.now.events (map numbers_of rounds.items))) }
    ensures left { IfOk result (λ rounds. left_of left.new ≡ with_labels (left_of left.old) (labels_found log.now.events (map numbers_of rounds.items))) }
    ensures few { IfOk result (λ rounds. length rounds.items + labels_left (left_of left.new) log.now.events ≤ labels_left (left_of left.old) log.now.events) }
    ensures serializable { OnOk result (IsSerializable (rest_of (left_of left.new) log.now.events)) }
    ensures fault { IfErr result (IsAuditFault config.now log.now.events (left_of left.old)) }
{
    let mut rounds = Vec::new(alloc);
    let mut cut = Cut::at_start(alloc)?;
    while let Some(told) = next_round(alloc, config, log, left, &mut cut, with_witness)? {
        keep(&mut rounds, told)?;
    }
    Ok(rounds)
}

/// Keeps what a round reports after what those before reported.
fn keep(rounds: &mut Vec<Told>, told: Told) -> Result<(), AuditFault>
    ensures ok { OnOk result (rounds.new.items ≡ rounds.old.items ++ told ∷ []) }
    ensures fault { IfErr result (λ fault. fault ≡ out_of_memory) }
    ensures memory { OnErr result GrowthRefused }
{
    match reserve(rounds, 1) {
        Ok(()) => {
            rounds.push_reserved(told);
            Ok(())
        }
        Err(Memory) => Err(AuditFault::Memory),
    }
}

/// Checks the rest, and leaves out the labels that it reports.
fn next_round(
    alloc: Global,
    config: &Config,
    log: &Trace,
    left: &mut LeftOut,
    cut: &mut Cut,
    with_witness: bool,
) -> Result<Option<Told>, AuditFault>
    requires goes_on { config.now.stop ≡ false }
    requires short { length log.now.events ≤ config.now.events }
    requires well_formed { IsWellFormed config.now.bounds log.now.events }
    requires cut { IsCut (left_of left.old) log.now.events cut.old }
    ensures cut { OnOk result (IsCut (left_of left.new) log.now.events cut.new) }
    ensures tells { IfOk result (RoundTells with_witness log.now.events (left_of left.old)) }
    ensures left { IfOk result (λ told. left_of left.new ≡ left_behind log.now.events (left_of left.old) told) }
    ensures fault { IfErr result (IsRoundFault config.now log.now.events (left_of left.old)) }
{
    match round(alloc, config, log, left, cut, with_witness)? {
        None => Ok(None),
        Some(told) => match leave_out_all(alloc, left, cut, &told.blocks) {
            Ok(()) => Ok(Some(told)),
            Err(Memory) => Err(AuditFault::Memory),
        },
    }
}

/// Leaves out the labels of the blocks, and has the cut follow.
fn leave_out_all(
    alloc: Global,
    left: &mut LeftOut,
    cut: &mut Cut,
    blocks: &[Block],
) -> Result<(), Memory>
    ensures left { OnOk result (left_of left.new ≡ with_labels (left_of left.old) (map (λ (b : BlockOf). b.label.0) blocks.now)) }
    ensures cut { OnOk result ((log : List EventOf) → IsCut (left_of left.old) log cut.old → IsCut (left_of left.new) log cut.new) }
{
    leave_out_labels(left, blocks)?;
    cut.follow(alloc, blocks)
}

/// Leaves out the labels of the blocks.
fn leave_out_labels(left: &mut LeftOut, blocks: &[Block]) -> Result<(), Memory>
    ensures { OnOk result (left_of left.new ≡ with_labels (left_of left.old) (map (λ (b : BlockOf). b.label.0) blocks.now)) }
{
    for block in blocks {
        left.leave_out_label(block.label)?;
    }
    Ok(())
}
