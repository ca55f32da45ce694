//! The audit of a log that is checked already.
ghost use Rattle.std.specs.Prelude.{◌≡◌, ◌≤◌, ◌+◌, false, length, map, All, IfOk, IfErr, OnOk, IsTrue};
ghost use Rattle.velo_events.specs.Graph.{HasCycle};
ghost use Rattle.velo_events.specs.Reordering.{IsSerializable};
ghost use Rattle.velo_events.specs.WellFormed.{IsWellFormed};
ghost use Rattle.velo_audit.specs.Audit.{TellsTruly, AreWitnessed, IsAuditFault};
ghost use Rattle.velo_filter.specs.Left.{rest_of, with_labels};
ghost use Rattle.velo_audit.specs.Rounds.{Rounds, AreTheOnlyRounds, AreFound, labels_found, labels_left};
ghost use Rattle.velo_filter.specs.Tables.{left_of};
ghost use Rattle.velo_audit.specs.Tells.{numbers_of};

use crate::round::AuditFault;
use crate::rounds::audit;
use crate::told::Told;
use std::alloc::Global;
use velo_events::Config;
use velo_filter::LeftOut;
use velo_traces::Trace;

/// The audit of a log of which a check has said whether it is clean, that is, whether it has no
/// cycle. A clean one has no round with an alarm, and is not checked again.
///
/// # Errors
/// Those of [`audit`].
pub fn audit_checked(
    alloc: Global,
    config: &Config,
    log: &Trace,
    clean: bool,
    left: &mut LeftOut,
    with_witness: bool,
) -> Result<Vec<Told>, AuditFault>
    requires goes_on { config.now.stop ≡ false }
    requires short { length log.now.events ≤ config.now.events }
    requires well_formed { IsWellFormed config.now.bounds log.now.events }
    requires clean { IsTrue clean → ¬ HasCycle log.now.events }
    ensures rounds { IfOk result (λ rounds.
        Rounds log.now.events (left_of left.old) (map numbers_of rounds.items)) }
    ensures only { IfOk result (λ rounds.
        AreTheOnlyRounds log.now.events (left_of left.old) (map numbers_of rounds.items)) }
    ensures truly { IfOk result (λ rounds. All (TellsTruly log.now.events) rounds.items) }
    ensures witnessed { IfOk result (λ rounds.
        AreWitnessed with_witness log.now.events (left_of left.old) rounds.items) }
    ensures found { IfOk result (λ rounds.
        AreFound log.now.events (left_of left.old) (labels_found log.now.events
        (map numbers_of rounds.items))) }
    ensures left { IfOk result (λ rounds.
        left_of left.new
        ≡ with_labels (left_of left.old) (labels_found log.now.events
        (map numbers_of rounds.items))) }
    ensures few { IfOk result (λ rounds.
        length rounds.items + labels_left (left_of left.new) log.now.events
        ≤ labels_left (left_of left.old) log.now.events) }
    ensures serializable { OnOk result (
        IsSerializable (rest_of (left_of left.new) log.now.events)) }
    ensures fault { IfErr result (IsAuditFault config.now log.now.events (left_of left.old)) }
{
    if clean {
        return Ok(Vec::new(alloc));
    }
    audit(alloc, config, log, left, with_witness)
}
