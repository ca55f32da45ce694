//! `velodrome audit`.
ghost use Rattle.std.specs.Prelude.{◌≡◌, ◌≤◌, false, length, IfOk, IsFalse, IsTrue};
ghost use Rattle.velo_events.specs.declared.limits.TheConstants.{MAX_EVENTS};
ghost use Rattle.velo_events.specs.Graph.{HasCycle};
ghost use Rattle.velo_events.specs.Reordering.{IsSerializable};
ghost use Rattle.velo_events.specs.WellFormed.{IsWellFormed};
ghost use Rattle.velo_filter.specs.Tables.{left_of};
ghost use Rattle.velo_cli.specs.Auditing.{AreRoundsOf};

use crate::asked::Command;
use crate::context::{ContextOptions, InContext, do_in_context};
use crate::inquiry::Inquiry;
use crate::leaving::{config_of_rounds, left_out};
use crate::page::page_of;
use crate::sending::print;
use crate::siting::are_of_log;
use std::alloc::Global;
use velo_audit::{AuditFault, Told, audit_checked, count_labels_left};
use velo_bytes::{Sink, Source};
use velo_check::{AuditOptions, CheckFault, Fate, Files, Operand, do_input, open_input};
use velo_events::{Bounds, Config, Memory, Refusal};
use velo_filter::LeftOut;
use velo_finding::Asked;
use velo_names::Names;
use velo_sidecars::Sites;
use velo_traces::Trace;
use velo_world::Closed;

/// Whether the log has no cycle.
pub fn is_clean(closed: &Closed) -> bool
    ensures clean { IsTrue result → ¬ HasCycle closed.now.log }
    ensures alarm { IsFalse result → ¬ IsSerializable closed.now.log }
{
    match closed.alarm() {
        None => true,
        Some(_) => false,
    }
}

/// Prints the rounds, as a whole.
fn tell_rounds<O: Sink>(
    inquiry: &Inquiry<AuditOptions>,
    bounds: Bounds,
    log: &Trace,
    rounds: &[Told],
    left: &LeftOut,
    out: &mut O,
) -> Fate
    requires few { length log.now.events ≤ MAX_EVENTS }
    requires well_formed { IsWellFormed bounds log.now.events }
{
    let atomic = match count_labels_left(inquiry.alloc, log, left) {
        Ok(atomic) => atomic,
        Err(Memory) => return Fate::Memory,
    };
    match page_of(inquiry, bounds, log, rounds, atomic) {
        Ok(text) => print(text.as_slice(), !rounds.is_empty(), out),
        Err(Memory) => Fate::Memory,
    }
}

/// The rounds of a log of which so much is left out at first, and which is clean or not.
///
/// # Errors
/// `Check` with the refusal where the graph of a round is full, `Memory` if an allocation failed.
pub fn rounds_of(
    alloc: Global,
    config: &Config,
    log: &Trace,
    clean: bool,
    witness: bool,
    left: &mut LeftOut,
) -> Result<Vec<Told>, Fate>
    requires goes_on { config.now.stop ≡ false }
    requires short { length log.now.events ≤ config.now.events }
    requires well_formed { IsWellFormed config.now.bounds log.now.events }
    requires clean { IsTrue clean → ¬ HasCycle log.now.events }
    ensures rounds { IfOk result (λ rounds.
        AreRoundsOf witness log.now.events (left_of left.old) rounds.items) }
{
    match audit_checked(alloc, config, log, clean, left, witness) {
        Ok(rounds) => Ok(rounds),
        Err(AuditFault::Memory) => Err(Fate::Memory),
        Err(AuditFault::GraphFull { position }) => Err(Fate::Check(CheckFault::Refused {
            position,
            refusal: Refusal::GraphFull,
        })),
    }
}

/// Audits the log of a closed world, of which so much is left out at first.
fn audit_rest<O: Sink>(
    inquiry: &Inquiry<AuditOptions>,
    closed: &Closed,
    left: &mut LeftOut,
    out: &mut O,
) -> Fate
    requires short { length closed.now.log ≤ inquiry.now.options.now.limits.events }
{
    let config = config_of_rounds(closed, inquiry.options.limits);
    let log = closed.log();
    match rounds_of(
        inquiry.alloc,
        &config,
        log,
        is_clean(closed),
        inquiry.options.witness,
        left,
    ) {
        Ok(rounds) => {
            let fate = tell_rounds(inquiry, config.bounds, log, &rounds, left, out);
            drop(rounds);
            fate
        }
        Err(fate) => fate,
    }
}

/// Audits the log of a closed world.
fn audit_closed<O: Sink>(inquiry: &Inquiry<AuditOptions>, closed: &Closed, out: &mut O) -> Fate
    requires short { length closed.now.log ≤ inquiry.now.options.now.limits.events }
{
    match left_out(inquiry.alloc, inquiry.asked) {
        Ok(mut left) => {
            let fate = audit_rest(inquiry, closed, &mut left, out);
            drop(left);
            fate
        }
        Err(Memory) => Fate::Memory,
    }
}

/// Audits the log of a closed world, if the sites are of it.
fn audit_if_of<O: Sink>(inquiry: &Inquiry<AuditOptions>, closed: &Closed, out: &mut O) -> Fate
    requires short { length closed.now.log ≤ inquiry.now.options.now.limits.events }
{
    if !are_of_log(inquiry.sites, closed.log()) {
        return Fate::OtherSites;
    }
    audit_closed(inquiry, closed, out)
}

/// Reads a whole log, does its events, and audits it.
fn audit_log<I: Source, O: Sink>(
    inquiry: &Inquiry<AuditOptions>,
    source: &mut I,
    out: &mut O,
) -> Fate {
    let limits = inquiry.options.limits;
    match do_input(inquiry.alloc, source, limits.events, limits.nodes) {
        Ok(closed) => {
            let fate = audit_if_of(inquiry, &closed, out);
            drop(closed);
            fate
        }
        Err(fault) => Fate::Check(fault),
    }
}

/// Audits the log that was asked for, and reports it by the names and with the sites.
fn audit_input<F: Files, O: Sink>(inquiry: &Inquiry<AuditOptions>, files: &F, out: &mut O) -> Fate {
    match open_input(files, Operand::Log, inquiry.options.input, None) {
        Ok(mut log) => audit_log(inquiry, &mut log, out),
        Err(fate) => fate,
    }
}

impl InContext for Command<'_, AuditOptions<'_>> {
    fn do_in<F: Files, O: Sink>(
        &self,
        alloc: Global,
        names: &Names,
        asked: &Asked,
        sites: &Option<Sites>,
        files: &mut F,
        out: &mut O,
    ) -> Fate {
        let inquiry = Inquiry {
            alloc,
            names,
            sites,
            asked,
            options: self.options,
        };
        audit_input(&inquiry, files, out)
    }
}

/// Audits the log that was asked for. The names are read first.
pub fn audit_file<F: Files, O: Sink>(
    alloc: Global,
    options: &AuditOptions,
    files: &mut F,
    out: &mut O,
) -> Fate {
    let context = ContextOptions {
        names: options.names,
        ignored: options.ignored,
        sites: options.sites,
    };
    do_in_context(alloc, &Command { options }, &context, files, out)
}
