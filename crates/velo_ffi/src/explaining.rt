//! The explanation of the events so far, whole or not at all.
ghost use Rattle.std.specs.Prelude.{◌≡◌, ◌≢◌, ◌⊎◌, ℕ, [], List, None, IfErr, IfNone, IfOk, IfSome, OnOk};
ghost use Rattle.velo_events.specs.declared.event.Event.{Event};
ghost use Rattle.velo_world.specs.World.{IsAlarm};
ghost use Rattle.velo_ffi.specs.Explaining.{AreSitesBy, HaveLengthOf, IsExplainedBy, TellsExplanation, TellsFaultOfSites, TellsReason};
ghost use Rattle.velo_ffi.specs.Reasons.{AreOthers, IsReason, IsReasonOfSites, LackSites};
ghost use Rattle.velo_ffi.specs.Texts.{WantsMemory};

use crate::answers::{BAD_NAMES, BAD_SITES, CLOSED, DONE, NO_MEMORY, OTHER_SITES, TOO_SHORT};
use crate::monitor::Monitor;
use crate::texts::{put_fault, put_whole};
use crate::watch::Watch;
use std::alloc::Global;
use velo_certify::CertFault;
use velo_events::Memory;
use velo_explain::{Evidence, Page, evidence_of, explain_clean, explain_named, explain_sited};
use velo_names::{Names, NamesFault};
use velo_sidecars::{Sites, SitesFault};
use velo_traces::Trace;
use velo_world::{Alarm, World};

/// By what a log is explained.
#[derive(Clone, Copy)]
pub struct Given<'g> {
    /// The bytes of a file of names; none are no names.
    pub names: &'g [u8],
    /// The bytes of a file of sites; none are no sites.
    pub sites: &'g [u8],
}

/// Why nothing is explained.
#[derive(Clone, Copy)]
pub enum Unexplained {
    /// The names have a fault.
    Names(NamesFault),
    /// The sites have a fault.
    Sites(SitesFault),
    /// The sites are of so many events, and the log has another number.
    OtherSites(usize),
    /// An allocation failed.
    Memory,
}

/// The words of an alarm by its evidence, with the places of what they mention where there are sites.
///
/// # Errors
/// `Memory` if an allocation failed.
fn words_of(
    alloc: Global,
    log: &Trace,
    position: usize,
    evidence: &Evidence,
    names: &Names,
    sites: &Option<Sites>,
) -> Result<Page, Memory> {
    match sites {
        Some(sites) => explain_sited(alloc, log, position, evidence, names, sites),
        None => explain_named(alloc, log, position, evidence, names),
    }
}

/// The explanation of an alarm of a log.
///
/// # Errors
/// `Memory` if an allocation failed.
fn explain_alarm(
    alloc: Global,
    log: &Trace,
    alarm: &Alarm,
    names: &Names,
    sites: &Option<Sites>,
) -> Result<Page, Memory>
    requires { IsAlarm log.now.events alarm.now }
{
    let position = alarm.position;
    match evidence_of(alloc, log, position, alarm.blamed.as_slice()) {
        Ok(evidence) => {
            let page = words_of(alloc, log, position, &evidence, names, sites);
            drop(evidence);
            page
        }
        Err(CertFault::Memory) => Err(Memory),
        Err(CertFault::NoCycle) => unreachable!(),
        Err(CertFault::HasCycle | CertFault::NotThere) => unreachable!(),
    }
}

/// The explanation of the events so far.
///
/// # Errors
/// `Memory` if an allocation failed.
fn explanation_of(
    alloc: Global,
    world: &World,
    names: &Names,
    sites: &Option<Sites>,
) -> Result<Page, Memory> {
    let log = world.log();
    match world.alarm() {
        None => explain_clean(alloc, log),
        Some(alarm) => explain_alarm(alloc, log, alarm, names, sites),
    }
}

/// Of how many events the sites are, if there are sites and the log has another number of them.
fn other_length(sites: &Option<Sites>, log: &Trace) -> Option<usize>
    ensures other { IfSome result (AreOthers sites.now log.now.events) }
    ensures same { IfNone result (HaveLengthOf sites.now log.now.events) }
{
    let Some(sites) = sites else {
        return None;
    };
    let events = sites.count_events();
    if events == log.len() {
        return None;
    }
    Some(events)
}

/// The explanation of the events so far, if the sites are of as many.
///
/// # Errors
/// `OtherSites`, and else `Memory`.
fn explanation_if_of(
    alloc: Global,
    world: &World,
    names: &Names,
    sites: &Option<Sites>,
) -> Result<Page, Unexplained>
    ensures explains { OnOk result (HaveLengthOf sites.now world.now.log) }
    ensures reason { IfErr result (IsReasonOfSites sites.now world.now.log) }
{
    if let Some(events) = other_length(sites, world.log()) {
        return Err(Unexplained::OtherSites(events));
    }
    match explanation_of(alloc, world, names, sites) {
        Ok(page) => Ok(page),
        Err(Memory) => Err(Unexplained::Memory),
    }
}

/// The sites that the bytes of a file give; no bytes are no sites.
///
/// # Errors
/// The fault for which they give none.
fn sites_of<'a>(alloc: Global, file: &'a [u8]) -> Result<Option<Sites<'a>>, SitesFault>
    ensures sites { IfOk result (AreSitesBy file.now) }
    ensures fault { IfErr result (LackSites file.now) }
{
    if file.is_empty() {
        return Ok(None);
    }
    match Sites::parse(alloc, file) {
        Ok(sites) => Ok(Some(sites)),
        Err(fault) => Err(fault),
    }
}

/// The explanation of the events so far, by the bytes of files. The names are read first, and then
/// the sites.
///
/// # Errors
/// The first reason that applies. `Memory`, also of a file's fault, if an allocation failed.
fn explanation_by(alloc: Global, world: &World, given: &Given) -> Result<Page, Unexplained>
    ensures explains { OnOk result (IsExplainedBy given.now.names.now given.now.sites.now world.now.log) }
    ensures reason { IfErr result (IsReason given.now.names.now given.now.sites.now world.now.log) }
{
    let names = match Names::parse(alloc, given.names) {
        Ok(names) => names,
        Err(fault) => return Err(Unexplained::Names(fault)),
    };
    let sites = match sites_of(alloc, given.sites) {
        Ok(sites) => sites,
        Err(fault) => {
            drop(names);
            return Err(Unexplained::Sites(fault));
        }
    };
    let page = explanation_if_of(alloc, world, &names, &sites);
    drop(sites);
    drop(names);
    page
}

/// Returns why a file has no sites: the line of its fault, or that an allocation failed.
fn put_fault_of_sites(fault: SitesFault, count: &mut usize) -> u32
    ensures told { (file : List ℕ) → LackSites file fault
        → TellsFaultOfSites file result count.new ⊎ WantsMemory result }
    ensures refused { result ≢ DONE }
    ensures untold { result ≢ BAD_SITES → count.new ≡ count.old }
{
    match fault {
        SitesFault::Memory => NO_MEMORY,
        _ => {
            *count = fault.line();
            BAD_SITES
        }
    }
}

/// Returns why nothing is explained: the line of a fault, the number of events of the sites, or that
/// an allocation failed.
fn put_reason(reason: Unexplained, count: &mut usize) -> u32
    ensures told { (names sites : List ℕ) (log : List Event) → IsReason names sites log reason
        → TellsReason names sites log result count.new ⊎ WantsMemory result }
    ensures refused { result ≢ DONE }
    ensures untold { result ≢ BAD_NAMES → result ≢ BAD_SITES → result ≢ OTHER_SITES
        → count.new ≡ count.old }
{
    match reason {
        Unexplained::Names(fault) => put_fault(fault, count),
        Unexplained::Sites(fault) => put_fault_of_sites(fault, count),
        Unexplained::OtherSites(events) => {
            *count = events;
            OTHER_SITES
        }
        Unexplained::Memory => NO_MEMORY,
    }
}

/// Puts the explanation of the events so far.
fn put_explanation(
    alloc: Global,
    watch: &Watch,
    given: &Given,
    buffer: &mut [u8],
    count: &mut usize,
) -> u32
    ensures told { TellsExplanation given.now.names.now given.now.sites.now
        watch.now.world.log result buffer.new count.new }
    ensures same { result ≢ DONE → buffer.new ≡ buffer.old }
    ensures untold { result ≢ DONE → result ≢ TOO_SHORT → result ≢ BAD_NAMES → result ≢ BAD_SITES
        → result ≢ OTHER_SITES → count.new ≡ count.old }
{
    match explanation_by(alloc, &watch.world, given) {
        Ok(page) => put_whole(page.as_slice(), buffer, count),
        Err(reason) => put_reason(reason, count),
    }
}

/// Puts the explanation of the events so far of a handle.
fn explain(
    alloc: Global,
    monitor: &mut Monitor,
    given: &Given,
    buffer: &mut [u8],
    count: &mut usize,
) -> u32
    ensures kept { monitor.new.kept.watch ≡ monitor.old.kept.watch }
    ensures told { IfSome monitor.old.kept.watch (λ watch.
        TellsExplanation given.now.names.now given.now.sites.now watch.world.log
        result buffer.new count.new) }
    ensures closed { monitor.old.kept.watch ≡ None → result ≡ CLOSED }
    ensures same { result ≢ DONE → buffer.new ≡ buffer.old }
    ensures untold { result ≢ DONE → result ≢ TOO_SHORT → result ≢ BAD_NAMES → result ≢ BAD_SITES
        → result ≢ OTHER_SITES → count.new ≡ count.old }
{
    let Some(watch) = monitor.take(alloc) else {
        return CLOSED;
    };
    let status = put_explanation(alloc, &watch, given, buffer, count);
    *monitor = Monitor::of(watch);
    status
}

/// Writes the explanation of the events so far to a buffer, and returns how many bytes it is: the
/// words that `velodrome explain` writes for the log, with `--names` where the file of names has
/// bytes. The monitor goes on. It takes time and memory in proportion to the log.
///
/// Where there is no room for all, `TOO_SHORT` with the length that is needed; the buffer is as it
/// was. Where the file has a fault, `BAD_NAMES` with the line of it, which is 0 where it is one of
/// the whole. `NO_MEMORY` if an allocation failed; nothing has changed then.
#[unsafe(no_mangle)]
pub extern "C" fn velo_explanation(
    alloc: Global,
    monitor: &mut Monitor,
    names: &[u8],
    buffer: &mut [u8],
    count: &mut usize,
) -> u32
    ensures kept { monitor.new.kept.watch ≡ monitor.old.kept.watch }
    ensures told { IfSome monitor.old.kept.watch (λ watch.
        TellsExplanation names.now [] watch.world.log result buffer.new count.new) }
    ensures closed { monitor.old.kept.watch ≡ None → result ≡ CLOSED }
    ensures same { result ≢ DONE → buffer.new ≡ buffer.old }
    ensures untold { result ≢ DONE → result ≢ TOO_SHORT → result ≢ BAD_NAMES
        → count.new ≡ count.old }
{
    let given = Given { names, sites: b"" };
    explain(alloc, monitor, &given, buffer, count)
}

/// Writes the explanation of the events so far to a buffer, and returns how many bytes it is: the
/// words that `velodrome explain` writes for the log, with `--names` where the file of names has
/// bytes, and with `--sites`, where that of sites has, and the places after them. The monitor goes
/// on. It takes time and memory in proportion to the log.
///
/// Names, sites and room are looked at in this order. Where the names have a fault, `BAD_NAMES` with
/// the line of it, and where the sites have one, `BAD_SITES`; the line is 0 where it is one of the
/// whole. Where the sites are of another number of events than there are so far, `OTHER_SITES` with
/// this number. Where there is no room for all, `TOO_SHORT` with the length that is needed; the
/// buffer is as it was. `NO_MEMORY` if an allocation failed; nothing has changed then.
#[unsafe(no_mangle)]
pub extern "C" fn velo_explanation_sited(
    alloc: Global,
    monitor: &mut Monitor,
    names: &[u8],
    sites: &[u8],
    buffer: &mut [u8],
    count: &mut usize,
) -> u32
    ensures kept { monitor.new.kept.watch ≡ monitor.old.kept.watch }
    ensures told { IfSome monitor.old.kept.watch (λ watch.
        TellsExplanation names.now sites.now watch.world.log result buffer.new count.new) }
    ensures closed { monitor.old.kept.watch ≡ None → result ≡ CLOSED }
    ensures same { result ≢ DONE → buffer.new ≡ buffer.old }
    ensures untold { result ≢ DONE → result ≢ TOO_SHORT → result ≢ BAD_NAMES → result ≢ BAD_SITES
        → result ≢ OTHER_SITES → count.new ≡ count.old }
{
    let given = Given { names, sites };
    explain(alloc, monitor, &given, buffer, count)
}
