//! A text that comes whole or not at all, and the report of the events so far.
ghost use Rattle.std.specs.Prelude.{◌≡◌, ◌≢◌, ◌⊎◌, Ok, Err, List, None, ℕ, IfErr, IfOk, IfSome};
ghost use Rattle.velo_names.specs.Names.{ReadsAs, Stands};
ghost use Rattle.velo_ffi.specs.Texts.{AreNamesBy, IsReportBy, TellsAll, TellsFault, TellsReport, WantsMemory};

use crate::answers::{BAD_NAMES, CLOSED, DONE, NO_MEMORY, TOO_SHORT};
use crate::gathered::Gathered;
use crate::monitor::Monitor;
use crate::watch::Watch;
use std::alloc::Global;
use velo_bytes::{WriteFault, put_bytes};
use velo_events::Memory;
use velo_names::{Names, NamesFault};
use velo_report::report_so_far;
use velo_world::World;

/// Puts a whole text at the front of a buffer, if there is room for it, and returns how many bytes
/// it is.
pub fn put_whole(text: &[u8], buffer: &mut [u8], count: &mut usize) -> u32
    ensures told { TellsAll text.now result buffer.new count.new }
    ensures same { result ≢ DONE → buffer.new ≡ buffer.old }
    ensures status { result ≢ DONE → result ≡ TOO_SHORT }
{
    *count = text.len();
    if text.len() > buffer.len() {
        return TOO_SHORT;
    }
    put_bytes(buffer, 0, text);
    DONE
}

/// Returns why a file has no names: the line of its fault, or that an allocation failed.
pub fn put_fault(fault: NamesFault, count: &mut usize) -> u32
    ensures told { (file : List ℕ) → ReadsAs file (Err fault)
        → TellsFault file result count.new ⊎ WantsMemory result }
    ensures refused { result ≢ DONE }
    ensures untold { result ≢ BAD_NAMES → count.new ≡ count.old }
{
    match fault {
        NamesFault::Memory => NO_MEMORY,
        _ => {
            *count = fault.line();
            BAD_NAMES
        }
    }
}

/// What a report calls threads and labels by the names of a file; nothing, where it has no bytes.
fn shown_by<'a>(file: &[u8], names: &'a Names<'a>) -> velo_report::Names<'a>
    requires { Stands file.now (Ok names.now) }
    ensures { AreNamesBy file.now result }
{
    if file.is_empty() {
        velo_report::Names::Numbers
    } else {
        velo_report::Names::Listed(names)
    }
}

/// The report of the events so far, by the names of a file.
///
/// # Errors
/// `Memory` if an allocation failed.
fn report_of(alloc: Global, world: &World, file: &[u8], names: &Names) -> Result<Gathered, Memory>
    requires { Stands file.now (Ok names.now) }
    ensures { IfOk result (λ text. IsReportBy file.now world.now text.bytes) }
{
    let mut text = Gathered::new(alloc);
    let shown = shown_by(file, names);
    match report_so_far(world, &shown, &mut text) {
        Ok(()) => Ok(text),
        Err(WriteFault) => Err(text.refusal()),
    }
}

/// The report of the events so far, by the names in the bytes of a file; no bytes are no names.
///
/// # Errors
/// The fault of the file. `Memory` if an allocation failed.
fn report_by(alloc: Global, world: &World, file: &[u8]) -> Result<Gathered, NamesFault>
    ensures report { IfOk result (λ text. IsReportBy file.now world.now text.bytes) }
    ensures fault { IfErr result (λ fault. ReadsAs file.now (Err fault)) }
{
    let names = Names::parse(alloc, file)?;
    let text = report_of(alloc, world, file, &names);
    drop(names);
    match text {
        Ok(text) => Ok(text),
        Err(Memory) => Err(NamesFault::Memory),
    }
}

/// Puts the report of the events so far.
fn put_report(
    alloc: Global,
    watch: &Watch,
    file: &[u8],
    buffer: &mut [u8],
    count: &mut usize,
) -> u32
    ensures told { TellsReport file.now watch.now.world result buffer.new count.new }
    ensures same { result ≢ DONE → buffer.new ≡ buffer.old }
    ensures untold { result ≢ DONE → result ≢ TOO_SHORT → result ≢ BAD_NAMES
        → count.new ≡ count.old }
{
    match report_by(alloc, &watch.world, file) {
        Ok(text) => put_whole(text.as_slice(), buffer, count),
        Err(fault) => put_fault(fault, count),
    }
}

/// Writes the report of the events so far to a buffer, and returns how many bytes it is: what
/// `velodrome check` writes for the log, with `--names` where the file of names has bytes. The
/// monitor goes on.
///
/// Where there is no room for all, `TOO_SHORT` with the length that is needed; the buffer is as it
/// was. Without names one of 4,096 bytes is always long enough. Where the file has a fault,
/// `BAD_NAMES` with the line of it, which is 0 where it is one of the whole. `NO_MEMORY` if an
/// allocation failed; nothing has changed then.
#[unsafe(no_mangle)]
pub extern "C" fn velo_report(
    alloc: Global,
    monitor: &mut Monitor,
    names: &[u8],
    buffer: &mut [u8],
    count: &mut usize,
) -> u32
    ensures kept { monitor.new.kept.watch ≡ monitor.old.kept.watch }
    ensures told { IfSome monitor.old.kept.watch (λ watch.
        TellsReport names.now watch.world result buffer.new count.new) }
    ensures closed { monitor.old.kept.watch ≡ None → result ≡ CLOSED }
    ensures same { result ≢ DONE → buffer.new ≡ buffer.old }
    ensures untold { result ≢ DONE → result ≢ TOO_SHORT → result ≢ BAD_NAMES
        → count.new ≡ count.old }
{
    let Some(watch) = monitor.take(alloc) else {
        return CLOSED;
    };
    let status = put_report(alloc, &watch, names, buffer, count);
    *monitor = Monitor::of(watch);
    status
}
