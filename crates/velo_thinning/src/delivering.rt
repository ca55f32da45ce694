//! What goes out of a log that was thinned.
ghost use Rattle.std.specs.Prelude.{◌≡◌, ◌++◌, IfOk, OnOk};
ghost use Rattle.velo_check.specs.Disk.{store};
ghost use Rattle.velo_check.specs.Writing.{writing};
ghost use Rattle.velo_thinning.specs.Texts.{count_line, counts_text, map_text, IsMapFor, IsOutgoingText, IsCountsText, IsSent, GoesOut};

use crate::outcome::ThinnedLog;
use std::alloc::Global;
use velo_bytes::{Sink, WriteFault, append, append_number, write_all};
use velo_check::{Answer, Failure, Files, Operand, Save, StreamedText, deliver};
use velo_events::Memory;
use velo_logtext::write_log;

/// Where what is left of a log goes.
#[derive(Clone, Copy)]
pub struct Targets<'a> {
    /// The path of the log.
    pub log: &'a str,
    /// The path of the map, if one is asked for.
    pub map: Option<&'a str>,
}

/// A text that is saved.
#[derive(Drop)]
pub enum Outgoing<'t, 'm> {
    /// What is left of a log.
    Log(&'t ThinnedLog),
    /// The bytes of a map.
    Map(&'m [u8]),
}

impl<'t, 'm> StreamedText for Outgoing<'t, 'm> {
    ghost is_text = { IsOutgoingText };

    fn write_to<S: Sink>(&self, sink: &mut S) -> Result<(), WriteFault> {
        match self {
            Outgoing::Log(thinned) => write_log(thinned.config.bounds, &thinned.left.trace, sink),
            Outgoing::Map(bytes) => write_all(sink, bytes),
        }
    }
}

/// The text of the counts.
#[derive(Drop)]
pub struct CountsText<'c> {
    /// Its bytes.
    pub bytes: &'c [u8],
}

impl<'c> StreamedText for CountsText<'c> {
    ghost is_text = { IsCountsText };

    fn write_to<S: Sink>(&self, sink: &mut S) -> Result<(), WriteFault> {
        write_all(sink, self.bytes)
    }
}

/// Appends the line of what is counted.
fn append_line(text: &mut Vec<u8>, word: &[u8], before: u64, after: u64) -> Result<(), Memory>
    ensures { OnOk result (text.new.items
        ≡ text.old.items ++ count_line word.now before after) }
{
    append(text, word)?;
    append_number(text, before)?;
    append(text, b" to ")?;
    append_number(text, after)?;
    append(text, b"\n")
}

/// How many events and variables there were, and how many are left.
fn text_of_counts(alloc: Global, thinned: &ThinnedLog) -> Result<Vec<u8>, Memory>
    ensures { IfOk result (λ text. text.items ≡ counts_text thinned.now) }
{
    let mut text = Vec::new(alloc);
    let left = thinned.left.trace.len() as u64;
    append_line(&mut text, b"events ", thinned.events as u64, left)?;
    append_line(
        &mut text,
        b"variables ",
        u64::from(thinned.variables),
        u64::from(thinned.variables_left),
    )?;
    Ok(text)
}

/// The position in the log of each event that is left, a line for each.
fn text_of_map(alloc: Global, places: &[u32]) -> Result<Vec<u8>, Memory>
    ensures { IfOk result (λ text. text.items ≡ map_text places.now) }
{
    let mut text = Vec::new(alloc);
    for place in places {
        append_number(&mut text, u64::from(*place))?;
        append(&mut text, b"\n")?;
    }
    Ok(text)
}

/// The same, if there is a path for it.
fn map_for(alloc: Global, path: Option<&str>, places: &[u32]) -> Result<Vec<u8>, Memory>
    ensures { IfOk result (λ text. IsMapFor path.entry places.now text.items) }
{
    match path {
        Some(_) => text_of_map(alloc, places),
        None => Ok(Vec::new(alloc)),
    }
}

/// Saves the texts, one after another, and then prints the counts.
///
/// # Errors
/// As [`deliver`].
fn send<F: Files, O: Sink>(
    saves: &[Save<Outgoing>],
    counts: &[u8],
    files: &mut F,
    out: &mut O,
) -> Result<(), Failure>
    ensures { IsSent saves.now counts.now (store F.disk files.old files.new)
        (writing O.contents O.failures out.old out.new) result }
{
    let answer = Answer {
        saves,
        printed: Some(CountsText { bytes: counts }),
        end: (),
    };
    deliver(&answer, files, out)
}

/// Saves what is left of a log at its path, then the map at its own, and then prints the counts.
///
/// # Errors
/// `Memory` where a growth was refused, before a file is opened; else as [`deliver`].
pub fn deliver_thinned<F: Files, O: Sink>(
    alloc: Global,
    thinned: &ThinnedLog,
    targets: &Targets,
    files: &mut F,
    out: &mut O,
) -> Result<(), Failure>
    ensures { GoesOut thinned.entry targets.now (store F.disk files.old files.new)
        (writing O.contents O.failures out.old out.new) result }
{
    let counts = match text_of_counts(alloc, thinned) {
        Ok(counts) => counts,
        Err(Memory) => return Err(Failure::Memory(Memory)),
    };
    let map = match map_for(alloc, targets.map, &thinned.left.places) {
        Ok(map) => map,
        Err(Memory) => return Err(Failure::Memory(Memory)),
    };
    let saves = [
        Save {
            operand: Operand::Out,
            path: Some(targets.log),
            text: Outgoing::Log(thinned),
        },
        Save {
            operand: Operand::Map,
            path: targets.map,
            text: Outgoing::Map(&map),
        },
    ];
    send(&saves, &counts, files, out)
}
