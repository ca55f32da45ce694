//! The labels that an audit found, each with the counts of its blocks.
ghost use Rattle.std.specs.Prelude.{◌≡◌, ◌++◌, ◌∷◌, [], List, map, IfOk, OnOk};
ghost use Rattle.velo_filter.specs.Left.{is_listed};
ghost use Rattle.velo_audit.specs.Marks.{AreMarks};
ghost use Rattle.velo_finding.specs.Entries.{Found, AreEntries, IsListed, found_in};

use std::alloc::Global;
use velo_audit::{BlameMarks, LabelTally, Told, tally_of};
use velo_events::growth::reserve;
use velo_events::{Label, Memory};
use velo_traces::{Block, Trace};

/// A label that an audit found.
#[derive(Clone, Copy)]
pub struct Entry {
    /// The label.
    pub label: Label,
    /// The round that found it, counted from 0.
    pub round: usize,
    /// The counts of its blocks.
    pub tally: LabelTally,
}

/// Whether one of the blocks has the label.
fn is_label_of(blocks: &[Block], label: Label) -> bool
    ensures { result ≡ is_listed (map (λ block. block.label.0) blocks.now) label.0 }
{
    for block in blocks {
        if block.label == label {
            return true;
        }
    }
    false
}

/// Adds a label that a round found.
fn add_entry(
    entries: &mut Vec<Entry>,
    label: Label,
    round: usize,
    log: &Trace,
    marks: &BlameMarks,
) -> Result<(), Memory>
    requires { AreMarks log.now.events marks.now }
    ensures { OnOk result ((found : List Found) → AreEntries log.now.events found entries.old.items
        → AreEntries log.now.events (found ++ record { label = label.0; round = round } ∷ []) entries.new.items) }
{
    let tally = tally_of(log, marks, label);
    reserve(entries, 1)?;
    entries.push_reserved(Entry {
        label,
        round,
        tally,
    });
    Ok(())
}

/// Adds the labels that a round found, each once.
fn add_round(
    entries: &mut Vec<Entry>,
    blocks: &[Block],
    round: usize,
    log: &Trace,
    marks: &BlameMarks,
) -> Result<(), Memory>
    requires { AreMarks log.now.events marks.now }
    ensures { OnOk result ((found : List Found) → AreEntries log.now.events found entries.old.items
        → AreEntries log.now.events (found ++ found_in round blocks.now) entries.new.items) }
{
    for k in 0..blocks.len() {
        if !is_label_of(&blocks[..k], blocks[k].label) {
            add_entry(entries, blocks[k].label, round, log, marks)?;
        }
    }
    Ok(())
}

/// The labels that the rounds found, with the counts of their blocks in the log, by its marks.
///
/// # Errors
/// `Memory` if an allocation failed.
pub fn entries_of(
    alloc: Global,
    rounds: &[Told],
    log: &Trace,
    marks: &BlameMarks,
) -> Result<Vec<Entry>, Memory>
    requires { AreMarks log.now.events marks.now }
    ensures { IfOk result (λ entries. IsListed log.now.events rounds.now entries.items) }
{
    let mut entries = Vec::new(alloc);
    for round in 0..rounds.len() {
        add_round(&mut entries, &rounds[round].blocks, round, log, marks)?;
    }
    Ok(entries)
}
