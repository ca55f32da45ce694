//! The whole text of an audit.

use crate::background::Background;
use crate::text::places::add_begins;
use crate::text::witness::add_witness;
use crate::text::words::{Asked, add_asked, add_counts, add_mark, add_not_atomic};
use velo_audit::Told;
use velo_events::Memory;
use velo_explain::{Evidence, Page};
use velo_names::Names;
use velo_traces::Block;

/// Adds the labels of the blocks, each once.
fn add_labels(page: &mut Page, names: &Names, blocks: &[Block]) -> Result<(), Memory> {
    for k in 0..blocks.len() {
        let label = blocks[k].label;
        if !blocks[..k].iter().any(|before| before.label == label) {
            add_not_atomic(page, names, label.0)?;
        }
    }
    Ok(())
}

/// Adds the witness of a round, if it has one.
pub(crate) fn add_witness_if_any(
    page: &mut Page,
    background: &Background,
    closing: usize,
    witness: &Option<Evidence>,
) -> Result<(), Memory> {
    match witness {
        None => Ok(()),
        Some(evidence) => add_witness(page, background, closing, evidence),
    }
}

/// Adds what a round tells behind its labels.
fn add_behind_labels(page: &mut Page, background: &Background, told: &Told) -> Result<(), Memory> {
    add_mark(page, told.to_blame)?;
    add_begins(page, background.names, background.sites, &told.blocks)?;
    add_witness_if_any(page, background, told.closing, &told.witness)
}

/// Adds the text of a round.
fn add_told(page: &mut Page, background: &Background, told: &Told) -> Result<(), Memory> {
    add_labels(page, background.names, &told.blocks)?;
    add_behind_labels(page, background, told)
}

/// Adds the text of all rounds: the labels and the witness of each.
pub(crate) fn add_rounds(
    page: &mut Page,
    background: &Background,
    rounds: &[Told],
) -> Result<(), Memory> {
    for told in rounds {
        add_told(page, background, told)?;
    }
    Ok(())
}

/// What an audit prints: what was to be left out, the labels and the witness of each round, how
/// many labels are atomic, and how many rounds there were, the last one without an alarm. The
/// rounds are as `audit` gives them for the events. A number that has a name comes before it. Behind
/// an event whose place in the source the sites give comes this place.
///
/// # Errors
/// `Memory` if an allocation failed.
pub fn audit_text(
    background: &Background,
    asked: &Asked,
    rounds: &[Told],
    atomic: usize,
) -> Result<Page, Memory> {
    let mut page = Page::new(background.alloc);
    add_asked(&mut page, background.names, asked)?;
    add_rounds(&mut page, background, rounds)?;
    add_counts(&mut page, atomic, rounds.len())?;
    Ok(page)
}
