//! What each operation of some scripts is of what is left of their logs.
ghost use Rattle.std.specs.Prelude.{◌≡◌, ℕ, length, take, map, slice_get, Some, IfOk};
ghost use Rattle.velo_events.specs.declared.event.Kind.{Kind};
ghost use Rattle.velo_filter.specs.Tables.{left_of};
ghost use Rattle.velo_search.specs.Parts.{open_behind, part_at, part_of, ArePartsOf};

use crate::open_blocks::OpenBlocks;
use crate::part::Part;
use std::alloc::Global;
use velo_events::growth::{reserve, with_capacity};
use velo_events::{Kind, Memory};
use velo_filter::LeftOut;

/// The part of each operation of a thread.
fn parts_of_script(alloc: Global, script: &[Kind], left: &LeftOut) -> Result<Vec<Part>, Memory>
    ensures count { IfOk result (λ parts. length parts.items ≡ length script.now) }
    ensures each { IfOk result (λ parts. (i : ℕ) (k : Kind) → slice_get script.now i ≡ Some k →
        slice_get parts.items i ≡
        Some (part_of (left_of left.now) (open_behind (left_of left.now) (take i script.now)) k)) }
{
    let mut parts = with_capacity(alloc, script.len())?;
    let mut blocks = OpenBlocks::none(alloc);
    for place in 0..script.len() {
        let kind = script[place];
        let part = blocks.take_in(left, kind)?;
        reserve(&mut parts, 1)?;
        parts.push_reserved(part);
    }
    Ok(parts)
}

/// The part of each operation of each thread.
///
/// # Errors
/// `Memory` where a growth was refused.
pub(crate) fn parts_of(
    alloc: Global,
    scripts: &[Vec<Kind>],
    left: &LeftOut,
) -> Result<Vec<Vec<Part>>, Memory>
    ensures { IfOk result (λ parts. ArePartsOf (left_of left.now) (map (λ v. v.items) scripts.now)
        (part_at (map (λ v. v.items) parts.items))) }
{
    let mut parts: Vec<Vec<Part>> = Vec::new(alloc);
    for thread in 0..scripts.len() {
        let own = parts_of_script(alloc, &scripts[thread], left)?;
        reserve(&mut parts, 1)?;
        parts.push_reserved(own);
    }
    Ok(parts)
}

/// The part of the operation of the thread.
pub(crate) fn part_at(parts: &[Vec<Part>], thread: usize, place: usize) -> Part
    ensures { result ≡ part_at (map (λ v. v.items) parts.now) thread place }
{
    match parts.get(thread) {
        Some(own) => match own.get(place) {
            Some(part) => *part,
            None => Part::LeftOut,
        },
        None => Part::LeftOut,
    }
}
