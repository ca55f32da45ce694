//! The entries of a list.
ghost use Rattle.std.specs.Prelude.{IfErr, IfOk, Ok};
ghost use Rattle.velo_names.specs.Line.{lines};
ghost use Rattle.velo_sidecars.specs.ListAnswers.{AnswersAs, entries};
ghost use Rattle.velo_sidecars.specs.List.{HasFault, Stands, entries_after, entries_from};

use crate::list_fault::ListFault;
use crate::list_line::{Entry, Scope, entry_of};
use std::alloc::Global;
use velo_events::growth::reserve;
use velo_names::{MAX_NAME_LINES, MAX_NAMES_BYTES, split_line};

/// Adds what a line of this number says.
#[tactic(auto, unfolding(crate::specs::List::entries_after))]
fn take<'a>(
    found: &mut Vec<Entry<'a>>,
    scope: Scope,
    bytes: &'a [u8],
    line: usize,
) -> Result<(), ListFault>
    ensures { AnswersAs (entries_after scope (entries found.old.items) line bytes.now)
        (entries found.new.items) result }
{
    if line > MAX_NAME_LINES {
        return Err(ListFault::TooManyLines);
    }
    match entry_of(scope, bytes) {
        None => Err(ListFault::BadLine(line)),
        Some(entry) => {
            reserve(found, 1)?;
            found.push_reserved(entry);
            Ok(())
        }
    }
}

/// Adds what the lines of a text say.
fn take_lines<'a>(found: &mut Vec<Entry<'a>>, scope: Scope, text: &'a [u8]) -> Result<(), ListFault>
    ensures { AnswersAs (entries_from scope (entries found.old.items) 0 (lines text.now))
        (entries found.new.items) result }
{
    let mut rest = text;
    let mut line = 0;
    while !rest.is_empty() {
        let (bytes, others) = split_line(rest);
        line += 1;
        take(found, scope, bytes, line)?;
        rest = others;
    }
    Ok(())
}

/// Reads the entries in the bytes of a list of this scope, one for each line.
///
/// # Errors
/// `TooManyBytes`, and else `NotText`, and else the fault of the first line that has one. `Memory`
/// if an allocation failed.
pub fn parse_list(alloc: Global, scope: Scope, bytes: &[u8]) -> Result<Vec<Entry<'_>>, ListFault>
    ensures found { IfOk result (λ found. Stands scope bytes.now (Ok (entries found.items))) }
    ensures fault { IfErr result (HasFault scope bytes.now) }
{
    if bytes.len() > MAX_NAMES_BYTES {
        return Err(ListFault::TooManyBytes);
    }
    if std::str::from_utf8(bytes).is_err() {
        return Err(ListFault::NotText);
    }
    let mut found = Vec::new(alloc);
    match take_lines(&mut found, scope, bytes) {
        Ok(()) => Ok(found),
        Err(fault) => {
            drop(found);
            Err(fault)
        }
    }
}
