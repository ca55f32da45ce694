//! What a list means.
ghost use Rattle.std.specs.Prelude.{◌≡◌, ◌∷◌, [], IfOk, OnOk, fold};
ghost use Rattle.velo_filter.specs.Tables.{members};
ghost use Rattle.velo_sidecars.specs.ListAnswers.{AreSeen, entries, entry, mention};
ghost use Rattle.velo_sidecars.specs.Known.{has_all_locks, is_all_locks, is_same, numbers_by, numbers_in, numbers_known, numbers_meant, numbers_told, with_number};

use crate::list_line::{Entry, Mention};
use std::alloc::Global;
use velo_events::growth::{reserve, with_capacity};
use velo_events::{Label, Memory};
use velo_filter::LabelSet;
use velo_names::{NameKind, Names};

/// A single number.
fn one(alloc: Global, number: u32) -> Result<Vec<u32>, Memory>
    ensures { IfOk result (λ numbers. numbers.items ≡ number ∷ []) }
{
    let mut numbers = with_capacity(alloc, 1)?;
    numbers.push_reserved(number);
    Ok(numbers)
}

/// The numbers of a name; but where it is nobody's, this number.
fn numbers_by(
    alloc: Global,
    names: &Names,
    kind: NameKind,
    number: u32,
    name: &[u8],
) -> Result<Vec<u32>, Memory>
    ensures { IfOk result (λ numbers. numbers.items ≡ numbers_by names.now kind number name.now) }
{
    let numbers = names.numbers_of(alloc, kind, name)?;
    if numbers.is_empty() {
        return one(alloc, number);
    }
    Ok(numbers)
}

/// The numbers that a line of an audit with this number and this name means.
fn numbers_told(
    alloc: Global,
    names: &Names,
    kind: NameKind,
    number: u32,
    name: &[u8],
) -> Result<Vec<u32>, Memory>
    ensures { IfOk result (λ numbers. numbers.items ≡ numbers_told names.now kind number name.now) }
{
    let Some(its_name) = names.name_of(kind, number) else {
        return numbers_by(alloc, names, kind, number, name);
    };
    if name == its_name {
        return one(alloc, number);
    }
    names.numbers_of(alloc, kind, name)
}

/// The numbers that a mention means.
fn numbers_meant(
    alloc: Global,
    names: &Names,
    kind: NameKind,
    found: Mention,
) -> Result<Vec<u32>, Memory>
    ensures { IfOk result (λ numbers. numbers.items
        ≡ numbers_meant names.now kind (mention found.entry)) }
{
    match found {
        Mention::Number(number) => one(alloc, number),
        Mention::Name(name) => names.numbers_of(alloc, kind, name),
        Mention::Word(word) => names.meant_by(alloc, kind, word),
        Mention::Told(number, name) => numbers_told(alloc, names, kind, number, name),
    }
}

/// Whether the kinds are the same.
fn is_same(kind: NameKind, other: NameKind) -> bool
    ensures { result ≡ is_same kind other }
{
    kind == other
}

/// The numbers of a kind that an entry means.
fn numbers_in(
    alloc: Global,
    names: &Names,
    kind: NameKind,
    found: Entry,
) -> Result<Vec<u32>, Memory>
    ensures { IfOk result (λ numbers. numbers.items
        ≡ numbers_in names.now kind (entry found.entry)) }
{
    let Entry::Of(its_kind, mention) = found else {
        return Ok(Vec::new(alloc));
    };
    if !is_same(its_kind, kind) {
        return Ok(Vec::new(alloc));
    }
    numbers_meant(alloc, names, kind, mention)
}

/// Adds a number, unless it is there. Those that are there were seen, each as a label.
fn add_once(numbers: &mut Vec<u32>, seen: &mut LabelSet, number: u32) -> Result<(), Memory>
    requires seen { AreSeen (members seen.old) numbers.old.items }
    ensures ok { OnOk result (numbers.new.items ≡ with_number numbers.old.items number) }
    ensures seen { OnOk result (AreSeen (members seen.new) numbers.new.items) }
{
    let label = Label(number);
    if seen.contains(label) {
        return Ok(());
    }
    reserve(numbers, 1)?;
    seen.insert(label)?;
    numbers.push_reserved(number);
    Ok(())
}

/// Adds these numbers, each once.
fn add_all(numbers: &mut Vec<u32>, seen: &mut LabelSet, found: &[u32]) -> Result<(), Memory>
    requires seen { AreSeen (members seen.old) numbers.old.items }
    ensures ok { OnOk result (numbers.new.items ≡ fold with_number numbers.old.items found.now) }
    ensures seen { OnOk result (AreSeen (members seen.new) numbers.new.items) }
{
    for number in found {
        add_once(numbers, seen, *number)?;
    }
    Ok(())
}

/// The numbers, as those that were seen.
fn seen_of(alloc: Global, numbers: &[u32]) -> Result<LabelSet, Memory>
    ensures { IfOk result (λ seen. AreSeen (members seen) numbers.now) }
{
    let mut seen = LabelSet::new(alloc);
    for number in numbers {
        seen.insert(Label(*number))?;
    }
    Ok(seen)
}

/// Adds these numbers, each unless it is there.
///
/// # Errors
/// `Memory` if an allocation failed.
pub fn add_numbers(alloc: Global, numbers: &mut Vec<u32>, found: &[u32]) -> Result<(), Memory>
    ensures { OnOk result (numbers.new.items ≡ fold with_number numbers.old.items found.now) }
{
    let mut seen = seen_of(alloc, numbers)?;
    add_all(numbers, &mut seen, found)
}

/// The numbers of a kind that the entries mean by these names, each once, in the order of the lines.
///
/// # Errors
/// `Memory` if an allocation failed.
pub fn numbers_known(
    alloc: Global,
    names: &Names,
    kind: NameKind,
    found: &[Entry],
) -> Result<Vec<u32>, Memory>
    ensures { IfOk result (λ numbers. numbers.items
        ≡ numbers_known names.now kind (entries found.now)) }
{
    let mut numbers = Vec::new(alloc);
    let mut seen = LabelSet::new(alloc);
    for entry in found {
        let these = numbers_in(alloc, names, kind, *entry)?;
        add_all(&mut numbers, &mut seen, &these)?;
    }
    Ok(numbers)
}

/// Whether the entry says that all locks are left out.
fn is_all_locks(found: &Entry) -> bool
    ensures { result ≡ is_all_locks (entry found.now) }
{
    matches!(found, Entry::AllLocks)
}

/// Whether one of the entries says that all locks are left out.
pub fn has_all_locks(found: &[Entry]) -> bool
    ensures { result ≡ has_all_locks (entries found.now) }
{
    found.iter().any(|entry| is_all_locks(entry))
}
