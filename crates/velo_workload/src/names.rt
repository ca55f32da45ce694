//! Names and their numbers, in the order in which they came.
ghost use Rattle.std.specs.Prelude.{◌≡◌, ◌++◌, ◌∷◌, [], length, position, OnOk};
ghost use Rattle.std.specs.Str.{bytes_eq};
ghost use Rattle.velo_workload.specs.Names.{names_of};
ghost use Rattle.velo_workload.specs.Outline.{is_among, declared_fault, Judges};

use crate::fault::WorkFault;
use crate::growth::insert;
use indexmap::IndexSet;

/// How many names there are.
pub fn count(names: &IndexSet<&str>) -> usize
    ensures { result ≡ length (names_of names.now) }
{
    names.len()
}

/// Whether the name is among them.
fn is_among(names: &IndexSet<&str>, name: &str) -> bool
    ensures { result ≡ is_among (names_of names.now) name.now }
{
    names.contains(name)
}

/// The number of a name that is among them.
pub fn number_of(names: &IndexSet<&str>, name: &str) -> Option<usize>
    ensures { result ≡ position (bytes_eq name.now) (names_of names.now) }
{
    names.get_index_of(name)
}

/// Takes in a name that a line declares, where there may be at most `most`.
///
/// # Errors
/// `Twice` where it is among them, and else `TooMany` where there are as many as may be. `Memory`
/// if an allocation failed.
pub fn declare<'a>(
    names: &mut IndexSet<&'a str>,
    name: &'a str,
    most: usize,
    line: usize,
) -> Result<(), WorkFault>
    ensures judged { Judges (declared_fault (names_of names.old) most name.now line) result }
    ensures names { OnOk result (names_of names.new ≡ names_of names.old ++ name.now ∷ []) }
{
    if is_among(names, name) {
        return Err(WorkFault::Twice(line));
    }
    if count(names) >= most {
        return Err(WorkFault::TooMany(line));
    }
    match insert(names, name) {
        Ok(_) => Ok(()),
        Err(_) => Err(WorkFault::Memory),
    }
}
