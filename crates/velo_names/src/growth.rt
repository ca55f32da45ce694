//! The growing calls of `indexmap`, each with the fact that its refusal leaves. No other code of
//! this crate can show this fact.
ghost use Rattle.std.specs.Prelude.{◌≡◌, ◌<◌, [], OnOk, OnErr};
ghost use Rattle.indexmap.specs.IndexMap.{spare};
ghost use Rattle.velo_names.specs.Answers.{AreKept, AreNoted, list_in, numbers_at};

use indexmap::IndexMap;
use velo_events::Memory;

/// Makes room for the name of one more number.
///
/// # Errors
/// `Memory` if an allocation failed.
pub fn make_room(names: &mut IndexMap<u32, &[u8]>) -> Result<(), Memory>
    ensures names { list_in names.new ≡ list_in names.old }
    ensures ok { OnOk result (0 < spare names.new) }
{
    match names.reserve(1) {
        Ok(()) => Ok(()),
        Err(_) => Err(Memory),
    }
}

/// Enters the numbers of a name that has none yet.
///
/// # Errors
/// `Memory` if an allocation failed. Each name has the numbers that it had then.
#[tactic(auto, using(crate::proofs::OnLists::unchanged))]
pub fn enter<'a>(
    by_name: &mut IndexMap<&'a [u8], Vec<u32>>,
    name: &'a [u8],
    numbers: Vec<u32>,
) -> Result<(), Memory>
    requires { numbers_at by_name.old name ≡ [] }
    ensures ok { OnOk result (AreNoted by_name.old by_name.new name.entry numbers.items) }
    ensures err { OnErr result (AreKept by_name.old by_name.new) }
{
    match by_name.insert(name, numbers) {
        Ok(_) => Ok(()),
        Err(_) => Err(Memory),
    }
}
