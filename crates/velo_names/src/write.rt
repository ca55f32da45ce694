//! The text of names.
ghost use Rattle.std.specs.Prelude.{◌≡◌, ◌++◌, ◌∷◌, [], length, map, OnOk};
ghost use Rattle.std.specs.String.{string_bytes};
ghost use Rattle.velo_names.specs.Line.{kind_text};
ghost use Rattle.velo_names.specs.Names.{naming_line, list_text, by_place};

use crate::kind::NameKind;
use std::alloc::Global;
use velo_bytes::{append, append_number};
use velo_events::Memory;

/// Appends the word of a kind.
fn append_kind(text: &mut Vec<u8>, kind: NameKind) -> Result<(), Memory>
    ensures { OnOk result (text.new.items ≡ text.old.items ++ kind_text kind) }
{
    match kind {
        NameKind::Thread => append(text, b"thread"),
        NameKind::Variable => append(text, b"variable"),
        NameKind::Lock => append(text, b"lock"),
        NameKind::Label => append(text, b"label"),
    }
}

/// Appends the line of a name.
fn append_line(text: &mut Vec<u8>, kind: NameKind, number: u64, name: &[u8]) -> Result<(), Memory>
    ensures { OnOk result (text.new.items ≡ text.old.items ++ naming_line kind (number, name.now)) }
{
    append_kind(text, kind)?;
    append(text, b" ")?;
    append_number(text, number)?;
    append(text, b" ")?;
    append(text, name)?;
    append(text, b"\n")
}

/// Appends a line for each name of a kind, in the order of their numbers from 0 on.
///
/// # Errors
/// `Memory` if an allocation failed.
pub fn append_names(text: &mut Vec<u8>, kind: NameKind, names: &[String]) -> Result<(), Memory>
    ensures { OnOk result (text.new.items ≡ text.old.items ++ list_text kind (by_place (map string_bytes names.now))) }
{
    for i in 0..names.len() {
        append_line(text, kind, i as u64, names[i].as_bytes())?;
    }
    Ok(())
}
