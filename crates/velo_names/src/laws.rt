//! What holds of lines and names, whoever reads or writes them.
ghost use Rattle.std.specs.Prelude.{◌≡◌, List, ℕ, Some, Ok};
ghost use Rattle.velo_names.specs.Line.{Naming, IsNaming, naming_of, naming_text};
ghost use Rattle.velo_names.specs.Names.{NameLists, IsMapping, names_in_text, names_text};

/// A line that says a name is the one text of it, and the text of what may be said says it.
pub fn one_line()
    ensures text { (line : List ℕ) (x : Naming) → naming_of line ≡ Some x → (line ≡ naming_text x) × IsNaming x }
    ensures again { (x : Naming) → IsNaming x → naming_of (naming_text x) ≡ Some x }
{}

/// The text of a mapping says this mapping.
pub fn read_back()
    ensures { (names : NameLists) → IsMapping names → names_in_text (names_text names) ≡ Ok names }
{}
