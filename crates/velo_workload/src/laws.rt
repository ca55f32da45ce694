//! What holds of programs, whoever reads their text.
ghost use Rattle.std.specs.Prelude.{◌≡◌, List, ℕ, Ok};
ghost use Rattle.velo_workload.specs.Program.{Program, IsWellNamed, meaning_of};

/// A program that a text means has names of the language alone, and of each kind no more than may
/// be.
pub fn well_named()
    ensures { (text : List ℕ) (program : Program) → meaning_of text ≡ Ok program → IsWellNamed program }
{}
