//! Freeing the slots that have an heir.
ghost use Rattle.std.specs.Prelude.{◌≡◌, ℕ, ◌≤◌, length, is_some, IsTrue};
ghost use Rattle.velo_arena.specs.Slots.{limit_of, is_used};
ghost use Rattle.velo_arena.specs.Heirs.{heir_in};
ghost use Rattle.velo_graph.specs.Vacates.{Vacates, KeepsMarks};
ghost use Rattle.velo_graph.specs.Leaves.{HaveHeirs};

use velo_arena::{Arena, Heir};
use velo_rows::Ancestors;

/// Frees the slots below the end that have an heir, and gathers them.
pub fn leave<A: Ancestors>(
    arena: &mut Arena,
    heirs: &[Option<Heir>],
    gone: &mut A,
    may_have_descendants: &mut [bool],
    end: u16,
)
    requires end { end ≤ limit_of arena.old }
    requires heirs { length heirs.now ≡ limit_of arena.old }
    requires used { (k : ℕ) → IsTrue (is_some (heir_in heirs.now k)) → IsTrue (is_used arena.old k) }
    requires gone { A.capacity gone.old ≡ limit_of arena.old }
    requires may_have_descendants { length may_have_descendants.old ≡ limit_of arena.old }
    ensures vacates { Vacates arena.old arena.new (A.members gone.new) }
    ensures heirs { HaveHeirs heirs.now (A.members gone.new) end }
    ensures marks { KeepsMarks may_have_descendants.old may_have_descendants.new (A.members gone.new) }
    ensures capacity { A.capacity gone.new ≡ A.capacity gone.old }
{
    gone.clear();
    for slot in 0..end {
        if heirs[slot as usize].is_some() {
            gone.insert(slot);
            may_have_descendants[slot as usize] = false;
            arena.free(slot);
        }
    }
}
