//! The rows of a graph: the ancestors of each slot.
ghost use Rattle.std.specs.Prelude.{◌≡◌, ◌<◌, ◌≤◌, map, length, replicate, IfOk, IsTrue, false, if◌then◌else◌};
ghost use Rattle.std.specs.FinSet as set;
ghost use Rattle.velo_rows.specs.Meet.{Meet};
ghost use Rattle.velo_graph.specs.Roots.{with_root, may_meet, IsBelow, MeetBelow};
ghost use Rattle.velo_graph.specs.Rows.{row_of, with_carried, without, ChangesFirst, CarriesEdge};

use std::alloc::Global;
use velo_events::Memory;
use velo_events::growth::with_capacity;
use velo_rows::Ancestors;

/// As many empty sets as there are slots.
///
/// # Errors
/// `Memory` where a growth was refused.
pub fn empty_rows<A: Ancestors>(alloc: Global, limit: u16) -> Result<Vec<A>, Memory>
    ensures members { IfOk result (λ rows. map A.members rows.items ≡ replicate limit set.empty) }
    ensures capacities { IfOk result (λ rows. map A.capacity rows.items ≡ replicate limit limit) }
{
    let mut rows = with_capacity(alloc, limit as usize)?;
    for _slot in 0..limit {
        let row = A::empty(alloc, limit)?;
        rows.push_reserved(row);
    }
    Ok(rows)
}

/// Adds `more` to the row if the row contains `slot`.
fn widen<A: Ancestors>(row: &mut A, slot: u16, more: &A)
    requires slot { slot < A.capacity row.old }
    requires more { A.capacity more.now ≡ A.capacity row.old }
    ensures members { A.members row.new ≡ with_carried slot (A.members more.now) (A.members row.old) }
    ensures capacity { A.capacity row.new ≡ A.capacity row.old }
{
    if row.contains(slot) {
        row.join(more);
    }
}

/// Adds `more` to each of the first `count` rows that contains `slot`.
fn widen_first<A: Ancestors>(rows: &mut [A], count: u16, slot: u16, more: &A)
    requires count { count ≤ length rows.old }
    requires slot { slot < length rows.old }
    requires capacities { map A.capacity rows.old ≡ replicate (length rows.old) (length rows.old) }
    requires more { A.capacity more.now ≡ length rows.old }
    ensures members { ChangesFirst (λ _. with_carried slot (A.members more.now))
        (map A.members rows.old) (map A.members rows.new) count }
    ensures capacities { map A.capacity rows.new ≡ map A.capacity rows.old }
{
    for n in 0..count {
        widen(&mut rows[n as usize], slot, more);
    }
}

/// Takes a slot out of the first rows.
pub fn take_out<A: Ancestors>(rows: &mut [A], count: u16, slot: u16)
    requires count { count ≤ length rows.old }
    requires slot { slot < length rows.old }
    requires capacities { map A.capacity rows.old ≡ replicate (length rows.old) (length rows.old) }
    ensures members { ChangesFirst (λ _ row. set.remove row slot)
        (map A.members rows.old) (map A.members rows.new) count }
    ensures capacities { map A.capacity rows.new ≡ map A.capacity rows.old }
{
    for n in 0..count {
        let row = &mut rows[n as usize];
        row.remove(slot);
    }
}

/// The slots of a set that have no ancestors.
#[derive(Clone, Copy, PartialEq, Eq)]
pub enum Roots {
    /// There is none.
    Zero,
    /// This slot alone.
    One(u16),
    /// There are several.
    Many,
}

impl Roots {
    /// One more of them, if the slot is a root.
    pub fn and_if(self, slot: u16, is_root: bool) -> Roots
        ensures { result ≡ (if is_root then with_root self slot else self) }
    {
        match (is_root, self) {
            (false, roots) => roots,
            (true, Roots::Zero) => Roots::One(slot),
            (true, _) => Roots::Many,
        }
    }

    /// Whether the row of a slot below them can have a member in their set.
    fn may_meet<A: Ancestors>(self, row: &A) -> bool
        requires { IsBelow self (A.capacity row.now) }
        ensures { result ≡ may_meet self (A.members row.now) }
    {
        match self {
            Roots::Zero => false,
            Roots::One(root) => row.contains(root),
            Roots::Many => true,
        }
    }
}

/// Takes a set with these roots away from a row.
fn take_away<A: Ancestors>(row: &mut A, roots: Roots, gone: &A)
    requires roots { IsBelow roots (A.capacity row.old) }
    requires meets { Meet (A.members row.old) (A.members gone.now) → IsTrue (may_meet roots (A.members row.old)) }
    requires gone { A.capacity gone.now ≡ A.capacity row.old }
    ensures members { A.members row.new ≡ set.difference (A.members row.old) (A.members gone.now) }
    ensures capacity { A.capacity row.new ≡ A.capacity row.old }
{
    if roots.may_meet(row) {
        row.take_away(gone);
    }
}

/// Takes a set with these roots away from the first rows.
pub fn take_away_first<A: Ancestors>(rows: &mut [A], count: u16, roots: Roots, gone: &A)
    requires count { count ≤ length rows.old }
    requires capacities { map A.capacity rows.old ≡ replicate (length rows.old) (length rows.old) }
    requires roots { IsBelow roots (length rows.old) }
    requires meets { MeetBelow roots (map A.members rows.old) (A.members gone.now) }
    requires gone { A.capacity gone.now ≡ length rows.old }
    ensures members { ChangesFirst (λ _ row. set.difference row (A.members gone.now))
        (map A.members rows.old) (map A.members rows.new) count }
    ensures capacities { map A.capacity rows.new ≡ map A.capacity rows.old }
{
    for n in 0..count {
        take_away(&mut rows[n as usize], roots, gone);
    }
}

/// Empties the row of a slot that goes, or takes those that go away from it.
fn leave_out<A: Ancestors>(row: &mut A, goes: bool, gone: &A)
    requires { A.capacity gone.now ≡ A.capacity row.old }
    ensures members { A.members row.new ≡ without goes (A.members gone.now) (A.members row.old) }
    ensures capacity { A.capacity row.new ≡ A.capacity row.old }
{
    if goes {
        row.clear();
    } else {
        row.take_away(gone);
    }
}

/// Empties those of the first rows whose slots go, and takes all slots that go away from the others.
pub fn leave_out_first<A: Ancestors>(rows: &mut [A], count: u16, gone: &A)
    requires count { count ≤ length rows.old }
    requires capacities { map A.capacity rows.old ≡ replicate (length rows.old) (length rows.old) }
    requires gone { A.capacity gone.now ≡ length rows.old }
    ensures members { ChangesFirst (λ k. without (set.contains (A.members gone.now) k) (A.members gone.now))
        (map A.members rows.old) (map A.members rows.new) count }
    ensures capacities { map A.capacity rows.new ≡ map A.capacity rows.old }
{
    for n in 0..count {
        leave_out(&mut rows[n as usize], gone.contains(n), gone);
    }
}

/// Carries one slot and its ancestors to another, and to those of the first rows that have this other.
pub fn carry<A: Ancestors>(rows: &mut [A], carried: &mut A, count: u16, from: u16, to: u16)
    requires count { count ≤ length rows.old }
    requires from { from < length rows.old }
    requires to { to < length rows.old }
    requires capacities { map A.capacity rows.old ≡ replicate (length rows.old) (length rows.old) }
    requires carried { A.capacity carried.old ≡ length rows.old }
    requires acyclic { set.contains (row_of (map A.members rows.old) to) to ≡ false }
    ensures members { CarriesEdge (map A.members rows.old) (map A.members rows.new) count from to }
    ensures capacities { map A.capacity rows.new ≡ map A.capacity rows.old }
    ensures carried { A.capacity carried.new ≡ A.capacity carried.old }
{
    carried.clear();
    carried.join(&rows[from as usize]);
    carried.insert(from);
    widen_first(rows, count, to, carried);
    rows[to as usize].join(carried);
}
