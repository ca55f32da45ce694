//! Tests of both kinds of rows.
ghost use Rattle.std.specs.Prelude.{◌≡◌, ◌<◌};

use std::alloc::Global;
use std::process::Abort;
use std::test::Fail;
use velo_rows::{Ancestors, BitRow, SetRow};

/// A row with these slots, which was empty before they were put in.
fn row_of<A: Ancestors>(rt: &impl Abort, alloc: Global, limit: u16, slots: &[u16]) -> A
    ensures { A.capacity result ≡ limit }
{
    let mut row = A::empty(alloc, limit).expect(rt, "memory");
    assert!(rt; row.is_empty());
    for slot in slots {
        assert!(rt; *slot < limit);
        row.insert(*slot);
    }
    row
}

/// Of the slots below the limit exactly these are in the row.
fn expect_slots<A: Ancestors>(rt: &impl Abort, row: &A, limit: u16, slots: &[u16])
    requires { A.capacity row.now ≡ limit }
{
    for slot in 0..limit {
        assert!(rt; row.contains(slot) == slots.contains(&slot), "slot {slot}");
    }
}

#[test]
fn sets_of_slots(rt: HostRuntime) -> Result<(), Fail> {
    let mut row: SetRow = row_of(&rt, rt.alloc(), 8, &[5, 0, 5]);
    let other: SetRow = row_of(&rt, rt.alloc(), 8, &[7, 5]);
    row.join(&other);
    expect_slots(&rt, &row, 8, &[0, 5, 7]);
    assert!(rt; row.meets(&other));
    row.remove(5);
    row.remove(6);
    expect_slots(&rt, &row, 8, &[0, 7]);
    row.take_away(&other);
    expect_slots(&rt, &row, 8, &[0]);
    expect_slots(&rt, &other, 8, &[5, 7]);
    assert!(rt; !row.meets(&other));
    row.clear();
    assert!(rt; row.is_empty() && !other.is_empty());
    Ok(())
}

/// Does one of the calls to a row, or to the row that it takes in, and returns what the row says at
/// the slot.
fn answer<A: Ancestors>(row: &mut A, other: &mut A, call: u32, slot: u16) -> (bool, bool, bool)
    requires mine { slot < A.capacity row.old }
    requires theirs { A.capacity other.old ≡ A.capacity row.old }
    ensures mine { A.capacity row.new ≡ A.capacity row.old }
    ensures theirs { A.capacity other.new ≡ A.capacity other.old }
{
    match call % 12 {
        0 | 1 | 2 => row.insert(slot),
        3 | 4 | 5 => other.insert(slot),
        6 => row.remove(slot),
        7 => other.remove(slot),
        8 => row.join(other),
        9 => row.take_away(other),
        10 => {
            if call % 3 == 0 {
                row.clear();
            }
        }
        _ => other.clear(),
    }
    (row.contains(slot), row.is_empty(), row.meets(other))
}

/// A list of calls gives the same answers for both kinds of row.
fn same_answers<A: Ancestors, B: Ancestors>(rt: &impl Abort, alloc: Global, limit: u16)
    requires { 0 < limit }
{
    let mut one = A::empty(alloc, limit).expect(rt, "memory");
    let mut other = A::empty(alloc, limit).expect(rt, "memory");
    let mut one_too = B::empty(alloc, limit).expect(rt, "memory");
    let mut other_too = B::empty(alloc, limit).expect(rt, "memory");
    let mut seed: u32 = limit as u32;
    for call in 0..400u32 {
        seed = seed.wrapping_mul(1_664_525).wrapping_add(1_013_904_223);
        let slot = ((seed >> 16) % limit as u32) as u16;
        let kind = seed >> 5;
        assert!(rt;
            answer(&mut one, &mut other, kind, slot)
                == answer(&mut one_too, &mut other_too, kind, slot),
            "call {call} of {limit}"
        );
    }
}

#[test]
fn rows_agree(rt: HostRuntime) -> Result<(), Fail> {
    for limit in [1, 63, 64, 65, 511, 512, 513, 4096] {
        if limit > 0 {
            same_answers::<SetRow, BitRow>(&rt, rt.alloc(), limit);
        }
    }
    Ok(())
}

#[test]
fn words_and_their_rest(rt: HostRuntime) -> Result<(), Fail> {
    let mut row: BitRow = row_of(&rt, rt.alloc(), 130, &[0, 64, 129]);
    let other: BitRow = row_of(&rt, rt.alloc(), 130, &[63, 128]);
    row.join(&other);
    expect_slots(&rt, &row, 130, &[0, 63, 64, 128, 129]);
    assert!(rt; row.meets(&other));
    row.take_away(&other);
    expect_slots(&rt, &row, 130, &[0, 64, 129]);
    assert!(rt; !row.meets(&other));
    row.clear();
    assert!(rt; row.is_empty());
    row.insert(129);
    row.remove(129);
    assert!(rt; row.is_empty());
    Ok(())
}
