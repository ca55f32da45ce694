//! The growing calls of the library, each with the fact that its refusal leaves. Only the crates that list `velo_seal` can
//! show this fact.
ghost use Rattle.std.specs.Prelude.{◌≡◌, ◌≤◌, ◌<◌, ◌+◌, ◌-◌, ◌^◌, ◌++◌, [], length, if◌then◌else◌, is_ok, take, replicate, vec_len, vec_capacity, IfOk, OnOk, OnErr};
ghost use Rattle.velo_events.specs.Growth.{filled_up};

use crate::Memory;
use std::alloc::Global;

/// Makes room for so many more items.
///
/// # Errors
/// `Memory` where there was too little room and the growth was refused. Items and room are as before then.
pub fn reserve<T>(items: &mut Vec<T>, more: usize) -> Result<(), Memory>
    ensures items { items.new.items ≡ items.old.items }
    ensures len { vec_len items.new ≡ vec_len items.old }
    ensures ok { OnOk result (vec_len items.new + more ≤ vec_capacity items.new) }
    ensures capacity { vec_capacity items.old ≤ vec_capacity items.new }
    ensures full { OnErr result (vec_capacity items.old < vec_len items.old + more) }
    ensures err { OnErr result (vec_capacity items.new ≡ vec_capacity items.old) }
{
    match items.reserve(more) {
        Ok(()) => Ok(()),
        Err(_) => Err(Memory),
    }
}

/// A list without items, with room for exactly so many.
///
/// # Errors
/// `Memory` where a growth was refused.
pub fn with_capacity<T>(alloc: Global, capacity: usize) -> Result<Vec<T>, Memory>
    ensures items { IfOk result (λ items. items.items ≡ []) }
    ensures len { IfOk result (λ items. vec_len items ≡ 0) }
    ensures capacity { IfOk result (λ items. capacity ≤ vec_capacity items) }
    ensures exact { IfOk result (λ items. vec_capacity items ≡ capacity) }
{
    match Vec::with_capacity(alloc, capacity) {
        Ok(items) => Ok(items),
        Err(_) => Err(Memory),
    }
}

/// Cuts a list to a length, or fills it up to it.
///
/// # Errors
/// `Memory` where there was too little room and the growth was refused. The items are as before then.
pub fn resize<T: Copy>(items: &mut Vec<T>, count: usize, item: T) -> Result<(), Memory>
    ensures items { items.new.items
        ≡ (if is_ok result
        then take count items.old.items ++ replicate (count - vec_len items.old) item
        else items.old.items) }
    ensures len { vec_len items.new ≡ (if is_ok result then count else vec_len items.old) }
    ensures capacity { vec_capacity items.old ≤ vec_capacity items.new }
    ensures full { OnErr result (vec_capacity items.old < count) }
{
    match items.resize(count, item) {
        Ok(()) => Ok(()),
        Err(_) => Err(Memory),
    }
}

/// Fills the list up with blanks until it has an item of this number, which has to be below the greatest `usize`.
///
/// # Errors
/// `Memory` where there was no such item and the growth was refused. The items are as before then.
#[inline]
pub fn fill_up_to<T: Copy>(items: &mut Vec<T>, number: usize, blank: T) -> Result<(), Memory>
    requires { number + 1 < 2 ^ 64 }
    ensures ok { OnOk result (items.new.items ≡ filled_up blank (number + 1) items.old.items) }
    ensures err { OnErr result (items.new.items ≡ items.old.items) }
    ensures refused { OnErr result (length items.old.items ≤ number) }
{
    if number < items.len() {
        return Ok(());
    }
    lengthen(items, number + 1, blank)
}

/// Fills the list up with blanks until it has so many items. It stands apart, since mostly there is no need to.
#[inline(never)]
fn lengthen<T: Copy>(items: &mut Vec<T>, count: usize, blank: T) -> Result<(), Memory>
    requires { length items.old.items ≤ count }
    ensures ok { OnOk result (items.new.items ≡ filled_up blank count items.old.items) }
    ensures err { OnErr result (items.new.items ≡ items.old.items) }
{
    resize(items, count, blank)
}

/// A list of so many clones of the item.
///
/// # Errors
/// `Memory` where a growth was refused.
pub fn filled<T: Clone + Drop>(alloc: Global, item: T, count: usize) -> Result<Vec<T>, Memory>
    ensures items_if_clones_equal { IfOk result (λ items.
        ((y : T) → T.is_clone item y → y ≡ item) → items.items ≡ replicate count item) }
    ensures len { IfOk result (λ items. vec_len items ≡ count) }
{
    match Vec::from_elem(alloc, item, count) {
        Ok(items) => Ok(items),
        Err(_) => Err(Memory),
    }
}
