//! The growing call of the standard map, with the fact that its refusal leaves. No other code of this crate can show this fact.

use std::collections::HashMap;
use velo_events::Memory;

/// Notes a place for the key; one that was noted before is forgotten.
///
/// # Errors
/// `Memory` where a growth was refused.
pub fn insert(places: &mut HashMap<u64, usize>, key: u64, place: usize) -> Result<(), Memory> {
    match places.insert(key, place) {
        Ok(_) => Ok(()),
        Err(_) => Err(Memory),
    }
}
