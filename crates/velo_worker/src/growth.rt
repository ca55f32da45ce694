//! The making of a channel and of a further sender, each with the fact that its refusal leaves. No
//! other code of this crate can show this fact.

use crossbeam_channel::{Receiver, Sender};
use std::alloc::Global;
use velo_events::Memory;

/// How many messages a channel holds. No run sends more.
const PLACES: usize = 128;

/// A channel with room for all messages of a run.
///
/// # Errors
/// `Memory` if an allocation failed.
pub fn channel<T: Drop>(alloc: Global) -> Result<(Sender<T>, Receiver<T>), Memory> {
    match crossbeam_channel::bounded(alloc, PLACES) {
        Ok(ends) => Ok(ends),
        Err(_) => Err(Memory),
    }
}

/// A further sender of a channel.
///
/// # Errors
/// `Memory` if an allocation failed.
pub fn copy<T: Drop>(sender: &Sender<T>) -> Result<Sender<T>, Memory> {
    match sender.clone() {
        Ok(copy) => Ok(copy),
        Err(_) => Err(Memory),
    }
}
