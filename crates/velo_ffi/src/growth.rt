//! The growing call of this crate, with the fact that its refusal leaves. No other code of this
//! crate can show this fact.
ghost use Rattle.std.specs.Prelude.{◌≡◌, IfOk};

use std::alloc::Global;
use velo_events::Memory;

/// A value in a box of its own.
///
/// # Errors
/// `Memory` if the allocation failed.
pub fn boxed<T: Drop>(alloc: Global, value: T) -> Result<Box<T>, Memory>
    ensures { IfOk result (λ boxed. boxed.value ≡ value) }
{
    match Box::new(alloc, value) {
        Ok(boxed) => Ok(boxed),
        Err(failed) => {
            drop(failed);
            Err(Memory)
        }
    }
}
