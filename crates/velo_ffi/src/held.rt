//! A box with its address in sight.
ghost use Rattle.std.specs.Prelude.{◌≡◌};
ghost use Rattle.velo_ffi.specs.Kept.{held_owns};

use std::alloc::Global;
use std::marker::Model;

/// A box with its address in sight.
pub struct Held<T> {
    /// Where the value lies.
    pub address: *mut T,
    /// What the memory came from.
    pub alloc: Global,
    /// The value.
    pub ghost value: { T },
}

impl<T> Model for Held<T> {
    ghost also_owns = { λ h. held_owns T.row h.alloc h.address h.value };
}

impl<T> Held<T> {
    /// The box.
    pub fn of(boxed: Box<T>) -> Held<T>
    where
        T: Drop,
        ensures { result.value ≡ boxed.value }
    {
        let (address, alloc) = Box::into_raw_with_allocator(boxed);
        Held { address, alloc }
    }
}
