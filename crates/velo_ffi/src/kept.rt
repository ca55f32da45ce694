//! A box that C keeps by its address, or none.
ghost use Rattle.std.specs.Prelude.{◌≡◌, ◌≢◌, Option, Some, None};
ghost use Rattle.std.specs.Coded.{coded_option};
ghost use Rattle.velo_ffi.specs.Kept.{kept_owns, watch_coded};
ghost use Rattle.velo_ffi.specs.Watch.{WatchState};

use crate::held::Held;
use crate::watch::Watch;
use std::alloc::Global;
use std::marker::Model;
use std::ptr;

/// A box that C keeps by its address, or none.
#[repr(C)]
#[derive(Drop)]
pub struct Kept {
    address: *mut u8,
    alloc: Global,
    pub ghost watch: { Option WatchState } by { coded_option watch_coded },
}

impl Model for Kept {
    ghost also_owns = { λ s. kept_owns s.alloc s.address s.watch };
}

impl Kept {
    /// None.
    pub fn none(alloc: Global) -> Kept
        ensures { result.watch ≡ None }
    {
        Kept {
            address: ptr::null_mut(),
            alloc,
        }
    }

    /// What is held.
    pub fn of(held: Held<Watch>) -> Kept
        ensures { result.watch ≡ Some held.value }
    {
        let Held { address, alloc } = held;
        Kept {
            address: address as *mut u8,
            alloc,
        }
    }

    /// The box.
    pub fn into_box(self) -> Box<Watch>
        requires { self.watch ≢ None }
        ensures { self.watch ≡ Some result.value }
    {
        let Kept { address, alloc } = self;
        unsafe { Box::from_raw(alloc, address as *mut Watch) }
    }
}

unsafe impl Send for Kept {}
