//! The handle.
ghost use Rattle.std.specs.Prelude.{◌≡◌, Some, None, is_some, IfSome, IfNone};

use crate::held::Held;
use crate::kept::Kept;
use crate::watch::Watch;
use std::alloc::Global;
use std::mem;

/// What a caller keeps. It is closed where all of its bytes are 0.
#[repr(C)]
#[derive(Drop)]
pub struct Monitor {
    /// Whether it is open.
    pub live: bool,
    /// The watch, if it is open.
    pub kept: Kept,
    ghost says: { live ≡ is_some kept.watch },
}

impl Monitor {
    /// A closed one.
    pub fn closed(alloc: Global) -> Monitor
        ensures { result.kept.watch ≡ None }
    {
        Monitor {
            live: false,
            kept: Kept::none(alloc),
        }
    }

    /// An open one.
    pub fn of(watch: Box<Watch>) -> Monitor
        ensures { result.kept.watch ≡ Some watch.value }
    {
        Monitor {
            live: true,
            kept: Kept::of(Held::of(watch)),
        }
    }

    /// Takes the watch out, if it is open, and leaves it closed.
    pub fn take(&mut self, alloc: Global) -> Option<Box<Watch>>
        ensures some { IfSome result (λ watch. self.old.kept.watch ≡ Some watch.value) }
        ensures none { IfNone result (self.old.kept.watch ≡ None) }
        ensures closed { self.new.kept.watch ≡ None }
    {
        let Monitor { live, kept } = mem::replace(self, Monitor::closed(alloc));
        if !live {
            drop(kept);
            return None;
        }
        Some(kept.into_box())
    }
}
