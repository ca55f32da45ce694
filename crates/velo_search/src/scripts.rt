//! The operations of each thread, in their order.
ghost use Rattle.std.specs.Prelude.{◌≡◌, false, map, slice_get, IfOk};
ghost use Rattle.std.specs.Option.{option_map_or};

use crate::fitting::fitted;
use crate::free::{free_ones, is_marked};
use crate::naming::Naming;
use crate::part::Part;
use crate::parts::parts_of;
use std::alloc::Global;
use std::marker::Model;
use velo_events::{Bounds, Kind, Memory, ThreadId};
use velo_filter::LeftOut;

/// The operations of each thread, in their order, without values.
#[derive(Drop)]
pub struct Scripts {
    threads: Vec<Vec<Kind>>,
    /// As guards of free operations so many locks are looked at.
    locks: usize,
    /// Of each operation whether it is free.
    free: Vec<Vec<bool>>,
}

impl Model for Scripts {
    ghost use Rattle.std.specs.Prelude.{map};
    ghost use Rattle.velo_search.specs.Free.{AreFree, Guarded};

    ghost Value = { Guarded };

    ghost view = { λ s. record { kinds = map (λ v. v.items) s.threads.items; locks = s.locks } };

    ghost invariant = { λ s. AreFree s.locks (map (λ v. v.items) s.threads.items)
        (map (λ v. v.items) s.free.items) };
}

impl Scripts {
    ghost use Rattle.velo_search.specs.Fitting.{AreAlike, IsWithin};
    ghost use Rattle.velo_search.specs.Free.{is_free_at};
    ghost use Rattle.velo_search.specs.Names.{numbers_of, IsNamingOf};
    ghost use Rattle.velo_filter.specs.Tables.{left_of};
    ghost use Rattle.velo_search.specs.Naming.{renamed_scripts};
    ghost use Rattle.velo_search.specs.Parts.{part_at, ArePartsOf};
    ghost use Rattle.velo_search.specs.Runs.{script_of};

    /// These operations of each thread. As guards of free operations so many locks are looked at.
    ///
    /// # Errors
    /// `Memory` where a growth was refused.
    pub fn new(alloc: Global, threads: Vec<Vec<Kind>>, locks: u16) -> Result<Scripts, Memory>
        ensures kinds { IfOk result (λ scripts. scripts.kinds ≡ map (λ v. v.items) threads.items) }
        ensures locks { IfOk result (λ scripts. scripts.locks ≡ locks) }
    {
        let locks = usize::from(locks);
        let free = free_ones(alloc, &threads, locks)?;
        Ok(Scripts {
            threads,
            locks,
            free,
        })
    }

    /// An operation of a thread, if it has so many.
    pub fn kind(&self, thread: ThreadId, index: u32) -> Option<Kind>
        ensures { result ≡ slice_get (script_of self.now.kinds thread.0) index }
    {
        let script = self.threads.get(usize::from(thread.0))?;
        script.get(index as usize).copied()
    }

    /// Whether an operation of a thread is free at any time: no other thread ever hinders it, or
    /// comes into conflict with it before it is done.
    pub fn is_free(&self, thread: ThreadId, index: u32) -> bool
        ensures { result ≡ option_map_or (is_free_at self.now.locks self.now.kinds thread.0 index)
            (slice_get (script_of self.now.kinds thread.0) index) false }
    {
        is_marked(&self.free, usize::from(thread.0), index as usize)
    }

    /// The bounds without the variables and locks behind the last that an operation names.
    pub(crate) fn fitted(&self, bounds: Bounds) -> Bounds
        ensures most { IsWithin result bounds }
        ensures alike { AreAlike bounds result self.now.kinds }
    {
        fitted(&self.threads, bounds)
    }

    /// Numbers for the variables and locks of the bounds, which begin with those that an operation names.
    ///
    /// # Errors
    /// `Memory` where a growth was refused.
    pub(crate) fn naming(&self, alloc: Global, bounds: Bounds) -> Result<Naming, Memory>
        ensures { IfOk result (IsNamingOf bounds) }
    {
        Naming::of_scripts(alloc, bounds, &self.threads)
    }

    /// The part of each operation in what is left of a log.
    ///
    /// # Errors
    /// `Memory` where a growth was refused.
    pub(crate) fn parts(&self, alloc: Global, left: &LeftOut) -> Result<Vec<Vec<Part>>, Memory>
        ensures { IfOk result (λ parts. ArePartsOf (left_of left.now) self.now.kinds
            (part_at (map (λ v. v.items) parts.items))) }
    {
        parts_of(alloc, &self.threads, left)
    }

    /// The scripts with these numbers. As guards of free operations the locks are looked at that have one of the first.
    ///
    /// # Errors
    /// `Memory` where a growth was refused.
    pub(crate) fn renamed(&self, alloc: Global, naming: &Naming) -> Result<Scripts, Memory>
        ensures { IfOk result (λ scripts. scripts.kinds ≡ renamed_scripts (numbers_of naming.now) self.now.kinds) }
    {
        let threads = naming.scripts(alloc, &self.threads)?;
        Scripts::new(alloc, threads, naming.named_locks())
    }
}
