//! A place for each thread's share.
ghost use Rattle.std.specs.Prelude.{◌≡◌, ◌↔◌, [], None, Some, IsOk, IfOk, OnOk, IfErr, OnErr, IfSome, replicate, slice_get, slice_set};
ghost use Rattle.std.specs.Option.{option_copied};
ghost use Rattle.velo_ledger.specs.Shares.{AreInPlace, share_at, share_in};

use crate::share::Share;
use std::alloc::Global;
use std::marker::Model;
use velo_events::growth::with_capacity;
use velo_events::{Memory, ThreadId};

/// A place for each thread's share.
#[derive(Drop)]
pub struct Shares {
    /// By number of the threads.
    pub(crate) places: Vec<Option<Share>>,
}

impl Model for Shares {
    ghost use Rattle.std.specs.Prelude.{List, Option};
    ghost use Rattle.velo_ledger.specs.Views.{Holding};
    ghost use Rattle.velo_ledger.specs.Shares.{AreInPlace};

    ghost Value = { List (Option Holding) };

    ghost view = { λ shares. shares.places.items };

    ghost invariant = { λ shares. AreInPlace shares.places.items };
}

impl Shares {
    /// No place at all. It takes no memory.
    pub(crate) fn nowhere(alloc: Global) -> Shares
        ensures { result ≡ [] }
    {
        Shares {
            places: Vec::new(alloc),
        }
    }

    /// A place for each thread, all empty.
    ///
    /// # Errors
    /// `Memory` if an allocation failed.
    pub fn none(alloc: Global, threads: u8) -> Result<Shares, Memory>
        ensures { IfOk result (λ shares. shares ≡ replicate threads None) }
    {
        let mut places = with_capacity(alloc, usize::from(threads))?;
        for _ in 0..threads {
            places.push_reserved(None);
        }
        Ok(Shares { places })
    }

    /// A look at the thread's share, where it is here.
    pub fn get(&self, thread: ThreadId) -> Option<&Share>
        ensures share { option_copied result ≡ share_at self.now thread }
        ensures own { IfSome result (λ share. share.now.thread ≡ thread) }
        ensures in_place { AreInPlace self.now }
    {
        self.at(usize::from(thread.0))
    }

    /// A look at the share at the place, where one is there.
    pub(crate) fn at(&self, place: usize) -> Option<&Share>
        ensures share { option_copied result ≡ share_in self.now place }
        ensures own { IfSome result (λ share. share.now.thread.0 ≡ place) }
        ensures in_place { AreInPlace self.now }
    {
        if place < self.places.len() {
            self.places[place].as_ref()
        } else {
            None
        }
    }

    /// Takes the thread's share out, where it is here.
    pub fn take(&mut self, thread: ThreadId) -> Option<Share>
        ensures share { result ≡ share_at self.old thread }
        ensures own { IfSome result (λ share. share.thread ≡ thread) }
        ensures after { self.new ≡ slice_set self.old thread.0 None }
    {
        let place = usize::from(thread.0);
        if place < self.places.len() {
            self.places[place].take()
        } else {
            None
        }
    }

    /// Puts a share at its thread's place.
    ///
    /// # Errors
    /// The share itself, exactly where that place is filled or not there. The places are as they
    /// were then.
    pub fn put(&mut self, share: Share) -> Result<(), Share>
        ensures ok { IsOk result ↔ (slice_get self.old share.thread.0 ≡ Some None) }
        ensures placed { OnOk result (self.new ≡ slice_set self.old share.thread.0 (Some share)) }
        ensures back { IfErr result (λ back. back ≡ share) }
        ensures unchanged { OnErr result (self.new ≡ self.old) }
    {
        let place = usize::from(share.thread.0);
        if place < self.places.len() && self.places[place].is_none() {
            self.places[place] = Some(share);
            Ok(())
        } else {
            Err(share)
        }
    }
}
