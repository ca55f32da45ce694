//! Lists that are kept in one store.
ghost use Rattle.std.specs.Prelude.{◌≡◌, ◌<◌, ◌+◌, ◌++◌, ◌∷◌, [], length, slice_index, slice_set, IfOk, OnOk};
ghost use Rattle.velo_certify.specs.Chains.{AreDescending, AreWithin};
ghost use Rattle.velo_traces.specs.Numbers.{IsBlank};

use std::alloc::Global;
use velo_events::Memory;
use velo_events::growth::{filled, reserve};

/// A transaction from which an edge leads, and where the list goes on. Links are counted from 1.
#[derive(Clone, Copy)]
pub(crate) struct Link {
    /// The transaction.
    pub before: usize,
    /// The number of the link at which the list goes on, or 0.
    pub next: usize,
}

/// A list for each transaction.
#[derive(Drop)]
pub(crate) struct Links {
    /// For each transaction the number of the link at which its list begins, or 0.
    pub heads: Vec<usize>,
    /// The links of all lists.
    pub links: Vec<Link>,
    ghost descending: { AreDescending links.items },
    ghost within: { AreWithin heads.items (length links.items) },
}

impl Links {
    /// Empty lists for this number of transactions.
    ///
    /// # Errors
    /// `Memory` if an allocation failed.
    pub fn new(alloc: Global, count: usize) -> Result<Links, Memory>
        ensures blank { IfOk result (λ l. IsBlank l.heads.items) }
        ensures count { IfOk result (λ l. length l.heads.items ≡ count) }
    {
        Ok(Links {
            heads: filled(alloc, 0, count)?,
            links: Vec::new(alloc),
        })
    }

    /// Puts a transaction at the front of a list.
    ///
    /// # Errors
    /// `Memory` if an allocation failed.
    pub fn add(&mut self, before: usize, to: usize) -> Result<(), Memory>
        requires { to < length self.old.heads.items }
        ensures links { OnOk result
            (self.new.links.items
            ≡ self.old.links.items ++ record { before = before; next = slice_index self.old.heads.items to } ∷ []) }
        ensures heads { OnOk result
            (self.new.heads.items ≡ slice_set self.old.heads.items to (length self.old.links.items + 1)) }
    {
        reserve(&mut self.links, 1)?;
        let next = self.heads[to];
        self.links.push_reserved(Link { before, next });
        self.heads[to] = self.links.len();
        Ok(())
    }
}
