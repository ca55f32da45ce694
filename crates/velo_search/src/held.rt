//! How a thread has each lock by its own operations.
ghost use Rattle.std.specs.Prelude.{◌≡◌, ◌↔◌, [], ◌∷◌, ◌++◌, ℕ, List, IsTrue, IfOk};
ghost use Rattle.velo_events.specs.declared.event.Kind.{Kind};

use crate::copied::copied;
use crate::hold::Hold;
use std::alloc::Global;
use velo_events::growth::filled;
use velo_events::{Kind, Memory};

/// How a thread has each lock by its own operations.
#[derive(Drop)]
pub struct Held {
    locks: Vec<Hold>,
}

/// Whether they are the same.
fn are_same(one: &[Hold], other: &[Hold]) -> bool
    ensures { IsTrue result ↔ (one.now ≡ other.now) }
{
    one == other
}

impl Held {
    ghost use Rattle.velo_search.specs.Free.{some_excluded, AreHeld};

    /// None of so many locks.
    ///
    /// # Errors
    /// `Memory` where a growth was refused.
    pub fn none(alloc: Global, locks: usize) -> Result<Held, Memory>
        ensures { IfOk result (λ held. AreHeld locks [] held.locks.items) }
    {
        let locks = filled(alloc, Hold::none(), locks)?;
        Ok(Held { locks })
    }

    /// The same once more.
    ///
    /// # Errors
    /// `Memory` where a growth was refused.
    pub fn copy(&self, alloc: Global) -> Result<Held, Memory>
        ensures { IfOk result (λ held. held.locks.items ≡ self.now.locks.items) }
    {
        let locks = copied(alloc, &self.locks)?;
        Ok(Held { locks })
    }

    /// Takes one more operation of the thread in.
    pub fn take_in(&mut self, kind: Kind)
        ensures { (n : ℕ) (before : List Kind) → AreHeld n before self.old.locks.items →
            AreHeld n (before ++ kind ∷ []) self.new.locks.items }
    {
        for lock in 0..self.locks.len() {
            self.locks[lock] = self.locks[lock].after(lock, kind);
        }
    }

    /// Whether two threads cannot hold their locks so at one time.
    pub fn excludes(&self, other: &Held) -> bool
        ensures { result ≡ some_excluded self.now.locks.items other.now.locks.items }
    {
        for lock in 0..self.locks.len() {
            if lock < other.locks.len() && self.locks[lock].excludes(other.locks[lock]) {
                return true;
            }
        }
        false
    }

    /// Whether both have the same locks alike.
    pub fn is_same(&self, other: &Held) -> bool
        ensures { IsTrue result ↔ (self.now.locks.items ≡ other.now.locks.items) }
    {
        are_same(&self.locks, &other.locks)
    }
}
