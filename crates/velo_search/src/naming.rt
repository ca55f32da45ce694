//! Other numbers for the variables and locks of scripts, which begin with those that they name.
ghost use Rattle.std.specs.Prelude.{◌≡◌, map, IfOk};
ghost use Rattle.velo_events.specs.declared.config.Bounds.{Bounds};
ghost use Rattle.velo_search.specs.Names.{numbers_of, IsNamingOf};
ghost use Rattle.velo_search.specs.Naming.{renamed_kind, renamed_scripts};

use crate::exchange::Exchange;
use std::alloc::Global;
use velo_events::growth::reserve;
use velo_events::{Bounds, Kind, LockId, Memory, VarId};

/// A number for each variable and each lock.
#[derive(Drop)]
pub struct Naming {
    variables: Exchange,
    locks: Exchange,
}

impl Naming {
    /// Each has its own number.
    fn new(alloc: Global, bounds: Bounds) -> Result<Naming, Memory>
        ensures { IfOk result (IsNamingOf bounds) }
    {
        let variables = Exchange::new(alloc, bounds.variables)?;
        let locks = Exchange::new(alloc, bounds.locks)?;
        Ok(Naming { variables, locks })
    }

    /// The variable or lock of the operation has one of the first numbers from now on.
    fn take_in(&mut self, kind: Kind)
        ensures { (bounds : Bounds) → IsNamingOf bounds self.old → IsNamingOf bounds self.new }
    {
        match kind {
            Kind::Read(x, _) | Kind::Write(x, _) => self.variables.settle(x.0),
            Kind::Acquire(m) | Kind::Release(m) | Kind::AcquireShared(m) | Kind::ReleaseShared(m) =>
                self.locks.settle(m.0),
            Kind::Begin(_) | Kind::End | Kind::Fork(_) | Kind::Join(_) | Kind::Exit => {}
        }
    }

    /// Those of the script have one of the first numbers from now on.
    fn take_in_script(&mut self, script: &[Kind])
        ensures { (bounds : Bounds) → IsNamingOf bounds self.old → IsNamingOf bounds self.new }
    {
        for place in 0..script.len() {
            self.take_in(script[place]);
        }
    }

    /// The variables and locks of the bounds, first those that the scripts name, as they come.
    ///
    /// # Errors
    /// `Memory` where a growth was refused.
    pub fn of_scripts(
        alloc: Global,
        bounds: Bounds,
        scripts: &[Vec<Kind>],
    ) -> Result<Naming, Memory>
        ensures { IfOk result (IsNamingOf bounds) }
    {
        let mut naming = Naming::new(alloc, bounds)?;
        for thread in 0..scripts.len() {
            naming.take_in_script(&scripts[thread]);
        }
        Ok(naming)
    }

    /// How many locks have one of the first numbers.
    pub fn named_locks(&self) -> u16 {
        self.locks.settled()
    }

    /// The operation, with the numbers given.
    fn kind(&self, kind: Kind) -> Kind
        ensures { result ≡ renamed_kind (numbers_of self.now) kind }
    {
        match kind {
            Kind::Read(x, v) => Kind::Read(VarId(self.variables.number(x.0)), v),
            Kind::Write(x, v) => Kind::Write(VarId(self.variables.number(x.0)), v),
            Kind::Acquire(m) => Kind::Acquire(LockId(self.locks.number(m.0))),
            Kind::Release(m) => Kind::Release(LockId(self.locks.number(m.0))),
            Kind::AcquireShared(m) => Kind::AcquireShared(LockId(self.locks.number(m.0))),
            Kind::ReleaseShared(m) => Kind::ReleaseShared(LockId(self.locks.number(m.0))),
            Kind::Begin(_) | Kind::End | Kind::Fork(_) | Kind::Join(_) | Kind::Exit => kind,
        }
    }

    /// The script, with the numbers given.
    fn script(&self, alloc: Global, script: &[Kind]) -> Result<Vec<Kind>, Memory>
        ensures { IfOk result (λ kinds. kinds.items ≡ map (renamed_kind (numbers_of self.now)) script.now) }
    {
        let mut kinds = Vec::new(alloc);
        for place in 0..script.len() {
            reserve(&mut kinds, 1)?;
            kinds.push_reserved(self.kind(script[place]));
        }
        Ok(kinds)
    }

    /// The scripts, with the numbers given.
    ///
    /// # Errors
    /// `Memory` where a growth was refused.
    pub fn scripts(&self, alloc: Global, scripts: &[Vec<Kind>]) -> Result<Vec<Vec<Kind>>, Memory>
        ensures { IfOk result (λ threads. map (λ v. v.items) threads.items ≡
            renamed_scripts (numbers_of self.now) (map (λ v. v.items) scripts.now)) }
    {
        let mut threads: Vec<Vec<Kind>> = Vec::new(alloc);
        for thread in 0..scripts.len() {
            let own = self.script(alloc, &scripts[thread])?;
            reserve(&mut threads, 1)?;
            threads.push_reserved(own);
        }
        Ok(threads)
    }
}
