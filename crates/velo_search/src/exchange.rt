//! Numbers that are given for others, each once.
ghost use Rattle.std.specs.Prelude.{◌≡◌, ◌<◌, ◌^◌, ℕ, length, IfOk};
ghost use Rattle.velo_search.specs.Exchanges.{number_in, ArePaired};

use std::alloc::Global;
use velo_events::Memory;
use velo_events::growth::reserve;

/// A number for each of so many, each once.
#[derive(Drop)]
pub struct Exchange {
    /// The number that is given for each.
    to: Vec<u16>,
    /// That for which it is given.
    back: Vec<u16>,
    /// The numbers below are settled: they stay where they are.
    settled: u16,
    ghost paired: { ArePaired to.items back.items },
    ghost few: { length to.items < 2 ^ 16 },
}

/// The number that the list gives. One behind its end is given itself.
fn number_in(list: &[u16], number: u16) -> u16
    ensures { result ≡ number_in list.now number }
{
    match list.get(usize::from(number)) {
        Some(given) => *given,
        None => number,
    }
}

/// A list that gives each of so many numbers itself.
fn identity(alloc: Global, count: u16) -> Result<Vec<u16>, Memory>
    ensures count { IfOk result (λ list. length list.items ≡ count) }
    ensures each { IfOk result (λ list. (x : ℕ) → number_in list.items x ≡ x) }
{
    let mut list = Vec::new(alloc);
    for number in 0..count {
        reserve(&mut list, 1)?;
        list.push_reserved(number);
    }
    Ok(list)
}

/// Gives the number for this one, and what this one had for that for which the number was given.
fn swap(to: &mut Vec<u16>, back: &mut Vec<u16>, one: u16, number: u16)
    requires paired { ArePaired to.old.items back.old.items }
    requires one { one < length to.old.items }
    requires number { number < length to.old.items }
    ensures paired { ArePaired to.new.items back.new.items }
    ensures count { length to.new.items ≡ length to.old.items }
{
    let had = to[usize::from(one)];
    let other = back[usize::from(number)];
    to[usize::from(one)] = number;
    to[usize::from(other)] = had;
    back[usize::from(number)] = one;
    back[usize::from(had)] = other;
}

impl Exchange {
    /// Each of so many numbers for itself.
    ///
    /// # Errors
    /// `Memory` where a growth was refused.
    pub fn new(alloc: Global, count: u16) -> Result<Exchange, Memory>
        ensures { IfOk result (λ x. length x.to.items ≡ count) }
    {
        let to = identity(alloc, count)?;
        let back = identity(alloc, count)?;
        Ok(Exchange {
            to,
            back,
            settled: 0,
        })
    }

    /// Gives this one the first number that is not settled, and settles it, unless that of this one is settled.
    pub fn settle(&mut self, one: u16)
        ensures { length self.new.to.items ≡ length self.old.to.items }
    {
        let count = self.to.len();
        if usize::from(one) >= count || usize::from(self.settled) >= count {
            return;
        }
        if self.to[usize::from(one)] < self.settled {
            return;
        }
        swap(&mut self.to, &mut self.back, one, self.settled);
        self.settled += 1;
    }

    /// The number that is given for this one.
    pub fn number(&self, one: u16) -> u16
        ensures { result ≡ number_in self.now.to.items one }
    {
        number_in(&self.to, one)
    }

    /// How many numbers are settled.
    pub fn settled(&self) -> u16 {
        self.settled
    }
}
