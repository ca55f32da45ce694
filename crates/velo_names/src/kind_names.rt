//! The names of a kind.
ghost use Rattle.std.specs.Prelude.{◌≡◌, ◌∷◌, [], IfOk, OnOk, OnErr};
ghost use Rattle.std.specs.Option.{option_copied};
ghost use Rattle.velo_names.specs.Answers.{AnswersAs, AreKept, AreNoted};
ghost use Rattle.velo_names.specs.Names.{list_with, name_in, numbers_in, numbers_like};

use crate::fault::NamesFault;
use crate::growth::{enter, make_room};
use crate::pattern::is_like;
use indexmap::IndexMap;
use std::alloc::Global;
use std::marker::Model;
use velo_events::Memory;
use velo_events::growth::{reserve, with_capacity};

/// The names of a kind, in the order of their lines, and the numbers of each name.
#[derive(Drop)]
pub struct KindNames<'a> {
    names: IndexMap<u32, &'a [u8]>,
    numbers: IndexMap<&'a [u8], Vec<u32>>,
}

impl<'a> Model for KindNames<'a> {
    ghost use Rattle.velo_names.specs.Answers.{IsIndexOf, list_in};
    ghost use Rattle.velo_names.specs.Names.{NameList};

    ghost Value = { NameList };

    ghost view = { λ n. list_in n.names };

    ghost invariant = { λ n. IsIndexOf (list_in n.names) n.numbers };
}

/// Adds a number to those of a name.
fn note<'a>(
    index: &mut IndexMap<&'a [u8], Vec<u32>>,
    name: &'a [u8],
    number: u32,
) -> Result<(), Memory>
    ensures ok { OnOk result (AreNoted index.old index.new name.entry (number ∷ [])) }
    ensures err { OnErr result (AreKept index.old index.new) }
{
    if let Some(numbers) = index.get_mut(name) {
        reserve(numbers, 1)?;
        numbers.push_reserved(number);
        return Ok(());
    }
    let mut numbers = with_capacity(*index.allocator(), 1)?;
    numbers.push_reserved(number);
    enter(index, name, numbers)
}

/// The same numbers.
fn copied(alloc: Global, numbers: &[u32]) -> Result<Vec<u32>, Memory>
    ensures { IfOk result (λ same. same.items ≡ numbers.now) }
{
    let mut same = with_capacity(alloc, numbers.len())?;
    match same.extend_from_slice(numbers) {
        Ok(()) => Ok(same),
        Err(_) => unreachable!(),
    }
}

impl<'a> KindNames<'a> {
    /// No names.
    pub fn new(alloc: Global) -> KindNames<'a>
        ensures { result ≡ [] }
    {
        KindNames {
            names: IndexMap::new(alloc),
            numbers: IndexMap::new(alloc),
        }
    }

    /// Adds the name of a number, from a line.
    pub fn add(&mut self, number: u32, name: &'a [u8], line: usize) -> Result<(), NamesFault>
        ensures { AnswersAs (list_with self.old number name.now line) self.new result }
    {
        if self.names.contains_key(&number) {
            return Err(NamesFault::NamedTwice(line));
        }
        make_room(&mut self.names)?;
        note(&mut self.numbers, name, number)?;
        self.names.insert(number, name).unwrap();
        Ok(())
    }

    /// The name of a number.
    pub fn name_of(&self, number: u32) -> Option<&'a [u8]>
        ensures { option_copied result ≡ name_in self.now number }
    {
        self.names.get(&number).copied()
    }

    /// The numbers of a name.
    pub fn numbers_of(&self, alloc: Global, name: &[u8]) -> Result<Vec<u32>, Memory>
        ensures { IfOk result (λ numbers. numbers.items ≡ numbers_in self.now name.now) }
    {
        match self.numbers.get(name) {
            None => Ok(Vec::new(alloc)),
            Some(numbers) => copied(alloc, numbers),
        }
    }

    /// The numbers whose names are like a pattern.
    pub fn numbers_like(&self, alloc: Global, pattern: &[u8]) -> Result<Vec<u32>, Memory>
        ensures { IfOk result (λ numbers. numbers.items ≡ numbers_like self.now pattern.now) }
    {
        let mut numbers = Vec::new(alloc);
        for (number, name) in &self.names {
            if is_like(pattern, *name) {
                reserve(&mut numbers, 1)?;
                numbers.push_reserved(*number);
            }
        }
        Ok(numbers)
    }
}
