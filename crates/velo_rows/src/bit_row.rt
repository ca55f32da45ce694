//! A set of slots as bits.
ghost use Rattle.std.specs.Prelude.{◌≡◌, ◌+◌, ◌/◌, length};
ghost use Rattle.velo_rows.specs.Bits.{AreBelow, IsEnd, bits_of, below_bits};

use crate::ancestors::Ancestors;
use crate::words::{clear_bit, clear_bits, end_of_bits, is_set, join, meet, set_bit, take_away};
use std::alloc::Global;
use velo_events::Memory;
use velo_events::growth::filled;

/// A set of slots as one bit for each.
#[derive(Drop)]
pub struct BitRow {
    words: Vec<u64>,
    /// The words from here on are 0, and the one before is not: no call that goes through the words looks at more of them.
    end: usize,
    limit: u16,
    ghost room: { length words.items ≡ (limit + 63) / 64 },
    ghost below: { AreBelow limit words.items },
    ghost ends: { IsEnd words.items end },
}

impl Ancestors for BitRow {
    ghost capacity = { λ row. row.limit };

    ghost members = { λ row. bits_of row.words.items };

    ghost within = { λ row slot there. below_bits row.words.items row.limit slot row.below there };

    fn empty(alloc: Global, limit: u16) -> Result<BitRow, Memory> {
        let words = filled(alloc, 0u64, (limit as usize).div_ceil(64))?;
        Ok(BitRow {
            words,
            end: 0,
            limit,
        })
    }

    fn contains(&self, slot: u16) -> bool {
        is_set(&self.words, slot as usize)
    }

    fn insert(&mut self, slot: u16) {
        set_bit(&mut self.words, slot as usize);
        self.end = self.end.max(slot as usize / 64 + 1);
    }

    fn remove(&mut self, slot: u16) {
        clear_bit(&mut self.words, slot as usize);
        self.end = end_of_bits(&self.words, self.end);
    }

    fn join(&mut self, other: &BitRow) {
        join(&mut self.words, &other.words, other.end);
        self.end = self.end.max(other.end);
    }

    fn take_away(&mut self, other: &BitRow) {
        take_away(&mut self.words, &other.words, self.end.min(other.end));
        self.end = end_of_bits(&self.words, self.end);
    }

    fn meets(&self, other: &BitRow) -> bool {
        meet(&self.words, &other.words, self.end.min(other.end))
    }

    fn is_empty(&self) -> bool {
        self.end == 0
    }

    fn clear(&mut self) {
        clear_bits(&mut self.words, self.end);
        self.end = 0;
    }
}
