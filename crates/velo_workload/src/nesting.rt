//! The body that is read: its open repeats, and what it costs.
ghost use Rattle.std.specs.Prelude.{◌≡◌, ◌+◌, ◌-◌, ◌*◌, ◌<◌, ◌∷◌, ◌++◌, [], None, Some, length, take, min, OnOk};
ghost use Rattle.std.specs.Option.{option_map_or};
ghost use Rattle.velo_workload.specs.Outline.{Judges};
ghost use Rattle.velo_workload.specs.Nesting.{last_open, most_kept, nesting_fault, nesting_of};

use crate::fault::WorkFault;
use crate::limits::MAX_COST;
use std::alloc::Global;
use velo_events::Memory;
use velo_events::growth::reserve;

/// What is kept of a number of rounds or of a cost: no more than one above the most that a body may
/// cost.
const MAX_KEPT: u64 = MAX_COST + 1;

/// An open repeat.
#[derive(Clone, Copy)]
pub struct Open {
    /// Its line.
    pub line: usize,
    /// How often it is done itself.
    pub outside: u64,
}

/// The body that is read.
#[derive(Drop)]
pub struct Nesting {
    thread_line: usize,
    open: Vec<Open>,
    /// How often the next statement is done.
    rounds: u64,
    cost: u64,
}

/// A sum, or the most that is kept.
fn kept_sum(a: u64, b: u64) -> u64
    ensures { result ≡ min (a + b) most_kept }
{
    let sum = a.saturating_add(b);
    if sum > MAX_KEPT { MAX_KEPT } else { sum }
}

/// A product, or the most that is kept.
fn kept_product(a: u64, b: u64) -> u64
    ensures { result ≡ min (a * b) most_kept }
{
    let product = a.saturating_mul(b);
    if product > MAX_KEPT {
        MAX_KEPT
    } else {
        product
    }
}

impl Nesting {
    /// Before the first body.
    pub fn new(alloc: Global) -> Nesting
        ensures { nesting_of result ≡ record { thread_line = 0; open_repeats = []; rounds = 1; cost = 0 } }
    {
        Nesting {
            thread_line: 0,
            open: Vec::new(alloc),
            rounds: 1,
            cost: 0,
        }
    }

    /// How many repeats are open.
    pub fn depth(&self) -> usize
        ensures { result ≡ length (nesting_of self.now).open_repeats }
    {
        self.open.len()
    }

    /// Begins the body of the thread of this line.
    pub fn begin(&mut self, line: usize)
        ensures { nesting_of self.new ≡ record { thread_line = line; open_repeats = []; rounds = 1; cost = 0 } }
    {
        self.thread_line = line;
        self.open.clear();
        self.rounds = 1;
        self.cost = 0;
    }

    /// Opens a repeat of this line.
    ///
    /// # Errors
    /// `Memory` if an allocation failed.
    pub fn open_repeat(&mut self, times: u64, line: usize) -> Result<(), Memory>
        ensures thread_line { OnOk result ((nesting_of self.new).thread_line ≡ (nesting_of self.old).thread_line) }
        ensures open { OnOk result
            ((nesting_of self.new).open_repeats
            ≡ (nesting_of self.old).open_repeats ++ record { line = line; outside = (nesting_of self.old).rounds }
            ∷ []) }
        ensures rounds { OnOk result
            ((nesting_of self.new).rounds ≡ min ((nesting_of self.old).rounds * times) most_kept) }
        ensures cost { OnOk result
            ((nesting_of self.new).cost
            ≡ min
            ((nesting_of self.old).cost +
            ((nesting_of self.old).rounds + min ((nesting_of self.old).rounds * times) most_kept)) most_kept) }
    {
        reserve(&mut self.open, 1)?;
        let open = Open {
            line,
            outside: self.rounds,
        };
        self.open.push_reserved(open);
        let rounds = kept_product(self.rounds, times);
        self.cost = kept_sum(self.cost, self.rounds.saturating_add(rounds));
        self.rounds = rounds;
        Ok(())
    }

    /// Closes the last open repeat.
    pub fn close_repeat(&mut self)
        ensures thread_line { (nesting_of self.new).thread_line ≡ (nesting_of self.old).thread_line }
        ensures open { (nesting_of self.new).open_repeats
            ≡ take (length (nesting_of self.old).open_repeats - 1) (nesting_of self.old).open_repeats }
        ensures rounds { (nesting_of self.new).rounds
            ≡ option_map_or (λ o. o.outside) (last_open (nesting_of self.old).open_repeats) 1 }
        ensures cost { (nesting_of self.new).cost ≡ (nesting_of self.old).cost }
    {
        self.rounds = match self.open.last() {
            Some(open) => open.outside,
            None => 1,
        };
        let _ = self.open.pop();
    }

    /// Takes in a statement of cost 1.
    pub fn count_statement(&mut self)
        ensures thread_line { (nesting_of self.new).thread_line ≡ (nesting_of self.old).thread_line }
        ensures open { (nesting_of self.new).open_repeats ≡ (nesting_of self.old).open_repeats }
        ensures rounds { (nesting_of self.new).rounds ≡ (nesting_of self.old).rounds }
        ensures cost { (nesting_of self.new).cost
            ≡ min ((nesting_of self.old).cost + (nesting_of self.old).rounds) most_kept }
    {
        self.cost = kept_sum(self.cost, self.rounds);
    }

    /// The fault of a body that ends here.
    ///
    /// # Errors
    /// `Unmatched` for the innermost repeat that is open, and else `TooMany` where the body costs
    /// more than it may.
    pub fn end(&self) -> Result<(), WorkFault>
        ensures { Judges (nesting_fault (nesting_of self.now)) result }
    {
        if let Some(open) = self.open.last() {
            return Err(WorkFault::Unmatched(open.line));
        }
        if self.cost > MAX_COST {
            return Err(WorkFault::TooMany(self.thread_line));
        }
        Ok(())
    }
}
