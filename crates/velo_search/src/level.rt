//! The states of one level of a search.
ghost use Rattle.std.specs.Prelude.{◌≡◌, ◌⊎◌, ◌↔◌, ◌+◌, ◌≤◌, false, [], length, Contains, IsTrue, IfOk, OnOk};
ghost use Rattle.std.specs.List.{ReversedBelow};
ghost use Rattle.velo_search.specs.declared.state.State.{State};

use crate::growth::insert;
use crate::state::State;
use std::alloc::Global;
use std::collections::HashMap;
use velo_events::Memory;
use velo_events::growth::reserve;

/// States, of which mostly no two are the same.
#[derive(Drop)]
pub struct Level {
    pub states: Vec<State>,
    /// Where a state with such a key stands: a guess, which is looked at before it is trusted.
    places: HashMap<u64, usize>,
}

impl Level {
    ghost use Rattle.velo_search.specs.Search.{IsAt, StandsAmong};

    /// No state.
    pub fn new(alloc: Global) -> Level
        ensures { result.states.items ≡ [] }
    {
        Level {
            states: Vec::new(alloc),
            places: HashMap::new(alloc),
        }
    }

    /// Keeps a state, unless the same is there. Whether it did.
    ///
    /// # Errors
    /// `Memory` where a growth was refused.
    pub fn keep(&mut self, state: State) -> Result<bool, Memory>
        ensures members { OnOk result ((s : State) → Contains self.new.states.items s →
            (Contains self.old.states.items s ⊎ (state ≡ s))) }
        ensures before { OnOk result ((s : State) → Contains self.old.states.items s →
            Contains self.new.states.items s) }
        ensures there { OnOk result (StandsAmong self.new.states.items state) }
        ensures count { OnOk result (length self.new.states.items ≤ length self.old.states.items +
            1) }
        ensures not { IfOk result (λ kept. kept ≡ false → self.new.states.items ≡
            self.old.states.items) }
    {
        let key = state.key();
        if self.has_at(self.guess(key), &state) {
            drop(state);
            return Ok(false);
        }
        reserve(&mut self.states, 1)?;
        let place = self.states.len();
        self.states.push_reserved(state);
        self.note(key, place)?;
        Ok(true)
    }

    /// Puts the states the other way round, and drops the index of states: no
    /// more states will be kept.
    pub fn turn_round(&mut self, alloc: Global)
        ensures states { ReversedBelow self.old.states.items self.new.states.items (length self.old.states.items) }
        ensures count { length self.new.states.items ≡ length self.old.states.items }
    {
        self.places = HashMap::new(alloc);
        self.states.reverse();
    }

    /// Where a state with the key may stand.
    fn guess(&self, key: u64) -> usize {
        match self.places.get(&key) {
            Some(place) => *place,
            None => usize::MAX,
        }
    }

    /// Whether the state stands at the place.
    fn has_at(&self, place: usize, state: &State) -> bool
        ensures { IsTrue result ↔ IsAt self.now.states.items place state.now }
    {
        place < self.states.len() && self.states[place].is_same(state)
    }

    /// Notes where a state with the key stands.
    fn note(&mut self, key: u64, place: usize) -> Result<(), Memory>
        ensures { self.new.states.items ≡ self.old.states.items }
    {
        insert(&mut self.places, key, place)
    }
}
