//! The events that lead to the states of a search.
ghost use Rattle.std.specs.Prelude.{◌≡◌, ◌+◌, ◌≤◌, ◌&&◌, not, nat_lt, [], ◌∷◌, ◌++◌, length, take, None, IfOk, OnOk};
ghost use Rattle.std.specs.Option.{option_map};
ghost use Rattle.velo_search.specs.Steps.{AreEarlier, IsWay, Notes};

use crate::found::Found;
use crate::schedules::{MAX_ALARMS, Schedules};
use crate::searched::Searched;
use crate::step::Step;
use std::alloc::Global;
use velo_events::growth::reserve;
use velo_events::{Memory, ThreadId};

/// The events that lead to the states of a search, and the turns that lead to what was found. Runs
/// that begin alike have their first events in common.
#[derive(Drop)]
pub struct Trail {
    /// Whether the first finding alone is shown.
    first: bool,
    steps: Vec<Step>,
    shown: Schedules,
    ghost earlier: { AreEarlier steps.items },
}

impl Trail {
    ghost use Rattle.velo_search.specs.declared.schedules.TheConstants.{MAX_ALARMS};
    ghost use Rattle.velo_search.specs.declared.step.Step.{Step};
    ghost use Rattle.velo_search.specs.Faults.{Fault};
    ghost use Rattle.velo_search.specs.Told.{shown_of};
    ghost use Rattle.velo_search.specs.Trail.{alarms_of, GoesOn, turns_for, NotesAlarm, NotesTurns};

    /// Of no event. With `first` a single finding will be shown.
    pub fn new(alloc: Global, first: bool) -> Trail
        ensures steps { result.steps.items ≡ [] }
        ensures first { result.first ≡ first }
        ensures shown { (fault : Fault) → turns_for result.shown fault ≡ None }
        ensures alarms { alarms_of result.shown ≡ [] }
    {
        Trail {
            first,
            steps: Vec::new(alloc),
            shown: Schedules {
                alarm: None,
                stuck: None,
                refused: None,
                alarms: Vec::new(alloc),
            },
        }
    }

    /// How many events there are.
    pub fn len(&self) -> usize
        ensures { result ≡ length self.now.steps.items }
    {
        self.steps.len()
    }

    /// One more event of the thread, after the one at the place `before`. Its own place.
    ///
    /// # Errors
    /// `Memory` where a growth was refused.
    pub fn push(&mut self, before: usize, thread: ThreadId) -> Result<usize, Memory>
        requires { before ≤ length self.old.steps.items }
        ensures steps { OnOk result (self.new.steps.items ≡
            self.old.steps.items ++ record { before = before; thread = thread } ∷ []) }
        ensures place { IfOk result (λ place. place ≡ length self.old.steps.items + 1) }
        ensures goes_on { OnOk result (GoesOn self.old self.new) }
        ensures alarms { OnOk result (alarms_of self.new.shown ≡ alarms_of self.old.shown) }
    {
        reserve(&mut self.steps, 1)?;
        self.steps.push_reserved(Step { before, thread });
        Ok(self.steps.len())
    }

    /// Forgets the events after the first so many.
    pub fn cut(&mut self, count: usize)
        ensures steps { self.new.steps.items ≡ take count self.old.steps.items }
        ensures shown { self.new.shown ≡ self.old.shown }
        ensures first { self.new.first ≡ self.old.first }
    {
        self.steps.truncate(count);
    }

    /// What is shown of what was found.
    fn told_of(&self, found: Found) -> Found
        ensures { result ≡ shown_of self.now.first found }
    {
        if self.first { found.foremost() } else { found }
    }

    /// Notes the turns that lead to a place, for each fault that was found there first.
    ///
    /// # Errors
    /// `Memory` where a growth was refused.
    pub fn note(
        &mut self,
        alloc: Global,
        place: usize,
        before: Found,
        after: Found,
    ) -> Result<(), Memory>
        requires { place ≤ length self.old.steps.items }
        ensures { OnOk result (NotesTurns self.old place before after self.new) }
    {
        let after = self.told_of(after);
        let Schedules {
            alarm,
            stuck,
            refused,
            ..
        } = &mut self.shown;
        let steps = &self.steps;
        note_first(alloc, steps, place, before.alarm, after.alarm, alarm)?;
        note_first(alloc, steps, place, before.stuck, after.stuck, stuck)?;
        note_first(alloc, steps, place, before.refused, after.refused, refused)?;
        Ok(())
    }

    /// Whether one more schedule to an alarm is to be kept.
    fn wants_alarm(&self) -> bool
        ensures { result ≡
            (not self.now.first && nat_lt (length self.now.shown.alarms.items) MAX_ALARMS) }
    {
        !self.first && self.shown.alarms.len() < MAX_ALARMS
    }

    /// Notes the turns that lead to a place after a decision that closed a first cycle, unless the
    /// first finding alone is shown or there are [`MAX_ALARMS`].
    ///
    /// # Errors
    /// `Memory` where a growth was refused.
    pub fn note_alarm(&mut self, alloc: Global, place: usize) -> Result<(), Memory>
        requires { place ≤ length self.old.steps.items }
        ensures steps { self.new.steps.items ≡ self.old.steps.items }
        ensures goes_on { OnOk result (GoesOn self.old self.new) }
        ensures notes { OnOk result (NotesAlarm self.old place self.new) }
    {
        if !self.wants_alarm() {
            return Ok(());
        }
        let turns = turns_to(alloc, &self.steps, place)?;
        reserve(&mut self.shown.alarms, 1)?;
        self.shown.alarms.push_reserved(turns);
        Ok(())
    }

    /// What a search found that looked at so many states and tried every run or not, with the turns
    /// that were noted.
    pub fn into_searched(self, found: Found, states: u64, whole: bool) -> Searched
        ensures found { result.found ≡ found }
        ensures schedules { result.schedules ≡ self.shown }
        ensures states { result.states ≡ states }
        ensures whole { result.whole ≡ whole }
    {
        let Trail { steps, shown, .. } = self;
        drop(steps);
        Searched {
            found,
            schedules: shown,
            states,
            whole,
        }
    }
}

/// Whether it is there after, and was not before.
pub(crate) fn is_new(before: bool, after: bool) -> bool
    ensures { result ≡ (after && not before) }
{
    after && !before
}

/// Puts the turns that lead to a place, if what is looked for is there after it and was not found
/// before.
fn note_first(
    alloc: Global,
    steps: &[Step],
    place: usize,
    before: bool,
    after: bool,
    turns: &mut Option<Vec<ThreadId>>,
) -> Result<(), Memory>
    requires earlier { AreEarlier steps.now }
    requires within { place ≤ length steps.now }
    ensures { OnOk result (Notes steps.now place before after
        (option_map (λ v. v.items) turns.old) (option_map (λ v. v.items) turns.new)) }
{
    if is_new(before, after) {
        let way = turns_to(alloc, steps, place)?;
        *turns = Some(way);
    }
    Ok(())
}

/// The turns that lead to a place.
fn turns_to(alloc: Global, steps: &[Step], place: usize) -> Result<Vec<ThreadId>, Memory>
    requires earlier { AreEarlier steps.now }
    requires within { place ≤ length steps.now }
    ensures { IfOk result (λ turns. IsWay steps.now place turns.items) }
{
    let mut turns = Vec::new(alloc);
    let mut from = place;
    while from > 0 {
        let step = steps[from - 1];
        reserve(&mut turns, 1)?;
        turns.push_reserved(step.thread);
        from = step.before;
    }
    turns.reverse();
    Ok(turns)
}
