//! A search of all states that the runs of some scripts can be in.
ghost use Rattle.std.specs.Prelude.{◌≡◌, ◌+◌, ◌*◌, ◌<◌, ◌≤◌, ◌&&◌, ◌||◌, List, ℕ, true, false, [], ◌⊎◌, All, Contains, take, length, is_some, IfOk, IfSome, IsTrue, OnOk};
ghost use Rattle.velo_events.specs.declared.config.Bounds.{Bounds};
ghost use Rattle.velo_events.specs.declared.event.Event.{Event};
ghost use Rattle.velo_events.specs.declared.event.Kind.{Kind};
ghost use Rattle.velo_events.specs.Event.{thread_of};
ghost use Rattle.velo_heap.specs.Contents.{bounds_of};
ghost use Rattle.velo_search.specs.declared.state.State.{State};
ghost use Rattle.velo_search.specs.Faults.{Fault, NextIs, is_wait};
ghost use Rattle.velo_search.specs.Judged.{AlarmsGoOnIn, ArePartsIn, AreShownIn, IsCleanIn, IsFaultIn, IsReachedIn};
ghost use Rattle.velo_search.specs.Judged.{IsTriedIn, IsTrueIn, rest_in};
ghost use Rattle.velo_search.specs.Runs.{IsRunOf, Never, NeverWithin};
ghost use Rattle.velo_search.specs.States.{IsStateOf};
ghost use Rattle.velo_search.specs.Search.{ArePlain, AreShort, StandsAmong, IsCleanBy, IsNextAt, IsSearchCut, has_fault};
ghost use Rattle.velo_search.specs.Told.{has_ended, shown_of};
ghost use Rattle.velo_search.specs.Trail.{AlarmsGoOn, LeadToCycles, GoesOn, IsNoted, IsReachedBy, LeadsTo};
ghost use Rattle.velo_search.specs.Trail.{alarms_of, turns_for};

use crate::found::Found;
use crate::level::Level;
use crate::looked::Looked;
use crate::marked::MarkedScripts;
use crate::next::Next;
use crate::progress::Progress;
use crate::searched::Searched;
use crate::seen::ThreadsSeen;
use crate::settling::{advance, settle};
use crate::state::State;
use crate::terms::Terms;
use crate::trail::{Trail, is_new};
use std::alloc::Global;
use velo_events::{Config, Event, Memory, Refusal, ThreadId};

/// Whether a thread waits at the refusal.
fn is_wait(refusal: Refusal) -> bool
    ensures { result ≡ is_wait refusal }
{
    matches!(refusal, Refusal::Busy | Refusal::NotExited)
}

/// How a thread stands with its next operation.
pub(crate) fn next_of(scripts: &MarkedScripts, state: &State, thread: ThreadId) -> Next
    requires plain { ArePlain scripts.now.kinds }
    requires thread { thread.0 < (bounds_of state.now.heap).threads }
    ensures { (log : List Event) → IsRunOf (bounds_of state.now.heap) scripts.now.kinds log →
        IsStateOf (rest_in scripts.now) log state.now →
        NextIs (bounds_of state.now.heap) scripts.now.kinds log thread.0 result }
{
    let Some(kind) = scripts.kind(thread, state.done_by(thread)) else {
        return Next::Idle;
    };
    let event = Event { thread, kind };
    let Some(refusal) = state.refusal(&event) else {
        return Next::May(event);
    };
    if is_wait(refusal) {
        Next::Waits
    } else if state.is_unborn(thread) {
        Next::Idle
    } else {
        Next::Refused
    }
}

/// The state after a next event, and the free ones after it.
fn follow(
    alloc: Global,
    scripts: &MarkedScripts,
    state: &State,
    event: &Event,
    trail: &mut Trail,
) -> Result<State, Memory>
    requires plain { ArePlain scripts.now.kinds }
    requires short { AreShort scripts.now.kinds }
    requires parts { ArePartsIn (bounds_of state.now.heap) scripts.now }
    requires reached { IsReachedIn (bounds_of state.now.heap) scripts.now trail.old.steps.items state.now }
    requires next { IsNextAt (bounds_of state.now.heap) scripts.now.kinds (rest_in scripts.now) state.now event.now }
    ensures reached { IfOk result (IsReachedIn (bounds_of state.now.heap) scripts.now trail.new.steps.items) }
    ensures goes_on { OnOk result (GoesOn trail.old trail.new) }
    ensures alarms { OnOk result (alarms_of trail.new.shown ≡ alarms_of trail.old.shown) }
    ensures leads { IfOk result (λ s. (n : ℕ) (fault : Fault) →
        IsCleanIn (bounds_of state.now.heap) scripts.now n fault s →
        IsCleanBy (bounds_of state.now.heap) scripts.now.kinds (rest_in scripts.now) n fault state.now
        (thread_of event.now)) }
{
    let mut after = state.copy(alloc)?;
    advance(scripts, &mut after, event, trail)?;
    settle(scripts, &mut after, trail)?;
    Ok(after)
}

/// Notes the turns to a state, if it has an alarm and before it there was none.
fn note_closing(
    alloc: Global,
    alarmed: bool,
    after: &State,
    trail: &mut Trail,
) -> Result<(), Memory>
    requires { after.now.place ≤ length trail.old.steps.items }
    ensures steps { trail.new.steps.items ≡ trail.old.steps.items }
    ensures goes_on { OnOk result (GoesOn trail.old trail.new) }
    ensures alarms { OnOk result ((bounds : Bounds) (scripts : List (List Kind)) (rest : List Event → List Event) →
        IsReachedBy bounds scripts rest trail.old.steps.items after.now →
        AlarmsGoOn bounds scripts rest trail.old trail.new) }
    ensures noted { OnOk result ((alarmed ≡ true → IsNoted trail.old after.now) →
        IsNoted trail.new after.now) }
{
    if !is_new(alarmed, after.is_alarmed()) {
        return Ok(());
    }
    trail.note_alarm(alloc, after.place())?;
    Ok(())
}

/// Keeps a state; or, where the same is there, cuts off its events, those after the first so many.
fn keep(next: &mut Level, state: State, count: usize, trail: &mut Trail) -> Result<(), Memory>
    ensures members { OnOk result ((s : State) → Contains next.new.states.items s →
        (Contains next.old.states.items s ⊎ (state ≡ s))) }
    ensures before { OnOk result ((s : State) → Contains next.old.states.items s →
        Contains next.new.states.items s) }
    ensures there { OnOk result (StandsAmong next.new.states.items state) }
    ensures count { OnOk result (length next.new.states.items ≤ length next.old.states.items + 1) }
    ensures steps { OnOk result ((trail.new.steps.items ≡ trail.old.steps.items)
        ⊎ ((next.new.states.items ≡ next.old.states.items) × (trail.new.steps.items ≡
        take count trail.old.steps.items))) }
    ensures shown { OnOk result (trail.new.shown ≡ trail.old.shown) }
    ensures first { OnOk result (trail.new.first ≡ trail.old.first) }
{
    if !next.keep(state)? {
        trail.cut(count);
    }
    Ok(())
}

/// Looks at one thread: how it stands, and what its next event leads to.
fn look(
    alloc: Global,
    scripts: &MarkedScripts,
    state: &State,
    thread: ThreadId,
    seen: &mut ThreadsSeen,
    next: &mut Level,
    trail: &mut Trail,
) -> Result<(), Memory>
    requires plain { ArePlain scripts.now.kinds }
    requires short { AreShort scripts.now.kinds }
    requires parts { ArePartsIn (bounds_of state.now.heap) scripts.now }
    requires thread { thread.0 < (bounds_of state.now.heap).threads }
    requires reached { IsReachedIn (bounds_of state.now.heap) scripts.now trail.old.steps.items state.now }
    ensures goes_on { OnOk result (GoesOn trail.old trail.new) }
    ensures alarms { OnOk result (AlarmsGoOnIn (bounds_of state.now.heap) scripts.now trail.old trail.new) }
    ensures noted { OnOk result (IsNoted trail.old state.now →
        All (IsNoted trail.old) next.old.states.items →
        All (IsNoted trail.new) next.new.states.items) }
    ensures reached { OnOk result (
        All (IsReachedIn (bounds_of state.now.heap) scripts.now trail.old.steps.items) next.old.states.items →
        All (IsReachedIn (bounds_of state.now.heap) scripts.now trail.new.steps.items) next.new.states.items) }
    ensures tried { OnOk result ((start : List State) →
        IsTriedIn (bounds_of state.now.heap) scripts.now state.now start next.old.states.items seen.old
        thread.0 →
        IsTriedIn (bounds_of state.now.heap) scripts.now state.now start next.new.states.items seen.new
        (thread.0 + 1)) }
    ensures count { OnOk result (length next.new.states.items ≤ length next.old.states.items + 1) }
{
    match next_of(scripts, state, thread) {
        Next::Idle => Ok(()),
        Next::Waits => {
            seen.waits = true;
            Ok(())
        }
        Next::Refused => {
            seen.refused = true;
            Ok(())
        }
        Next::May(event) => {
            seen.acts = true;
            let count = trail.len();
            let after = follow(alloc, scripts, state, &event, trail)?;
            note_closing(alloc, state.is_alarmed(), &after, trail)?;
            keep(next, after, count, trail)?;
            Ok(())
        }
    }
}

/// Looks at a state: what it shows, and the states after its next events.
fn put_next(
    alloc: Global,
    terms: &Terms,
    state: &State,
    found: Found,
    next: &mut Level,
    trail: &mut Trail,
) -> Result<Found, Memory>
    requires plain { ArePlain terms.now.scripts.now.kinds }
    requires short { AreShort terms.now.scripts.now.kinds }
    requires parts { ArePartsIn terms.now.bounds terms.now.scripts.now }
    requires state { IsReachedIn terms.now.bounds terms.now.scripts.now trail.old.steps.items state.now }
    requires others { All (IsReachedIn terms.now.bounds terms.now.scripts.now trail.old.steps.items)
        next.old.states.items }
    requires noted { IsNoted trail.old state.now }
    requires noted_others { All (IsNoted trail.old) next.old.states.items }
    requires found { IsTrueIn terms.now.bounds terms.now.scripts.now found }
    ensures found { IfOk result (IsTrueIn terms.now.bounds terms.now.scripts.now) }
    ensures more { IfOk result (λ after. (fault : Fault) → has_fault after fault ≡ false →
        has_fault found fault ≡ false) }
    ensures others { OnOk result (All (IsReachedIn terms.now.bounds terms.now.scripts.now trail.new.steps.items)
        next.new.states.items) }
    ensures goes_on { OnOk result (GoesOn trail.old trail.new) }
    ensures alarms { OnOk result (AlarmsGoOnIn terms.now.bounds terms.now.scripts.now trail.old trail.new) }
    ensures noted { OnOk result (All (IsNoted trail.new) next.new.states.items) }
    ensures alarm { IfOk result (λ after. trail.old.first ≡ false → found.alarm ≡ false →
        after.alarm ≡ true → 0 < length (alarms_of trail.new.shown)) }
    ensures shows { IfOk result (λ after. (fault : Fault) → has_fault found fault ≡ false →
        has_fault after fault ≡ true →
        (log : List Event) → IsRunOf terms.now.bounds terms.now.scripts.now.kinds log →
        IsStateOf (rest_in terms.now.scripts.now) log state.now →
        IsFaultIn terms.now.bounds terms.now.scripts.now fault log) }
    ensures leads { IfOk result (λ after. (n : ℕ) (fault : Fault) → has_fault after fault ≡ false →
        All (IsCleanIn terms.now.bounds terms.now.scripts.now n fault) next.new.states.items →
        (All (IsCleanIn terms.now.bounds terms.now.scripts.now n fault) next.old.states.items
        × IsCleanIn terms.now.bounds terms.now.scripts.now (n + 1) fault state.now)) }
    ensures count { OnOk result (length next.new.states.items ≤ length next.old.states.items +
        terms.now.bounds.threads) }
{
    let mut seen = ThreadsSeen {
        acts: false,
        waits: false,
        refused: false,
    };
    for thread in 0..terms.bounds.threads {
        look(
            alloc,
            terms.scripts,
            state,
            ThreadId(thread),
            &mut seen,
            next,
            trail,
        )?;
    }
    Ok(found.after(state.is_alarmed(), seen))
}

/// Looks at the states of a level: what they show, and the states after their next events. Each is
/// dropped then. A search that ends at the first finding ends at a state that shows something.
/// Before each state `progress` is asked whether the search is over.
fn next_level<P: Progress>(
    alloc: Global,
    terms: &Terms,
    level: &mut Level,
    before: Found,
    trail: &mut Trail,
    progress: &mut P,
) -> Result<Looked, Memory>
    requires plain { ArePlain terms.now.scripts.now.kinds }
    requires short { AreShort terms.now.scripts.now.kinds }
    requires parts { ArePartsIn terms.now.bounds terms.now.scripts.now }
    requires level { All (IsReachedIn terms.now.bounds terms.now.scripts.now trail.old.steps.items)
        level.old.states.items }
    requires noted { All (IsNoted trail.old) level.old.states.items }
    requires found { IsTrueIn terms.now.bounds terms.now.scripts.now before }
    requires shown { AreShownIn terms.now.bounds terms.now.scripts.now terms.now.first before trail.old }
    ensures found { IfOk result (λ x. IsTrueIn terms.now.bounds terms.now.scripts.now x.found) }
    ensures more { IfOk result (λ x. (fault : Fault) → has_fault x.found fault ≡ false →
        has_fault before fault ≡ false) }
    ensures others { IfOk result (λ x.
        All (IsReachedIn terms.now.bounds terms.now.scripts.now trail.new.steps.items) x.next.states.items) }
    ensures noted { IfOk result (λ x. All (IsNoted trail.new) x.next.states.items) }
    ensures shown { IfOk result (λ x.
        AreShownIn terms.now.bounds terms.now.scripts.now terms.now.first x.found trail.new) }
    ensures leads { IfOk result (λ x. (x.over || has_ended terms.now.first x.found) ≡ false →
        (n : ℕ) (fault : Fault) → has_fault x.found fault ≡ false →
        All (IsCleanIn terms.now.bounds terms.now.scripts.now n fault) x.next.states.items →
        All (IsCleanIn terms.now.bounds terms.now.scripts.now (n + 1) fault) level.old.states.items) }
    ensures most { IfOk result (λ x. x.states ≤ length level.old.states.items) }
    ensures all { IfOk result (λ x. (x.over || has_ended terms.now.first x.found) ≡ false →
        x.states ≡ length level.old.states.items) }
    ensures count { IfOk result
        (λ x. length x.next.states.items ≤ x.states * terms.now.bounds.threads) }
    ensures may { OnOk result (P.may_end progress.new ≡ P.may_end progress.old) }
    ensures over { IfOk result (λ x. x.over ≡ true →
        (P.may_end progress.old && P.says_over progress.new) ≡ true) }
{
    level.turn_round(alloc);
    let mut next = Level::new(alloc);
    let mut found = before;
    let mut states = 0;
    while let Some(state) = level.states.pop() {
        if progress.is_over() {
            return Ok(Looked {
                found,
                states,
                next,
                over: true,
            });
        }
        let after = put_next(alloc, terms, &state, found, &mut next, trail)?;
        trail.note(alloc, state.place(), found, after)?;
        found = after;
        states += 1;
        if found.has_ended(terms.first) {
            return Ok(Looked {
                found,
                states,
                next,
                over: false,
            });
        }
    }
    Ok(Looked {
        found,
        states,
        next,
        over: false,
    })
}

/// The state of no event, and of the free ones that come first.
fn first_level(
    alloc: Global,
    config: &Config,
    scripts: &MarkedScripts,
    trail: &mut Trail,
) -> Result<Level, Memory>
    requires plain { ArePlain scripts.now.kinds }
    requires short { AreShort scripts.now.kinds }
    requires parts { ArePartsIn config.now.bounds scripts.now }
    ensures some { IfOk result (λ level. 0 < length level.states.items) }
    ensures one { IfOk result (λ level. length level.states.items ≤ 1) }
    ensures reached { IfOk result (λ level.
        All (IsReachedIn config.now.bounds scripts.now trail.new.steps.items) level.states.items) }
    ensures leads { IfOk result (λ level. (n : ℕ) (fault : Fault) →
        All (IsCleanIn config.now.bounds scripts.now n fault) level.states.items →
        NeverWithin n (IsFaultIn config.now.bounds scripts.now fault) config.now.bounds scripts.now.kinds []) }
    ensures goes_on { OnOk result (GoesOn trail.old trail.new) }
    ensures alarms { OnOk result (AlarmsGoOnIn config.now.bounds scripts.now trail.old trail.new) }
    ensures noted { IfOk result (λ level. All (IsNoted trail.new) level.states.items) }
{
    let mut start = State::new(alloc, config)?;
    settle(scripts, &mut start, trail)?;
    note_closing(alloc, false, &start, trail)?;
    let mut level = Level::new(alloc);
    level.keep(start)?;
    Ok(level)
}

/// Tries the runs of the scripts as [`search`](crate::search) does, in the bounds of the configuration.
///
/// # Errors
/// `Memory` where a growth was refused.
pub(crate) fn search_states<P: Progress>(
    alloc: Global,
    config: &Config,
    scripts: &MarkedScripts,
    most_states: u64,
    first: bool,
    progress: &mut P,
) -> Result<Searched, Memory>
    requires plain { ArePlain scripts.now.kinds }
    requires short { AreShort scripts.now.kinds }
    requires parts { ArePartsIn config.now.bounds scripts.now }
    ensures found { IfOk result (λ x. IsTrueIn config.now.bounds scripts.now x.found) }
    ensures whole { IfOk result (λ x. x.whole ≡ true → (fault : Fault) → has_fault x.found fault ≡ false →
        Never (IsFaultIn config.now.bounds scripts.now fault) config.now.bounds scripts.now.kinds []) }
    ensures first { IfOk result (λ x. first ≡ true → x.whole ≡ true → (fault : Fault) →
        has_fault x.found fault ≡ false) }
    ensures states { IfOk result (λ x. x.states ≤ most_states) }
    ensures cut { IfOk result (λ x. x.whole ≡ false →
        IsSearchCut config.now.bounds scripts.now.kinds (rest_in scripts.now) most_states first
        (P.may_end progress.old && P.says_over progress.new) x.found x.states) }
    ensures shown { IfOk result (λ x. (fault : Fault) → IfSome (turns_for x.schedules fault)
        (LeadsTo config.now.bounds scripts.now.kinds (rest_in scripts.now) fault)) }
    ensures each { IfOk result (λ x. (fault : Fault) → has_fault (shown_of first x.found) fault ≡
        true → IsTrue (is_some (turns_for x.schedules fault))) }
    ensures alarms { IfOk result
        (λ x. LeadToCycles config.now.bounds scripts.now.kinds (rest_in scripts.now) first x.schedules) }
{
    let terms = Terms {
        bounds: config.bounds,
        scripts,
        first,
    };
    let mut found = Found::none();
    let mut states = 0;
    let mut levels = 0u64;
    let mut trail = Trail::new(alloc, first);
    let mut level = first_level(alloc, config, scripts, &mut trail)?;
    while level.states.len() as u64 <= most_states - states {
        let looked = next_level(alloc, &terms, &mut level, found, &mut trail, progress)?;
        found = looked.found;
        states += looked.states as u64;
        levels += 1;
        progress.level_done(levels, states);
        if looked.has_ended(first) {
            return Ok(trail.into_searched(found, states, false));
        }
        level = looked.next;
        if level.states.is_empty() {
            return Ok(trail.into_searched(found, states, true));
        }
    }
    Ok(trail.into_searched(found, states, false))
}
