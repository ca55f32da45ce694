//! Free operations, which are done at once when their threads come to them.
ghost use Rattle.std.specs.Prelude.{◌≡◌, ◌+◌, ◌<◌, ◌≤◌, ◌^◌, ◌∷◌, ◌++◌, [], List, length, slice_index_or, OnOk};
ghost use Rattle.velo_events.specs.declared.event.Event.{Event};
ghost use Rattle.velo_events.specs.Event.{thread_of};
ghost use Rattle.velo_heap.specs.Contents.{bounds_of, IsAdmitted};
ghost use Rattle.velo_search.specs.declared.step.Step.{Step};
ghost use Rattle.velo_search.specs.Judged.{ArePartsIn, IsReachedIn, SettlesIn, rest_in};
ghost use Rattle.velo_search.specs.Runs.{IsRunOf};
ghost use Rattle.velo_search.specs.States.{IsStateOf};
ghost use Rattle.velo_search.specs.Search.{ArePlain, AreShort};
ghost use Rattle.velo_search.specs.Trail.{alarms_of, GoesOn};

use crate::marked::MarkedScripts;
use crate::next::Next;
use crate::searching::next_of;
use crate::state::State;
use crate::trail::Trail;
use velo_events::{Event, Memory, ThreadId};

/// Does an event, and notes it in the trail.
pub(crate) fn advance(
    scripts: &MarkedScripts,
    state: &mut State,
    event: &Event,
    trail: &mut Trail,
) -> Result<(), Memory>
    requires parts { ArePartsIn (bounds_of state.old.heap) scripts.now }
    requires admitted { IsAdmitted state.old.heap event.now }
    requires room { slice_index_or state.old.next.items (thread_of event.now) 0 + 1 < 2 ^ 32 }
    requires within { state.old.place ≤ length trail.old.steps.items }
    ensures bounds { OnOk result (bounds_of state.new.heap ≡ bounds_of state.old.heap) }
    ensures next { OnOk result ((log : List Event) →
        IsRunOf (bounds_of state.old.heap) scripts.now.kinds (log ++ event.now ∷ []) →
        IsStateOf (rest_in scripts.now) log state.old →
        IsStateOf (rest_in scripts.now) (log ++ event.now ∷ []) state.new) }
    ensures place { OnOk result (state.new.place ≡ length trail.old.steps.items + 1) }
    ensures steps { OnOk result (trail.new.steps.items ≡
        trail.old.steps.items ++ record { before = state.old.place; thread = event.now.thread } ∷
        []) }
    ensures goes_on { OnOk result (GoesOn trail.old trail.new) }
    ensures alarms { OnOk result (alarms_of trail.new.shown ≡ alarms_of trail.old.shown) }
{
    let part = scripts.part(event.thread, state.done_by(event.thread));
    let place = trail.push(state.place(), event.thread)?;
    state.step(event, part, place);
    Ok(())
}

/// Does the thread's next operation, if it may do it and it is free. Whether it did.
fn settle_once(
    scripts: &MarkedScripts,
    state: &mut State,
    thread: ThreadId,
    trail: &mut Trail,
) -> Result<bool, Memory>
    requires plain { ArePlain scripts.now.kinds }
    requires short { AreShort scripts.now.kinds }
    requires parts { ArePartsIn (bounds_of state.old.heap) scripts.now }
    requires thread { thread.0 < (bounds_of state.old.heap).threads }
    requires reached { IsReachedIn (bounds_of state.old.heap) scripts.now trail.old.steps.items state.old }
    ensures { OnOk result
        (SettlesIn (bounds_of state.old.heap) scripts.now trail.old state.old trail.new state.new) }
{
    if !scripts.is_free(thread, state.done_by(thread)) {
        return Ok(false);
    }
    let Next::May(event) = next_of(scripts, state, thread) else {
        return Ok(false);
    };
    advance(scripts, state, &event, trail)?;
    Ok(true)
}

/// Does the thread's free operations, as long as one comes next. Whether there was one.
fn settle_thread(
    scripts: &MarkedScripts,
    state: &mut State,
    thread: ThreadId,
    trail: &mut Trail,
) -> Result<bool, Memory>
    requires plain { ArePlain scripts.now.kinds }
    requires short { AreShort scripts.now.kinds }
    requires parts { ArePartsIn (bounds_of state.old.heap) scripts.now }
    requires thread { thread.0 < (bounds_of state.old.heap).threads }
    requires reached { IsReachedIn (bounds_of state.old.heap) scripts.now trail.old.steps.items state.old }
    ensures { OnOk result
        (SettlesIn (bounds_of state.old.heap) scripts.now trail.old state.old trail.new state.new) }
{
    for step in 0..u32::MAX {
        if !settle_once(scripts, state, thread, trail)? {
            return Ok(step != 0);
        }
    }
    Ok(true)
}

/// Does the free operations of one thread after another, as long as one comes next there. Whether there was one.
fn settle_all(scripts: &MarkedScripts, state: &mut State, trail: &mut Trail) -> Result<bool, Memory>
    requires plain { ArePlain scripts.now.kinds }
    requires short { AreShort scripts.now.kinds }
    requires parts { ArePartsIn (bounds_of state.old.heap) scripts.now }
    requires reached { IsReachedIn (bounds_of state.old.heap) scripts.now trail.old.steps.items state.old }
    ensures { OnOk result
        (SettlesIn (bounds_of state.old.heap) scripts.now trail.old state.old trail.new state.new) }
{
    let mut any = false;
    for thread in 0..state.threads() {
        if settle_thread(scripts, state, ThreadId(thread), trail)? {
            any = true;
        }
    }
    Ok(any)
}

/// Does free operations, as long as one comes next: those of one thread may let another go on, so it begins again while there
/// was one.
pub(crate) fn settle(
    scripts: &MarkedScripts,
    state: &mut State,
    trail: &mut Trail,
) -> Result<(), Memory>
    requires plain { ArePlain scripts.now.kinds }
    requires short { AreShort scripts.now.kinds }
    requires parts { ArePartsIn (bounds_of state.old.heap) scripts.now }
    requires reached { IsReachedIn (bounds_of state.old.heap) scripts.now trail.old.steps.items state.old }
    ensures { OnOk result
        (SettlesIn (bounds_of state.old.heap) scripts.now trail.old state.old trail.new state.new) }
{
    for _round in 0..u32::MAX {
        if !settle_all(scripts, state, trail)? {
            return Ok(());
        }
    }
    Ok(())
}
