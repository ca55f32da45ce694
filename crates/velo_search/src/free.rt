//! Which operations are free: no other thread ever hinders them, or comes into conflict with them before they are done.
ghost use Rattle.std.specs.Prelude.{◌≡◌, ℕ, Bool, length, take, map, slice_get, Some, IfOk};
ghost use Rattle.velo_events.specs.declared.event.Kind.{Kind};
ghost use Rattle.velo_search.specs.Free.{is_marked, AreFree};
ghost use Rattle.velo_search.specs.Notes.{IsMarkOf};

use crate::held::Held;
use crate::notes::Notes;
use std::alloc::Global;
use velo_events::growth::{reserve, with_capacity};
use velo_events::{Kind, Memory};

/// Of each operation of a thread whether none of another thread hinders it.
fn clear_ones(
    alloc: Global,
    notes: &Notes,
    thread: usize,
    script: &[Kind],
    locks: usize,
) -> Result<Vec<bool>, Memory>
    ensures count { IfOk result (λ clear. length clear.items ≡ length script.now) }
    ensures each { IfOk result (λ clear. (i : ℕ) (k : Kind) (mark : Bool) →
        slice_get script.now i ≡ Some k → slice_get clear.items i ≡ Some mark →
        IsMarkOf notes.now locks thread (take i script.now) k mark) }
{
    let mut clear = with_capacity(alloc, script.len())?;
    let mut held = Held::none(alloc, locks)?;
    for place in 0..script.len() {
        let kind = script[place];
        reserve(&mut clear, 1)?;
        clear.push_reserved(notes.are_clear(thread, kind, &held));
        held.take_in(kind);
    }
    Ok(clear)
}

/// Of each operation of each thread whether it is free at any time, whatever the other threads have done. So many locks are
/// looked at.
///
/// # Errors
/// `Memory` where a growth was refused.
pub fn free_ones(
    alloc: Global,
    scripts: &[Vec<Kind>],
    locks: usize,
) -> Result<Vec<Vec<bool>>, Memory>
    ensures { IfOk result (λ free.
        AreFree locks (map (λ v. v.items) scripts.now) (map (λ v. v.items) free.items)) }
{
    let notes = Notes::of_scripts(alloc, scripts, locks)?;
    let mut free: Vec<Vec<bool>> = Vec::new(alloc);
    for thread in 0..scripts.len() {
        let own = clear_ones(alloc, &notes, thread, &scripts[thread], locks)?;
        reserve(&mut free, 1)?;
        free.push_reserved(own);
    }
    Ok(free)
}

/// Whether the operation of the thread is marked as free.
pub fn is_marked(free: &[Vec<bool>], thread: usize, place: usize) -> bool
    ensures { result ≡ is_marked (map (λ v. v.items) free.now) thread place }
{
    let Some(own) = free.get(thread) else {
        return false;
    };
    own.get(place).copied().unwrap_or(false)
}
