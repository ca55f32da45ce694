//! The statements of a body that are events, in their order.
ghost use Rattle.std.specs.Prelude.{◌≡◌, [], ◌∷◌, ◌++◌, filter, slice_get, IfOk, OnOk};
ghost use Rattle.velo_workload.specs.Bodies.{IsBody};
ghost use Rattle.velo_worker.specs.Counts.{has_event};
ghost use Rattle.velo_worker.specs.Walk.{walk_of};

use crate::progress::is_quiet;
use crate::walk::Walk;
use std::alloc::Global;
use velo_events::Memory;
use velo_events::growth::reserve;
use velo_workload::Statement;

/// The statements of a body that are events, one after another, its repeats written out.
/// [`count_events`](crate::count_events) returns how many there are, before any is listed.
///
/// # Errors
/// `Memory` if an allocation failed.
pub fn list_events(alloc: Global, body: &[Statement]) -> Result<Vec<Statement>, Memory>
    requires { IsBody body.now }
    ensures { IfOk result (λ events. events.items ≡ filter has_event (walk_of body.now)) }
{
    let mut left = Walk::start(alloc, body)?;
    let mut events = Vec::new(alloc);
    while let Some(statement) = left.next() {
        note_event(&mut events, statement)?;
        left.advance();
    }
    Ok(events)
}

/// Appends a statement, if it is an event.
fn note_event(events: &mut Vec<Statement>, statement: Statement) -> Result<(), Memory>
    ensures { OnOk result (events.new.items ≡ events.old.items ++ filter has_event (statement ∷ [])) }
{
    if is_quiet(statement) {
        return Ok(());
    }
    reserve(events, 1)?;
    events.push_reserved(statement);
    Ok(())
}

/// The event of a body at a number, counted from 0, its repeats written out: none where it has no
/// more. Those before it are passed over one by one.
///
/// # Errors
/// `Memory` if an allocation failed.
pub fn event_at(alloc: Global, body: &[Statement], number: u64) -> Result<Option<Statement>, Memory>
    requires { IsBody body.now }
    ensures { IfOk result (λ event. event ≡ slice_get (filter has_event (walk_of body.now)) number) }
{
    let mut left = Walk::start(alloc, body)?;
    let mut before = number;
    while let Some(statement) = left.next() {
        left.advance();
        let quiet = is_quiet(statement);
        if quiet {
            continue;
        }
        if before == 0 {
            return Ok(Some(statement));
        }
        before -= 1;
    }
    Ok(None)
}
