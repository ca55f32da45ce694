//! How many variables a log accesses.
ghost use Rattle.std.specs.Prelude.{◌≡◌, length, IfOk};
ghost use Rattle.velo_laws.specs.Length.{counted};
ghost use Rattle.velo_filter.specs.Tables.{marked};
ghost use Rattle.velo_thinning.specs.Counting.{marked_after, variables_in};

use std::alloc::Global;
use velo_events::growth::filled;
use velo_events::{Event, Kind, Memory};

/// So many numbers a variable can have.
const VARIABLES: usize = 65_536;

/// Marks the variable that the operation accesses.
#[inline]
fn mark(marks: &mut [bool], kind: Kind)
    requires { length marks.old ≡ 65536 }
    ensures { marks.new ≡ marked_after marks.old kind }
{
    match kind {
        Kind::Read(x, _) | Kind::Write(x, _) => marks[usize::from(x.0)] = true,
        _ => {}
    }
}

/// How many variables the events access.
///
/// # Errors
/// `Memory` where a growth was refused.
pub fn count_variables(alloc: Global, events: &[Event]) -> Result<u32, Memory>
    ensures { IfOk result (λ count. count ≡ variables_in events.now) }
{
    let mut marks = filled(alloc, false, VARIABLES)?;
    for event in events {
        mark(&mut marks, event.kind);
    }
    Ok(count_marked(&marks))
}

/// How many are marked.
fn count_marked(marks: &[bool]) -> u32
    requires { length marks.now ≡ 65536 }
    ensures { result ≡ counted 65536 (marked marks.now) }
{
    let mut count: u32 = 0;
    for number in 0..VARIABLES {
        if marks[number] {
            count += 1;
        }
    }
    count
}
