//! How many transactions a trace has.
ghost use Rattle.std.specs.Prelude.{◌≡◌, IfOk};
ghost use Rattle.velo_certify.specs.Owners.{AreOwners};
ghost use Rattle.velo_explain.specs.Count.{transactions_of};

use std::alloc::Global;
use velo_certify::owners_of;
use velo_events::{Event, Memory};

/// How many positions are the first ones of their transactions.
fn count_firsts(events: &[Event], owners: &[usize]) -> usize
    requires { AreOwners owners.now events.now }
    ensures { result ≡ transactions_of events.now }
{
    let mut count = 0;
    for at in 0..events.len() {
        if owners[at] == at {
            count += 1;
        }
    }
    count
}

/// The number of transactions, which is that of any serial order.
///
/// # Errors
/// `Memory` if an allocation failed.
pub fn transactions_of(alloc: Global, events: &[Event]) -> Result<usize, Memory>
    ensures { IfOk result (λ count. count ≡ transactions_of events.now) }
{
    let owners = owners_of(alloc, events)?;
    Ok(count_firsts(events, &owners))
}
