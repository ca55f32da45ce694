//! How many events a body has, counted without a walk through its repeats.
ghost use Rattle.std.specs.Prelude.{◌≡◌, ◌≤◌, ◌^◌, ◌-◌, min, drop, length, count_by};
ghost use Rattle.velo_worker.specs.Counts.{body_events, has_event};
ghost use Rattle.velo_worker.specs.Walk.{first, others, levels};

use crate::progress::is_quiet;
use velo_workload::Statement;

/// How many events a body has, its repeats written out and the exit included; the largest number
/// where there are more.
pub fn count_events(body: &[Statement]) -> u64
    ensures { result ≡ min (body_events body.now) (2 ^ 64 - 1) }
{
    let mut position = 0;
    count_level(body, &mut position).saturating_add(1)
}

/// The events from the position up to the end of the repeat that is open there, and the position
/// after that end.
fn count_level(body: &[Statement], position: &mut usize) -> u64
    requires { position.old ≤ length body.now }
    ensures count { result ≡ min (count_by has_event (first (levels (drop position.old body.now)))) (2 ^ 64 - 1) }
    ensures behind { levels (drop position.new body.now) ≡ others (levels (drop position.old body.now)) }
    ensures later { position.old ≤ position.new }
    ensures within { position.new ≤ length body.now }
{
    let mut count = 0u64;
    while *position < body.len() {
        let statement = body[*position];
        *position += 1;
        match statement {
            Statement::Done => return count,
            Statement::Repeat(times) => {
                let inner = count_level(body, position);
                count = count.saturating_add(times.saturating_mul(inner));
            }
            _ if is_quiet(statement) => (),
            _ => count = count.saturating_add(1),
        }
    }
    count
}
