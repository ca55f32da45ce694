//! Schedules that are drawn randomly.
ghost use Rattle.std.specs.Prelude.{◌≡◌, ◌<◌, IfOk, OnOk};
ghost use Rattle.rand_core.specs.Stream.{next_u64};
ghost use Rattle.velo_explore.specs.Drawing.{behind_words, drawn, stream, thread_of, turns_for};

use crate::count_all;
use rand_core::Rng;
use rand_xoshiro::Xoshiro256PlusPlus;
use std::alloc::Global;
use velo_events::growth::reserve;
use velo_events::{Memory, ThreadId};
use velo_schedule_text::MAX_TURNS;
use velo_workload::Workload;

/// How many turns are drawn for a run: so many that each event has a turn on the average, even if
/// all threads but one have to wait or are idle, but no more than a schedule may have.
pub(crate) fn turns_for(workload: &Workload) -> usize
    ensures { result ≡ turns_for workload.now }
{
    let threads = u64::from(workload.bounds().threads);
    count_all(workload)
        .saturating_mul(threads)
        .min(MAX_TURNS as u64) as usize
}

/// A thread, each as likely as any other; none for the few numbers that would favour some.
fn draw_thread(random: &mut Xoshiro256PlusPlus, threads: u8) -> Option<ThreadId>
    requires { 0 < threads }
    ensures thread { result ≡ thread_of threads (next_u64 (stream random.old)).0 }
    ensures rest { stream random.new ≡ (next_u64 (stream random.old)).1 }
{
    let threads = u64::from(threads);
    let favoured = u64::MAX - u64::MAX % threads;
    let number = random.next_u64();
    if number < favoured {
        Some(ThreadId((number % threads) as u8))
    } else {
        None
    }
}

/// So many turns that are drawn one after another, each of any thread alike. (Fewer with a chance
/// of 1 in 2 to the 58 for each.)
pub(crate) fn draw(
    alloc: Global,
    random: &mut Xoshiro256PlusPlus,
    threads: u8,
    count: usize,
) -> Result<Vec<ThreadId>, Memory>
    requires { 0 < threads }
    ensures turns { IfOk result (λ turns. turns.items ≡ drawn threads count (stream random.old)) }
    ensures rest { OnOk result (stream random.new ≡ behind_words count (stream random.old)) }
{
    let mut turns = Vec::new(alloc);
    for _ in 0..count {
        if let Some(thread) = draw_thread(random, threads) {
            reserve(&mut turns, 1)?;
            turns.push_reserved(thread);
        }
    }
    Ok(turns)
}
