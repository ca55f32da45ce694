//! Who is to blame for the alarms that a search finds.
ghost use Rattle.std.specs.Prelude.{◌≡◌};

use std::alloc::Global;
use velo_events::{Config, Memory, ThreadId};
use velo_explore::{RunTally, try_all};
use velo_finding::ToBlame;
use velo_workload::Workload;

/// The most replays that are asked whom they blame.
pub const MAX_BLAMING: usize = 100;

/// The most replays that are asked, where the first finding ends the search or does not.
fn most_to_blame(first: bool) -> usize {
    if first { 0 } else { MAX_BLAMING }
}

/// Whom the replays by these schedules blame, each made once. Only the first [`MAX_BLAMING`] are
/// made; where the first finding ends the search, none is.
///
/// # Errors
/// `Memory` where a growth was refused.
pub fn blame_of(
    alloc: Global,
    workload: &Workload,
    schedules: &[Vec<ThreadId>],
    first: bool,
    config: Config,
) -> Result<ToBlame, Memory>
    requires { config.bounds ≡ workload.now.bounds }
{
    let most = most_to_blame(first).min(schedules.len());
    let RunTally { alarms, blamed, .. } = try_all(alloc, workload, &schedules[..most], config)?;
    Ok(ToBlame {
        alarms,
        labels: blamed,
    })
}
