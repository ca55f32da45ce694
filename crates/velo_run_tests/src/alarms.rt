//! The schedules that lead to first alarms, and what is reported of the levels.
ghost use Rattle.std.specs.Prelude.{◌≡◌, true, is_some};

use std::alloc::Global;
use velo_events::{Config, ThreadId};
use velo_explore::{Exploration, Finding, Progress, Quiet, explore, replayed};
use velo_filter::LeftOut;
use velo_workload::{Workload, parse};

/// Whether the replay by a schedule has an alarm.
fn has_alarm(
    alloc: Global,
    workload: &Workload,
    schedule: &[ThreadId],
    config: Config,
) -> Option<bool>
    requires { config.bounds ≡ workload.now.bounds }
{
    let run = replayed(alloc, workload, schedule, config).ok()?;
    let alarm = run.0.alarm().is_some();
    drop(run);
    Some(alarm)
}

/// How many schedules to alarms are handed out, and how many of them lead to one.
fn count_alarms(alloc: Global, text: &str, first: bool) -> Option<(usize, usize)> {
    let workload = parse(alloc, text).ok()?;
    let config = Config::new(1, workload.bounds(), 10_000, 64, false).ok()?;
    let whole = LeftOut::new(alloc);
    let Exploration { alarms, .. } = explore(
        alloc, &workload, &whole, 100_000, first, config, &mut Quiet,
    ).ok()?;
    let mut shown = 0usize;
    for schedule in &alarms {
        if has_alarm(alloc, &workload, schedule, config)? {
            shown = shown.saturating_add(1);
        }
    }
    Some((alarms.len(), shown))
}

static LOST: &str =
    "var x\nthread main\nfork a\nbegin inc\nread x\nadd 1\nwrite x\nend\njoin a\nthread a\nset 5\nwrite x\n";

static RACE: &str =
    "var x\nthread main\nfork a\nrepeat 3\nbegin inc\nread x\nadd 1\nwrite x\nend\ndone\njoin a\nthread a\nrepeat 3\nbegin inc\nread x\nadd 1\nwrite x\nend\ndone\n";

static MANY: &str =
    "var x\nthread main\nfork a\nrepeat 9\nbegin inc\nread x\nadd 1\nwrite x\nend\ndone\njoin a\nthread a\nrepeat 9\nbegin inc\nread x\nadd 1\nwrite x\nend\ndone\n";

static ALONE: &str = "var x\nthread main\nbegin all\nfork a\njoin a\nend\nthread a\nwrite x\n";

#[test]
fn each_decision_that_closes_a_cycle_is_handed_out(rt: HostRuntime) {
    // as many as a model counts
    assert!(rt; count_alarms(rt.alloc(), LOST, false) == Some((1, 1)));
    assert!(rt; count_alarms(rt.alloc(), RACE, false) == Some((30, 30)));
    // no more than a hundred
    assert!(rt; count_alarms(rt.alloc(), MANY, false) == Some((100, 100)));
    // before any decision
    assert!(rt; count_alarms(rt.alloc(), ALONE, false) == Some((1, 1)));
    assert!(rt; count_alarms(rt.alloc(), RACE, true) == Some((0, 0)));
}

/// The reports: how many, and the numbers of the last one. The search is over once so many more states
/// were looked at.
#[derive(Clone, Copy)]
struct Heard {
    times: u64,
    levels: u64,
    states: u64,
    left: Option<u64>,
    over: bool,
}

/// Nothing was reported.
const NOTHING: Heard = Heard {
    times: 0,
    levels: 0,
    states: 0,
    left: None,
    over: false,
};

impl Progress for Heard {
    ghost may_end = { λ s. is_some s.left };

    ghost says_over = { λ s. s.over };

    fn level_done(&mut self, levels: u64, states: u64) {
        self.times = self.times.saturating_add(1);
        self.levels = levels;
        self.states = states;
    }

    fn is_over(&mut self) -> bool {
        let Some(left) = self.left else {
            self.over = false;
            return false;
        };
        self.left = Some(left.saturating_sub(1));
        self.over = left == 0;
        self.over
    }
}

/// How often a level was reported, how many there were at the end, and how many states then and in
/// all.
fn told_levels(alloc: Global, text: &str) -> Option<(u64, u64, u64, u64)> {
    let workload = parse(alloc, text).ok()?;
    let config = Config::new(1, workload.bounds(), 10_000, 64, false).ok()?;
    let mut heard = NOTHING;
    let whole = LeftOut::new(alloc);
    let Exploration { states, .. } = explore(
        alloc, &workload, &whole, 100_000, false, config, &mut heard,
    ).ok()?;
    Some((heard.times, heard.levels, heard.states, states))
}

#[test]
fn each_level_is_told(rt: HostRuntime) {
    // twelve decisions, and the start
    assert!(rt; told_levels(rt.alloc(), RACE) == Some((13, 13, 104, 104)));
    assert!(rt; told_levels(rt.alloc(), ALONE) == Some((1, 1, 1, 1)));
}

/// Whether it is left open.
fn is_open(finding: &Finding) -> bool {
    matches!(finding, Finding::Open)
}

/// How many states are looked at, and whether alarms and deadlocks are left open, where the search is
/// over after so many.
fn told_until(alloc: Global, text: &str, most: u64) -> Option<(u64, bool, bool)> {
    let workload = parse(alloc, text).ok()?;
    let config = Config::new(1, workload.bounds(), 10_000, 64, false).ok()?;
    let mut heard = Heard {
        left: Some(most),
        ..NOTHING
    };
    let whole = LeftOut::new(alloc);
    let Exploration {
        states,
        findings,
        ..
    } = explore(alloc, &workload, &whole, 100_000, false, config, &mut heard).ok()?;
    Some((states, is_open(&findings.alarm), is_open(&findings.stuck)))
}

#[test]
fn a_search_ends_when_it_is_over(rt: HostRuntime) {
    assert!(rt; told_until(rt.alloc(), RACE, 0) == Some((0, true, true)));
    assert!(rt; told_until(rt.alloc(), RACE, 1) == Some((1, true, true)));
    // in the middle of a level
    assert!(rt; told_until(rt.alloc(), RACE, 100) == Some((100, false, true)));
    // what everything was tried for is not open
    assert!(rt; told_until(rt.alloc(), RACE, 104) == Some((104, false, false)));
    assert!(rt; told_until(rt.alloc(), RACE, 105) == Some((104, false, false)));
}
