//! How simple schedules become.
ghost use Rattle.std.specs.Prelude.{◌≡◌};

use crate::words::holds_for;
use std::alloc::Global;
use velo_events::{Config, Memory, ThreadId};
use velo_explore::{Finding, Findings, Quiet, Shrunk, explore, shrink_findings};
use velo_filter::LeftOut;
use velo_schedule_text::append_turns;
use velo_workload::{Workload, parse};

/// What all schedules of a workload show, by simple schedules.
fn simple_findings(alloc: Global, workload: &Workload, config: Config) -> Result<Findings, Memory>
    requires bounds { config.bounds ≡ workload.now.bounds }
{
    let whole = LeftOut::new(alloc);
    let told = explore(alloc, workload, &whole, 100_000, false, config, &mut Quiet)?;
    let Shrunk { findings, first } = shrink_findings(alloc, workload, told.findings, config)?;
    drop(first);
    Ok(findings)
}

/// The same of a text.
fn findings_of(alloc: Global, text: &str) -> Option<Findings> {
    let workload = parse(alloc, text).ok()?;
    let config = Config::new(1, workload.bounds(), 100_000, 64, false).ok()?;
    simple_findings(alloc, &workload, config).ok()
}

/// The schedule of a finding that is shown.
fn schedule_of(finding: Finding) -> Option<Vec<ThreadId>> {
    match finding {
        Finding::Shown(witness) => Some(witness.schedule),
        Finding::Never | Finding::Open => None,
    }
}

/// The simple schedule of the alarm of a workload.
fn to_alarm(alloc: Global, text: &str) -> Option<Vec<ThreadId>> {
    schedule_of(findings_of(alloc, text)?.alarm)
}

/// The simple schedule of the deadlock of a workload.
fn to_deadlock(alloc: Global, text: &str) -> Option<Vec<ThreadId>> {
    schedule_of(findings_of(alloc, text)?.stuck)
}

/// The simple schedule of the refusal of a workload.
fn to_refusal(alloc: Global, text: &str) -> Option<Vec<ThreadId>> {
    schedule_of(findings_of(alloc, text)?.refused)
}

/// Whether a schedule is found, and its short text is this one, each word after a space.
fn is_short(alloc: Global, schedule: Option<Vec<ThreadId>>, short: &[u8]) -> Option<bool> {
    let schedule = schedule?;
    let mut text = Vec::new(alloc);
    append_turns(&mut text, &schedule).ok()?;
    Some(text.as_slice() == short)
}

/// How often a turn is another thread's than the turn before it.
fn switches(schedule: &[ThreadId]) -> usize {
    schedule
        .iter()
        .zip(schedule.iter().skip(1))
        .filter(|(one, next)| one != next)
        .count()
}

/// A workload with an alarm, and how many turns and switches of thread the simple schedule of a
/// model has.
struct Row<'a> {
    text: &'a str,
    turns: usize,
    switches: usize,
}

static ROWS: [Row<'static>; 11] = [
    // lost
    Row {
        text: "var x\nthread main\nfork a\nbegin inc\nread x\nadd 1\nwrite x\nend\njoin a\nthread a\nset 5\nwrite x\n",
        turns: 5,
        switches: 2,
    },
    // race
    Row {
        text: "var x\nthread main\nfork a\nrepeat 3\nbegin inc\nread x\nadd 1\nwrite x\nend\ndone\njoin a\nthread a\nrepeat 3\nbegin inc\nread x\nadd 1\nwrite x\nend\ndone\n",
        turns: 7,
        switches: 3,
    },
    // twice
    Row {
        text: "var x\nlock m\nthread main\nfork a\nbegin inc\nacquire m\nread x\nrelease m\nadd 1\nacquire m\nwrite x\nrelease m\nend\njoin a\nthread a\nacquire m\nset 9\nwrite x\nrelease m\n",
        turns: 9,
        switches: 2,
    },
    // three threads that lose updates, twice each
    Row {
        text: "var x\nthread main\nfork a\nfork b\nfork c\njoin a\njoin b\njoin c\nthread a\nbegin inc\nread x\nadd 1\nwrite x\nend\nbegin inc\nread x\nadd 1\nwrite x\nend\nthread b\nbegin inc\nread x\nadd 1\nwrite x\nend\nbegin inc\nread x\nadd 1\nwrite x\nend\nthread c\nbegin inc\nread x\nadd 1\nwrite x\nend\nbegin inc\nread x\nadd 1\nwrite x\nend\n",
        turns: 8,
        switches: 3,
    },
    // a lock that is taken twice
    Row {
        text: "var x\nlock m\nthread main\nfork a\nfork b\njoin a\njoin b\nthread a\nbegin inc\nacquire m\nread x\nrelease m\nacquire m\nwrite x\nrelease m\nend\nthread b\nbegin inc\nacquire m\nread x\nrelease m\nacquire m\nwrite x\nrelease m\nend\n",
        turns: 11,
        switches: 3,
    },
    // and again, by three threads
    Row {
        text: "var x\nlock m\nthread main\nfork a\nfork b\nfork c\njoin a\njoin b\njoin c\nthread a\nbegin inc\nacquire m\nread x\nrelease m\nacquire m\nwrite x\nrelease m\nend\nbegin inc\nacquire m\nread x\nrelease m\nacquire m\nwrite x\nrelease m\nend\nthread b\nbegin inc\nacquire m\nread x\nrelease m\nacquire m\nwrite x\nrelease m\nend\nbegin inc\nacquire m\nread x\nrelease m\nacquire m\nwrite x\nrelease m\nend\nthread c\nbegin inc\nacquire m\nread x\nrelease m\nacquire m\nwrite x\nrelease m\nend\nbegin inc\nacquire m\nread x\nrelease m\nacquire m\nwrite x\nrelease m\nend\n",
        turns: 11,
        switches: 3,
    },
    // nested blocks
    Row {
        text: "var x\nthread main\nfork a\nfork b\njoin a\njoin b\nthread a\nbegin one\nbegin two\nread x\nend\nbegin three\nwrite x\nend\nend\nthread b\nwrite x\n",
        turns: 9,
        switches: 3,
    },
    // nested blocks, three threads
    Row {
        text: "var x\nvar y\nthread main\nfork a\nfork b\nfork c\njoin a\njoin b\njoin c\nthread a\nbegin one\nbegin two\nread x\nend\nread y\nend\nthread b\nbegin four\nwrite x\nbegin five\nwrite y\nend\nend\nthread c\nread x\nread y\n",
        turns: 11,
        switches: 3,
    },
    // readers of two variables, and a writer
    Row {
        text: "var x\nvar y\nthread main\nfork a\nfork b\nfork c\njoin a\njoin b\njoin c\nthread a\nbegin look\nread x\nread y\nend\nthread b\nbegin look\nread x\nread y\nend\nthread c\nbegin put\nwrite x\nwrite y\nend\n",
        turns: 9,
        switches: 3,
    },
    // both read what the other wrote
    Row {
        text: "var x\nvar y\nthread main\nfork a\nfork b\njoin a\njoin b\nthread a\nbegin one\nwrite x\nread y\nend\nthread b\nbegin two\nwrite y\nread x\nend\n",
        turns: 8,
        switches: 3,
    },
    // a fork within a block
    Row {
        text: "var x\nthread main\nbegin one\nfork a\nread x\nend\njoin a\nthread a\nwrite x\n",
        turns: 4,
        switches: 2,
    },
];

/// Whether the simple schedule of the row's workload has no more turns and no more switches than
/// that of the model.
fn is_simple(alloc: Global, row: &Row<'_>) -> Option<bool> {
    let schedule = to_alarm(alloc, row.text)?;
    Some(schedule.len() <= row.turns && switches(&schedule) <= row.switches)
}

#[test]
fn alarms_have_simple_schedules(rt: HostRuntime) {
    for row in &ROWS {
        holds_for(&rt, is_simple(rt.alloc(), row) == Some(true), &row.text);
    }
}

#[test]
fn alarms_are_told_in_a_word_or_two(rt: HostRuntime) {
    let lost = to_alarm(rt.alloc(), ROWS[0].text);
    assert!(rt; is_short(rt.alloc(), lost, b" 0*3 1 0") == Some(true));
    let race = to_alarm(rt.alloc(), ROWS[1].text);
    assert!(rt; is_short(rt.alloc(), race, b" 0*3 1*3 0") == Some(true));
    let twice = to_alarm(rt.alloc(), ROWS[2].text);
    assert!(rt; is_short(rt.alloc(), twice, b" 0*5 1*3 0") == Some(true));
}

/// Two locks in both orders.
static LOCKS: &str =
    "lock m\nlock n\nthread main\nfork a\nacquire m\nacquire n\nrelease n\nrelease m\nthread a\nacquire n\nacquire m\nrelease m\nrelease n\n";

/// The same within blocks.
static PAY: &str =
    "var x\nvar y\nlock m\nlock n\nthread main\nfork a\nbegin pay\nacquire m\nacquire n\nread x\nwrite x\nread y\nwrite y\nrelease n\nrelease m\nend\njoin a\nthread a\nbegin pay\nacquire n\nacquire m\nread y\nwrite y\nread x\nwrite x\nrelease m\nrelease n\nend\n";

#[test]
fn deadlocks_have_simple_schedules(rt: HostRuntime) {
    let locks = to_deadlock(rt.alloc(), LOCKS);
    assert!(rt; is_short(rt.alloc(), locks, b" 0*2 1") == Some(true));
    let pay = to_deadlock(rt.alloc(), PAY);
    assert!(rt; is_short(rt.alloc(), pay, b" 0*3 1*2") == Some(true));
}

/// An exit that holds a lock.
static BAD: &str = "lock m\nthread main\nfork a\njoin a\nthread a\nacquire m\n";

#[test]
fn refusals_have_simple_schedules(rt: HostRuntime) {
    let bad = to_refusal(rt.alloc(), BAD);
    assert!(rt; is_short(rt.alloc(), bad, b" 0 1*2") == Some(true));
}

#[test]
fn a_refused_growth_shrinks_no_schedule(rt: HostRuntime) {
    let lost = to_alarm(rt.alloc(), ROWS[0].text);
    assert_ne!(rt; is_short(rt.alloc(), lost, b" 0*3 1 0"), Some(false));
    let bad = to_refusal(rt.alloc(), BAD);
    assert_ne!(rt; is_short(rt.alloc(), bad, b" 0 1*2"), Some(false));
}
