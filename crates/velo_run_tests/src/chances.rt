//! Random runs.
ghost use Rattle.std.specs.Prelude.{◌≡◌};

use std::alloc::Global;
use velo_events::{Config, Memory};
use velo_explore::{
    BlamedLabel, DEFAULT_SEED, Finding, RunTally, Shrunk, shrink_findings, try_all, try_by_chance,
};
use velo_schedule_text::{append_turns, turns_of};
use velo_workload::{Workload, parse};

/// The tally of `runs` random runs of a workload.
fn tried(alloc: Global, text: &str, runs: u64, seed: u64) -> Option<RunTally> {
    let workload = parse(alloc, text).ok()?;
    let config = Config::new(1, workload.bounds(), 100_000, 64, false).ok()?;
    try_by_chance(alloc, &workload, runs, seed, config).ok()
}

/// Of random runs: how many there were and have an alarm, and whether an alarm, a deadlock and a
/// refusal are shown.
#[derive(Clone, Copy, PartialEq, Eq)]
struct Findings {
    runs: u64,
    some_alarms: bool,
    all_alarms: bool,
    alarm: bool,
    stuck: bool,
    refused: bool,
}

fn findings_of(alloc: Global, text: &str, runs: u64, seed: u64) -> Option<Findings> {
    let tally = tried(alloc, text, runs, seed)?;
    Some(Findings {
        runs: tally.runs,
        some_alarms: tally.alarms > 0,
        all_alarms: tally.alarms == runs,
        alarm: tally.findings.alarm.witness().is_some(),
        stuck: tally.findings.stuck.witness().is_some(),
        refused: tally.findings.refused.witness().is_some(),
    })
}

/// The schedule of the first alarm, as a short text, and the labels that are blamed.
fn first_alarm(
    alloc: Global,
    text: &str,
    runs: u64,
    seed: u64,
) -> Option<(Vec<u8>, u64, Vec<BlamedLabel>)> {
    let tally = tried(alloc, text, runs, seed)?;
    let mut short = Vec::new(alloc);
    append_turns(&mut short, &tally.findings.alarm.witness()?.schedule).ok()?;
    Some((short, tally.alarms, tally.blamed))
}

/// Whether two seeds lead to the same first alarm, and to the same counts.
fn are_same(alloc: Global, text: &str, one: u64, other: u64) -> Option<bool> {
    let (one, alarms, labels) = first_alarm(alloc, text, 50, one)?;
    let (other, others, other_labels) = first_alarm(alloc, text, 50, other)?;
    let same = one.as_slice() == other.as_slice() && alarms == others;
    Some(same && labels.as_slice() == other_labels.as_slice())
}

/// How many words a short text has.
fn words(text: &[u8]) -> usize {
    text.iter().filter(|byte| **byte == b' ').count()
}

/// The alarm of random runs of a workload, by a simple schedule.
fn simple_alarm(alloc: Global, workload: &Workload, config: Config) -> Result<Finding, Memory>
    requires bounds { config.bounds ≡ workload.now.bounds }
{
    let tally = try_by_chance(alloc, workload, 50, DEFAULT_SEED, config)?;
    let Shrunk { findings, first } = shrink_findings(alloc, workload, tally.findings, config)?;
    drop(first);
    Ok(findings.alarm)
}

/// The schedule of an alarm that is reported, simplified.
fn simple(alloc: Global, text: &str) -> Option<Vec<u8>> {
    let workload = parse(alloc, text).ok()?;
    let config = Config::new(1, workload.bounds(), 100_000, 64, false).ok()?;
    let alarm = simple_alarm(alloc, &workload, config).ok()?;
    let mut short = Vec::new(alloc);
    append_turns(&mut short, &alarm.witness()?.schedule).ok()?;
    Some(short)
}

/// How many of the runs by these schedules have an alarm, how many labels are blamed, and in how
/// many alarms the first is.
fn blamed_by(alloc: Global, text: &str, schedules: &[&str]) -> Option<(u64, usize, u64)> {
    let workload = parse(alloc, text).ok()?;
    let config = Config::new(1, workload.bounds(), 100_000, 64, false).ok()?;
    let mut turns = Vec::new(alloc);
    for schedule in schedules {
        turns.push(turns_of(alloc, *schedule).ok()?).ok()?;
    }
    let tally = try_all(alloc, &workload, &turns, config).ok()?;
    let first = tally.blamed.first().map_or(0, |blamed| blamed.alarms);
    Some((tally.alarms, tally.blamed.len(), first))
}

/// Two threads that lose updates.
static RACE: &str =
    "var x\nthread main\nfork a\nrepeat 3\nbegin inc\nread x\nadd 1\nwrite x\nend\ndone\njoin a\nthread a\nrepeat 3\nbegin inc\nread x\nadd 1\nwrite x\nend\ndone\n";

/// The same under a lock.
static LOCKED: &str =
    "var x\nlock m\nthread main\nfork a\nfork b\njoin a\njoin b\nthread a\nbegin inc\nacquire m\nread x\nadd 1\nwrite x\nrelease m\nend\nbegin inc\nacquire m\nread x\nadd 1\nwrite x\nrelease m\nend\nbegin inc\nacquire m\nread x\nadd 1\nwrite x\nrelease m\nend\nthread b\nbegin inc\nacquire m\nread x\nadd 1\nwrite x\nrelease m\nend\nbegin inc\nacquire m\nread x\nadd 1\nwrite x\nrelease m\nend\nbegin inc\nacquire m\nread x\nadd 1\nwrite x\nrelease m\nend\n";

/// Two locks in both orders.
static LOCKS: &str =
    "lock m\nlock n\nthread main\nfork a\nacquire m\nacquire n\nrelease n\nrelease m\nthread a\nacquire n\nacquire m\nrelease m\nrelease n\n";

/// An exit that holds a lock.
static BAD: &str = "lock m\nthread main\nfork a\njoin a\nthread a\nacquire m\n";

/// Both read what the other wrote.
static BOTH: &str =
    "var x\nvar y\nthread main\nfork a\nfork b\njoin a\njoin b\nthread a\nbegin one\nwrite x\nread y\nend\nthread b\nbegin two\nwrite y\nread x\nend\n";

/// Two labels, each with blocks that lose updates.
static TWO: &str =
    "var x\nthread main\nfork a\nfork b\njoin a\njoin b\nthread a\nbegin inc\nread x\nadd 1\nwrite x\nend\nthread b\nbegin dec\nread x\nadd 1\nwrite x\nend\n";

/// What nothing is found of.
fn nothing(runs: u64) -> Findings {
    Findings {
        runs,
        some_alarms: false,
        all_alarms: runs == 0,
        alarm: false,
        stuck: false,
        refused: false,
    }
}

#[test]
fn what_runs_show_is_told(rt: HostRuntime) {
    let clean = findings_of(rt.alloc(), LOCKED, 100, DEFAULT_SEED);
    assert!(rt; clean == Some(nothing(100)));
    let none = findings_of(rt.alloc(), RACE, 0, DEFAULT_SEED);
    assert!(rt; none == Some(nothing(0)));
    let race = findings_of(rt.alloc(), RACE, 100, DEFAULT_SEED);
    assert!(rt; race.map(|it| it.alarm && it.some_alarms) == Some(true));
    assert!(rt; race.map(|it| it.all_alarms || it.stuck) == Some(false));
    let locks = findings_of(rt.alloc(), LOCKS, 100, DEFAULT_SEED);
    assert!(rt; locks.map(|it| it.stuck) == Some(true));
    assert!(rt; locks.map(|it| it.alarm || it.refused) == Some(false));
    let bad = findings_of(rt.alloc(), BAD, 1, DEFAULT_SEED);
    assert!(rt; bad.map(|it| it.refused) == Some(true));
    assert!(rt; bad.map(|it| it.alarm || it.stuck) == Some(false));
}

#[test]
fn a_seed_draws_the_same_schedules(rt: HostRuntime) {
    assert!(rt; are_same(rt.alloc(), RACE, 7, 7) == Some(true));
    assert!(rt; are_same(rt.alloc(), RACE, 7, 8) == Some(false));
}

/// Whether both labels of a workload are blamed, the one of more alarms first, and neither by more
/// runs than have an alarm.
fn are_both_blamed(alloc: Global) -> Option<bool> {
    let (_, alarms, labels) = first_alarm(alloc, TWO, 200, DEFAULT_SEED)?;
    let first = labels.first()?;
    let last = labels.last()?;
    let counted = first.alarms <= alarms && last.alarms <= first.alarms && last.alarms > 0;
    Some(counted && labels.len() == 2 && first.label != last.label)
}

#[test]
fn labels_are_counted(rt: HostRuntime) {
    assert!(rt; are_both_blamed(rt.alloc()) == Some(true));
}

#[test]
fn alarms_by_chance_are_made_simple(rt: HostRuntime) {
    let race = simple(rt.alloc(), RACE);
    assert!(rt; race.as_deref() == Some(b" 0*3 1*3 0".as_slice()));
    let both = simple(rt.alloc(), BOTH);
    assert!(rt; both.map(|text| words(&text)) == Some(4));
}

#[test]
fn given_schedules_are_counted(rt: HostRuntime) {
    let none = blamed_by(rt.alloc(), RACE, &[]);
    assert!(rt; none == Some((0, 0, 0)));
    let some = blamed_by(rt.alloc(), RACE, &["0*3 1*3 0", "", "0*100", "0*3 1*3 0"]);
    assert!(rt; some == Some((3, 1, 3)));
    let two = blamed_by(
        rt.alloc(),
        TWO,
        &["0*2 1*2 2*4 1", "0*2 2*2 1*4 2", "0*2 1*2 2*4 1"],
    );
    assert!(rt; two == Some((3, 2, 2)));
}

#[test]
fn a_refused_growth_tells_of_no_run(rt: HostRuntime) {
    let bad = findings_of(rt.alloc(), BAD, 2, DEFAULT_SEED);
    assert_ne!(rt; bad.map(|it| it.refused), Some(false));
    let race = simple(rt.alloc(), RACE);
    assert!(rt; race.map_or(true, |short| short.as_slice() == b" 0*3 1*3 0".as_slice()));
}
