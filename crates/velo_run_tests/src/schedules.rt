//! Workloads, and what all their schedules lead to.
use crate::words::holds_for;
use std::alloc::Global;
use velo_events::Config;
use velo_explore::{Exploration, Finding, Quiet, explore};
use velo_filter::LeftOut;
use velo_workload::parse;

/// What is known of a fault.
#[derive(Clone, Copy, PartialEq, Eq)]
enum Known {
    Shown,
    Never,
    Open,
}

/// A workload, how many states a model of the search looked at, if it was tried there, and the
/// findings of alarms, deadlocks and refusals.
struct Row<'a> {
    text: &'a str,
    states: Option<u64>,
    alarm: Known,
    stuck: Known,
    refused: Known,
}

/// The findings, in numbers and words.
#[derive(Clone, Copy, PartialEq, Eq)]
struct Told {
    states: u64,
    alarm: Known,
    stuck: Known,
    refused: Known,
}

fn known_of(finding: &Finding) -> Known {
    match finding {
        Finding::Shown(_) => Known::Shown,
        Finding::Never => Known::Never,
        Finding::Open => Known::Open,
    }
}

fn told_of(exploration: &Exploration) -> Told {
    Told {
        states: exploration.states,
        alarm: known_of(&exploration.findings.alarm),
        stuck: known_of(&exploration.findings.stuck),
        refused: known_of(&exploration.findings.refused),
    }
}

fn explored(alloc: Global, text: &str, most_states: u64, first: bool) -> Option<Told> {
    let workload = parse(alloc, text).ok()?;
    let config = Config::new(1, workload.bounds(), 10_000, 64, false).ok()?;
    let whole = LeftOut::new(alloc);
    let exploration = explore(
        alloc,
        &workload,
        &whole,
        most_states,
        first,
        config,
        &mut Quiet,
    )
    .ok()?;
    Some(told_of(&exploration))
}

static ROWS: [Row<'static>; 20] = [
    // lost update, two threads once
    Row {
        text: "var x\nthread main\nfork a\nfork b\njoin a\njoin b\nthread a\nbegin inc\nread x\nadd 1\nwrite x\nend\nthread b\nbegin inc\nread x\nadd 1\nwrite x\nend\n",
        states: Some(12),
        alarm: Known::Shown,
        stuck: Known::Never,
        refused: Known::Never,
    },
    // and three times
    Row {
        text: "var x\nthread main\nfork a\nfork b\njoin a\njoin b\nthread a\nrepeat 3\nbegin inc\nread x\nadd 1\nwrite x\nend\ndone\nthread b\nrepeat 3\nbegin inc\nread x\nadd 1\nwrite x\nend\ndone\n",
        states: Some(104),
        alarm: Known::Shown,
        stuck: Known::Never,
        refused: Known::Never,
    },
    // the same under a lock
    Row {
        text: "var x\nlock m\nthread main\nfork a\nfork b\njoin a\njoin b\nthread a\nrepeat 3\nbegin inc\nacquire m\nread x\nadd 1\nwrite x\nrelease m\nend\ndone\nthread b\nrepeat 3\nbegin inc\nacquire m\nread x\nadd 1\nwrite x\nrelease m\nend\ndone\n",
        states: Some(16),
        alarm: Known::Never,
        stuck: Known::Never,
        refused: Known::Never,
    },
    // both read what the other wrote
    Row {
        text: "var x\nvar y\nthread main\nfork a\nfork b\njoin a\njoin b\nthread a\nbegin one\nwrite x\nread y\nend\nthread b\nbegin two\nwrite y\nread x\nend\n",
        states: Some(12),
        alarm: Known::Shown,
        stuck: Known::Never,
        refused: Known::Never,
    },
    // nested blocks
    Row {
        text: "var x\nthread main\nfork a\nfork b\njoin a\njoin b\nthread a\nbegin one\nbegin two\nread x\nend\nbegin three\nwrite x\nend\nend\nthread b\nwrite x\n",
        states: Some(8),
        alarm: Known::Shown,
        stuck: Known::Never,
        refused: Known::Never,
    },
    // a fork within a block
    Row {
        text: "var x\nthread main\nbegin one\nfork a\nread x\nend\njoin a\nthread a\nwrite x\n",
        states: Some(5),
        alarm: Known::Shown,
        stuck: Known::Never,
        refused: Known::Never,
    },
    // two fork one thread
    Row {
        text: "var x\nthread main\nfork a\nfork b\nthread a\nfork c\nthread b\nfork c\nthread c\nread x\n",
        states: Some(3),
        alarm: Known::Never,
        stuck: Known::Never,
        refused: Known::Shown,
    },
    // joined before its fork
    Row {
        text: "var x\nthread main\nfork a\nfork b\nthread a\nwrite x\nfork c\nthread b\nread x\njoin c\nthread c\n",
        states: Some(6),
        alarm: Known::Never,
        stuck: Known::Never,
        refused: Known::Shown,
    },
    // two locks in both orders
    Row {
        text: "lock m\nlock n\nthread main\nfork a\nacquire m\nacquire n\nrelease n\nrelease m\nthread a\nacquire n\nacquire m\nrelease m\nrelease n\n",
        states: Some(9),
        alarm: Known::Never,
        stuck: Known::Shown,
        refused: Known::Never,
    },
    // two sharers of a lock
    Row {
        text: "lock m\nthread main\nfork a\nshare m\nunshare m\njoin a\nthread a\nshare m\nunshare m\n",
        states: None,
        alarm: Known::Never,
        stuck: Known::Never,
        refused: Known::Never,
    },
    // a block that shares a lock twice, and a writer that has it alone
    Row {
        text: "var x\nlock m\nthread main\nfork a\nbegin look\nshare m\nread x\nunshare m\nshare m\nread x\nunshare m\nend\njoin a\nthread a\nacquire m\nset 1\nwrite x\nrelease m\n",
        states: None,
        alarm: Known::Shown,
        stuck: Known::Never,
        refused: Known::Never,
    },
    // and a reader that shares it
    Row {
        text: "var x\nlock m\nthread main\nfork a\nbegin look\nshare m\nread x\nunshare m\nshare m\nread x\nunshare m\nend\njoin a\nthread a\nshare m\nread x\nunshare m\n",
        states: None,
        alarm: Known::Never,
        stuck: Known::Never,
        refused: Known::Never,
    },
    // a share that waits for a share of another lock
    Row {
        text: "lock m\nlock n\nthread main\nfork a\nshare m\nacquire n\nrelease n\nunshare m\nthread a\nshare n\nacquire m\nrelease m\nunshare n\n",
        states: None,
        alarm: Known::Never,
        stuck: Known::Shown,
        refused: Known::Never,
    },
    // an exit that holds a lock
    Row {
        text: "lock m\nthread main\nfork a\njoin a\nthread a\nacquire m\n",
        states: Some(1),
        alarm: Known::Never,
        stuck: Known::Never,
        refused: Known::Shown,
    },
    // a block of the first thread, a write of another
    Row {
        text: "var x\nthread main\nfork a\nbegin inc\nread x\nadd 1\nwrite x\nend\njoin a\nthread a\nset 5\nwrite x\n",
        states: Some(8),
        alarm: Known::Shown,
        stuck: Known::Never,
        refused: Known::Never,
    },
    // the first thread and another, three lost updates each
    Row {
        text: "var x\nthread main\nfork a\nrepeat 3\nbegin inc\nread x\nadd 1\nwrite x\nend\ndone\njoin a\nthread a\nrepeat 3\nbegin inc\nread x\nadd 1\nwrite x\nend\ndone\n",
        states: Some(104),
        alarm: Known::Shown,
        stuck: Known::Never,
        refused: Known::Never,
    },
    // a lock taken twice in one block
    Row {
        text: "var x\nlock m\nthread main\nfork a\nbegin inc\nacquire m\nread x\nrelease m\nadd 1\nacquire m\nwrite x\nrelease m\nend\njoin a\nthread a\nacquire m\nset 9\nwrite x\nrelease m\n",
        states: Some(8),
        alarm: Known::Shown,
        stuck: Known::Never,
        refused: Known::Never,
    },
    // transfers by two locks in both orders
    Row {
        text: "var x\nvar y\nlock m\nlock n\nthread main\nfork a\nbegin pay\nacquire m\nacquire n\nread x\nwrite x\nread y\nwrite y\nrelease n\nrelease m\nend\njoin a\nthread a\nbegin pay\nacquire n\nacquire m\nread y\nwrite y\nread x\nwrite x\nrelease m\nrelease n\nend\n",
        states: Some(9),
        alarm: Known::Never,
        stuck: Known::Shown,
        refused: Known::Never,
    },
    // updates under a lock, a hundred each
    Row {
        text: "var x\nlock m\nthread main\nfork a\nrepeat 100\nbegin inc\nacquire m\nread x\nadd 1\nwrite x\nrelease m\nend\ndone\njoin a\nthread a\nrepeat 100\nbegin inc\nacquire m\nread x\nadd 1\nwrite x\nrelease m\nend\ndone\n",
        states: Some(10_201),
        alarm: Known::Never,
        stuck: Known::Never,
        refused: Known::Never,
    },
    // and of three threads, three each
    Row {
        text: "var x\nlock m\nthread main\nfork a\nfork b\nfork c\njoin a\njoin b\njoin c\nthread a\nrepeat 3\nbegin inc\nacquire m\nread x\nadd 1\nwrite x\nrelease m\nend\ndone\nthread b\nrepeat 3\nbegin inc\nacquire m\nread x\nadd 1\nwrite x\nrelease m\nend\ndone\nthread c\nrepeat 3\nbegin inc\nacquire m\nread x\nadd 1\nwrite x\nrelease m\nend\ndone\n",
        states: Some(64),
        alarm: Known::Never,
        stuck: Known::Never,
        refused: Known::Never,
    },
];

/// Whether all schedules of the row's workload lead to what it says.
fn is_told(alloc: Global, row: &Row<'_>) -> Option<bool> {
    let told = explored(alloc, row.text, 100_000, false)?;
    let wanted = Told {
        states: row.states.unwrap_or(told.states),
        alarm: row.alarm,
        stuck: row.stuck,
        refused: row.refused,
    };
    Some(told == wanted)
}

#[test]
fn all_schedules_are_told(rt: HostRuntime) {
    for row in &ROWS {
        holds_for(&rt, is_told(rt.alloc(), row) == Some(true), &row.text);
    }
}

#[test]
fn one_state_may_do(rt: HostRuntime) {
    let all = explored(rt.alloc(), ROWS[13].text, 1, false);
    assert!(rt; all.map(|told| told.refused) == Some(Known::Shown));
    assert!(rt; all.map(|told| told.alarm) == Some(Known::Never));
    let one = explored(rt.alloc(), ROWS[2].text, 1, false);
    assert!(rt; one.map(|told| told.states) == Some(1));
    assert!(rt; one.map(|told| told.alarm) == Some(Known::Open));
}

#[test]
fn a_budget_leaves_open(rt: HostRuntime) {
    let text = ROWS[2].text;
    let exact = Told {
        states: 16,
        alarm: Known::Never,
        stuck: Known::Never,
        refused: Known::Never,
    };
    assert!(rt; explored(rt.alloc(), text, 16, false) == Some(exact));
    let short = explored(rt.alloc(), text, 15, false);
    assert!(rt; short.map(|told| told.alarm) == Some(Known::Open));
    assert!(rt; short.map(|told| told.stuck) == Some(Known::Open));
    assert!(rt; short.map(|told| told.refused) == Some(Known::Open));
}

/// Whether a search that ends at the first finding shows this one, and reports the others as open.
fn is_first(told: Option<Told>, alarm: Known, stuck: Known, refused: Known) -> bool {
    match told {
        Some(told) => told.alarm == alarm && told.stuck == stuck && told.refused == refused,
        None => false,
    }
}

#[test]
fn the_first_finding_ends_it(rt: HostRuntime) {
    let alarm = explored(rt.alloc(), ROWS[1].text, 100_000, true);
    assert!(rt; is_first(alarm, Known::Shown, Known::Open, Known::Open));
    let fewer = alarm.map(|told| told.states < 104);
    assert!(rt; fewer == Some(true));
    let stuck = explored(rt.alloc(), ROWS[8].text, 100_000, true);
    assert!(rt; is_first(stuck, Known::Open, Known::Shown, Known::Open));
    let refused = explored(rt.alloc(), ROWS[7].text, 100_000, true);
    assert!(rt; is_first(refused, Known::Open, Known::Open, Known::Shown));
}

#[test]
fn an_alarm_comes_before_a_refusal(rt: HostRuntime) {
    let text = "lock m\nthread main\nbegin one\nfork a\njoin a\nrelease m\nend\nthread a\n";
    let all = explored(rt.alloc(), text, 100_000, false);
    assert!(rt; is_first(all, Known::Shown, Known::Never, Known::Shown));
    let first = explored(rt.alloc(), text, 100_000, true);
    assert!(rt; is_first(first, Known::Shown, Known::Open, Known::Open));
}

#[test]
fn without_a_finding_all_is_tried(rt: HostRuntime) {
    let exact = Told {
        states: 16,
        alarm: Known::Never,
        stuck: Known::Never,
        refused: Known::Never,
    };
    assert!(rt; explored(rt.alloc(), ROWS[2].text, 16, true) == Some(exact));
}
