//! Reports: by names, of a long log, and as the definitions have it.
use super::slow::{BOUNDS, first_lines, world_by_chance};
use super::{LOST_UPDATE, LOST_UPDATE_REPORT};
use std::alloc::{AllocError, Global};
use std::process::Abort;
use std::test::Fail;
use velo_bytes::{Bytes, Text};
use velo_check::{Verdict, check_run, config_of, do_log};
use velo_events::{Bounds, Event, Kind, Label, ThreadId, VarId};
use velo_logtext::{read_log, write_log};
use velo_report::{Names, report};
use velo_traces::Trace;
use velo_world::Closed;

/// Reports by names: as far as there are any, they replace the numbers.
static NAMED: [(usize, usize, &str); 2] = [
    (
        1,
        8,
        "events 5\nthread 0 main 4\nthread 1 1\nverdict alarm 4\ntransaction 1\nblame 1 inc\n",
    ),
    (0, 1, LOST_UPDATE_REPORT),
];

/// Compares the report by these names.
fn compare_report(rt: &impl Abort, alloc: Global, closed: &Closed, names: &Names, wanted: &str) {
    let mut sink = Text::new(alloc);
    assert!(rt; report(closed, names, &mut sink).is_ok());
    assert!(rt; sink.as_slice() == wanted.as_bytes());
    drop(sink);
}

/// So many names that are the same word.
fn copies(alloc: Global, word: &str, count: usize) -> Result<Vec<String>, AllocError> {
    let mut names = Vec::new(alloc);
    for _ in 0..count {
        names.push(String::from_str(alloc, word)?)?;
    }
    Ok(names)
}

/// Compares the reports by names.
fn compare_named(rt: &impl Abort, alloc: Global, closed: &Closed) {
    for (threads_named, labels_named, wanted) in &NAMED {
        let threads = copies(alloc, "main", *threads_named).expect(rt, "memory");
        let labels = copies(alloc, "inc", *labels_named).expect(rt, "memory");
        let names = Names::Words {
            threads: threads.as_slice(),
            labels: labels.as_slice(),
        };
        compare_report(rt, alloc, closed, &names, *wanted);
        drop((threads, labels));
    }
}

#[test]
fn names_stand_for_numbers(rt: HostRuntime) {
    let mut source = Bytes::new(LOST_UPDATE.as_bytes());
    let (bounds, log) = read_log(rt.alloc(), &mut source).expect(&rt, "a log");
    let closed = do_log(rt.alloc(), config_of(bounds, 5, 2), log).expect(&rt, "a world");
    compare_named(&rt, rt.alloc(), &closed);
    drop(closed);
}

/// Adds 10,000 events, of which the last closes the first cycle.
fn push_events(trace: &mut Trace) -> Result<(), Fail> {
    let first = ThreadId(0);
    let second = ThreadId(1);
    let x = VarId(0);
    trace.push(event(first, Kind::Fork(second)))?;
    for i in 0..9_995u64 {
        trace.push(event(second, Kind::Write(x, u64::MAX - i)))?;
    }
    trace.push(event(first, Kind::Begin(Label(7))))?;
    trace.push(event(first, Kind::Read(x, u64::MAX - 9_994)))?;
    trace.push(event(second, Kind::Write(x, 5)))?;
    trace.push(event(first, Kind::Write(x, 1)))?;
    Ok(())
}

/// The log comes in four pieces.
#[test]
fn ten_thousand_lines(rt: HostRuntime) -> Result<(), Fail> {
    let mut trace = Trace::new(rt.alloc());
    push_events(&mut trace)?;
    assert!(rt; trace.len() == 10_000);
    let bounds = Bounds {
        threads: 2,
        variables: 1,
        locks: 0,
    };
    let mut log = Text::new(rt.alloc());
    write_log(bounds, &trace, &mut log).expect(&rt, "memory");
    drop(trace);
    let mut source = Bytes::new(log.as_slice());
    let mut sink = Text::new(rt.alloc());
    let answer = check_run(rt.alloc(), &mut source, &mut sink, 10_000, 1024, true);
    assert!(rt; answer == Ok(Verdict::Alarm));
    let lines =
        "events 10000\nthread 0 4\nthread 1 9996\nverdict alarm 9999\ntransaction 9996\nblame 9996 7\ncycle 9996 9998\n";
    assert!(rt; sink.as_slice() == lines.as_bytes());
    drop((log, sink));
    Ok(())
}

fn event(thread: ThreadId, kind: Kind) -> Event {
    Event { thread, kind }
}

/// Compares the report of a log with what the definitions say.
fn compare_with_definitions(rt: &impl Abort, alloc: Global, trace: &Trace) -> Result<(), Fail> {
    assert!(rt; trace.len() <= 48);
    let lines = first_lines(alloc, trace, BOUNDS.threads)?;
    let mut log = Text::new(alloc);
    write_log(BOUNDS, trace, &mut log).expect(rt, "memory");
    let mut source = Bytes::new(log.as_slice());
    let mut sink = Text::new(alloc);
    check_run(alloc, &mut source, &mut sink, 48, 1024, false).expect(rt, "a verdict");
    assert!(rt; sink.as_slice().starts_with(lines.as_bytes()), "{lines}");
    drop((log, sink, lines));
    Ok(())
}

/// Random logs are reported as the definitions say.
#[test]
fn reports_are_those_of_the_definitions(rt: HostRuntime) -> Result<(), Fail> {
    for seed in 0..400u64 {
        let world = world_by_chance(&rt, rt.alloc(), seed);
        let compared = compare_with_definitions(&rt, rt.alloc(), world.log());
        drop(world);
        compared?;
    }
    Ok(())
}
