//! Workloads in memory, replayed by schedules and run by threads: their reports, logs and ends.
ghost use Rattle.std.specs.Prelude.{◌≡◌};

use crate::ends::line_of;
use crate::words::holds_for;
use std::alloc::Global;
use std::process::Abort;
use std::sync::Wait;
use std::test::Fail;
use std::thread::Threads;
use velo_bytes::Text;
use velo_check::{Fate, order_or_cycle_of, write_output};
use velo_events::{Config, MAX_EVENTS};
use velo_logtext::write_log;
use velo_report::Names;
use velo_schedule_text::{MAX_TURNS, ScheduleFault, schedule_of};
use velo_worker::{Ending, OpenGate, live, replay};
use velo_workload::{Workload, parse};
use velo_world::Closed;

/// The lost update as a workload.
pub const COLLIDING: &str =
    "var x\nthread main\nfork a\nbegin inc\nread x\nadd 1\nwrite x\nend\njoin a\nthread a\nset 5\nwrite x\n";

const COLLIDING_LOG: &str =
    "vlog 2 2 1 0\n0 fork 1\n0 begin 0\n0 rd 0 0\n1 wr 0 5\n0 wr 0 1\n0 end\n1 exit\n0 join 1\n0 exit\n";

const COLLIDING_REPORT: &str =
    "events 9\nthread 0 main 7\nthread 1 a 2\nverdict alarm 4\ntransaction 1\nblame 1 inc\n";

/// Two locks that are taken in opposite orders.
const CROSSING: &str =
    "lock m\nlock n\nthread main\nfork a\nacquire m\nacquire n\nrelease n\nrelease m\nthread a\nacquire n\nacquire m\nrelease m\nrelease n\n";

/// A block that forks a thread and joins it, so that no serial order has the block in one piece.
const FORKING: &str =
    "var x\nthread main\nbegin inc\nread x\nfork a\njoin a\nwrite x\nend\nthread a\nset 5\nwrite x\n";

/// A thread that joins another, which waits for a lock of the first.
const WAITING: &str =
    "lock m\nthread main\nacquire m\nfork a\njoin a\nthread a\nacquire m\nrelease m\n";

/// Two threads that count to 200 in blocks under a lock.
const COUNTING: &str =
    "var x\nlock m\nthread main\nfork a\nfork b\njoin a\njoin b\nread x\nthread a\nrepeat 100\nbegin l\nacquire m\nread x\nadd 1\nwrite x\nrelease m\nend\ndone\nthread b\nrepeat 100\nbegin l\nacquire m\nread x\nadd 1\nwrite x\nrelease m\nend\ndone\n";

/// Two threads that read under a lock which both share.
const SHARING: &str =
    "var x\nlock m\nthread main\nfork a\nshare m\nread x\nunshare m\njoin a\nthread a\nshare m\nread x\nunshare m\n";

const SHARING_REPORT: &str = "events 10\nthread 0 main 6\nthread 1 a 4\nverdict clean\n";

const SHARING_LOG: &str =
    "vlog 2 2 1 1\n0 fork 1\n1 acqs 0\n0 acqs 0\n1 rd 0 0\n0 rd 0 0\n1 rels 0\n0 rels 0\n1 exit\n0 join 1\n0 exit\n";

/// Two locks that are taken in opposite orders, of which one is shared by one thread.
const CROSSING_BY_A_SHARE: &str =
    "lock m\nlock n\nthread main\nfork a\nshare m\nacquire n\nrelease n\nunshare m\nthread a\nacquire n\nacquire m\nrelease m\nrelease n\n";

/// A thread that joins another, which waits for a lock that the first shares.
const WAITING_FOR_A_SHARE: &str =
    "lock m\nthread main\nshare m\nfork a\njoin a\nthread a\nacquire m\nrelease m\n";

/// A block that shares a lock twice, and a thread that has the lock alone in between.
const SHARING_TWICE: &str =
    "lock m\nthread main\nfork a\nbegin twice\nshare m\nunshare m\nshare m\nunshare m\nend\njoin a\nthread a\nacquire m\nrelease m\n";

/// A workload, how it is played, and what comes of it: the report, the line on standard error, the
/// log where it is compared, and the status. Without a schedule it is run by threads.
struct Row {
    workload: &'static str,
    schedule: Option<&'static str>,
    stop: bool,
    events: u32,
    certificate: bool,
    out: &'static str,
    err: &'static str,
    log: Option<&'static str>,
    status: u8,
}

const REPLAYED: Row = Row {
    workload: "",
    schedule: Some(""),
    stop: false,
    events: MAX_EVENTS,
    certificate: false,
    out: "",
    err: "",
    log: None,
    status: 0,
};

const LIVE: Row = Row {
    schedule: None,
    ..REPLAYED
};

static ROWS: [Row; 31] = [
    Row {
        workload: COLLIDING,
        schedule: Some("0 0 0 1 0"),
        out: COLLIDING_REPORT,
        log: Some(COLLIDING_LOG),
        status: 3,
        ..REPLAYED
    },
    Row {
        workload: COLLIDING,
        schedule: Some("0 0 0 1 0"),
        stop: true,
        out: "events 5\nthread 0 main 4\nthread 1 a 1\nverdict alarm 4\ntransaction 1\nblame 1 inc\n",
        log: Some("vlog 2 2 1 0\n0 fork 1\n0 begin 0\n0 rd 0 0\n1 wr 0 5\n0 wr 0 1\n"),
        status: 3,
        ..REPLAYED
    },
    Row {
        workload: "var x\nthread main\nset 18446744073709551615\nwrite x\nread x\nadd 1\nwrite x\n",
        out: "events 4\nthread 0 main 4\nverdict clean\n",
        ..REPLAYED
    },
    Row {
        workload: CROSSING,
        schedule: Some("0 0 1"),
        out: "events 3\nthread 0 main 2\nthread 1 a 1\nverdict clean\n",
        err: "stuck\n",
        status: 4,
        ..REPLAYED
    },
    Row {
        workload: "thread main",
        out: "events 1\nthread 0 main 1\nverdict clean\n",
        ..REPLAYED
    },
    Row {
        workload: "thread main",
        certificate: true,
        out: "events 1\nthread 0 main 1\nverdict clean\nserial 0\n",
        ..REPLAYED
    },
    Row {
        workload: "thread main\nend\n",
        out: "events 0\nthread 0 main 0\nverdict clean\n",
        err: "refused 9 thread 0\n",
        log: Some("vlog 2 1 0 0\n"),
        status: 4,
        ..REPLAYED
    },
    Row {
        workload: COLLIDING,
        events: 2,
        out: "events 2\nthread 0 main 1\nthread 1 a 1\nverdict clean\n",
        err: "refused 17 thread 0\n",
        log: Some("vlog 2 2 1 0\n0 fork 1\n1 wr 0 5\n"),
        status: 4,
        ..REPLAYED
    },
    Row {
        workload: "",
        err: "workload fault 1 line 0\n",
        status: 2,
        ..REPLAYED
    },
    Row {
        workload: "thread main\nread x\n",
        err: "workload fault 2 line 2\n",
        status: 2,
        ..REPLAYED
    },
    Row {
        workload: "var x\nvar x\nthread main\n",
        err: "workload fault 3 line 2\n",
        status: 2,
        ..REPLAYED
    },
    Row {
        workload: "thread main\ndone\n",
        err: "workload fault 4 line 2\n",
        status: 2,
        ..REPLAYED
    },
    Row {
        workload: "thread main\nrepeat 18446744073709551615\nset 1\ndone\n",
        err: "workload fault 5 line 1\n",
        status: 2,
        ..REPLAYED
    },
    Row {
        workload: FORKING,
        certificate: true,
        out: "events 9\nthread 0 main 7\nthread 1 a 2\nverdict alarm 5\ntransaction 0\nblame 0 inc\ncycle 0 3\n",
        log: Some(
            "vlog 2 2 1 0\n0 begin 0\n0 rd 0 0\n0 fork 1\n1 wr 0 5\n1 exit\n0 join 1\n0 wr 0 0\n0 end\n0 exit\n",
        ),
        status: 3,
        ..LIVE
    },
    Row {
        workload: FORKING,
        stop: true,
        out: "events 6\nthread 0 main 4\nthread 1 a 2\nverdict alarm 5\ntransaction 0\nblame 0 inc\n",
        log: Some("vlog 2 2 1 0\n0 begin 0\n0 rd 0 0\n0 fork 1\n1 wr 0 5\n1 exit\n0 join 1\n"),
        status: 3,
        ..LIVE
    },
    Row {
        workload: COUNTING,
        out: "events 1208\nthread 0 main 6\nthread 1 a 601\nthread 2 b 601\nverdict clean\n",
        ..LIVE
    },
    Row {
        workload: WAITING,
        out: "events 2\nthread 0 main 2\nthread 1 a 0\nverdict clean\n",
        err: "stuck\n",
        log: Some("vlog 2 2 0 1\n0 acq 0\n0 fork 1\n"),
        status: 4,
        ..LIVE
    },
    Row {
        workload: "var x\nthread main\nwrite x\nset 1\nwrite x\nadd 1\nwrite x\n",
        events: 2,
        out: "events 2\nthread 0 main 2\nverdict clean\n",
        err: "refused 17 thread 0\n",
        status: 4,
        ..LIVE
    },
    Row {
        workload: "thread main\nread x\n",
        err: "workload fault 2 line 2\n",
        status: 2,
        ..LIVE
    },
    Row {
        workload: SHARING,
        out: SHARING_REPORT,
        ..REPLAYED
    },
    Row {
        workload: SHARING,
        out: SHARING_REPORT,
        log: Some(SHARING_LOG),
        ..REPLAYED
    },
    Row {
        workload: SHARING,
        out: SHARING_REPORT,
        ..LIVE
    },
    Row {
        workload: CROSSING_BY_A_SHARE,
        schedule: Some("0 0 1"),
        out: "events 3\nthread 0 main 2\nthread 1 a 1\nverdict clean\n",
        err: "stuck\n",
        log: Some("vlog 2 2 0 2\n0 fork 1\n0 acqs 0\n1 acq 1\n"),
        status: 4,
        ..REPLAYED
    },
    Row {
        workload: WAITING_FOR_A_SHARE,
        out: "events 2\nthread 0 main 2\nthread 1 a 0\nverdict clean\n",
        err: "stuck\n",
        log: Some("vlog 2 2 0 1\n0 acqs 0\n0 fork 1\n"),
        status: 4,
        ..LIVE
    },
    Row {
        workload: SHARING_TWICE,
        schedule: Some("0 0 0 0 1 1 0"),
        stop: true,
        certificate: true,
        out: "events 7\nthread 0 main 5\nthread 1 a 2\nverdict alarm 6\ntransaction 1\nblame 1 twice\ncycle 1 4\n",
        status: 3,
        ..REPLAYED
    },
    Row {
        workload: "lock m\nthread main\nshare m\nacquire m\n",
        out: "events 1\nthread 0 main 1\nverdict clean\n",
        err: "refused 7 thread 0\n",
        status: 4,
        ..REPLAYED
    },
    Row {
        workload: "lock m\nthread main\nshare m\n",
        out: "events 1\nthread 0 main 1\nverdict clean\n",
        err: "refused 16 thread 0\n",
        status: 4,
        ..REPLAYED
    },
    Row {
        workload: "lock m\nthread main\nshare n\n",
        err: "workload fault 2 line 3\n",
        status: 2,
        ..REPLAYED
    },
    // an end before its time goes before an alarm, and a file that fails before both
    Row {
        workload: "var x\nlock m\nthread main\nfork a\nacquire m\nbegin inc\nread x\nwrite x\njoin a\nthread a\nwrite x\nacquire m\n",
        schedule: Some("0 0 0 0 1 0"),
        out: "events 6\nthread 0 main 5\nthread 1 a 1\nverdict alarm 5\ntransaction 2\nblame 2 inc\n",
        err: "stuck\n",
        status: 4,
        ..REPLAYED
    },
    Row {
        workload: "var x\nthread main\nfork a\nbegin inc\nread x\nwrite x\nend\nend\nthread a\nwrite x\n",
        schedule: Some("0 0 0 1 0 0"),
        out: "events 6\nthread 0 main 5\nthread 1 a 1\nverdict alarm 4\ntransaction 1\nblame 1 inc\n",
        err: "refused 9 thread 0\n",
        status: 4,
        ..REPLAYED
    },
    // blame from the outermost block inwards
    Row {
        workload: "var x\nthread main\nfork a\nbegin outer\nbegin inner\nread x\nwrite x\nend\nend\njoin a\nthread a\nwrite x\n",
        schedule: Some("0 0 0 0 1"),
        out: "events 11\nthread 0 main 9\nthread 1 a 2\nverdict alarm 5\ntransaction 1\nblame 1 outer\nblame 2 inner\n",
        status: 3,
        ..REPLAYED
    },
];

/// What a run shows: its report, with its certificate or without, and its log.
#[derive(Drop)]
struct Told {
    out: Text,
    log: Text,
    fate: Fate,
}

/// What is told of a run that ended.
fn told_of(
    alloc: Global,
    workload: &Workload,
    closed: &Closed,
    ending: Ending,
    certificate: bool,
) -> Option<Told> {
    let names = Names::Words {
        threads: workload.thread_names(),
        labels: workload.label_names(),
    };
    let mut out = Text::new(alloc);
    let mut log = Text::new(alloc);
    write_log(closed.bounds(), closed.log(), &mut log).ok()?;
    let list = order_or_cycle_of(alloc, closed).ok()?;
    let list = if certificate {
        Some(list.as_slice())
    } else {
        None
    };
    write_output(closed, &names, list, &mut out).ok()?;
    let alarm = closed.alarm().is_some();
    let fate = Fate::Finished { ending, alarm };
    Some(Told { out, log, fate })
}

/// How a workload ends that is played as the row says.
fn end_of<R: Threads + Wait + Sync>(
    rt: &R,
    alloc: Global,
    workload: &Workload,
    row: &Row,
    config: Config,
) -> Option<(Closed, Ending)>
    requires { config.bounds ≡ workload.now.bounds }
{
    match row.schedule {
        Some(text) => {
            let schedule = schedule_of(alloc, text).ok()?;
            replay(alloc, workload, schedule.as_slice(), config).ok()
        }
        None => live(rt, alloc, workload, config, &OpenGate).ok(),
    }
}

/// What is told of a workload that is played as the row says.
fn played<R: Threads + Wait + Sync>(rt: &R, alloc: Global, row: &Row) -> Option<Told> {
    let workload = match parse(alloc, row.workload) {
        Ok(workload) => workload,
        Err(fault) => {
            return Some(Told {
                out: Text::new(alloc),
                log: Text::new(alloc),
                fate: Fate::Work(fault),
            });
        }
    };
    let config = Config::new(0, workload.bounds(), row.events, 1024, row.stop).ok()?;
    let (closed, ending) = end_of(rt, alloc, &workload, row, config)?;
    told_of(alloc, &workload, &closed, ending, row.certificate)
}

/// Whether what was told is what the row says.
fn is_told(alloc: Global, told: &Told, row: &Row) -> bool {
    let (line, status) = line_of(alloc, &told.fate);
    let has_log = match row.log {
        Some(log) => told.log.as_slice() == log.as_bytes(),
        None => true,
    };
    has_log
        && told.out.as_slice() == row.out.as_bytes()
        && line.as_slice() == row.err.as_bytes()
        && status == row.status
}

/// Whether a workload is played as the row says.
fn plays<R: Threads + Wait + Sync>(rt: &R, alloc: Global, row: &Row) -> bool {
    match played(rt, alloc, row) {
        Some(told) => is_told(alloc, &told, row),
        None => false,
    }
}

#[test]
fn workloads_are_played(rt: HostRuntime) {
    for row in &ROWS {
        holds_for(&rt, plays(&rt, rt.alloc(), row), &row.workload);
    }
}

/// Texts of schedules, with the numbers that they mean.
static SCHEDULES: [(&str, &[u8]); 6] = [
    ("", &[]),
    ("0", &[0]),
    ("63", &[63]),
    ("0 0 1", &[0, 0, 1]),
    ("10 9 60 59", &[10, 9, 60, 59]),
    ("1 1", &[1, 1]),
];

static BAD_SCHEDULES: [&str; 21] = [
    "64", "01", "0 x", " ", " 0", "0 ", "0  1", "100", "+1", "-1", "70", "0,1", "0\t1", "0\n",
    "00", "x", "0*3 1", "0 1*2", "*", "@s", "@",
];

/// Compares a schedule with the numbers that its text means.
fn compare_schedule(rt: &impl Abort, alloc: Global, text: &str, numbers: &[u8]) {
    let schedule = schedule_of(alloc, text).expect(rt, "a schedule");
    assert!(rt; schedule.len() == numbers.len(), "{text}");
    assert!(rt;
        schedule.iter().zip(numbers).all(|(t, n)| t.0 == *n),
        "{text}"
    );
    drop(schedule);
}

#[test]
fn schedules_are_read(rt: HostRuntime) {
    for (text, numbers) in &SCHEDULES {
        compare_schedule(&rt, rt.alloc(), *text, *numbers);
    }
}

#[test]
fn bad_schedules(rt: HostRuntime) {
    for text in &BAD_SCHEDULES {
        holds_for(
            &rt,
            schedule_of(rt.alloc(), *text) == Err(ScheduleFault::Bad),
            &text,
        );
    }
}

/// A schedule of the most numbers, and one of one more.
#[test]
fn long_schedules(rt: HostRuntime) -> Result<(), Fail> {
    let mut text = String::from_str(rt.alloc(), "0")?;
    for _ in 1..MAX_TURNS {
        text.push_str(" 0")?;
    }
    assert!(rt; schedule_of(rt.alloc(), text.as_str()).is_ok());
    text.push_str(" 0")?;
    assert!(rt; schedule_of(rt.alloc(), text.as_str()) == Err(ScheduleFault::Bad));
    Ok(())
}
