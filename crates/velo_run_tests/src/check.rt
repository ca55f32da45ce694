//! Checks of logs in memory: whole reports, certificates, and faults.
mod devices;
mod growths;
mod hostile;
mod reports;
mod slow;

use crate::ends::line_of;
use crate::words::holds_for;
use std::alloc::Global;
use std::process::Abort;
use velo_bytes::{Bytes, Text};
use velo_check::{CheckFault, Fate, Verdict, check_run, is_alarm};
use velo_events::{MAX_EVENTS, MAX_NODES};
use velo_worker::Ending;

pub const LOST_UPDATE: &str = "vlog 1 2 1 0\n0 fork 1\n0 begin 7\n0 rd 0 0\n1 wr 0 5\n0 wr 0 1\n";

pub const LOST_UPDATE_REPORT: &str =
    "events 5\nthread 0 4\nthread 1 1\nverdict alarm 4\ntransaction 1\nblame 1 7\n";

pub const LOST_UPDATE_CERTIFIED: &str =
    "events 5\nthread 0 4\nthread 1 1\nverdict alarm 4\ntransaction 1\nblame 1 7\ncycle 1 3\n";

/// Reads of one block's write by operations outside blocks.
const MERGED: &str =
    "vlog 1 2 1 0\n0 fork 1\n0 begin 1\n0 wr 0 1\n1 rd 0 1\n1 rd 0 1\n1 rd 0 1\n0 end\n";

/// The lost update, after whose alarm two blocks are open at a time.
const AFTER_THE_ALARM: &str =
    "vlog 1 2 1 0\n0 fork 1\n0 begin 7\n0 rd 0 0\n1 wr 0 5\n0 wr 0 1\n0 end\n1 begin 1\n0 begin 2\n";

/// Two blocks read under a lock that both share.
const SHARED: &str =
    "vlog 2 2 1 1\n0 fork 1\n0 begin 1\n0 acqs 0\n1 begin 2\n1 acqs 0\n0 rd 0 0\n1 rd 0 0\n1 rels 0\n0 rels 0\n1 end\n0 end\n";

const SHARED_REPORT: &str = "events 11\nthread 0 6\nthread 1 5\nverdict clean\n";

const SHARED_CERTIFIED: &str =
    "events 11\nthread 0 6\nthread 1 5\nverdict clean\nserial 0\nserial 1 2 5 8 10\nserial 3 4 6 7 9\n";

/// A block shares a lock twice, and another thread has it alone in between.
const SHARED_TWICE: &str =
    "vlog 2 2 0 1\n0 fork 1\n0 begin 1\n0 acqs 0\n0 rels 0\n1 acq 0\n1 rel 0\n0 acqs 0\n";

const SHARED_TWICE_REPORT: &str =
    "events 7\nthread 0 5\nthread 1 2\nverdict alarm 6\ntransaction 1\nblame 1 1\n";

const SHARED_TWICE_CERTIFIED: &str =
    "events 7\nthread 0 5\nthread 1 2\nverdict alarm 6\ntransaction 1\nblame 1 1\ncycle 1 4\n";

/// The log of a lost update's replay.
const COLLIDING_LOG: &str =
    "vlog 2 2 1 0\n0 fork 1\n0 begin 0\n0 rd 0 0\n1 wr 0 5\n0 wr 0 1\n0 end\n1 exit\n0 join 1\n0 exit\n";

/// Each of two blocks opens before the other ends.
const TWO_LIVE: &str = "vlog 2 2 0 0\n0 fork 1\n0 begin 1\n1 begin 2\n";

/// A log, how it is checked, and what comes of it: the report, the line on standard error, and the
/// status.
struct Row {
    log: &'static str,
    events: u32,
    nodes: u16,
    certificate: bool,
    out: &'static str,
    err: &'static str,
    status: u8,
}

const CLEAN: Row = Row {
    log: "",
    events: MAX_EVENTS,
    nodes: 1024,
    certificate: false,
    out: "",
    err: "",
    status: 0,
};

static ROWS: [Row; 59] = [
    Row {
        log: "vlog 1 1 0 0\n",
        out: "events 0\nthread 0 0\nverdict clean\n",
        ..CLEAN
    },
    Row {
        log: LOST_UPDATE,
        out: LOST_UPDATE_REPORT,
        status: 3,
        ..CLEAN
    },
    Row {
        log: "vlog 1 2 2 0\n0 fork 1\n0 begin 1\n0 wr 0 1\n1 begin 2\n1 wr 1 1\n0 rd 1 1\n1 rd 0 1\n",
        out: "events 7\nthread 0 4\nthread 1 3\nverdict alarm 6\ntransaction 3\nblame none\n",
        status: 3,
        ..CLEAN
    },
    Row {
        log: "vlog 1 2 0 0\n0 begin 1\n0 fork 1\n1 exit\n0 join 1\n",
        out: "events 4\nthread 0 3\nthread 1 1\nverdict alarm 3\ntransaction 0\nblame 0 1\n",
        status: 3,
        ..CLEAN
    },
    Row {
        log: "vlog 1 2 1 0\n0 fork 1\n0 begin 1\n0 rd 0 0\n0 begin 2\n1 wr 0 3\n0 wr 0 4\n",
        out: "events 6\nthread 0 5\nthread 1 1\nverdict alarm 5\ntransaction 1\nblame 1 1\n",
        status: 3,
        ..CLEAN
    },
    Row {
        log: "vlog 1 2 1 0\n0 fork 1\n0 begin 1\n0 begin 2\n0 rd 0 0\n1 wr 0 3\n0 wr 0 4\n",
        out: "events 6\nthread 0 5\nthread 1 1\nverdict alarm 5\ntransaction 1\nblame 1 1\nblame 2 2\n",
        status: 3,
        ..CLEAN
    },
    Row {
        log: "vlog 1 2 1 0\n0 fork 1\n0 begin 1\n0 wr 0 1\n1 rd 0 1\n0 wr 0 2\n",
        out: "events 5\nthread 0 4\nthread 1 1\nverdict alarm 4\ntransaction 1\nblame 1 1\n",
        status: 3,
        ..CLEAN
    },
    Row {
        log: "vlog 1 3 3 0\n0 fork 1\n0 fork 2\n0 begin 1\n0 wr 0 1\n0 begin 2\n1 rd 0 1\n1 wr 1 1\n2 rd 1 1\n2 wr 2 2\n0 rd 2 2\n",
        out: "events 10\nthread 0 6\nthread 1 2\nthread 2 2\nverdict alarm 9\ntransaction 2\nblame 2 1\n",
        status: 3,
        ..CLEAN
    },
    Row {
        log: COLLIDING_LOG,
        out: "events 9\nthread 0 7\nthread 1 2\nverdict alarm 4\ntransaction 1\nblame 1 0\n",
        status: 3,
        ..CLEAN
    },
    Row {
        log: "vlog 1 2 1 1\n0 fork 1\n0 begin 1\n0 acq 0\n0 rd 0 0\n0 rel 0\n1 acq 0\n1 wr 0 9\n1 rel 0\n0 acq 0\n",
        out: "events 9\nthread 0 6\nthread 1 3\nverdict alarm 8\ntransaction 1\nblame 1 1\n",
        status: 3,
        ..CLEAN
    },
    Row {
        log: "vlog 1 2 1 1\n0 fork 1\n0 begin 1\n0 acq 0\n0 rd 0 0\n0 wr 0 1\n0 rel 0\n0 end\n1 begin 1\n1 acq 0\n1 rd 0 1\n1 wr 0 2\n1 rel 0\n1 end\n",
        out: "events 13\nthread 0 7\nthread 1 6\nverdict clean\n",
        ..CLEAN
    },
    Row {
        log: "vlog 1 2 1 0\n1 wr 0 1\n",
        err: "refused 2 at 0\n",
        status: 2,
        ..CLEAN
    },
    Row {
        log: "vlog 1 1 1 0\n0 wr 0 5\n0 rd 0 4\n",
        err: "wrong value at 1\n",
        status: 2,
        ..CLEAN
    },
    Row {
        log: "vlog 1 1 0 0\n0 fork 0\n",
        err: "refused 11 at 0\n",
        status: 2,
        ..CLEAN
    },
    Row {
        log: "vlog 1 1 1 0\n0 rd 0 01\n",
        err: "log fault 2 line 2\n",
        status: 2,
        ..CLEAN
    },
    Row {
        log: "vlog 1 1 1 0\n0 wr 0 1",
        err: "log fault 3 line 2\n",
        status: 2,
        ..CLEAN
    },
    Row {
        log: "vlog 1 0 0 0\n",
        err: "log fault 1\n",
        status: 2,
        ..CLEAN
    },
    Row {
        log: "",
        err: "log fault 1\n",
        status: 2,
        ..CLEAN
    },
    Row {
        log: "vlog 1 2 0 1\n0 fork 1\n0 acq 0\n1 acq 0\n",
        err: "refused 6 at 2\n",
        status: 2,
        ..CLEAN
    },
    Row {
        log: "vlog 1 2 0 1\n0 fork 1\n0 acq 0\n0 acq 0\n",
        err: "refused 7 at 2\n",
        status: 2,
        ..CLEAN
    },
    Row {
        log: "vlog 1 2 0 1\n0 fork 1\n0 acq 0\n0 exit\n",
        err: "refused 16 at 2\n",
        status: 2,
        ..CLEAN
    },
    Row {
        log: "vlog 1 2 0 1\n0 fork 1\n0 acq 0\n0 join 1\n",
        err: "refused 13 at 2\n",
        status: 2,
        ..CLEAN
    },
    Row {
        log: LOST_UPDATE,
        events: 1,
        err: "refused 17 at 1\n",
        status: 4,
        ..CLEAN
    },
    Row {
        log: LOST_UPDATE,
        events: 3,
        err: "refused 17 at 3\n",
        status: 4,
        ..CLEAN
    },
    Row {
        log: "vlog 1 1 1 0\n0 wr 0 5\n0 rd 0 4\n",
        events: 1,
        err: "wrong value at 1\n",
        status: 2,
        ..CLEAN
    },
    Row {
        log: "vlog 1 1 0 0\n0 end\n",
        events: 1,
        err: "refused 9 at 0\n",
        status: 2,
        ..CLEAN
    },
    Row {
        log: "vlog 1 1 1 0\n0 rd 0 0\n0 end\n",
        events: 1,
        err: "refused 9 at 1\n",
        status: 2,
        ..CLEAN
    },
    Row {
        log: "vlog 1 2 1 0\n0 fork 1\n0 begin 1\n0 wr 0 1\n0 end\n1 begin 2\n0 rd 0 1\n1 wr 0 2\n1 end\n",
        nodes: 1,
        out: "events 8\nthread 0 5\nthread 1 3\nverdict clean\n",
        ..CLEAN
    },
    Row {
        log: "vlog 1 2 0 0\n0 fork 1\n0 begin 1\n1 begin 2\n",
        nodes: 1,
        err: "refused 18 at 2\n",
        status: 4,
        ..CLEAN
    },
    Row {
        log: MERGED,
        nodes: 2,
        out: "events 7\nthread 0 4\nthread 1 3\nverdict clean\n",
        ..CLEAN
    },
    Row {
        log: MERGED,
        nodes: 1,
        err: "refused 18 at 3\n",
        status: 4,
        ..CLEAN
    },
    Row {
        log: "vlog 1 1 0 0\n0 begin 1\n0 end\n0 begin 2\n0 end\n0 begin 3\n0 end\n",
        nodes: 1,
        out: "events 6\nthread 0 6\nverdict clean\n",
        ..CLEAN
    },
    Row {
        log: AFTER_THE_ALARM,
        nodes: 2,
        out: "events 8\nthread 0 6\nthread 1 2\nverdict alarm 4\ntransaction 1\nblame 1 7\n",
        status: 3,
        ..CLEAN
    },
    Row {
        log: AFTER_THE_ALARM,
        nodes: 1,
        err: "refused 18 at 3\n",
        status: 4,
        ..CLEAN
    },
    Row {
        log: "vlog 1 2 1 0\n0 fork 1\n0 begin 1\n0 wr 0 1\n1 rd 0 2\n",
        nodes: 1,
        err: "wrong value at 3\n",
        status: 2,
        ..CLEAN
    },
    Row {
        log: LOST_UPDATE,
        certificate: true,
        out: LOST_UPDATE_CERTIFIED,
        status: 3,
        ..CLEAN
    },
    Row {
        log: SHARED,
        out: SHARED_REPORT,
        ..CLEAN
    },
    Row {
        log: SHARED,
        certificate: true,
        out: SHARED_CERTIFIED,
        ..CLEAN
    },
    Row {
        log: SHARED_TWICE,
        out: SHARED_TWICE_REPORT,
        status: 3,
        ..CLEAN
    },
    Row {
        log: SHARED_TWICE,
        certificate: true,
        out: SHARED_TWICE_CERTIFIED,
        status: 3,
        ..CLEAN
    },
    Row {
        log: "vlog 2 1 0 1\n0 acqs 0\n0 acq 0\n",
        err: "refused 7 at 1\n",
        status: 2,
        ..CLEAN
    },
    Row {
        log: "vlog 2 1 0 1\n0 acqs 0\n0 exit\n",
        err: "refused 16 at 1\n",
        status: 2,
        ..CLEAN
    },
    Row {
        log: "vlog 2 1 0 1\n0 acqs 0\n0 rel 0\n",
        err: "refused 8 at 1\n",
        status: 2,
        ..CLEAN
    },
    Row {
        log: "vlog 2 2 0 1\n0 fork 1\n0 acqs 0\n1 acq 0\n",
        err: "refused 6 at 2\n",
        status: 2,
        ..CLEAN
    },
    Row {
        log: "vlog 2 2 0 1\n0 fork 1\n0 acq 0\n1 acqs 0\n",
        err: "refused 6 at 2\n",
        status: 2,
        ..CLEAN
    },
    Row {
        log: "vlog 2 1 0 1\n0 acq 0\n0 rels 0\n",
        err: "refused 8 at 1\n",
        status: 2,
        ..CLEAN
    },
    Row {
        log: "vlog 2 1 0 1\n0 acqs 1\n",
        err: "refused 4 at 0\n",
        status: 2,
        ..CLEAN
    },
    Row {
        log: "vlog 1 1 0 1\n0 acqs 0\n",
        err: "log fault 2 line 2\n",
        status: 2,
        ..CLEAN
    },
    Row {
        log: "vlog 1 1 0 1\n0 rels 0\n",
        err: "log fault 2 line 2\n",
        status: 2,
        ..CLEAN
    },
    Row {
        log: "vlog 3 1 0 0\n",
        err: "log fault 1\n",
        status: 2,
        ..CLEAN
    },
    Row {
        log: "vlog 1 1 0 0\n",
        certificate: true,
        out: "events 0\nthread 0 0\nverdict clean\n",
        ..CLEAN
    },
    Row {
        log: "vlog 1 2 2 0\n0 fork 1\n0 begin 1\n0 wr 0 1\n1 begin 2\n1 wr 1 1\n0 rd 1 1\n1 rd 0 1\n",
        certificate: true,
        out: "events 7\nthread 0 4\nthread 1 3\nverdict alarm 6\ntransaction 3\nblame none\ncycle 3 1\n",
        status: 3,
        ..CLEAN
    },
    Row {
        log: "vlog 1 2 0 0\n0 begin 1\n0 fork 1\n1 exit\n0 join 1\n",
        certificate: true,
        out: "events 4\nthread 0 3\nthread 1 1\nverdict alarm 3\ntransaction 0\nblame 0 1\ncycle 0 2\n",
        status: 3,
        ..CLEAN
    },
    Row {
        log: "vlog 1 2 1 0\n0 fork 1\n0 begin 1\n1 wr 0 2\n0 rd 0 2\n0 end\n",
        certificate: true,
        out: "events 5\nthread 0 4\nthread 1 1\nverdict clean\nserial 0\nserial 2\nserial 1 3 4\n",
        ..CLEAN
    },
    // the log is read whole before an event is judged
    Row {
        log: "vlog 2 1 0 0\n0 end\nend\n",
        err: "log fault 2 line 3\n",
        status: 2,
        ..CLEAN
    },
    Row {
        log: "vlog 2 1 0 0\n0 begin 1\n0 end\n0",
        events: 1,
        err: "log fault 3 line 4\n",
        status: 2,
        ..CLEAN
    },
    // of two wrong lines the first
    Row {
        log: "vlog 2 1 0 0\n0 end \n0",
        err: "log fault 2 line 2\n",
        status: 2,
        ..CLEAN
    },
    // the limit of events before that of nodes
    Row {
        log: TWO_LIVE,
        events: 2,
        nodes: 1,
        err: "refused 17 at 2\n",
        status: 4,
        ..CLEAN
    },
    Row {
        log: TWO_LIVE,
        events: 3,
        nodes: 1,
        err: "refused 18 at 2\n",
        status: 4,
        ..CLEAN
    },
];

/// How a check ends that answers this.
pub fn fate_of(answer: Result<Verdict, CheckFault>) -> Fate {
    match answer {
        Ok(verdict) => Fate::Finished {
            ending: Ending::Done,
            alarm: is_alarm(verdict),
        },
        Err(fault) => Fate::Check(fault),
    }
}

/// Whether the check of a log that comes `step` bytes at a time is as the row says.
fn is_checked(alloc: Global, row: &Row, step: usize) -> bool {
    let events = row.events.clamp(1, MAX_EVENTS);
    let nodes = row.nodes.clamp(1, MAX_NODES);
    let mut source = Bytes::new(row.log.as_bytes()).in_steps(step);
    let mut sink = Text::new(alloc).in_steps(step);
    let answer = check_run(
        alloc,
        &mut source,
        &mut sink,
        events,
        nodes,
        row.certificate,
    );
    let (line, status) = line_of(alloc, &fate_of(answer));
    sink.as_slice() == row.out.as_bytes()
        && line.as_slice() == row.err.as_bytes()
        && status == row.status
}

#[test]
fn logs_are_checked(rt: HostRuntime) {
    for row in &ROWS {
        holds_for(&rt, is_checked(rt.alloc(), row, 1), &row.log);
        holds_for(&rt, is_checked(rt.alloc(), row, usize::MAX), &row.log);
    }
}
