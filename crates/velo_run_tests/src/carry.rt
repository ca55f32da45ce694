//! Logs are carried over to version 2 of their text, in memory.
use crate::check::LOST_UPDATE;
use crate::ends::line_of;
use crate::growths::again;
use crate::words::holds_for;
use std::alloc::Global;
use velo_bytes::{Bytes, Text, WriterSink};
use velo_check::{CarryFault, CheckFault, Fate, carry_run};
use velo_logtext::LogFault;
use velo_worker::Ending;

/// The lost update in version 2.
const CARRIED: &str = "vlog 2 2 1 0\n0 fork 1\n0 begin 7\n0 rd 0 0\n1 wr 0 5\n0 wr 0 1\n";

/// A log, what the file takes, the line on standard error, and the status.
struct Row {
    log: &'static str,
    file: &'static str,
    err: &'static str,
    status: u8,
}

static ROWS: [Row; 10] = [
    Row {
        log: LOST_UPDATE,
        file: CARRIED,
        err: "",
        status: 0,
    },
    Row {
        log: CARRIED,
        file: CARRIED,
        err: "",
        status: 0,
    },
    // Whether its events can happen is not judged.
    Row {
        log: "vlog 1 1 0 0\n0 end\n",
        file: "vlog 2 1 0 0\n0 end\n",
        err: "",
        status: 0,
    },
    Row {
        log: "vlog 1 1 0 1\n0 acqs 0\n",
        file: "",
        err: "log fault 2 line 2\n",
        status: 2,
    },
    Row {
        log: "vlog 3 1 0 0\n",
        file: "",
        err: "log fault 1\n",
        status: 2,
    },
    Row {
        log: "vlog 2 2 0 1\n0 fork 1\n0 acqs 0\n1 acqs 0\n1 acq 0\n0 rels 0\n",
        file: "vlog 2 2 0 1\n0 fork 1\n0 acqs 0\n1 acqs 0\n1 acq 0\n0 rels 0\n",
        err: "",
        status: 0,
    },
    Row {
        log: "vlog 2 2 0 1\n0 fork 1\n0 acqs 0\n1 acqs 0\n1 acq 0\n0 rels 0",
        file: "",
        err: "log fault 3 line 6\n",
        status: 2,
    },
    Row {
        log: "vlog 2 1 0 1\n0 acqs 0\n0 acqs\n",
        file: "",
        err: "log fault 2 line 3\n",
        status: 2,
    },
    Row {
        log: "",
        file: "",
        err: "log fault 1\n",
        status: 2,
    },
    Row {
        log: "vlog 1 64 65535 4096\n",
        file: "vlog 2 64 65535 4096\n",
        err: "",
        status: 0,
    },
];

/// How a command ends that answers this.
fn fate_of(answer: Result<(), CarryFault>) -> Fate {
    match answer {
        Ok(()) => Fate::Finished {
            ending: Ending::Done,
            alarm: false,
        },
        Err(CarryFault::Log(fault)) => Fate::Check(CheckFault::Log(fault)),
        Err(CarryFault::Write) => Fate::WriteFailed,
    }
}

/// Whether a log that comes `step` bytes at a time is carried over as the row says.
fn is_carried(alloc: Global, row: &Row, step: usize) -> bool {
    let mut source = Bytes::new(row.log.as_bytes()).in_steps(step);
    let mut sink = Text::new(alloc).in_steps(step);
    let answer = carry_run(alloc, &mut source, &mut sink);
    let (line, status) = line_of(alloc, &fate_of(answer));
    sink.as_slice() == row.file.as_bytes()
        && line.as_slice() == row.err.as_bytes()
        && status == row.status
}

#[test]
fn logs_are_carried_over(rt: HostRuntime) {
    for row in &ROWS {
        holds_for(&rt, is_carried(rt.alloc(), row, 1), &row.log);
        holds_for(&rt, is_carried(rt.alloc(), row, usize::MAX), &row.log);
    }
}

/// A source that fails after each number of bytes.
#[test]
fn a_source_fails_while_a_log_is_carried_over(rt: HostRuntime) {
    for count in 0..=LOST_UPDATE.len() {
        let mut sink = Text::new(rt.alloc());
        let mut source = Bytes::new(LOST_UPDATE.as_bytes()).failing_after(count);
        let answer = carry_run(rt.alloc(), &mut source, &mut sink);
        assert!(&rt; answer == Err(CarryFault::Log(LogFault::Read)));
        assert!(&rt; sink.as_slice().is_empty());
        drop(sink);
    }
}

/// A sink that fails after each number of bytes.
#[test]
fn a_sink_fails_while_a_log_is_carried_over(rt: HostRuntime) {
    let carried = CARRIED.as_bytes();
    for count in 0..carried.len() {
        let mut source = Bytes::new(LOST_UPDATE.as_bytes());
        let mut short = Text::new(rt.alloc()).failing_after(count);
        let answer = carry_run(rt.alloc(), &mut source, &mut short);
        assert!(&rt; answer == Err(CarryFault::Write));
        assert!(&rt; short.as_slice() == &carried[..count]);
        drop(short);
    }
}

/// Nothing is written where a growth is refused. The sink takes no growth itself.
#[test]
fn a_refused_growth_of_a_log_that_is_carried_over(rt: HostRuntime) {
    let carried = CARRIED.as_bytes();
    let mut space = [0u8; 100];
    let mut sink = WriterSink::new(space.as_mut_slice());
    let answer = again!(
        CarryFault::Log(LogFault::Memory),
        carry_run(
            rt.alloc(),
            &mut Bytes::new(LOST_UPDATE.as_bytes()),
            &mut sink
        )
    );
    assert!(rt; answer == Ok(()));
    drop(sink);
    assert!(rt; space.as_slice().get(..carried.len()) == Some(carried));
    assert!(rt; space.as_slice().get(carried.len()) == Some(&0));
}
