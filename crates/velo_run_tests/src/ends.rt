//! How commands end: the line on standard error, and the status.
use crate::words::holds_for;
use std::alloc::Global;
use std::io::Write;
use velo_bytes::{Text, WriterSink};
use velo_check::{CheckFault, Fate, end_line, end_with};
use velo_events::{Refusal, ThreadId};
use velo_logtext::LogFault;
use velo_schedule_text::ScheduleFault;
use velo_worker::Ending;
use velo_workload::WorkFault;

/// No status of a command.
const NO_STATUS: u8 = 255;

/// The line on standard error, and the status.
pub fn line_of(alloc: Global, fate: &Fate) -> (Text, u8) {
    let mut sink = Text::new(alloc);
    let status = end_line(fate, &mut sink).unwrap_or(NO_STATUS);
    (sink, status)
}

/// A fate, its line, and its status.
struct Row {
    fate: Fate,
    line: &'static str,
    status: u8,
}

macro_rules! row {
    ($fate:expr, $line:expr, $status:expr) => {
        Row {
            fate: $fate,
            line: $line,
            status: $status,
        }
    };
}

macro_rules! finished {
    ($ending:expr, $alarm:expr) => {
        Fate::Finished {
            ending: $ending,
            alarm: $alarm,
        }
    };
}

macro_rules! refused {
    ($position:expr, $refusal:expr) => {
        Fate::Check(CheckFault::Refused {
            position: $position,
            refusal: $refusal,
        })
    };
}

const MAIN: ThreadId = ThreadId(0);

const LAST: ThreadId = ThreadId(63);

static ROWS: [Row; 38] = [
    row!(finished!(Ending::Done, false), "", 0),
    row!(finished!(Ending::Done, true), "", 3),
    row!(finished!(Ending::Halted, false), "", 0),
    row!(finished!(Ending::Halted, true), "", 3),
    row!(finished!(Ending::Stuck, false), "stuck\n", 4),
    row!(finished!(Ending::Stuck, true), "stuck\n", 4),
    row!(
        finished!(Ending::Refused(MAIN, Refusal::NoOpenBlock), false),
        "refused 9 thread 0\n",
        4
    ),
    row!(
        finished!(Ending::Refused(LAST, Refusal::LogFull), true),
        "refused 17 thread 63\n",
        4
    ),
    row!(
        finished!(Ending::Refused(MAIN, Refusal::Memory), false),
        "out of memory\n",
        5
    ),
    row!(
        finished!(Ending::Refused(MAIN, Refusal::RuntimeMemory), true),
        "out of memory\n",
        5
    ),
    row!(Fate::Schedule(ScheduleFault::Bad), "bad schedule\n", 2),
    row!(Fate::Schedule(ScheduleFault::Memory), "out of memory\n", 5),
    row!(
        Fate::Work(WorkFault::BadLine(0)),
        "workload fault 1 line 0\n",
        2
    ),
    row!(
        Fate::Work(WorkFault::Unknown(2)),
        "workload fault 2 line 2\n",
        2
    ),
    row!(
        Fate::Work(WorkFault::Twice(3)),
        "workload fault 3 line 3\n",
        2
    ),
    row!(
        Fate::Work(WorkFault::Unmatched(10)),
        "workload fault 4 line 10\n",
        2
    ),
    row!(
        Fate::Work(WorkFault::TooMany(0)),
        "workload fault 5 line 0\n",
        2
    ),
    row!(Fate::Work(WorkFault::Memory), "out of memory\n", 5),
    row!(
        Fate::Check(CheckFault::Log(LogFault::BadHeader)),
        "log fault 1\n",
        2
    ),
    row!(
        Fate::Check(CheckFault::Log(LogFault::BadLine(2))),
        "log fault 2 line 2\n",
        2
    ),
    row!(
        Fate::Check(CheckFault::Log(LogFault::Truncated(16_777_217))),
        "log fault 3 line 16777217\n",
        2
    ),
    row!(
        Fate::Check(CheckFault::Log(LogFault::TooLong)),
        "log fault 4\n",
        2
    ),
    row!(
        Fate::Check(CheckFault::Log(LogFault::Read)),
        "read failed\n",
        5
    ),
    row!(
        Fate::Check(CheckFault::Log(LogFault::Memory)),
        "out of memory\n",
        5
    ),
    row!(refused!(0, Refusal::NotLive), "refused 2 at 0\n", 2),
    row!(
        refused!(16_777_215, Refusal::LockHeld),
        "refused 16 at 16777215\n",
        2
    ),
    row!(refused!(4, Refusal::LogFull), "refused 17 at 4\n", 4),
    row!(refused!(2, Refusal::GraphFull), "refused 18 at 2\n", 4),
    row!(refused!(2, Refusal::NoOpenBlock), "refused 9 at 2\n", 2),
    row!(
        Fate::Check(CheckFault::WrongValue { position: 1 }),
        "wrong value at 1\n",
        2
    ),
    row!(Fate::Check(CheckFault::Write), "write failed\n", 5),
    row!(Fate::Check(CheckFault::Memory), "out of memory\n", 5),
    row!(Fate::CannotOpen, "cannot open\n", 5),
    row!(Fate::ReadFailed, "read failed\n", 5),
    row!(Fate::WriteFailed, "write failed\n", 5),
    row!(Fate::Memory, "out of memory\n", 5),
    row!(Fate::Lost, "seat lost\n", 5),
    row!(Fate::Open, "open\n", 4),
];

/// Whether a fate has its line and its status.
fn is_told(alloc: Global, row: &Row) -> bool {
    let (line, status) = line_of(alloc, &row.fate);
    line.as_slice() == row.line.as_bytes() && status == row.status
}

#[test]
fn fates_have_their_lines(rt: HostRuntime) {
    for row in &ROWS {
        holds_for(&rt, is_told(rt.alloc(), row), &row.line);
    }
}

/// How a command ends whose standard error fails after a number of bytes: with status 5.
#[test]
fn standard_error_fails(rt: HostRuntime) {
    let fate = Fate::CannotOpen;
    for count in 0..12 {
        let mut sink = Text::new(rt.alloc()).failing_after(count);
        assert!(rt; end_line(&fate, &mut sink).is_err());
        assert!(rt; sink.as_slice() == &b"cannot open\n".as_slice()[..count]);
        let mut again = Text::new(rt.alloc()).failing_after(count);
        assert!(rt; end_with(&fate, &mut again) == 5);
        drop((sink, again));
    }
}

/// A writer that counts its calls.
#[derive(Drop)]
struct Calls(u64);

impl Write for Calls {
    fn write(&mut self, piece: &[u8]) -> std::io::Result<usize> {
        self.0 = self.0.wrapping_add(1);
        Ok(piece.len())
    }

    fn flush(&mut self) -> std::io::Result<()> {
        Ok(())
    }
}

/// A line goes out in one write, so that lines of programs that run side by side stay whole.
#[test]
fn one_write_for_a_line(rt: HostRuntime) {
    for row in &ROWS {
        let mut err = WriterSink::new(Calls(0));
        let _status = end_with(&row.fate, &mut err);
        let wanted = if row.line.is_empty() { 0 } else { 1 };
        assert!(rt; err.writer.0 == wanted);
    }
}
