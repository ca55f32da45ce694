//! Tests of the text of a log.
ghost use Rattle.std.specs.Prelude.{◌≤◌, length};
ghost use Rattle.velo_events.specs.declared.limits.TheConstants.{MAX_EVENTS};
ghost use Rattle.velo_logtext.specs.Text.{AreBounds};

mod growths;

use crate::words::{holds_for, is_told_as};
use std::alloc::Global;
use std::io::{Cursor, Error, ErrorKind, Read, Write};
use std::test::Fail;
use velo_bytes::{Bytes, Failed, ReaderSource, Source, Text, WriteFault, WriterSink, write_all};
use velo_events::{Bounds, Event, Kind, MAX_EVENTS, ThreadId, VarId};
use velo_logtext::{LogFault, read_log, write_log};
use velo_traces::Trace;

fn fault_of(alloc: Global, text: &[u8]) -> Option<LogFault> {
    read_log(alloc, &mut Bytes::new(text)).err()
}

/// Logs in which no lock is shared: as in the worked examples, and each kind of line at the ends of
/// its numbers' ranges.
static LOGS: [&str; 14] = [
    "vlog 2 1 0 0\n",
    "vlog 2 2 1 0\n0 fork 1\n0 begin 7\n0 rd 0 0\n1 wr 0 5\n0 wr 0 1\n",
    "vlog 2 2 2 0\n0 fork 1\n0 begin 1\n0 wr 0 1\n1 begin 2\n1 wr 1 1\n0 rd 1 1\n1 rd 0 1\n",
    "vlog 2 2 0 0\n0 begin 1\n0 fork 1\n1 exit\n0 join 1\n",
    "vlog 2 2 1 0\n0 fork 1\n0 begin 1\n0 rd 0 0\n0 begin 2\n1 wr 0 3\n0 wr 0 4\n",
    "vlog 2 2 1 0\n0 fork 1\n0 begin 1\n0 begin 2\n0 rd 0 0\n1 wr 0 3\n0 wr 0 4\n",
    "vlog 2 2 1 1\n0 fork 1\n0 begin 1\n0 acq 0\n0 rd 0 0\n0 rel 0\n1 acq 0\n1 wr 0 9\n1 rel 0\n0 acq 0\n",
    "vlog 2 2 1 1\n0 fork 1\n0 begin 1\n0 acq 0\n0 rd 0 0\n0 wr 0 1\n0 rel 0\n0 end\n1 begin 1\n1 acq 0\n1 rd 0 1\n1 wr 0 2\n1 rel 0\n1 end\n",
    "vlog 2 2 1 0\n0 fork 1\n0 begin 1\n0 wr 0 1\n1 rd 0 1\n0 wr 0 2\n",
    "vlog 2 2 1 0\n0 fork 1\n0 begin 1\n0 wr 0 1\n0 end\n1 begin 2\n0 rd 0 1\n1 wr 0 2\n1 end\n",
    "vlog 2 2 1 0\n0 fork 1\n0 begin 1\n1 wr 0 2\n0 rd 0 2\n0 end\n",
    "vlog 2 2 1 1\n0 fork 1\n0 acq 0\n0 rel 0\n1 exit\n0 join 1\n0 end\n",
    "vlog 2 64 65535 4096\n255 rd 65535 18446744073709551615\n255 wr 0 18446744073709551615\n",
    "vlog 2 10 9 10\n0 begin 4294967295\n0 acq 65535\n9 rel 10\n10 fork 255\n99 join 0\n0 rel 65535\n0 wr 65535 0\n0 join 255\n",
];

/// Logs in which locks are shared.
static SHARING_LOGS: [&str; 4] = [
    "vlog 2 2 1 1\n0 fork 1\n0 begin 1\n0 acqs 0\n1 begin 2\n1 acqs 0\n0 rd 0 0\n1 rd 0 0\n1 rels 0\n0 rels 0\n1 end\n0 end\n",
    "vlog 2 2 0 1\n0 fork 1\n0 begin 1\n0 acqs 0\n0 rels 0\n1 acq 0\n1 rel 0\n0 acqs 0\n",
    "vlog 2 1 0 1\n0 acqs 0\n0 acq 0\n",
    "vlog 2 64 65535 4096\n255 acqs 65535\n255 rels 0\n0 acqs 0\n99 rels 65535\n",
];

/// Reads a log in steps and writes it in steps.
fn written_again(alloc: Global, log: &[u8], step: usize) -> Result<Text, Fail> {
    let (bounds, trace) = read_log(alloc, &mut Bytes::new(log).in_steps(step))?;
    let mut sink = Text::new(alloc).in_steps(step);
    write_log(bounds, &trace, &mut sink)?;
    Ok(sink)
}

#[test]
fn logs_come_back(rt: HostRuntime) -> Result<(), Fail> {
    for log in LOGS.iter().chain(&SHARING_LOGS) {
        for step in [1, 3, 64, usize::MAX] {
            let sink = written_again(rt.alloc(), log.as_bytes(), step)?;
            holds_for(&rt, sink.as_slice() == log.as_bytes(), &log);
        }
    }
    Ok(())
}

/// The text of a log in version 1.
fn in_version_1(alloc: Global, log: &str) -> Result<Vec<u8>, Fail> {
    let mut text = Vec::new(alloc);
    text.extend_from_slice(b"vlog 1")?;
    text.extend_from_slice(log.as_bytes().get(6..).unwrap_or_default())?;
    Ok(text)
}

/// Of a log in version 1 the version alone is written anew.
#[test]
fn logs_of_version_1_come_back_in_version_2(rt: HostRuntime) -> Result<(), Fail> {
    for log in &LOGS {
        let old = in_version_1(rt.alloc(), *log)?;
        let sink = written_again(rt.alloc(), old.as_slice(), usize::MAX)?;
        holds_for(&rt, sink.as_slice() == log.as_bytes(), &log);
    }
    Ok(())
}

#[test]
fn version_1_has_no_shared_locks(rt: HostRuntime) -> Result<(), Fail> {
    for (log, line) in SHARING_LOGS.iter().zip([4, 4, 2, 2]) {
        let old = in_version_1(rt.alloc(), *log)?;
        let fault = Some(LogFault::BadLine(line));
        holds_for(&rt, fault_of(rt.alloc(), old.as_slice()) == fault, &log);
    }
    Ok(())
}

/// A text, and the fault that is found in it.
type Case<'a> = (&'a str, Option<LogFault>);

const BAD_HEADER: Option<LogFault> = Some(LogFault::BadHeader);

static FIRST_LINES: [Case; 35] = [
    ("", BAD_HEADER),
    ("\n", BAD_HEADER),
    ("vlog 1 1 0 0", BAD_HEADER),
    ("vlog 1 0 0 0\n", BAD_HEADER),
    ("vlog 1 65 0 0\n", BAD_HEADER),
    ("vlog 1 1 65536 0\n", BAD_HEADER),
    ("vlog 1 1 0 4097\n", BAD_HEADER),
    ("vlog 01 1 0 0\n", BAD_HEADER),
    ("vlog 1 01 0 0\n", BAD_HEADER),
    ("vlog 0 1 0 0\n", BAD_HEADER),
    ("vlog 3 1 0 0\n", BAD_HEADER),
    ("vlog 12 1 0 0\n", BAD_HEADER),
    ("vlog 02 1 0 0\n", BAD_HEADER),
    ("vlog  1 0 0\n", BAD_HEADER),
    ("vlog 2 1 0 0", BAD_HEADER),
    ("vlog 2 0 0 0\n", BAD_HEADER),
    ("vlog 2 65 0 0\n", BAD_HEADER),
    ("vlog 2 1 65536 0\n", BAD_HEADER),
    ("vlog 2 1 0 4097\n", BAD_HEADER),
    ("vlog 2 1 0 00\n", BAD_HEADER),
    ("vlog 1  1 0 0\n", BAD_HEADER),
    ("vlog 1 1 0 0 \n", BAD_HEADER),
    ("vlog 1 1 0 0\r\n", BAD_HEADER),
    ("vlog\t1 1 0 0\n", BAD_HEADER),
    (" vlog 1 1 0 0\n", BAD_HEADER),
    ("vlog 1 1 0\n", BAD_HEADER),
    ("vlog 1 +1 0 0\n", BAD_HEADER),
    ("vlog 1 1 0 0\n", None),
    ("vlog 1 64 0 0\n", None),
    ("vlog 1 1 65535 0\n", None),
    ("vlog 1 1 0 4096\n", None),
    ("vlog 2 1 0 0\n", None),
    ("vlog 2 64 0 0\n", None),
    ("vlog 2 1 65535 0\n", None),
    ("vlog 2 1 0 4096\n", None),
];

const SECOND: Option<LogFault> = Some(LogFault::BadLine(2));

static LATER_LINES: [Case; 40] = [
    ("vlog 1 1 1 1\n0 rd 0 01\n", SECOND),
    ("vlog 1 1 1 1\n00 end\n", SECOND),
    ("vlog 1 1 1 1\n0 end\n\n", Some(LogFault::BadLine(3))),
    (
        "vlog 1 1 1 1\n0 end\n0  end\n0 end\nx\n",
        Some(LogFault::BadLine(3)),
    ),
    ("vlog 1 1 1 1\n0 end \n", SECOND),
    ("vlog 1 1 1 1\n0 end\r\n", SECOND),
    ("vlog 1 1 1 1\n0\tend\n", SECOND),
    ("vlog 1 1 1 1\n0 acq -1\n", SECOND),
    ("vlog 1 1 1 1\n0 acq +1\n", SECOND),
    ("vlog 1 1 1 1\n256 end\n", SECOND),
    ("vlog 1 1 1 1\n0 rd 65536 0\n", SECOND),
    ("vlog 1 1 1 1\n0 wr 0 18446744073709551616\n", SECOND),
    ("vlog 1 1 1 1\n0 wr 0 18446744073709551620\n", SECOND),
    ("vlog 1 1 1 1\n0 rel 65536\n", SECOND),
    ("vlog 1 1 1 1\n0 begin 4294967296\n", SECOND),
    ("vlog 1 1 1 1\n0 fork 256\n", SECOND),
    ("vlog 1 1 1 1\n0 join 256\n", SECOND),
    ("vlog 1 1 1 1\n0 rd 0\n", SECOND),
    ("vlog 1 1 1 1\n0 begin\n", SECOND),
    ("vlog 1 1 1 1\n0 racq 0\n", SECOND),
    ("vlog 1 1 1 1\n0 acqs 0\n", SECOND),
    ("vlog 1 1 1 1\n0 rels 0\n", SECOND),
    ("vlog 1 1 1 1\n0 acqs 0", Some(LogFault::Truncated(2))),
    ("vlog 2 1 1 1\n0 acqs\n", SECOND),
    ("vlog 2 1 1 1\n0 acqs 0 0\n", SECOND),
    ("vlog 2 1 1 1\n0 acqs 00\n", SECOND),
    ("vlog 2 1 1 1\n0 acqs 65536\n", SECOND),
    ("vlog 2 1 1 1\n0 rels 65536\n", SECOND),
    ("vlog 2 1 1 1\n256 rels 0\n", SECOND),
    ("vlog 2 1 1 1\n0 acqr 0\n", SECOND),
    ("vlog 2 1 1 1\n0 acq s0\n", SECOND),
    (
        "vlog 2 1 1 1\n0 acqs 0\n0 rels 0\n0 share 0\n",
        Some(LogFault::BadLine(4)),
    ),
    ("vlog 2 1 1 1\n0 rels 0", Some(LogFault::Truncated(2))),
    ("vlog 1 1 1 1\n0 wr 0 1", Some(LogFault::Truncated(2))),
    (
        "vlog 1 1 1 1\n0 end\n0 end\n0",
        Some(LogFault::Truncated(4)),
    ),
    ("vlog 1 1 1 1\nx", Some(LogFault::Truncated(2))),
    // lines of 64 and of 65 bytes
    (
        "vlog 1 1 1 1\nxxxxxxxxxxxxxxxxxxxxxxxxxxxxxxxxxxxxxxxxxxxxxxxxxxxxxxxxxxxxxxxx",
        Some(LogFault::Truncated(2)),
    ),
    (
        "vlog 1 1 1 1\nxxxxxxxxxxxxxxxxxxxxxxxxxxxxxxxxxxxxxxxxxxxxxxxxxxxxxxxxxxxxxxxx\n",
        SECOND,
    ),
    (
        "vlog 1 1 1 1\nxxxxxxxxxxxxxxxxxxxxxxxxxxxxxxxxxxxxxxxxxxxxxxxxxxxxxxxxxxxxxxxxx",
        SECOND,
    ),
    (
        "vlog 1 1 1 1\nxxxxxxxxxxxxxxxxxxxxxxxxxxxxxxxxxxxxxxxxxxxxxxxxxxxxxxxxxxxxxxxxx\n",
        SECOND,
    ),
];

/// The step in which a long text is read: it is prime, so it ends at each place of a line.
const LONG_STEP: usize = 4_093;

/// How many events come after the header, what comes after them, and the fault.
static AT_THE_LIMIT: [(usize, &str, Option<LogFault>); 4] = [
    (16_777_216, "", None),
    (16_777_216, "0", Some(LogFault::TooLong)),
    (16_777_216, "\n", Some(LogFault::TooLong)),
    (16_777_215, "x\nx\n", Some(LogFault::BadLine(16_777_217))),
];

/// The fault of a text, read in steps.
fn fault_in_steps(alloc: Global, text: &[u8], step: usize) -> Option<LogFault> {
    read_log(alloc, &mut Bytes::new(text).in_steps(step)).err()
}

/// Whether the fault is found in the text, read whole and byte by byte.
fn is_found(alloc: Global, text: &str, fault: Option<LogFault>) -> bool {
    fault_in_steps(alloc, text.as_bytes(), 1) == fault
        && fault_in_steps(alloc, text.as_bytes(), usize::MAX) == fault
}

/// The first case in which something else is found.
fn first_other(alloc: Global, cases: &[Case]) -> Option<usize> {
    for i in 0..cases.len() {
        let (text, fault) = cases[i];
        if !is_found(alloc, text, fault) {
            return Some(i);
        }
    }
    None
}

/// A text of a header, `count` events, and what comes after them.
fn text_of_ends(alloc: Global, count: usize, rest: &str) -> Result<Vec<u8>, Fail> {
    let mut text = Vec::new(alloc);
    text.extend_from_slice(b"vlog 1 1 0 0\n")?;
    for _ in 0..count {
        text.extend_from_slice(b"0 end\n")?;
    }
    text.extend_from_slice(rest.as_bytes())?;
    Ok(text)
}

#[test]
fn faults(rt: HostRuntime) -> Result<(), Fail> {
    assert!(rt; first_other(rt.alloc(), &FIRST_LINES).is_none());
    assert!(rt; first_other(rt.alloc(), &LATER_LINES).is_none());
    for (count, rest, fault) in &AT_THE_LIMIT {
        let text = text_of_ends(rt.alloc(), *count, *rest)?;
        for step in [LONG_STEP, usize::MAX] {
            let found = fault_in_steps(rt.alloc(), text.as_slice(), step);
            assert!(rt; found == *fault, "{count} events in steps of {step}");
        }
    }
    Ok(())
}

/// What is found in the beginning of a log whose header has 13 bytes.
fn fault_of_beginning(front: &[u8]) -> Option<LogFault> {
    if front.len() < 13 {
        return Some(LogFault::BadHeader);
    }
    if front.ends_with(b"\n") {
        return None;
    }
    let mut line = 1;
    for byte in front {
        if *byte == b'\n' && line < 9 {
            line += 1;
        }
    }
    Some(LogFault::Truncated(line))
}

#[test]
fn beginnings(rt: HostRuntime) {
    let log = "vlog 1 2 1 0\n0 fork 1\n0 begin 7\n0 rd 0 0\n".as_bytes();
    for cut in 0..log.len() {
        let front = &log[..cut];
        let wanted = fault_of_beginning(front);
        holds_for(&rt, fault_of(rt.alloc(), front) == wanted, &cut);
    }
}

/// Reads from a source that fails after `count` bytes, and once more.
fn read_failing(alloc: Global, log: &[u8], count: usize) -> (Option<LogFault>, bool) {
    let mut source = Bytes::new(log).failing_after(count);
    let fault = read_log(alloc, &mut source).err();
    (fault, source.read(&mut [0; 4]).is_err())
}

/// Reads a log, and writes it to a sink that fails after `count` bytes: whether that is reported,
/// and what was written.
fn written_failing(alloc: Global, log: &[u8], count: usize) -> Result<(bool, Text), Fail> {
    let (bounds, trace) = read_log(alloc, &mut Bytes::new(log))?;
    let mut sink = Text::new(alloc).in_steps(7).failing_after(count);
    let is_told = write_log(bounds, &trace, &mut sink).is_err();
    Ok((is_told, sink))
}

#[test]
fn devices_that_fail(rt: HostRuntime) -> Result<(), Fail> {
    let log = "vlog 2 1 0 0\n0 exit\n".as_bytes();
    for count in 0..log.len() {
        let read = read_failing(rt.alloc(), log, count);
        assert!(rt; read == (Some(LogFault::Read), true));
        let (is_told, sink) = written_failing(rt.alloc(), log, count)?;
        assert!(rt; is_told && sink.as_slice() == &log[..count]);
    }
    Ok(())
}

/// How the first call of a reader or a writer ends.
#[derive(Clone, Copy)]
enum First {
    Fails(ErrorKind),
    /// Only a writer may take nothing.
    TakesNothing,
}

/// A reader and writer whose first call goes wrong, and which works from then on.
#[derive(Drop)]
struct WorksLater {
    first: Option<First>,
    calls: u64,
}

impl Read for WorksLater {
    fn read(&mut self, piece: &mut [u8]) -> std::io::Result<usize> {
        self.calls = self.calls.wrapping_add(1);
        match self.first.take() {
            Some(First::Fails(kind)) => Err(Error::from(kind)),
            Some(First::TakesNothing) | None => Ok(piece.len()),
        }
    }
}

impl Write for WorksLater {
    fn write(&mut self, piece: &[u8]) -> std::io::Result<usize> {
        self.calls = self.calls.wrapping_add(1);
        match self.first.take() {
            Some(First::Fails(kind)) => Err(Error::from(kind)),
            Some(First::TakesNothing) => Ok(0),
            None => Ok(piece.len()),
        }
    }

    fn flush(&mut self) -> std::io::Result<()> {
        Ok(())
    }
}

fn works_after(first: First) -> WorksLater {
    WorksLater {
        first: Some(first),
        calls: 0,
    }
}

/// Whether a reader's failure is reported at the call that met it, and nothing is tried again.
fn is_read_once(alloc: Global, kind: ErrorKind) -> bool {
    let mut source = ReaderSource::new(works_after(First::Fails(kind)));
    let is_refused = read_log(alloc, &mut source).err() == Some(LogFault::Read);
    let first = (source.reader.calls, source.failures());
    let is_read = source.read(&mut [0; 4]) == Ok(4);
    let second = (source.reader.calls, source.failures());
    is_refused && is_read && first == (1, 1) && second == (2, 1)
}

/// The same of a writer's.
fn is_written_once(first: First) -> bool {
    let mut sink = WriterSink::new(works_after(first));
    let is_refused = write_all(&mut sink, b"ab") == Err(WriteFault);
    let first = (sink.writer.calls, sink.failures());
    let is_written = write_all(&mut sink, b"ab") == Ok(());
    let second = (sink.writer.calls, sink.failures());
    is_refused && is_written && first == (1, 1) && second == (2, 1)
}

static FAULTS: [ErrorKind; 3] = [
    ErrorKind::Interrupted,
    ErrorKind::WouldBlock,
    ErrorKind::TimedOut,
];

static FIRSTS: [First; 4] = [
    First::Fails(ErrorKind::Interrupted),
    First::Fails(ErrorKind::WouldBlock),
    First::Fails(ErrorKind::TimedOut),
    First::TakesNothing,
];

#[test]
fn nothing_is_tried_again(rt: HostRuntime) {
    for kind in &FAULTS {
        assert!(rt; is_read_once(rt.alloc(), *kind));
    }
    for first in &FIRSTS {
        assert!(rt; is_written_once(*first));
    }
}

static TEXTS: [(LogFault, &str); 6] = [
    (LogFault::BadHeader, "bad header"),
    (LogFault::BadLine(7), "bad line 7"),
    (LogFault::Truncated(7), "line 7 is cut off"),
    (LogFault::TooLong, "too many events"),
    (LogFault::Read, "read failed"),
    (LogFault::Memory, "out of memory"),
];

#[test]
fn texts_of_faults(rt: HostRuntime) {
    for (fault, text) in &TEXTS {
        holds_for(&rt, is_told_as(rt.alloc(), fault, *text), &text);
    }
    assert!(rt; is_told_as(rt.alloc(), &WriteFault, "write failed"));
    assert!(rt; is_told_as(rt.alloc(), &Failed, "the device failed"));
}

fn ten_thousand_events(alloc: Global) -> Result<Trace, Fail> {
    let mut trace = Trace::new(alloc);
    for i in 0..10_000u64 {
        let thread = ThreadId((i % 64) as u8);
        let kind = Kind::Write(VarId(0), u64::MAX - i);
        trace.push(Event { thread, kind })?;
    }
    Ok(trace)
}

/// Writes a log, and returns how long its text is and what is read from it.
fn read_back(alloc: Global, bounds: Bounds, trace: &Trace) -> Result<(usize, Bounds, Trace), Fail>
    requires bounds { AreBounds bounds }
    requires few { length trace.now.events ≤ MAX_EVENTS }
{
    let mut sink = Text::new(alloc);
    write_log(bounds, trace, &mut sink)?;
    let (bounds, read) = read_log(alloc, &mut Bytes::new(sink.as_slice()))?;
    Ok((sink.as_slice().len(), bounds, read))
}

/// Its text is read in five pieces, whose seams lie within lines, and written in many.
#[test]
fn ten_thousand_lines(rt: HostRuntime) -> Result<(), Fail> {
    let trace = ten_thousand_events(rt.alloc())?;
    let bounds = Bounds {
        threads: 64,
        variables: 1,
        locks: 0,
    };
    assert!(rt; trace.len() == 10_000);
    let (bytes, read_bounds, read) = read_back(rt.alloc(), bounds, &trace)?;
    assert!(rt; bytes > 4 * 65_536 && read_bounds == bounds);
    assert!(rt; read.as_slice() == trace.as_slice());
    Ok(())
}

/// Reads by a reader, and writes by a writer with room and by one without: what the first was
/// given, whether the second failed, and how often.
fn read_and_write(alloc: Global, log: &[u8]) -> Result<(Vec<u8>, bool, u64), Fail> {
    let (bounds, trace) = read_log(alloc, &mut ReaderSource::new(Cursor::new(log)))?;
    let mut space = [0u8; 4];
    let mut full = WriterSink::new(space.as_mut_slice());
    let has_failed = write_log(bounds, &trace, &mut full).is_err();
    let mut sink = WriterSink::new(Vec::new(alloc));
    write_log(bounds, &trace, &mut sink)?;
    write_all(&mut sink, b"!")?;
    Ok((sink.writer, has_failed, full.failures()))
}

#[test]
fn readers_and_writers(rt: HostRuntime) -> Result<(), Fail> {
    let log = "vlog 1 1 0 0\n0 exit\n".as_bytes();
    let (written, has_failed, failures) = read_and_write(rt.alloc(), log)?;
    assert!(rt; written.as_slice() == "vlog 2 1 0 0\n0 exit\n!".as_bytes());
    assert!(rt; (has_failed, failures) == (true, 1));
    Ok(())
}
