//! Texts that are cut off at each byte, and texts that were spoiled randomly.
ghost use Rattle.std.specs.Prelude.{◌≤◌};

use super::slow::{Dice, first_lines};
use super::{LOST_UPDATE, fate_of};
use crate::commands::COLLIDING;
use crate::ends::line_of;
use crate::words::holds_for;
use std::alloc::Global;
use std::process::Abort;
use std::test::Fail;
use velo_bytes::{Bytes, Text};
use velo_check::{Fate, check_run};
use velo_events::{Bounds, Config};
use velo_logtext::{LogFault, read_log, write_log};
use velo_traces::{Flaw, Trace, well_formed};
use velo_worker::replay;
use velo_workload::{Workload, parse};

/// What a check printed: the report, the line of its fault, and the status.
#[derive(Drop)]
struct Shown {
    out: Text,
    err: Text,
    status: u8,
}

/// What a check of a log prints.
fn show(alloc: Global, log: &[u8]) -> Shown {
    let mut source = Bytes::new(log);
    let mut out = Text::new(alloc);
    let answer = check_run(alloc, &mut source, &mut out, 1_048_576, 1024, false);
    let (err, status) = line_of(alloc, &fate_of(answer));
    Shown { out, err, status }
}

/// What the program shows of the lost update cut off after a number of whole lines, and within the
/// next one.
static CUT_OFF: [(&str, &str); 6] = [
    ("", "log fault 1\n"),
    (
        "events 0\nthread 0 0\nthread 1 0\nverdict clean\n",
        "log fault 3 line 2\n",
    ),
    (
        "events 1\nthread 0 1\nthread 1 0\nverdict clean\n",
        "log fault 3 line 3\n",
    ),
    (
        "events 2\nthread 0 2\nthread 1 0\nverdict clean\n",
        "log fault 3 line 4\n",
    ),
    (
        "events 3\nthread 0 3\nthread 1 0\nverdict clean\n",
        "log fault 3 line 5\n",
    ),
    (
        "events 4\nthread 0 3\nthread 1 1\nverdict clean\n",
        "log fault 3 line 6\n",
    ),
];

/// Whether a beginning of a log is reported so, after its last line, or has this fault within it.
fn is_cut_off(alloc: Global, log: &[u8], (report, fault): (&str, &str)) -> bool {
    let shown = show(alloc, log);
    let told = (shown.out.as_slice(), shown.err.as_slice(), shown.status);
    if log.ends_with(b"\n") {
        told == (report.as_bytes(), b"".as_slice(), 0u8)
    } else {
        told == (b"".as_slice(), fault.as_bytes(), 2u8)
    }
}

#[test]
fn logs_are_cut_off_at_each_byte(rt: HostRuntime) {
    let log = LOST_UPDATE.as_bytes();
    assert!(rt; log.len() == 59);
    for count in 0..log.len() {
        let front = &log[..count];
        let lines = front.iter().filter(|byte| **byte == b'\n').count();
        let wanted = CUT_OFF.get(lines).expect(&rt, "few lines");
        holds_for(&rt, is_cut_off(rt.alloc(), front, *wanted), &count);
    }
}

/// Bytes that spoil a text in ways that matter.
const BYTES: &[u8] = b"0123456789 \n\r\tabdefgijklnoqrstwx#_-\0\xff";

/// Changes, leaves out or puts in one byte, or cuts the text off.
fn spoil(text: &mut Vec<u8>, dice: &mut Dice) -> Result<(), Fail> {
    let at = dice.below(text.len());
    let byte = match BYTES.get(dice.below(BYTES.len())) {
        Some(byte) => *byte,
        None => b' ',
    };
    let throw = dice.below(16);
    if throw == 0 {
        text.truncate(at);
    } else if throw < 4 && at < text.len() {
        text.remove(at);
    } else if throw < 8 && at < text.len() {
        text.insert(at, byte)?;
    } else if let Some(place) = text.get_mut(at) {
        *place = byte;
    }
    Ok(())
}

/// A text that was spoiled at up to four places.
fn spoiled(alloc: Global, text: &str, dice: &mut Dice) -> Result<Vec<u8>, Fail> {
    let mut bytes = Vec::new(alloc);
    bytes.extend_from_slice(text.as_bytes())?;
    for _ in 0..=dice.below(4) {
        spoil(&mut bytes, dice)?;
    }
    Ok(bytes)
}

/// What the program says of a log that can't be read.
fn words_of(alloc: Global, fault: LogFault) -> Result<String, Fail> {
    match fault {
        LogFault::BadLine(line) => Ok(format!(in alloc; "log fault 2 line {line}\n")?),
        LogFault::Truncated(line) => Ok(format!(in alloc; "log fault 3 line {line}\n")?),
        _ => Ok(String::from_str(alloc, "log fault 1\n")?),
    }
}

/// What the program says first of a log, by the definitions in the slowest way: the beginning of
/// its report or its fault.
fn slow_answer(alloc: Global, log: &[u8]) -> Result<String, Fail> {
    match read_log(alloc, &mut Bytes::new(log)) {
        Ok((bounds, trace)) => {
            let answer = slow_answer_of(alloc, bounds, &trace);
            drop(trace);
            answer
        }
        Err(fault) => words_of(alloc, fault),
    }
}

/// The beginning of the report of a log or its fault.
fn slow_answer_of(alloc: Global, bounds: Bounds, trace: &Trace) -> Result<String, Fail> {
    match well_formed(trace, bounds) {
        Ok(()) => first_lines(alloc, trace, bounds.threads),
        Err((at, Flaw::WrongValue)) => Ok(format!(in alloc; "wrong value at {at}\n")?),
        Err((at, Flaw::Refused(refusal))) => {
            Ok(format!(in alloc; "refused {} at {at}\n", refusal as u8)?)
        }
    }
}

/// Logs that are spoiled.
static LOGS: [&str; 4] = [
    LOST_UPDATE,
    "vlog 2 3 2 2\n0 fork 1\n0 begin 1\n0 acqs 0\n1 begin 2\n1 acqs 0\n0 rd 0 0\n1 rd 0 0\n1 rels 0\n0 rels 0\n1 acq 0\n1 wr 1 4\n1 rel 0\n0 acqs 0\n0 rels 0\n0 acqs 1\n1 end\n0 end\n",
    "vlog 1 3 2 2\n0 fork 1\n0 begin 1\n0 acq 0\n0 rd 0 0\n0 wr 0 1\n0 rel 0\n1 acq 0\n1 rd 0 1\n1 wr 1 4\n1 rel 0\n0 rd 1 4\n0 end\n1 exit\n0 join 1\n",
    "vlog 1 2 1 1\n0 fork 1\n0 begin 1\n0 begin 2\n1 begin 3\n0 wr 0 7\n1 rd 0 7\n0 end\n1 acq 0\n1 rel 0\n1 end\n0 end\n1 wr 0 2\n0 rd 0 2\n0 exit\n",
];

/// What a check printed: its report, or the line of its fault.
fn told(shown: &Shown) -> &[u8] {
    match shown.status {
        0 | 3 => shown.out.as_slice(),
        _ => shown.err.as_slice(),
    }
}

/// Compares what a check printed for a log with what the definitions say.
fn compare_slow(rt: &impl Abort, alloc: Global, log: &[u8]) -> Result<(), Fail> {
    let answer = slow_answer(alloc, log)?;
    let shown = show(alloc, log);
    assert!(rt; told(&shown).starts_with(answer.as_bytes()), "{answer}");
    drop((shown, answer));
    Ok(())
}

#[test]
fn spoiled_logs(rt: HostRuntime) -> Result<(), Fail> {
    let mut dice = Dice::new(20);
    for turn in 0..4000 {
        let log = spoiled(rt.alloc(), LOGS[turn % 4], &mut dice)?;
        let compared = compare_slow(&rt, rt.alloc(), &log);
        drop(log);
        compared?;
    }
    Ok(())
}

/// How a replay ends, and its log.
#[derive(Drop)]
struct Replayed {
    log: Text,
    status: u8,
}

/// Replays a workload, if it is one.
fn replay_of(alloc: Global, workload: &Workload) -> Option<Replayed> {
    let config = Config::new(0, workload.bounds(), 1_048_576, 1024, false).ok()?;
    let (closed, ending) = replay(alloc, workload, &[], config).ok()?;
    let mut log = Text::new(alloc);
    write_log(closed.bounds(), closed.log(), &mut log).ok()?;
    let alarm = closed.alarm().is_some();
    let (line, status) = line_of(alloc, &Fate::Finished { ending, alarm });
    drop((line, closed));
    Some(Replayed { log, status })
}

/// Whether the check of the log has the verdict of its replay, or the replay could not go on.
fn is_checked_again(alloc: Global, workload: &Workload) -> Option<bool> {
    let run = replay_of(alloc, workload)?;
    let checked = show(alloc, run.log.as_slice());
    let can_be_checked = checked.status == 0 || checked.status == 3;
    Some(can_be_checked && (run.status == checked.status || run.status == 4))
}

/// Whether a text is no workload, or the log of its replay can be checked.
fn is_sound(alloc: Global, text: &[u8]) -> Option<bool> {
    let Ok(text) = str::from_utf8(text) else {
        return Some(true);
    };
    match parse(alloc, text) {
        Ok(workload) => is_checked_again(alloc, &workload),
        Err(fault) => {
            let (line, status) = line_of(alloc, &Fate::Work(fault));
            Some(status == 2 && line.as_slice().starts_with(b"workload fault "))
        }
    }
}

#[test]
fn spoiled_workloads(rt: HostRuntime) -> Result<(), Fail> {
    let mut dice = Dice::new(21);
    for turn in 0..4000 {
        let workload = spoiled(rt.alloc(), COLLIDING, &mut dice)?;
        let is_sound = is_sound(rt.alloc(), &workload);
        drop(workload);
        holds_for(&rt, is_sound == Some(true), &turn);
    }
    Ok(())
}
