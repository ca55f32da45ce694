//! How the program ends: its status, and the line on standard error.
ghost use Rattle.std.specs.Prelude.{◌≡◌, ◌≢◌, ◌≤◌, ◌+◌, ◌++◌, [], length, take, IfOk, OnOk, OnErr};
ghost use Rattle.velo_check.specs.Writing.{BreaksOff, Writes, writing};
ghost use Rattle.velo_check.specs.Fate.{Ends, fate_of_failure, number_of, status_of, status_of_check, status_of_list, status_of_log, status_of_refused, status_of_ending, status_of_names, status_of_report, status_of_schedule, status_of_sites, status_of_work, place_of_work, last_line_of, line_of_check, line_of_log, line_of_ending, line_of_file_fault, line_of_ignored, line_of_one_file, line_of_refused, line_of_schedule, line_of_work, word_of};

use crate::failure::{Failure, Operand};
use crate::fault::CheckFault;
use crate::request::Ignorable;
use crate::status::{ALARM, BAD_INPUT, DONE, FAILED, INCOMPLETE};
use std::alloc::Global;
use velo_bytes::{Sink, WriteFault, append, put_bytes, put_number, write_all};
use velo_claims::ReportFault;
use velo_events::{Memory, Refusal, ThreadId};
use velo_logtext::LogFault;
use velo_names::NamesFault;
use velo_schedule_text::ScheduleFault;
use velo_sidecars::{ListFault, SitesFault};
use velo_worker::Ending;
use velo_workload::WorkFault;

/// Room that is enough for a line on standard error.
const LINE_ROOM: usize = 64;

/// How a command ended.
#[derive(Clone, Copy, PartialEq, Eq)]
pub enum Fate {
    /// It ended, with or without an alarm. A check is done.
    Finished { ending: Ending, alarm: bool },
    /// The text is no schedule.
    Schedule(ScheduleFault),
    /// The text is no workload.
    Work(WorkFault),
    /// The file of names says none.
    Names(NamesFault),
    /// The file is no list of labels.
    List(ListFault),
    /// The file of sites says none.
    Sites(SitesFault),
    /// The sites are those of a log with another number of events.
    OtherSites,
    /// The text is no report.
    Report(ReportFault),
    /// Nothing is meant by what was to be ignored.
    Ignored(Ignorable),
    /// The check met a fault.
    Check(CheckFault),
    /// A file could not be opened.
    CannotOpen,
    /// The two operands name one file, and the second was to be written. It is untouched.
    OneFile(Operand, Operand),
    /// A file could not be read.
    ReadFailed,
    /// A file, a report or help could not be written.
    WriteFailed,
    /// A growth was refused.
    Memory,
    /// A seat was not given back, or what came back is no run of the workload.
    Lost,
    /// Not every schedule was tried, and nothing was found.
    Open,
}

/// The fate of a failure.
pub fn fate_of_failure(failure: Failure) -> Fate
    ensures { result ≡ fate_of_failure failure }
{
    match failure {
        Failure::CannotOpen(_) => Fate::CannotOpen,
        Failure::ReadFailed(_) => Fate::ReadFailed,
        Failure::WriteFailed(_) | Failure::PrintFailed => Fate::WriteFailed,
        Failure::Memory(_) => Fate::Memory,
    }
}

/// The number of a refusal.
pub fn number_of(refusal: Refusal) -> u8
    ensures { result ≡ number_of refusal }
{
    refusal as u8
}

fn status_of_log(fault: LogFault) -> u8
    ensures { result ≡ status_of_log fault }
{
    match fault {
        LogFault::Read | LogFault::Memory => FAILED,
        _ => BAD_INPUT,
    }
}

/// The status of a check whose log has an event that is refused.
fn status_of_refused(refusal: Refusal) -> u8
    ensures { result ≡ status_of_refused refusal }
{
    match refusal {
        Refusal::LogFull | Refusal::GraphFull => INCOMPLETE,
        _ => BAD_INPUT,
    }
}

fn status_of_check(fault: CheckFault) -> u8
    ensures { result ≡ status_of_check fault }
{
    match fault {
        CheckFault::Log(fault) => status_of_log(fault),
        CheckFault::Refused { refusal, .. } => status_of_refused(refusal),
        CheckFault::WrongValue { .. } => BAD_INPUT,
        CheckFault::Write | CheckFault::Memory => FAILED,
    }
}

fn status_of_ending(ending: Ending, alarm: bool) -> u8
    ensures { result ≡ status_of_ending ending alarm }
{
    match ending {
        Ending::Refused(_, Refusal::Memory | Refusal::RuntimeMemory) => FAILED,
        Ending::Stuck | Ending::Refused(..) => INCOMPLETE,
        Ending::Done | Ending::Halted | Ending::Gated => { if alarm { ALARM } else { DONE } }
    }
}

fn status_of_schedule(fault: ScheduleFault) -> u8
    ensures { result ≡ status_of_schedule fault }
{
    match fault {
        ScheduleFault::Bad => BAD_INPUT,
        ScheduleFault::Memory => FAILED,
    }
}

fn status_of_work(fault: WorkFault) -> u8
    ensures { result ≡ status_of_work fault }
{
    match fault {
        WorkFault::Memory => FAILED,
        _ => BAD_INPUT,
    }
}

fn status_of_names(fault: NamesFault) -> u8
    ensures { result ≡ status_of_names fault }
{
    match fault {
        NamesFault::Memory => FAILED,
        _ => BAD_INPUT,
    }
}

fn status_of_sites(fault: SitesFault) -> u8
    ensures { result ≡ status_of_sites fault }
{
    match fault {
        SitesFault::Memory => FAILED,
        _ => BAD_INPUT,
    }
}

fn status_of_report(fault: ReportFault) -> u8
    ensures { result ≡ status_of_report fault }
{
    match fault {
        ReportFault::Memory => FAILED,
        _ => BAD_INPUT,
    }
}

fn status_of_list(fault: ListFault) -> u8
    ensures { result ≡ status_of_list fault }
{
    match fault {
        ListFault::Memory => FAILED,
        _ => BAD_INPUT,
    }
}

fn status_of(fate: Fate) -> u8
    ensures { result ≡ status_of fate }
{
    match fate {
        Fate::Finished { ending, alarm } => status_of_ending(ending, alarm),
        Fate::Schedule(fault) => status_of_schedule(fault),
        Fate::Work(fault) => status_of_work(fault),
        Fate::Names(fault) => status_of_names(fault),
        Fate::List(fault) => status_of_list(fault),
        Fate::Sites(fault) => status_of_sites(fault),
        Fate::Report(fault) => status_of_report(fault),
        Fate::Check(fault) => status_of_check(fault),
        Fate::Ignored(_) | Fate::OtherSites | Fate::OneFile(..) => BAD_INPUT,
        Fate::Open => INCOMPLETE,
        Fate::CannotOpen | Fate::ReadFailed | Fate::WriteFailed | Fate::Memory | Fate::Lost => {
            FAILED
        }
    }
}

/// Puts the line of a log's fault at the front of a buffer, and returns where it ends.
fn put_log_fault(buffer: &mut [u8], fault: LogFault) -> usize
    requires { 64 ≤ length buffer.old }
    ensures text { take result buffer.new ≡ line_of_log fault }
    ensures end { result ≤ length buffer.new }
{
    match fault {
        LogFault::BadHeader => put_bytes(buffer, 0, b"log fault 1\n"),
        LogFault::BadLine(line) => {
            let at = put_bytes(buffer, 0, b"log fault 2 line ");
            let at = put_number(buffer, at, line as u64);
            put_bytes(buffer, at, b"\n")
        }
        LogFault::Truncated(line) => {
            let at = put_bytes(buffer, 0, b"log fault 3 line ");
            let at = put_number(buffer, at, line as u64);
            put_bytes(buffer, at, b"\n")
        }
        LogFault::TooLong => put_bytes(buffer, 0, b"log fault 4\n"),
        LogFault::Read => put_bytes(buffer, 0, b"read failed\n"),
        LogFault::Memory => put_bytes(buffer, 0, b"out of memory\n"),
    }
}

/// Puts the line of a check's fault at the front of a buffer, and returns where it ends.
fn put_check_fault(buffer: &mut [u8], fault: CheckFault) -> usize
    requires { 64 ≤ length buffer.old }
    ensures text { take result buffer.new ≡ line_of_check fault }
    ensures end { result ≤ length buffer.new }
{
    match fault {
        CheckFault::Log(fault) => put_log_fault(buffer, fault),
        CheckFault::Refused { position, refusal } => {
            let at = put_bytes(buffer, 0, b"refused ");
            let at = put_number(buffer, at, u64::from(number_of(refusal)));
            let at = put_bytes(buffer, at, b" at ");
            let at = put_number(buffer, at, position as u64);
            put_bytes(buffer, at, b"\n")
        }
        CheckFault::WrongValue { position } => {
            let at = put_bytes(buffer, 0, b"wrong value at ");
            let at = put_number(buffer, at, position as u64);
            put_bytes(buffer, at, b"\n")
        }
        CheckFault::Write => put_bytes(buffer, 0, b"write failed\n"),
        CheckFault::Memory => put_bytes(buffer, 0, b"out of memory\n"),
    }
}

/// Puts the line of an ending at the front of a buffer, and returns where it ends: at 0 if there is
/// none.
fn put_ending(buffer: &mut [u8], ending: Ending) -> usize
    requires { 64 ≤ length buffer.old }
    ensures text { take result buffer.new ≡ line_of_ending ending }
    ensures end { result ≤ length buffer.new }
{
    match ending {
        Ending::Refused(_, Refusal::Memory | Refusal::RuntimeMemory) => {
            put_bytes(buffer, 0, b"out of memory\n")
        }
        Ending::Refused(thread, refusal) => put_refused(buffer, thread, refusal),
        Ending::Stuck => put_bytes(buffer, 0, b"stuck\n"),
        Ending::Done | Ending::Halted | Ending::Gated => 0,
    }
}

/// Puts the line of a refusal that ended a run at the front of a buffer, and returns where it ends.
fn put_refused(buffer: &mut [u8], thread: ThreadId, refusal: Refusal) -> usize
    requires { 64 ≤ length buffer.old }
    ensures text { take result buffer.new ≡ line_of_refused thread refusal }
    ensures end { result ≤ length buffer.new }
{
    let at = put_bytes(buffer, 0, b"refused ");
    let at = put_number(buffer, at, u64::from(number_of(refusal)));
    let at = put_bytes(buffer, at, b" thread ");
    let at = put_number(buffer, at, u64::from(thread.0));
    put_bytes(buffer, at, b"\n")
}

/// Puts the line of a schedule's fault at the front of a buffer, and returns where it ends.
fn put_schedule_fault(buffer: &mut [u8], fault: ScheduleFault) -> usize
    requires { 64 ≤ length buffer.old }
    ensures text { take result buffer.new ≡ line_of_schedule fault }
    ensures end { result ≤ length buffer.new }
{
    match fault {
        ScheduleFault::Bad => put_bytes(buffer, 0, b"bad schedule\n"),
        ScheduleFault::Memory => put_bytes(buffer, 0, b"out of memory\n"),
    }
}

/// The number of a workload's fault and its line; none for `Memory`.
fn place_of_work(fault: WorkFault) -> Option<(u64, usize)>
    ensures { result ≡ place_of_work fault }
{
    match fault {
        WorkFault::BadLine(line) => Some((1, line)),
        WorkFault::Unknown(line) => Some((2, line)),
        WorkFault::Twice(line) => Some((3, line)),
        WorkFault::Unmatched(line) => Some((4, line)),
        WorkFault::TooMany(line) => Some((5, line)),
        WorkFault::Memory => None,
    }
}

/// Puts the line of a workload's fault at the front of a buffer, and returns where it ends.
fn put_work_fault(buffer: &mut [u8], fault: WorkFault) -> usize
    requires { 64 ≤ length buffer.old }
    ensures text { take result buffer.new ≡ line_of_work (place_of_work fault) }
    ensures end { result ≤ length buffer.new }
{
    match place_of_work(fault) {
        Some((number, line)) => {
            let at = put_bytes(buffer, 0, b"workload fault ");
            let at = put_number(buffer, at, number);
            let at = put_bytes(buffer, at, b" line ");
            let at = put_number(buffer, at, line as u64);
            put_bytes(buffer, at, b"\n")
        }
        None => put_bytes(buffer, 0, b"out of memory\n"),
    }
}

/// Puts the line of a fault of a file at the front of a buffer, by the word for such a file, and
/// returns where it ends.
fn put_file_fault(buffer: &mut [u8], word: &[u8], number: Option<u8>, line: usize) -> usize
    requires room { 64 ≤ length buffer.old }
    requires short { length word.now ≤ 8 }
    ensures text { take result buffer.new ≡ line_of_file_fault word.now number line }
    ensures end { result ≤ length buffer.new }
{
    match number {
        Some(number) => {
            let at = put_bytes(buffer, 0, word);
            let at = put_bytes(buffer, at, b" fault ");
            let at = put_number(buffer, at, u64::from(number));
            let at = put_bytes(buffer, at, b" line ");
            let at = put_number(buffer, at, line as u64);
            put_bytes(buffer, at, b"\n")
        }
        None => put_bytes(buffer, 0, b"out of memory\n"),
    }
}

/// Puts the line of what was to be ignored and means nothing at the front of a buffer, and returns where it ends.
fn put_ignored(buffer: &mut [u8], what: Ignorable) -> usize
    requires { 64 ≤ length buffer.old }
    ensures text { take result buffer.new ≡ line_of_ignored what }
    ensures end { result ≤ length buffer.new }
{
    match what {
        Ignorable::Lock => put_bytes(buffer, 0, b"ignored fault 1\n"),
        Ignorable::Variable => put_bytes(buffer, 0, b"ignored fault 2\n"),
        Ignorable::Label => put_bytes(buffer, 0, b"ignored fault 3\n"),
    }
}

/// Puts the word of an operand at a place of a buffer, and returns the place after it.
fn put_operand(buffer: &mut [u8], at: usize, operand: Operand) -> usize
    requires { at + 12 ≤ length buffer.old }
    ensures text { take result buffer.new ≡ take at buffer.old ++ word_of operand }
    ensures end { result ≤ at + 12 }
{
    match operand {
        Operand::Log => put_bytes(buffer, at, b"LOG"),
        Operand::File => put_bytes(buffer, at, b"FILE"),
        Operand::Out => put_bytes(buffer, at, b"OUT"),
        Operand::NamesOut => put_bytes(buffer, at, b"NAMES"),
        Operand::Map => put_bytes(buffer, at, b"MAP"),
        Operand::Names => put_bytes(buffer, at, b"--names"),
        Operand::Sites => put_bytes(buffer, at, b"--sites"),
        Operand::NotAtomic => put_bytes(buffer, at, b"--not-atomic"),
        Operand::Ignore => put_bytes(buffer, at, b"--ignore"),
        Operand::Turns => put_bytes(buffer, at, b"--turns"),
    }
}

/// Puts the line of two operands that name one file at the front of a buffer, and returns where it
/// ends.
fn put_one_file(buffer: &mut [u8], first: Operand, second: Operand) -> usize
    requires { 64 ≤ length buffer.old }
    ensures text { take result buffer.new ≡ line_of_one_file first second }
    ensures end { result ≤ length buffer.new }
{
    let at = put_bytes(buffer, 0, b"error: ");
    let at = put_operand(buffer, at, first);
    let at = put_bytes(buffer, at, b" and ");
    let at = put_operand(buffer, at, second);
    put_bytes(buffer, at, b" are one file\n")
}

/// Puts the line about how a run ended at the front of a buffer, and returns where it ends, or 0.
fn put_line(buffer: &mut [u8], fate: Fate) -> usize
    requires { 64 ≤ length buffer.old }
    ensures text { take result buffer.new ≡ last_line_of fate }
    ensures end { result ≤ length buffer.new }
{
    match fate {
        Fate::Finished { ending, .. } => put_ending(buffer, ending),
        Fate::Schedule(fault) => put_schedule_fault(buffer, fault),
        Fate::Work(fault) => put_work_fault(buffer, fault),
        Fate::Names(fault) => put_file_fault(buffer, b"names", fault.number(), fault.line()),
        Fate::List(fault) => put_file_fault(buffer, b"list", fault.number(), fault.line()),
        Fate::Sites(fault) => put_file_fault(buffer, b"sites", fault.number(), fault.line()),
        Fate::OtherSites => put_bytes(buffer, 0, b"sites fault 5 line 0\n"),
        Fate::Report(fault) => put_file_fault(buffer, b"report", fault.number(), fault.line()),
        Fate::Ignored(what) => put_ignored(buffer, what),
        Fate::Check(fault) => put_check_fault(buffer, fault),
        Fate::CannotOpen => put_bytes(buffer, 0, b"cannot open\n"),
        Fate::OneFile(first, second) => put_one_file(buffer, first, second),
        Fate::ReadFailed => put_bytes(buffer, 0, b"read failed\n"),
        Fate::Lost => put_bytes(buffer, 0, b"seat lost\n"),
        Fate::WriteFailed => put_bytes(buffer, 0, b"write failed\n"),
        Fate::Memory => put_bytes(buffer, 0, b"out of memory\n"),
        Fate::Open => put_bytes(buffer, 0, b"open\n"),
    }
}

/// Writes the line about how a run ended, if there is one, in one piece, and returns the status to
/// end with, 0 to 5 (see [`status`](crate::status)). It takes no memory.
///
/// # Errors
/// `WriteFault` where the sink failed; the program ends with [`FAILED`] then.
pub fn end_line<S: Sink>(fate: &Fate, sink: &mut S) -> Result<u8, WriteFault>
    ensures status { IfOk result (λ status. status ≡ status_of fate.now) }
    ensures text { OnOk result (Writes
        (writing S.contents S.failures sink.old sink.new) (last_line_of fate.now)) }
    ensures err { OnErr result (BreaksOff
        (writing S.contents S.failures sink.old sink.new) (last_line_of fate.now)) }
    ensures line { OnErr result (last_line_of fate.now ≢ []) }
{
    let mut buffer = [0u8; LINE_ROOM];
    let end = put_line(&mut buffer, *fate);
    if end > 0 {
        write_all(sink, &buffer[..end])?;
    }
    Ok(status_of(*fate))
}

/// The line with which a command ends that has this fate, and its line end; nothing where it ends
/// without a line.
///
/// # Errors
/// `Memory` if an allocation failed.
pub fn last_line(alloc: Global, fate: Fate) -> Result<Vec<u8>, Memory>
    ensures { IfOk result (λ line. line.items ≡ last_line_of fate) }
{
    let mut buffer = [0u8; LINE_ROOM];
    let end = put_line(&mut buffer, fate);
    let mut line = Vec::new(alloc);
    append(&mut line, &buffer[..end])?;
    Ok(line)
}

/// Reports how a run ended, and returns the status to end with: that of `end_line`, or [`FAILED`]
/// where the line could not be written.
pub fn end_with<S: Sink>(fate: &Fate, sink: &mut S) -> u8
    ensures { Ends fate.now (writing S.contents S.failures sink.old sink.new) result }
{
    match end_line(fate, sink) {
        Ok(status) => status,
        Err(WriteFault) => FAILED,
    }
}
