//! Statuses in words.
ghost use Rattle.std.specs.Prelude.{◌≡◌, ◌≢◌, ◌≤◌, IfSome, IfNone, length};
ghost use Rattle.velo_ffi.specs.Answers.{number_of};
ghost use Rattle.velo_ffi.specs.Words.{AreWords, IsNoRefusal, TellsWords, own_words, words_of};

use crate::answers::{
    ALARMED, BAD_NAMES, BAD_NUMBER, BAD_SITES, CLOSED, DONE, IN_BLOCK, NO_MEMORY, OTHER_SITES,
    TOO_SHORT,
};
use crate::texts::put_whole;
use velo_events::Refusal;

/// The refusal that has a number.
fn refusal_of(number: u32) -> Option<Refusal>
    ensures some { IfSome result (λ refusal. number_of refusal ≡ number) }
    ensures none { IfNone result (IsNoRefusal number) }
{
    match number {
        1 => Some(Refusal::Halted),
        2 => Some(Refusal::NotLive),
        3 => Some(Refusal::NoSuchVariable),
        4 => Some(Refusal::NoSuchLock),
        5 => Some(Refusal::NoSuchThread),
        6 => Some(Refusal::Busy),
        7 => Some(Refusal::AlreadyHeld),
        8 => Some(Refusal::NotHolder),
        9 => Some(Refusal::NoOpenBlock),
        10 => Some(Refusal::TooDeep),
        11 => Some(Refusal::AlreadyForked),
        12 => Some(Refusal::NotForked),
        13 => Some(Refusal::NotExited),
        14 => Some(Refusal::AlreadyJoined),
        15 => Some(Refusal::BlockOpen),
        16 => Some(Refusal::LockHeld),
        17 => Some(Refusal::LogFull),
        18 => Some(Refusal::GraphFull),
        19 => Some(Refusal::Memory),
        20 => Some(Refusal::WouldDeadlock),
        21 => Some(Refusal::RuntimeMemory),
        22 => Some(Refusal::Foreign),
        _ => None,
    }
}

/// The words of a refusal.
fn words_of(refusal: Refusal) -> &'static str
    ensures words { result.now ≡ words_of refusal }
    ensures short { length result.now ≤ 31 }
{
    match refusal {
        Refusal::Halted => "halted",
        Refusal::NotLive => "thread not live",
        Refusal::NoSuchVariable => "no such variable",
        Refusal::NoSuchLock => "no such lock",
        Refusal::NoSuchThread => "no such thread",
        Refusal::Busy => "lock busy",
        Refusal::AlreadyHeld => "lock already held",
        Refusal::NotHolder => "not the holder",
        Refusal::NoOpenBlock => "no open block",
        Refusal::TooDeep => "blocks too deep",
        Refusal::AlreadyForked => "thread already forked",
        Refusal::NotForked => "thread not forked",
        Refusal::NotExited => "thread not exited",
        Refusal::AlreadyJoined => "thread already joined",
        Refusal::BlockOpen => "block open",
        Refusal::LockHeld => "lock held",
        Refusal::LogFull => "log full",
        Refusal::GraphFull => "graph full",
        Refusal::Memory => "out of memory",
        Refusal::WouldDeadlock => "would deadlock",
        Refusal::RuntimeMemory => "runtime out of memory",
        Refusal::Foreign => "foreign seat",
    }
}

/// The words of a status that is no refusal's number.
fn own_words(status: u32) -> &'static str
    ensures words { result.now ≡ own_words status }
    ensures short { length result.now ≤ 31 }
{
    match status {
        DONE => "done",
        CLOSED => "the handle is null",
        BAD_NUMBER => "a number is out of its range",
        NO_MEMORY => "out of memory",
        TOO_SHORT => "the buffer is too short",
        BAD_NAMES => "the names have a fault",
        IN_BLOCK => "a block is open",
        ALARMED => "there is an alarm",
        BAD_SITES => "the sites have a fault",
        OTHER_SITES => "the sites are of another log",
        _ => "unknown status",
    }
}

/// The words of a status.
fn words_for(status: u32) -> &'static str
    ensures words { AreWords status result.now }
    ensures short { length result.now ≤ 31 }
{
    match refusal_of(status) {
        Some(refusal) => words_of(refusal),
        None => own_words(status),
    }
}

/// Writes the words of a status to a buffer, and returns how many bytes they are. `TOO_SHORT` where
/// there is no room, with the length that is needed; the buffer is as it was. Room for 31 is always
/// enough.
#[unsafe(no_mangle)]
pub extern "C" fn velo_words(status: u32, buffer: &mut [u8], count: &mut usize) -> u32
    ensures told { TellsWords status result buffer.new count.new }
    ensures room { 31 ≤ length buffer.old → result ≡ DONE }
    ensures same { result ≢ DONE → buffer.new ≡ buffer.old }
{
    put_whole(words_for(status).as_bytes(), buffer, count)
}
