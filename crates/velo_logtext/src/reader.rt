//! Reading a log line by line, each as soon as it has come.
ghost use Rattle.std.specs.Prelude.{◌≡◌, ◌≤◌, ◌+◌, ◌++◌, List, ℕ, [], length, Option, None, IfOk, IfErr, OnOk, IfSome, Ok, Err};
ghost use Rattle.std.specs.Io.KnownBytes.{IsAtEnd};
ghost use Rattle.velo_events.specs.Refusals.{GrowthRefused};
ghost use Rattle.velo_events.specs.declared.event.Event.{Event as EventOf};
ghost use Rattle.velo_events.specs.declared.limits.TheConstants.{MAX_EVENTS};
ghost use Rattle.velo_logtext.specs.declared.fault.LogFault.TheVariants as log_fault;
ghost use Rattle.velo_logtext.specs.Text.{AreEventsIn, event_lines};
ghost use Rattle.velo_logtext.specs.Finding.{ReadsAs, failures_after};
ghost use Rattle.velo_logtext.specs.Reader.{HasGiven, Gives, HasWholeLine, IsMetBehind, IsMetInHeader};
ghost use Rattle.velo_logtext.specs.Front.{is_whole, judged_front, judged_full, Takes, Finds};

use crate::fault::LogFault;
use crate::lines::{event, header};
use crate::window::{LONGEST_LINE, Window};
use std::alloc::Global;
use std::marker::Model;
use velo_bytes::Source;
use velo_events::{Bounds, Event, MAX_EVENTS, Memory};
use velo_traces::Trace;

/// What stands at the front of the bytes at hand.
#[derive(Clone, Copy)]
pub enum Front {
    /// The line of an event.
    Line(Event),
    /// Nothing, or the beginning of a line, and more bytes may come.
    Open,
    /// Nothing, and no more bytes come.
    End,
}

/// Whether a newline stands in the bytes, or they are more than a line may have.
fn is_whole(bytes: &[u8]) -> bool
    ensures { result ≡ is_whole bytes.now }
{
    bytes.len() > LONGEST_LINE || bytes.contains(&b'\n')
}

/// What bytes are in which no event's line stands, if they are no wrong line.
fn judge_front(bytes: &[u8], ended: bool, line: usize) -> Result<Front, LogFault>
    ensures { result ≡ judged_front bytes.now ended line }
{
    if bytes.is_empty() {
        return if ended {
            Ok(Front::End)
        } else {
            Ok(Front::Open)
        };
    }
    if is_whole(bytes) {
        return Err(LogFault::BadLine(line));
    }
    if ended {
        Err(LogFault::Truncated(line))
    } else {
        Ok(Front::Open)
    }
}

/// What bytes are that follow as many lines of events as there may be.
fn judge_full(bytes: &[u8], ended: bool) -> Result<Front, LogFault>
    ensures { result ≡ judged_full bytes.now ended }
{
    if !bytes.is_empty() {
        return Err(LogFault::TooLong);
    }
    if ended {
        Ok(Front::End)
    } else {
        Ok(Front::Open)
    }
}

/// Appends the events whose lines stand at the front, as long as more bytes are there than a line may have, so that hardly a byte is
/// looked for beyond the end. How many events were given then, and the bytes that are left.
fn append_lines<'a>(
    bytes: &'a [u8],
    shares: bool,
    given: usize,
    trace: &mut Trace,
) -> Result<(usize, &'a [u8]), Memory>
    requires { given ≤ MAX_EVENTS }
    ensures stream { IfOk result (λ r.
        event_lines trace.new.events ++ r.1.now ≡ event_lines trace.old.events ++ bytes.now) }
    ensures fit { OnOk result
        (AreEventsIn shares trace.old.events → AreEventsIn shares trace.new.events) }
    ensures count { IfOk result (λ r.
        r.0 + length trace.old.events ≡ given + length trace.new.events) }
    ensures few { IfOk result (λ r. r.0 ≤ MAX_EVENTS) }
    ensures grows { OnOk result (length trace.old.events ≤ length trace.new.events) }
    ensures shorter { IfOk result (λ r. length r.1.now ≤ length bytes.now) }
{
    let mut given = given;
    let mut rest = bytes;
    while rest.len() > LONGEST_LINE && given < MAX_EVENTS as usize {
        let Some((event, after)) = event(rest, shares) else {
            return Ok((given, rest));
        };
        trace.push(event)?;
        given += 1;
        rest = after;
    }
    Ok((given, rest))
}

/// A log that is read line by line: each line is judged as soon as its newline has come, or more than 64 bytes of it, or the
/// end of the input.
#[derive(Drop)]
pub struct LogReader {
    shares: bool,
    bounds: Bounds,
    given: usize,
    window: Window,
}

impl Model for LogReader {
    ghost use Rattle.std.specs.Prelude.{◌≤◌};
    ghost use Rattle.velo_events.specs.declared.limits.TheConstants.{MAX_EVENTS};
    ghost use Rattle.velo_logtext.specs.Reader.{ReaderState};

    ghost Value = { ReaderState };

    ghost view = { λ r. record { shares = r.shares; bounds = r.bounds; given = r.given; held = r.window.bytes; ended = r.window.ended } };

    ghost invariant = { λ r. r.given ≤ MAX_EVENTS };
}

impl LogReader {
    /// Reads the header.
    ///
    /// # Errors
    /// `BadHeader` where no header stands at the front; `Read` only where the source failed in this call, and `Memory` only
    /// where a growth was refused.
    pub fn open<S: Source>(alloc: Global, source: &mut S) -> Result<LogReader, LogFault>
        ensures ok { IfOk result (λ reader. HasGiven (S.remaining source.old) [] reader (S.remaining source.new)) }
        ensures fault { IfErr result (λ fault.
            IfSome (S.remaining source.old) (λ bytes. ReadsAs MAX_EVENTS bytes (Err fault))) }
        ensures failures { S.failures source.new ≡ failures_after result (S.failures source.old) }
        ensures memory { result ≡ Err log_fault.Memory → GrowthRefused }
        ensures place { IfErr result IsMetInHeader }
    {
        let mut window = Window::new(alloc)?;
        loop {
            if let Some((shares, bounds, rest)) = header(window.bytes()) {
                let left = rest.len();
                window.take_to(left);
                return Ok(LogReader {
                    shares,
                    bounds,
                    given: 0,
                    window,
                });
            }
            if window.is_ended() || is_whole(window.bytes()) {
                return Err(LogFault::BadHeader);
            }
            window.read_once(source)?;
        }
    }

    /// The bounds that the header says.
    pub fn bounds(&self) -> Bounds
        ensures { result ≡ self.now.bounds }
    {
        self.bounds
    }

    /// Begins to count the events again, and with them the lines: the next one is line 2, as after a header.
    pub fn count_anew(&mut self)
        ensures { self.new ≡ record self.old { given = 0 } }
    {
        self.given = 0;
    }

    /// The next event, or none at the end of the log. Nothing is read from the source while a whole line is at hand.
    ///
    /// # Errors
    /// `BadLine`, `Truncated` or `TooLong` for the first line that is wrong, which is the next one; `Read` only where the source
    /// failed in this call.
    pub fn next<S: Source>(&mut self, source: &mut S) -> Result<Option<Event>, LogFault>
        ensures gives { (bytes : Option (List ℕ)) (events : List EventOf) →
            HasGiven bytes events self.old (S.remaining source.old) →
            Gives bytes events result self.new (S.remaining source.new) }
        ensures end { (bytes : Option (List ℕ)) (events : List EventOf)
            → HasGiven bytes events self.old (S.remaining source.old)
            → result ≡ Ok None
            → IsAtEnd (S.remaining source.new) }
        ensures bounds { self.new.bounds ≡ self.old.bounds }
        ensures version { self.new.shares ≡ self.old.shares }
        ensures unread { HasWholeLine self.old.held → source.new ≡ source.old }
        ensures failures { S.failures source.new ≡ failures_after result (S.failures source.old) }
        ensures place { IfErr result (IsMetBehind self.old.given) }
    {
        loop {
            match self.take_front() {
                Ok(Front::Line(event)) => return Ok(Some(event)),
                Ok(Front::End) => return Ok(None),
                Ok(Front::Open) => self.window.read_once(source)?,
                Err(fault) => return Err(fault),
            }
        }
    }

    /// Appends the events of lines that are at hand, and reads nothing.
    pub(crate) fn take_lines(&mut self, trace: &mut Trace) -> Result<(), Memory>
        ensures given { (bytes remaining : Option (List ℕ))
            → HasGiven bytes trace.old.events self.old remaining
            → OnOk result (HasGiven bytes trace.new.events self.new remaining) }
        ensures grows { OnOk result (length trace.old.events ≤ length trace.new.events) }
    {
        let held = self.window.bytes();
        let (given, rest) = append_lines(held, self.shares, self.given, trace)?;
        let left = rest.len();
        self.window.take_to(left);
        self.given = given;
        Ok(())
    }

    /// Takes the event whose line stands at the front, or says what stands there.
    fn take_front(&mut self) -> Result<Front, LogFault>
        ensures takes { Takes self.old result self.new }
        ensures finds { (bytes remaining : Option (List ℕ)) (events : List EventOf) →
            HasGiven bytes events self.old remaining → Finds bytes events result self.new remaining }
    {
        let held = self.window.bytes();
        if self.given == MAX_EVENTS as usize {
            return judge_full(held, self.window.is_ended());
        }
        match event(held, self.shares) {
            Some((event, rest)) => {
                let left = rest.len();
                self.window.take_to(left);
                self.given += 1;
                Ok(Front::Line(event))
            }
            None => judge_front(held, self.window.is_ended(), self.given + 2),
        }
    }
}
