//! Reading a log of any length, event by event.
ghost use Rattle.std.specs.Prelude.{◌≡◌, ◌≤◌, ◌<◌, List, ℕ, [], Option, None, IfOk, IfErr, IfSome, Ok, Err};
ghost use Rattle.velo_events.specs.declared.event.Event.{Event as EventOf};
ghost use Rattle.velo_logtext.specs.Finding.{ReadsAs, failures_after};
ghost use Rattle.velo_logtext.specs.Reader.{HasWholeLine, IsMetInHeader};
ghost use Rattle.velo_watch.specs.declared.long.TheConstants.{MAX_WATCHED};
ghost use Rattle.velo_watch.specs.Reading.{HasRead, Gives, IsMetEndless, fault_after, given_after};

use std::alloc::Global;
use std::marker::Model;
use velo_bytes::Source;
use velo_events::{Bounds, Event};
use velo_logtext::{LogFault, LogReader};

/// The most events of a log without end: a million a second for 146,000 years.
pub const MAX_WATCHED: usize = 4_611_686_018_427_387_904;

/// A log of any length that is read line by line. Each line is judged as a [`LogReader`] judges it.
#[derive(Drop)]
pub struct LongReader {
    reader: LogReader,
    given: usize,
}

impl Model for LongReader {
    ghost use Rattle.std.specs.Prelude.{◌≤◌};
    ghost use Rattle.velo_logtext.specs.Reader.{ReaderState};
    ghost use Rattle.velo_watch.specs.declared.long.TheConstants.{MAX_WATCHED};

    ghost Value = { ReaderState };

    ghost view = { λ r. record r.reader { given = r.given } };

    ghost invariant = { λ r. r.given ≤ MAX_WATCHED };
}

/// The fault at its line in the whole log, where so many events were given before the reader counted anew.
fn fault_after(given: usize, fault: LogFault) -> LogFault
    requires { given ≤ MAX_WATCHED }
    ensures { result ≡ fault_after given fault }
{
    match fault {
        LogFault::BadLine(_) => {
            if given == MAX_WATCHED {
                LogFault::TooLong
            } else {
                LogFault::BadLine(given + 2)
            }
        }
        LogFault::Truncated(_) => {
            if given == MAX_WATCHED {
                LogFault::TooLong
            } else {
                LogFault::Truncated(given + 2)
            }
        }
        other => other,
    }
}

impl LongReader {
    /// Reads the header.
    ///
    /// # Errors
    /// Those of [`LogReader::open`].
    pub fn open<S: Source>(alloc: Global, source: &mut S) -> Result<LongReader, LogFault>
        ensures ok { IfOk result (λ reader. HasRead (S.remaining source.old) [] reader (S.remaining source.new)) }
        ensures fault { IfErr result (λ fault.
            IfSome (S.remaining source.old) (λ bytes. ReadsAs MAX_WATCHED bytes (Err fault))) }
        ensures failures { S.failures source.new ≡ failures_after result (S.failures source.old) }
        ensures place { IfErr result IsMetInHeader }
    {
        match LogReader::open(alloc, source) {
            Ok(reader) => Ok(LongReader { reader, given: 0 }),
            Err(fault) => Err(fault),
        }
    }

    /// The bounds that the header says.
    pub fn bounds(&self) -> Bounds
        ensures { result ≡ self.now.bounds }
    {
        self.reader.bounds()
    }

    /// How many events were given.
    pub fn given(&self) -> usize
        ensures given { result ≡ self.now.given }
        ensures few { result ≤ MAX_WATCHED }
    {
        self.given
    }

    /// The next event, or none at the end of the log. Nothing is read from the source while a whole line is at hand.
    ///
    /// # Errors
    /// `BadLine`, `Truncated` or `TooLong` for the first line that is wrong, which is the next one; `Read` only where the
    /// source failed in this call.
    pub fn next<S: Source>(&mut self, source: &mut S) -> Result<Option<Event>, LogFault>
        ensures gives { (bytes : Option (List ℕ)) (events : List EventOf) →
            HasRead bytes events self.old (S.remaining source.old) →
            Gives bytes events result self.new (S.remaining source.new) }
        ensures bounds { self.new.bounds ≡ self.old.bounds }
        ensures count { self.new.given ≡ given_after result self.old.given }
        ensures few { self.new.given ≤ MAX_WATCHED }
        ensures unread { HasWholeLine self.old.held → source.new ≡ source.old }
        ensures failures { S.failures source.new ≡ failures_after result (S.failures source.old) }
        ensures place { IfErr result (IsMetEndless self.old.given) }
    {
        self.reader.count_anew();
        match self.reader.next(source) {
            Ok(Some(event)) => {
                if self.given == MAX_WATCHED {
                    return Err(LogFault::TooLong);
                }
                self.given += 1;
                Ok(Some(event))
            }
            Ok(None) => Ok(None),
            Err(fault) => Err(fault_after(self.given, fault)),
        }
    }
}
