//! A log without end that is watched as it comes.
ghost use Rattle.std.specs.Prelude.{◌≡◌, ◌≤◌, ◌+◌, List, ℕ, false, [], ◌∷◌, ◌++◌, length, Option, None, IsTrue, is_some, if◌then◌else◌, IfOk, IfErr, OnOk, OnErr};
ghost use Rattle.velo_events.specs.declared.event.Event.{Event as EventOf};
ghost use Rattle.velo_events.specs.declared.limits.TheConstants.{MAX_EVENTS, MAX_NODES};
ghost use Rattle.velo_heap.specs.Contents.{bounds_of};
ghost use Rattle.velo_logtext.specs.Reader.{HasWholeLine};
ghost use Rattle.velo_logtext.specs.Text.{AreBounds};
ghost use Rattle.velo_traces.specs.Flaws.{flaw_of};
ghost use Rattle.velo_report.specs.Report.{AppendsReport, AppendsPartOfReport};
ghost use Rattle.velo_bytes.specs.Device.{with_failure};
ghost use Rattle.std.specs.Io.KnownBytes.{Appends};
ghost use Rattle.std.specs.Option.{option_copied};
ghost use Rattle.velo_watch.specs.declared.fault.WatchFault.TheVariants as watch_fault;
ghost use Rattle.velo_watch.specs.UnderWay.{IsFaultOfOpening, read_failures, write_failures};
ghost use Rattle.velo_watch.specs.Watch.{told_text};
ghost use Rattle.velo_watch.specs.declared.long.TheConstants.{MAX_WATCHED};
ghost use Rattle.velo_watch.specs.Endless.{CanGoOn, CanTakeIn, HasJudged, HasSeen, IsUnderWay, Judges, Steps, TellsPartOf};
ghost use Rattle.velo_watch.specs.Whole.{IsWholeOf};

use crate::fault::WatchFault;
use crate::long::LongReader;
use crate::piece::LogPiece;
use crate::summary::Whole;
use std::alloc::Global;
use velo_bytes::{Sink, Source, WriteFault};
use velo_events::{Bounds, Config, Event};
use velo_report::{Names, alarm_line, report_counts};
use velo_traces::Flaw;
use velo_world::{Alarm, LogReplayFault};

/// A log without end that is watched as it comes. Of its events it keeps only those after a cut, as many as its limit says at
/// most. After an alarm, which is that of the whole log, it keeps none.
#[derive(Drop)]
pub struct EndlessWatch {
    pub(crate) reader: LongReader,
    pub(crate) whole: Whole,
    pub(crate) piece: LogPiece,
    /// The alarm that was told.
    pub(crate) alarm: Option<Alarm>,
}

impl EndlessWatch {
    /// Reads the header of a log. The limits are the most events that are kept of it, and the most nodes that their graph may
    /// have at one time.
    ///
    /// # Errors
    /// `Log` where the header is wrong or could not be read, and where a growth for the reader was refused; `Replay` with
    /// `Memory` where another growth was refused.
    pub fn open<I: Source>(
        alloc: Global,
        source: &mut I,
        events: u32,
        nodes: u16,
    ) -> Result<EndlessWatch, WatchFault>
        requires events { (1 ≤ events) × (events ≤ MAX_EVENTS) }
        requires nodes { (1 ≤ nodes) × (nodes ≤ MAX_NODES) }
        ensures ok { IfOk result (λ watch. (contents : Option (List ℕ))
            → IsUnderWay (I.remaining source.old) (I.remaining source.new) contents contents [] watch) }
        ensures goes_on { IfOk result CanGoOn }
        ensures events { IfOk result (λ watch. watch.piece.world.config.events ≡ events) }
        ensures nodes { IfOk result (λ watch. watch.piece.world.config.nodes ≡ nodes) }
        ensures fault { IfErr result (IsFaultOfOpening (I.remaining source.old)) }
        ensures reads { I.failures source.new ≡ read_failures result (I.failures source.old) }
    {
        let reader = match LongReader::open(alloc, source) {
            Ok(reader) => reader,
            Err(fault) => return Err(WatchFault::Log(fault)),
        };
        let config = config_of(reader.bounds(), events, nodes);
        let Ok(whole) = Whole::new(alloc, &config) else {
            return Err(WatchFault::Replay(LogReplayFault::Memory));
        };
        match LogPiece::new(alloc, config) {
            Ok(piece) => Ok(EndlessWatch {
                reader,
                whole,
                piece,
                alarm: None,
            }),
            Err(fault) => Err(WatchFault::Replay(fault)),
        }
    }

    /// Lets the next event of the log come about, and tells the alarm if it raises one, before anything behind it is read.
    /// Without a next event the answer is false.
    ///
    /// # Errors
    /// `Log` for the first wrong line, or where the source failed; `Replay` where the next event can't come about, or at a
    /// limit; `Write` where the sink failed. An alarm before it was told.
    pub fn step<I: Source, O: Sink>(
        &mut self,
        alloc: Global,
        source: &mut I,
        sink: &mut O,
    ) -> Result<bool, WatchFault>
        requires { CanGoOn self.old }
        ensures goes_on { CanGoOn self.new }
        ensures steps { (read old : Option (List ℕ)) (log : List EventOf)
            → IsUnderWay read (I.remaining source.old) old (O.contents sink.old) log self.old
            → Steps read old log self.old result self.new (I.remaining source.new) (O.contents sink.new) }
        ensures config { self.new.piece.world.config ≡ self.old.piece.world.config }
        ensures advances { IfOk result (λ more. self.new.reader.given ≡ self.old.reader.given + (if more then 1 else 0)) }
        ensures few { self.new.reader.given ≤ MAX_WATCHED }
        ensures kept { length self.new.piece.world.log ≤ self.new.piece.world.config.events }
        ensures unread { HasWholeLine self.old.reader.held → source.new ≡ source.old }
        ensures reads { I.failures source.new ≡ read_failures result (I.failures source.old) }
        ensures writes { O.failures sink.new ≡ write_failures result (O.failures sink.old) }
    {
        prove!(self.piece.world.log().len() <= self.piece.world.config().events as usize);
        let position = self.reader.given();
        let event = match self.reader.next(source) {
            Ok(Some(event)) => event,
            Ok(None) => return Ok(false),
            Err(fault) => return Err(WatchFault::Log(fault)),
        };
        let told = self.alarm.is_some();
        match self.admit(alloc, position, &event) {
            Ok(()) => {}
            Err(fault) => return Err(WatchFault::Replay(fault)),
        }
        if !told {
            tell(self.alarm.as_ref(), sink)?;
        }
        Ok(true)
    }

    /// Whether an alarm was told.
    pub fn has_told(&self) -> bool
        ensures { result ≡ is_some self.now.alarm }
    {
        self.alarm.is_some()
    }

    /// Writes the report of the events so far: what the report of a world of the whole log would be.
    ///
    /// # Errors
    /// `WriteFault` where the sink failed. A beginning of the report was written then.
    pub fn report<O: Sink>(&self, names: &Names, sink: &mut O) -> Result<(), WriteFault>
        requires { CanGoOn self.now }
        ensures ok { (log : List EventOf) → HasSeen log self.now → OnOk result
            (AppendsReport (O.contents sink.old) (O.contents sink.new) names.now self.now.piece.world.config.bounds.threads log) }
        ensures err { (log : List EventOf) → HasSeen log self.now → OnErr result
            (AppendsPartOfReport (O.contents sink.old) (O.contents sink.new) names.now self.now.piece.world.config.bounds.threads log) }
        ensures no_failure { OnOk result (O.failures sink.new ≡ O.failures sink.old) }
        ensures failure { OnErr result (O.failures sink.new ≡ with_failure (O.failures sink.old)) }
    {
        let events = self.reader.given() as u64;
        report_counts(events, &self.whole.counts, self.alarm.as_ref(), names, sink)
    }

    /// Lets the event come about at the position, if it can.
    fn admit(&mut self, alloc: Global, position: usize, event: &Event) -> Result<(), LogReplayFault>
        requires goes_on { CanTakeIn self.old }
        ensures goes_on { CanGoOn self.new }
        ensures reader { self.new.reader ≡ self.old.reader }
        ensures config { self.new.piece.world.config ≡ self.old.piece.world.config }
        ensures kept { length self.old.piece.world.log ≤ self.old.piece.world.config.events
            → length self.new.piece.world.log ≤ self.new.piece.world.config.events }
        ensures judges { (log : List EventOf) → HasJudged log self.old → position ≡ length log
            → self.old.reader.given ≡ length log + 1 → Judges log event.now self.old result self.new }
        ensures stays { IsTrue (is_some self.old.alarm) → OnOk result (self.new.alarm ≡ self.old.alarm) }
    {
        match self.whole.flaw(event) {
            Some(Flaw::Refused(refusal)) => Err(LogReplayFault::Refused { position, refusal }),
            Some(Flaw::WrongValue) => Err(LogReplayFault::WrongValue { position }),
            None => self.judge(alloc, event),
        }
    }

    /// Lets the event come about, which has no flaw.
    fn judge(&mut self, alloc: Global, event: &Event) -> Result<(), LogReplayFault>
        requires goes_on { CanTakeIn self.old }
        requires flawless { (log : List EventOf) → IsWholeOf log self.old.whole
            → flaw_of (bounds_of self.old.whole.heap) log event.now ≡ None }
        ensures goes_on { CanGoOn self.new }
        ensures reader { self.new.reader ≡ self.old.reader }
        ensures config { self.new.piece.world.config ≡ self.old.piece.world.config }
        ensures kept { length self.new.piece.world.log ≤ self.new.piece.world.config.events }
        ensures judges { (log : List EventOf) → HasJudged log self.old
            → self.old.reader.given ≡ length log + 1 → Judges log event.now self.old result self.new }
        ensures stays { IsTrue (is_some self.old.alarm) → OnOk result (self.new.alarm ≡ self.old.alarm) }
    {
        prove!(self.piece.world.log().len() <= self.piece.world.config().events as usize);
        let count = self.reader.given();
        if self.alarm.is_some() {
            self.whole.take_in(event);
            return Ok(());
        }
        self.alarm = self.piece.follow(alloc, event)?;
        self.whole.take_in(event);
        if self.alarm.is_some() {
            return Ok(());
        }
        self.piece.cut(alloc, &self.whole.heap, count)
    }
}

/// The configuration of a watch, which goes on after an alarm.
fn config_of(bounds: Bounds, events: u32, nodes: u16) -> Config
    requires bounds { AreBounds bounds }
    requires events { (1 ≤ events) × (events ≤ MAX_EVENTS) }
    requires nodes { (1 ≤ nodes) × (nodes ≤ MAX_NODES) }
    ensures bounds { result.bounds ≡ bounds }
    ensures events { result.events ≡ events }
    ensures nodes { result.nodes ≡ nodes }
    ensures goes_on { result.stop ≡ false }
{
    match Config::new(0, bounds, events, nodes, false) {
        Ok(config) => config,
        Err(_) => unreachable!(),
    }
}

/// Tells the alarm, if there is one.
fn tell<O: Sink>(alarm: Option<&Alarm>, sink: &mut O) -> Result<(), WatchFault>
    ensures ok { OnOk result (Appends (O.contents sink.old) (O.contents sink.new) (told_text (option_copied alarm.entry))) }
    ensures err { IfErr result (λ fault. fault ≡ watch_fault.Write) }
    ensures part { OnErr result (TellsPartOf (option_copied alarm.entry) (O.contents sink.old) (O.contents sink.new)) }
    ensures no_failure { OnOk result (O.failures sink.new ≡ O.failures sink.old) }
    ensures failure { OnErr result (O.failures sink.new ≡ with_failure (O.failures sink.old)) }
{
    match alarm {
        None => Ok(()),
        Some(alarm) => match alarm_line(alarm, sink) {
            Ok(()) => Ok(()),
            Err(WriteFault) => Err(WatchFault::Write),
        },
    }
}
