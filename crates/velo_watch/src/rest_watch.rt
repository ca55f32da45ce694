//! A log of which something is left out, watched as it comes.
ghost use Rattle.std.specs.Prelude.{◌≡◌, ◌≤◌, ◌+◌, ◌↔◌, ◌∷◌, ◌++◌, if◌then◌else◌, List, ℕ, false, [], length, Option, IfOk, IfErr, IsTrue, OnOk};
ghost use Rattle.velo_events.specs.Graph.{HasCycle};
ghost use Rattle.velo_events.specs.declared.limits.TheConstants.{MAX_EVENTS, MAX_NODES};
ghost use Rattle.velo_filter.specs.Left.{Omitted};
ghost use Rattle.velo_filter.specs.Tables.{left_of};
ghost use Rattle.velo_logtext.specs.Reader.{HasWholeLine};
ghost use Rattle.velo_logtext.specs.Text.{AreBounds};
ghost use Rattle.velo_watch.specs.Faults.{IsFaultOfRest};
ghost use Rattle.velo_watch.specs.RestUnderWay.{CanGoOn, IsUnderWay, Steps};
ghost use Rattle.velo_watch.specs.UnderWay.{IsFaultOfOpening, read_failures, write_failures};

use crate::fault::WatchFault;
use crate::rest::{ClosedRest, Rest};
use crate::whole_log::WholeLog;
use std::alloc::Global;
use velo_bytes::{Sink, Source};
use velo_events::{Bounds, Config, Event};
use velo_filter::LeftOut;
use velo_logtext::LogReader;
use velo_world::LogReplayFault;

/// A log of which something is left out, watched as it comes. All its events happen; what is left of
/// them is judged.
#[derive(Drop)]
pub struct RestWatch {
    pub(crate) reader: LogReader,
    pub(crate) whole: WholeLog,
    pub(crate) rest: Rest,
}

impl RestWatch {
    /// Reads the header of a log. The limits are the most events that the log may have, and the most nodes
    /// that the graph of what is left may have at one time.
    ///
    /// # Errors
    /// `Log` where the header is wrong or could not be read, and where a growth for the reader was
    /// refused; `Replay` with `Memory` where another growth was refused.
    pub fn open<I: Source>(
        alloc: Global,
        source: &mut I,
        events: u32,
        nodes: u16,
    ) -> Result<RestWatch, WatchFault>
        requires events { (1 ≤ events) × (events ≤ MAX_EVENTS) }
        requires nodes { (1 ≤ nodes) × (nodes ≤ MAX_NODES) }
        ensures ok { IfOk result (λ watch. (omitted : Omitted) (contents : Option (List ℕ))
            → IsUnderWay omitted (I.remaining source.old) (I.remaining source.new) contents contents watch) }
        ensures goes_on { IfOk result (λ watch. (omitted : Omitted) → CanGoOn omitted watch) }
        ensures no_events { IfOk result (λ watch. watch.whole.trace.events ≡ []) }
        ensures events { IfOk result (λ watch. watch.rest.world.config.events ≡ events) }
        ensures nodes { IfOk result (λ watch. watch.rest.world.config.nodes ≡ nodes) }
        ensures fault { IfErr result (IsFaultOfOpening (I.remaining source.old)) }
        ensures reads { I.failures source.new ≡ read_failures result (I.failures source.old) }
    {
        let reader = match LogReader::open(alloc, source) {
            Ok(reader) => reader,
            Err(fault) => return Err(WatchFault::Log(fault)),
        };
        let config = config_of(reader.bounds(), events, nodes);
        let Ok(whole) = WholeLog::new(alloc, &config) else {
            return Err(WatchFault::Replay(LogReplayFault::Memory));
        };
        let Ok(rest) = Rest::new(alloc, config) else {
            return Err(WatchFault::Replay(LogReplayFault::Memory));
        };
        Ok(RestWatch {
            reader,
            whole,
            rest,
        })
    }

    /// Lets the next event of the log happen, and tells the alarm of what is left if it raises one, before
    /// anything behind it is read. Without a next event the answer is false.
    ///
    /// # Errors
    /// `Log` for the first wrong line, or where the source failed; `Replay` where the next event cannot
    /// happen, or at a limit; `Write` where the sink failed. An alarm before it was told.
    pub fn step<I: Source, O: Sink>(
        &mut self,
        alloc: Global,
        left: &LeftOut,
        source: &mut I,
        sink: &mut O,
    ) -> Result<bool, WatchFault>
        requires { CanGoOn (left_of left.now) self.old }
        ensures goes_on { OnOk result (CanGoOn (left_of left.now) self.new) }
        ensures steps { (read old : Option (List ℕ))
            → IsUnderWay (left_of left.now) read (I.remaining source.old) old (O.contents sink.old) self.old
            → Steps (left_of left.now) read old self.old result self.new (I.remaining source.new) (O.contents sink.new) }
        ensures config { self.new.rest.world.config ≡ self.old.rest.world.config }
        ensures advances { IfOk result (λ more. length self.new.whole.trace.events
            ≡ length self.old.whole.trace.events + (if more then 1 else 0)) }
        ensures unread { HasWholeLine self.old.reader.held → source.new ≡ source.old }
        ensures reads { I.failures source.new ≡ read_failures result (I.failures source.old) }
        ensures writes { O.failures sink.new ≡ write_failures result (O.failures sink.old) }
    {
        let event = match self.reader.next(source) {
            Ok(Some(event)) => event,
            Ok(None) => return Ok(false),
            Err(fault) => return Err(WatchFault::Log(fault)),
        };
        let told = self.has_told();
        match self.admit(left, &event) {
            Ok(()) => {}
            Err(fault) => return Err(WatchFault::Replay(fault)),
        }
        if !told {
            self.rest.tell(alloc, sink)?;
        }
        Ok(true)
    }

    /// How many events were read.
    pub fn count_events(&self) -> usize
        ensures { result ≡ length self.now.whole.trace.events }
    {
        self.whole.trace.len()
    }

    /// Whether an alarm was told.
    pub fn has_told(&self) -> bool
        ensures { IsTrue result ↔ HasCycle self.now.rest.world.log }
    {
        self.rest.world.alarm().is_some()
    }

    /// What is left of the events so far, after their end.
    pub fn close(self) -> ClosedRest
        ensures closed { result.closed ≡ self.rest.world }
        ensures places { result.places.items ≡ self.rest.places.items }
    {
        self.rest.close()
    }

    /// Lets the event happen after the others.
    ///
    /// # Errors
    /// Why it can't.
    fn admit(&mut self, left: &LeftOut, event: &Event) -> Result<(), LogReplayFault>
        requires { CanGoOn (left_of left.now) self.old }
        ensures goes_on { OnOk result (CanGoOn (left_of left.now) self.new) }
        ensures log { OnOk result (self.new.whole.trace.events ≡ self.old.whole.trace.events ++ event.now ∷ []) }
        ensures reader { self.new.reader ≡ self.old.reader }
        ensures config { self.new.rest.world.config ≡ self.old.rest.world.config }
        ensures fault { IfErr result (IsFaultOfRest (left_of left.now) self.old.rest.world.config self.old.whole.trace.events event.now) }
    {
        let position = self.whole.trace.len();
        let limit = self.rest.world.config().events;
        match self.whole.take_in(limit, event) {
            Ok(()) => self
                .rest
                .follow(left, self.whole.trace.as_slice(), position),
            Err(fault) => Err(fault),
        }
    }
}

/// The configuration of a watch, which goes on after an alarm.
fn config_of(bounds: Bounds, events: u32, nodes: u16) -> Config
    requires bounds { AreBounds bounds }
    requires events { (1 ≤ events) × (events ≤ MAX_EVENTS) }
    requires nodes { (1 ≤ nodes) × (nodes ≤ MAX_NODES) }
    ensures bounds { result.bounds ≡ bounds }
    ensures events { result.events ≡ events }
    ensures nodes { result.nodes ≡ nodes }
    ensures goes_on { result.stop ≡ false }
{
    match Config::new(0, bounds, events, nodes, false) {
        Ok(config) => config,
        Err(_) => unreachable!(),
    }
}
