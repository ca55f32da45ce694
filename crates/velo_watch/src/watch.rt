//! A log that is watched as it comes, event by event.
ghost use Rattle.std.specs.Prelude.{◌≡◌, ◌≤◌, List, ℕ, false, [], Option, IfOk, IfErr, OnOk, OnErr};
ghost use Rattle.velo_events.specs.declared.limits.TheConstants.{MAX_EVENTS, MAX_NODES};
ghost use Rattle.velo_bytes.specs.Device.{with_failure};
ghost use Rattle.velo_logtext.specs.Reader.{HasWholeLine};
ghost use Rattle.velo_logtext.specs.Text.{AreBounds};
ghost use Rattle.velo_watch.specs.declared.fault.WatchFault.TheVariants as watch_fault;
ghost use Rattle.velo_watch.specs.UnderWay.{Advances, HasTold, TellsPart, IsUnderWay, IsFaultOfOpening, Steps, read_failures, write_failures};

use crate::fault::WatchFault;
use crate::state::Watch;
use std::alloc::Global;
use velo_bytes::{Sink, Source, WriteFault};
use velo_events::{Bounds, Config};
use velo_logtext::LogReader;
use velo_report::alarm_line;
use velo_world::{Closed, LogReplayFault, RecordedWorld};

impl Watch {
    /// Reads the header of a log, and opens its world, without events. The limits are the most events that the log may have
    /// and the most nodes that the graph may have at one time.
    ///
    /// # Errors
    /// `Log` where the header is wrong or could not be read, and where a growth for the reader was refused; `Replay` with
    /// `Memory` where a growth for the world was refused.
    pub fn open<I: Source>(
        alloc: Global,
        source: &mut I,
        events: u32,
        nodes: u16,
    ) -> Result<Watch, WatchFault>
        requires events { (1 ≤ events) × (events ≤ MAX_EVENTS) }
        requires nodes { (1 ≤ nodes) × (nodes ≤ MAX_NODES) }
        ensures ok { IfOk result (λ watch. (contents : Option (List ℕ)) → IsUnderWay (I.remaining source.old) (I.remaining source.new) contents contents watch) }
        ensures no_events { IfOk result (λ watch. watch.world.log ≡ []) }
        ensures untold { IfOk result (λ watch. watch.told ≡ false) }
        ensures events { IfOk result (λ watch. watch.world.config.events ≡ events) }
        ensures nodes { IfOk result (λ watch. watch.world.config.nodes ≡ nodes) }
        ensures fault { IfErr result (IsFaultOfOpening (I.remaining source.old)) }
        ensures reads { I.failures source.new ≡ read_failures result (I.failures source.old) }
    {
        let reader = match LogReader::open(alloc, source) {
            Ok(reader) => reader,
            Err(fault) => return Err(WatchFault::Log(fault)),
        };
        let config = config_of(reader.bounds(), events, nodes);
        let Ok(world) = RecordedWorld::new(alloc, config) else {
            return Err(WatchFault::Replay(LogReplayFault::Memory));
        };
        Ok(Watch {
            reader,
            world,
            told: false,
        })
    }

    /// Lets the next event of the log come about, and tells the alarm if it raises one, before anything behind it is read.
    /// Without a next event the answer is false.
    ///
    /// # Errors
    /// `Log` for the first wrong line, or where the source failed; `Replay` where the next event can't come about; `Write`
    /// where the sink failed. An alarm before it was told.
    pub fn step<I: Source, O: Sink>(
        &mut self,
        source: &mut I,
        sink: &mut O,
    ) -> Result<bool, WatchFault>
        ensures steps { (read old : Option (List ℕ)) → IsUnderWay read (I.remaining source.old) old (O.contents sink.old) self.old → Steps read old self.old result self.new (I.remaining source.new) (O.contents sink.new) }
        ensures advances { IfOk result (λ more. Advances self.old.world more self.new.world) }
        ensures config { OnOk result (self.new.world.config ≡ self.old.world.config) }
        ensures unread { HasWholeLine self.old.reader.held → source.new ≡ source.old }
        ensures reads { I.failures source.new ≡ read_failures result (I.failures source.old) }
        ensures writes { O.failures sink.new ≡ write_failures result (O.failures sink.old) }
    {
        prove!(self.world.log().len() <= self.world.config().events as usize);
        let event = match self.reader.next(source) {
            Ok(Some(event)) => event,
            Ok(None) => return Ok(false),
            Err(fault) => return Err(WatchFault::Log(fault)),
        };
        match self.world.replay(&event) {
            Ok(()) => {}
            Err(fault) => return Err(WatchFault::Replay(fault)),
        }
        prove!(self.world.log().len() <= self.world.config().events as usize);
        if !self.told {
            self.told = tell(&self.world, sink)?;
        }
        Ok(true)
    }

    /// Whether an alarm was told.
    pub fn has_told(&self) -> bool
        ensures { result ≡ self.now.told }
    {
        self.told
    }

    /// The world of the events so far, after its end.
    pub fn close(self) -> Closed
        ensures { result ≡ self.world }
    {
        self.world.close()
    }
}

/// The configuration of a watch, which goes on after an alarm.
fn config_of(bounds: Bounds, events: u32, nodes: u16) -> Config
    requires bounds { AreBounds bounds }
    requires events { (1 ≤ events) × (events ≤ MAX_EVENTS) }
    requires nodes { (1 ≤ nodes) × (nodes ≤ MAX_NODES) }
    ensures bounds { result.bounds ≡ bounds }
    ensures events { result.events ≡ events }
    ensures nodes { result.nodes ≡ nodes }
    ensures goes_on { result.stop ≡ false }
{
    match Config::new(0, bounds, events, nodes, false) {
        Ok(config) => config,
        Err(_) => unreachable!(),
    }
}

/// Tells the alarm of a world, if there is one, and answers whether there is.
fn tell<O: Sink>(world: &RecordedWorld, sink: &mut O) -> Result<bool, WatchFault>
    ensures ok { IfOk result (λ told. HasTold told (O.contents sink.old) (O.contents sink.new) world.now.log) }
    ensures err { IfErr result (λ fault. fault ≡ watch_fault.Write) }
    ensures part { OnErr result (TellsPart (O.contents sink.old) (O.contents sink.new) world.now.log) }
    ensures no_failure { OnOk result (O.failures sink.new ≡ O.failures sink.old) }
    ensures failure { OnErr result (O.failures sink.new ≡ with_failure (O.failures sink.old)) }
{
    match world.alarm() {
        None => Ok(false),
        Some(alarm) => match alarm_line(alarm, sink) {
            Ok(()) => Ok(true),
            Err(WriteFault) => Err(WatchFault::Write),
        },
    }
}
