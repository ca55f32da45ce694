//! A run on its way: its log, and what follows from it.
ghost use Rattle.std.specs.Prelude.{◌≡◌, ◌<◌, ◌++◌, ◌∷◌, ◌&&◌, [], length, OnOk, IfErr};
ghost use Rattle.velo_events.specs.WellFormed.{MayFollow};
ghost use Rattle.velo_world.specs.World.{meaning, Replies};
ghost use Rattle.velo_world.specs.LoggedRun.{logged_state, FollowsFromItsLog, FindsNoRoom, Performs};
ghost use Rattle.velo_world.specs.Analysis.{HasRoomForNext};

use crate::analysis::{Analysis, Reply};
use velo_arena::GraphFull;
use velo_events::{Action, Config, Event, Memory, Refusal, Resolved, ThreadId};
use velo_traces::Trace;

/// A log within its limit, and what follows from it.
#[derive(Drop)]
pub struct LoggedRun {
    /// What the run was opened with.
    pub config: Config,
    /// Whether every action is refused.
    pub halted: bool,
    /// The events so far.
    pub log: Trace,
    /// What follows from them.
    pub analysis: Analysis,
}

impl LoggedRun {
    /// Does an action of the thread, which is one event at the end of the log.
    ///
    /// # Errors
    /// The first refusal that applies. Nothing changes then.
    pub fn perform(&mut self, thread: ThreadId, action: Action) -> Result<(Event, Reply), Refusal>
        requires { FollowsFromItsLog self.old }
        ensures stands { FollowsFromItsLog self.new }
        ensures outcome { Performs (logged_state self.old) thread action result (logged_state self.new) }
    {
        let event = self.decide(thread, action)?;
        match self.make_room(&event) {
            Ok(()) => Ok((event, self.commit(event))),
            Err(refusal) => Err(refusal),
        }
    }

    /// The event that an action is, or the first refusal that applies.
    #[inline]
    fn decide(&self, thread: ThreadId, action: Action) -> Result<Event, Refusal>
        requires { FollowsFromItsLog self.now }
        ensures { result ≡ meaning (logged_state self.now) thread action }
    {
        if self.halted {
            return Err(Refusal::Halted);
        }
        let event = self.analysis.heap.admit(thread, action)?;
        if self.log.len() >= self.config.events as usize {
            return Err(Refusal::LogFull);
        }
        Ok(event)
    }

    /// Makes room for the event, which may come next.
    #[inline]
    pub fn make_room(&mut self, event: &Event) -> Result<(), Refusal>
        requires stands { FollowsFromItsLog self.old }
        requires follows { MayFollow self.old.config.bounds self.old.log.events event.now }
        requires short { length self.old.log.events < self.old.config.events }
        ensures stands { FollowsFromItsLog self.new }
        ensures same { logged_state self.new ≡ logged_state self.old }
        ensures log { OnOk result (0 < self.new.log.room) }
        ensures room { OnOk result (HasRoomForNext self.new.analysis self.new.log.events event.now) }
        ensures none { IfErr result (λ refusal. FindsNoRoom (logged_state self.old) event.now refusal) }
    {
        match self
            .analysis
            .make_node_room(self.log.as_slice(), event, &self.config)
        {
            Ok(()) => {}
            Err(GraphFull) => return Err(Refusal::GraphFull),
        }
        if self.log.reserve_one().is_err() {
            return Err(Refusal::Memory);
        }
        match self.analysis.reserve_for(&Resolved::of(event)) {
            Ok(()) => Ok(()),
            Err(Memory) => Err(Refusal::Memory),
        }
    }

    /// Takes in the event, which may come next and for which there is room.
    #[inline]
    pub fn commit(&mut self, event: Event) -> Reply
        requires stands { FollowsFromItsLog self.old }
        requires follows { MayFollow self.old.config.bounds self.old.log.events event }
        requires log { 0 < self.old.log.room }
        requires room { HasRoomForNext self.old.analysis self.old.log.events event }
        requires short { length self.old.log.events < self.old.config.events }
        ensures stands { FollowsFromItsLog self.new }
        ensures config { self.new.config ≡ self.old.config }
        ensures log { self.new.log.events ≡ self.old.log.events ++ event ∷ [] }
        ensures halted { self.new.halted ≡ (self.old.config.stop && result.alarmed) }
        ensures replies { Replies self.old.log.events event result }
    {
        let position = self.log.len();
        self.log.push_reserved(event);
        self.analysis
            .take_in(self.log.as_slice(), position, &Resolved::of(&event));
        let alarmed = self.analysis.alarm.is_some();
        self.halted = self.config.stop && alarmed;
        Reply {
            position,
            value: event.kind.value_read(),
            alarmed,
        }
    }
}
