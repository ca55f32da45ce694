//! A world: log, heap, graph, alarm and book of one run.
ghost use Rattle.std.specs.Prelude.{◌≡◌, List, ◌≤◌, ◌<◌, ◌↔◌, ◌∷◌, ◌++◌, [], ℕ, length, None, Some, IfOk, IfSome, IfNone, OnErr, IsTrue, slice_get, slice_set};
ghost use Rattle.velo_events.specs.declared.event.Action.TheVariants.{Fork};
ghost use Rattle.velo_events.specs.declared.limits.TheConstants.{MAX_EVENTS};
ghost use Rattle.velo_events.specs.Block.{IsTransaction};
ghost use Rattle.velo_events.specs.Meaning.{action_of};
ghost use Rattle.velo_monitor.specs.Collection.{IsAccountedFor, IsGivenUp, IsHarmless};
ghost use Rattle.velo_events.specs.Graph.{HasCycle};
ghost use Rattle.velo_events.specs.Reordering.{IsSerializable};
ghost use Rattle.velo_events.specs.WellFormed.{IsWellFormed, MayFollow};
ghost use Rattle.velo_heap.specs.Contents.{bounds_of, IsHeapOf};
ghost use Rattle.velo_ledger.specs.Tally.{with_event};
ghost use Rattle.velo_ledger.specs.Book.{FitsBook, IsFilled, with_row, with_tally};
ghost use Rattle.velo_ledger.specs.Shares.{AreInPlace, events_in_all, opening_share, share_at};
ghost use Rattle.velo_arena.specs.Slots.{limit_of};
ghost use Rattle.velo_arena.specs.Stamps.{stamps_in};
ghost use Rattle.velo_monitor.specs.Watched.{IsMonitorOf};
ghost use Rattle.velo_world.specs.World.{IsAlarm, ForWatchedPart, opening, halted_world, meaning, FitsLog, OthersStillFit, IsBookOf, IsLiveThread, HoldsLiveShares, CompletesShares, IsNoFork, Replies, Acts, Forks, Closes, StepsTo, RunsTo};
ghost use Rattle.velo_world.specs.Kept.{left_by, taken_by, with_share};

use crate::analysis::{Alarm, Analysis, Reply};
use crate::closed::Closed;
use crate::logged_run::LoggedRun;
use std::alloc::Global;
use std::marker::Model;
use velo_events::growth::reserve;
use velo_events::{Action, Bounds, Config, Event, Kind, Memory, Refusal, ThreadId};
use velo_heap::Heap;
use velo_ledger::{Book, Share, Shares, gather_both};
use velo_monitor::Monitor;
use velo_traces::Trace;

/// The log of a run with the heap that it leaves, an alarm once the log has a cycle, and a book of the threads' events.
///
/// Each action of a thread either is refused and changes nothing, or is one event. A thread acts by its share, which the
/// world keeps until the thread is forked.
#[derive(Drop)]
pub struct World {
    /// The run on its way.
    pub(crate) logged: LoggedRun,
    /// A row for each thread.
    pub(crate) book: Book,
    /// The shares of the threads that are not born yet.
    pub(crate) kept: Shares,
    /// Where it takes memory.
    pub(crate) alloc: Global,
}

impl Model for World {
    ghost use Rattle.velo_world.specs.World.{WorldState};

    ghost Value = { WorldState };

    ghost use Rattle.velo_world.specs.Inside.{state_of, IsWorldOfItsLog};

    ghost view = { state_of };

    ghost invariant = { IsWorldOfItsLog };
}

impl World {
    /// A world without events, and the share of thread 0.
    ///
    /// # Errors
    /// `Memory` where a growth was refused.
    pub fn new(alloc: Global, config: Config) -> Result<(World, Share), Memory>
        ensures world { IfOk result (λ opened. opened.0 ≡ opening config) }
        ensures share { IfOk result (λ opened. opened.1 ≡ opening_share config.run 0) }
    {
        let (book, mut kept) = Book::open(alloc, config.run, config.bounds.threads)?;
        let Some(share) = kept.take(ThreadId(0)) else {
            unreachable!()
        };
        let analysis = Analysis::new(alloc, &config)?;
        let log = Trace::new(alloc);
        let world = World {
            logged: LoggedRun {
                config,
                halted: false,
                log,
                analysis,
            },
            book,
            kept,
            alloc,
        };
        Ok((world, share))
    }

    /// Does an action of the share's thread, which is one event at the end of the log. The share has to fit, and the action is
    /// no fork. The shares that fitted fit again.
    ///
    /// # Errors
    /// The first refusal that applies: `Halted` (1), those of the heap (2 to 16), `LogFull` (17), `GraphFull` (18), which only a
    /// limit of fewer nodes than the threads squared brings, and no event inside a block or after an alarm ever meets, `Memory`
    /// (19). Nothing changes then, the share neither.
    pub fn act(&mut self, share: &mut Share, action: Action) -> Result<Reply, Refusal>
        requires fork { IsNoFork action }
        requires fits { FitsLog self.old share.old }
        ensures outcome { Acts self.old share.old action result self.new share.new }
        ensures fits { FitsLog self.new share.new }
        ensures others { OthersStillFit self.old share.old.thread self.new }
    {
        let (event, reply) = self.logged.perform(share.thread(), action)?;
        self.book.enter(share, reply.position, &event);
        Ok(reply)
    }

    /// Forks a thread, which is one event of the share's thread, and hands out the share that the child begins with. The
    /// share has to fit. The child's share fits, and the shares that fitted fit again.
    ///
    /// # Errors
    /// The first refusal that applies, as for `act`. Nothing changes then, the share neither.
    pub fn fork(&mut self, share: &mut Share, child: ThreadId) -> Result<(Reply, Share), Refusal>
        requires { FitsLog self.old share.old }
        ensures outcome { Forks self.old share.old child result self.new share.new }
        ensures fits { FitsLog self.new share.new }
        ensures born { IfOk result (λ forked. FitsLog self.new forked.1) }
        ensures others { OthersStillFit self.old share.old.thread self.new }
    {
        let (event, reply) = self.logged.perform(share.thread(), Action::Fork(child))?;
        self.book.enter(share, reply.position, &event);
        match self.kept.take(child) {
            Some(born) => Ok((reply, born)),
            None => unreachable!(),
        }
    }

    /// Does the steps one after another, each by the share of its thread, and answers one outcome for each. The share of
    /// a forked thread comes to its place.
    ///
    /// # Errors
    /// `Memory` where the room for the outcomes was refused, before any step.
    pub fn run(
        &mut self,
        shares: &mut Shares,
        steps: &[(ThreadId, Action)],
    ) -> Result<Vec<Result<Reply, Refusal>>, Memory>
        requires { HoldsLiveShares self.old shares.old }
        ensures outcomes { IfOk result (λ outcomes.
            RunsTo self.old shares.old steps.now outcomes.items self.new shares.new) }
        ensures count { IfOk result (λ outcomes. length outcomes.items ≡ length steps.now) }
        ensures world { OnErr result (self.new ≡ self.old) }
        ensures shares { OnErr result (shares.new ≡ shares.old) }
        ensures ready { HoldsLiveShares self.new shares.new }
        ensures filled { (t : ℕ) → IsFilled shares.old t → IsFilled shares.new t }
        ensures complete { CompletesShares self.old shares.old → CompletesShares self.new shares.new }
    {
        let mut outcomes: Vec<Result<Reply, Refusal>> = Vec::new(self.alloc);
        reserve(&mut outcomes, steps.len())?;
        for (thread, action) in steps {
            outcomes.push_reserved(self.act_as(shares, *thread, *action));
        }
        Ok(outcomes)
    }

    /// Does one action of a thread, a fork or any other, by the share at the thread's place.
    ///
    /// # Errors
    /// The first refusal that applies, as for `act`. Nothing changes then, the shares neither.
    pub fn act_as(
        &mut self,
        shares: &mut Shares,
        thread: ThreadId,
        action: Action,
    ) -> Result<Reply, Refusal>
        requires { HoldsLiveShares self.old shares.old }
        ensures outcome { StepsTo self.old shares.old thread action result self.new shares.new }
        ensures ready { HoldsLiveShares self.new shares.new }
        ensures filled { (t : ℕ) → IsFilled shares.old t → IsFilled shares.new t }
        ensures complete { CompletesShares self.old shares.old → CompletesShares self.new shares.new }
    {
        let (event, reply) = self.logged.perform(thread, action)?;
        self.book.enter_at(shares, reply.position, &event);
        hand_over(&mut self.kept, shares, &event);
        Ok(reply)
    }

    /// What the world was opened with.
    pub fn config(&self) -> Config
        ensures { result ≡ self.now.config }
    {
        self.logged.config
    }

    /// How many threads, variables and locks there are.
    pub fn bounds(&self) -> Bounds
        ensures { result ≡ self.now.config.bounds }
    {
        self.logged.config.bounds
    }

    /// How many threads there are.
    pub fn threads(&self) -> u8
        ensures { result ≡ self.now.config.bounds.threads }
    {
        self.bounds().threads
    }

    /// The events so far.
    pub fn log(&self) -> &Trace
        ensures events { result.now.events ≡ self.now.log }
        ensures well_formed { IsWellFormed self.now.config.bounds self.now.log }
        ensures limit { length self.now.log ≤ self.now.config.events }
    {
        &self.logged.log
    }

    /// The heap that the log leaves.
    pub fn heap(&self) -> &Heap
        ensures stands { IsHeapOf result.now self.now.log }
        ensures bounds { bounds_of result.now ≡ self.now.config.bounds }
    {
        &self.logged.analysis.heap
    }

    /// The graph of the log's transactions; with an alarm, of those before it. A transaction that it gave up is on no cycle,
    /// however the run goes on.
    pub fn monitor(&self) -> &Monitor
        ensures stands { ForWatchedPart self.now.log (λ trace.
            IsMonitorOf self.now.config.bounds result.now trace) }
        ensures accounted { ForWatchedPart self.now.log (λ trace. (a : ℕ) → IsTransaction trace a →
            IsAccountedFor trace (stamps_in result.now.nodes.slots) a) }
        ensures given_up { ForWatchedPart self.now.log (λ trace. (a : ℕ) →
            IsGivenUp trace (stamps_in result.now.nodes.slots) a →
            IsHarmless self.now.config.bounds trace a) }
        ensures limit { limit_of result.now.nodes.slots ≡ self.now.config.nodes }
    {
        &self.logged.analysis.monitor
    }

    /// The book of the log, with a row for each thread.
    pub fn book(&self) -> &Book
        ensures { IsBookOf self.now result.now }
    {
        &self.book
    }

    /// The alarm, if the log has a cycle: the first event that closed one, however the log went on. Without a cycle, and only
    /// then, some reordering of the log is serial.
    pub fn alarm(&self) -> Option<&Alarm>
        ensures none { IfNone result (¬ HasCycle self.now.log) }
        ensures some { IfSome result (λ alarm. IsAlarm self.now.log alarm.now) }
        ensures serial_none { IfNone result (IsSerializable self.now.log) }
        ensures serial_some { IfSome result (λ alarm. ¬ IsSerializable self.now.log) }
    {
        self.logged.analysis.alarm.as_ref()
    }

    /// Refuses every action from now on.
    pub fn halt(&mut self)
        ensures { self.new ≡ halted_world self.old }
    {
        self.logged.halted = true;
    }

    /// Whether every action is refused: after `halt`, and after an alarm where the configuration says `stop`.
    pub fn is_halted(&self) -> bool
        ensures { result ≡ self.now.halted }
    {
        self.logged.halted
    }

    /// Whether the share is of this run and of a thread of this world, and says what the log says of it.
    pub fn fits(&self, share: &Share) -> bool
        ensures { IsTrue result ↔ FitsLog self.now share.now }
    {
        self.book.fits(share)
    }

    /// Ends the run.
    ///
    /// # Errors
    /// The world and the shares as they were, exactly where those that the world keeps and those given are not one
    /// fitting share of each thread.
    pub fn close(self, given: Shares) -> Result<Closed, (World, Shares)>
        ensures closes { Closes self given result }
        ensures sum { IfOk result (λ closed. events_in_all given ≡ length closed.log) }
    {
        if self.is_complete(&given) {
            Ok(self.into_closed())
        } else {
            Err((self, given))
        }
    }

    /// The world, in which nobody acts any more.
    fn into_closed(self) -> Closed
        ensures { result ≡ self }
    {
        let World { logged, book, .. } = self;
        let LoggedRun {
            config,
            halted,
            log,
            analysis,
        } = logged;
        Closed {
            config,
            halted,
            log,
            heap: analysis.heap,
            alarm: analysis.alarm,
            book,
        }
    }

    /// Whether the shares that the world keeps and those given are one fitting share of each thread, so that it can be closed.
    pub fn is_complete(&self, given: &Shares) -> bool
        ensures complete { IsTrue result ↔ CompletesShares self.now given.now }
        ensures sum { IsTrue result → events_in_all given.now ≡ length self.now.log }
    {
        gather_both(&self.book, &self.kept, given).is_some()
    }
}

/// Puts the share of the thread that the event forks, if it is a fork, from the one places to the others, where none is.
#[inline]
pub fn hand_over(kept: &mut Shares, shares: &mut Shares, event: &Event)
    requires { IfSome (taken_by kept.old (action_of event.now.kind)) (λ share. slice_get shares.old share.thread.0 ≡ Some None) }
    ensures kept { kept.new ≡ left_by kept.old (action_of event.now.kind) }
    ensures shares { shares.new ≡ with_share shares.old (taken_by kept.old (action_of event.now.kind)) }
{
    let Kind::Fork(child) = event.kind else {
        return;
    };
    let Some(share) = kept.take(child) else {
        return;
    };
    if shares.put(share).is_err() {
        unreachable!()
    }
}
