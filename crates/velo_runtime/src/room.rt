//! A world that threads share, with what each of them waits for.
ghost use Rattle.velo_events.specs.Refusals.{GrowthRefused};
ghost use Rattle.std.specs.Prelude.{◌≡◌, ◌≢◌, ◌<◌, ◌+◌, ◌⊎◌, ◌↔◌, None, Err, IfOk, IfErr, IfSome, IfNone, IsFalse, IsTrue, sum_by, length, replicate};
ghost use Rattle.velo_events.specs.declared.refusal.Refusal.TheVariants as refusal;
ghost use Rattle.velo_events.specs.declared.limits.TheConstants.{MAX_THREADS};
ghost use Rattle.velo_events.specs.Graph.{HasCycle};
ghost use Rattle.velo_events.specs.Reordering.{IsSerializable};
ghost use Rattle.velo_ledger.specs.Shares.{events_in_all, opening_share};
ghost use Rattle.velo_world.specs.World.{IsAlarm};
ghost use Rattle.velo_world.specs.World.{halted_world};
ghost use Rattle.velo_world.specs.World.{CompletesShares, FitsLog};
ghost use Rattle.velo_world.specs.World.{IsNoFork};
ghost use Rattle.velo_runtime.specs.declared.wait.Turn.TheVariants as turn;
ghost use Rattle.velo_runtime.specs.Rooms.{IsThere, opening_room};
ghost use Rattle.velo_runtime.specs.Steps.{ActsIn, ForksIn, StepsIn, StepsForking};
ghost use Rattle.velo_runtime.specs.Turns.{TakesTurn, IsTurnAfter, TurnsIn, wanted_by};
ghost use Rattle.velo_runtime.specs.Waits.{ComesBackIn, wait_of};
ghost use Rattle.velo_runtime.specs.Leads.{set_of, AreLeads, AreNextLeads};
ghost use Rattle.velo_runtime.specs.Seats.{AreSeatsOf};
ghost use Rattle.velo_runtime.specs.Places.{AreTogether, events_of_all};

use crate::seat::Seat;
use crate::wait::{Turn, Wanted};
use std::alloc::Global;
use std::marker::Model;
use velo_events::growth::filled;
use velo_events::{Action, Bounds, Config, Memory, Refusal, Status, ThreadId, ThreadSet};
use velo_ledger::Shares;
use velo_world::{Alarm, Closed, Reply, World};

/// A world that threads share, each by its seat, with what each of them waits for.
#[derive(Drop)]
pub struct Room {
    world: World,
    /// What each thread waits for.
    waits: Vec<Option<Wanted>>,
    /// An empty place for each thread's share. They are there from the start, so that closing takes
    /// no memory.
    places: Shares,
}

impl Model for Room {
    ghost use Rattle.std.specs.Prelude.{◌≡◌, None, replicate};
    ghost use Rattle.velo_runtime.specs.Rooms.{RoomState, AreWaitsWithin};

    ghost Value = { RoomState };

    ghost view = { λ room. record { world = room.world; waits = room.waits.items } };

    ghost invariant = { λ room. (room.places ≡ replicate room.world.config.bounds.threads None)
        × AreWaitsWithin room.world.config.bounds room.waits.items };
}

impl Room {
    /// A room without events, and the seat of thread 0.
    ///
    /// # Errors
    /// `Memory` if an allocation failed.
    pub(crate) fn open(alloc: Global, config: Config) -> Result<(Room, Seat), Memory>
        ensures room { IfOk result (λ opened. opened.0 ≡ opening_room config) }
        ensures seat { IfOk result (λ opened. opened.1 ≡ opening_share config.run 0) }
    {
        let waits = no_waits(alloc, config.bounds.threads)?;
        let places = Shares::none(alloc, config.bounds.threads)?;
        let (world, share) = World::new(alloc, config)?;
        let room = Room {
            world,
            waits,
            places,
        };
        Ok((room, Seat { share }))
    }

    /// The world, to be read while the caller has the room: its log with heap, alarm, graph and
    /// book.
    pub fn world(&self) -> &World
        ensures { result.now ≡ self.now.world }
    {
        &self.world
    }

    /// How many threads, variables and locks there are.
    pub fn bounds(&self) -> Bounds
        ensures { result ≡ self.now.world.config.bounds }
    {
        self.world.bounds()
    }

    /// The alarm, if the log has a cycle so far. Without a cycle, and only then, some reordering of
    /// the log is serial.
    pub fn alarm(&self) -> Option<&Alarm>
        ensures none { IfNone result (¬ HasCycle self.now.world.log) }
        ensures some { IfSome result (λ alarm. IsAlarm self.now.world.log alarm.now) }
        ensures serial_none { IfNone result (IsSerializable self.now.world.log) }
        ensures serial_some { IfSome result (λ alarm. ¬ IsSerializable self.now.world.log) }
    {
        self.world.alarm()
    }

    /// Whether every action is refused.
    pub fn is_halted(&self) -> bool
        ensures { result ≡ self.now.world.halted }
    {
        self.world.is_halted()
    }

    /// How many events the log has.
    pub fn count_events(&self) -> usize
        ensures { result ≡ length self.now.world.log }
    {
        self.world.log().len()
    }

    /// Refuses every action from now on.
    pub(crate) fn halt(&mut self)
        ensures { self.new ≡ record self.old { world = halted_world self.old.world } }
    {
        self.world.halt();
    }

    /// Ends the run of a room that was opened with the configuration. It takes no memory.
    ///
    /// # Errors
    /// Room and seats as they were, exactly where the room was opened with another configuration,
    /// or the seats are not one fitting seat of each thread that was born.
    pub(crate) fn close_as(
        self,
        config: Config,
        seats: Vec<Seat>,
    ) -> Result<Closed, (Room, Vec<Seat>)>
        ensures closed { IfOk result (λ closed. closed ≡ self.world) }
        ensures config { IfOk result (λ closed. closed.config ≡ config) }
        ensures all { IfOk result (λ closed. AreSeatsOf self.world seats.items) }
        ensures total { IfOk result (λ closed.
            length closed.log ≡ sum_by (λ seat. seat.tally.events) seats.items) }
        ensures room { IfErr result (λ back. back.0 ≡ self) }
        ensures seats { IfErr result (λ back. back.1 ≡ seats) }
        ensures cause { IfErr result (λ back.
            (self.world.config ≢ config) ⊎ ¬ AreSeatsOf self.world seats.items) }
    {
        if self.world.config() != config {
            return Err((self, seats));
        }
        self.close(seats)
    }

    /// Ends the run. It takes no memory.
    ///
    /// # Errors
    /// Room and seats as they were, exactly where the seats are not one fitting seat of each thread
    /// that was born.
    fn close(self, mut seats: Vec<Seat>) -> Result<Closed, (Room, Vec<Seat>)>
        ensures closed { IfOk result (λ closed. closed ≡ self.world) }
        ensures all { IfOk result (λ closed. AreSeatsOf self.world seats.items) }
        ensures total { IfOk result (λ closed.
            length closed.log ≡ sum_by (λ seat. seat.tally.events) seats.items) }
        ensures room { IfErr result (λ back. back.0 ≡ self) }
        ensures seats { IfErr result (λ back. back.1 ≡ seats) }
        ensures cause { IfErr result (λ back. ¬ AreSeatsOf self.world seats.items) }
    {
        let Room {
            world,
            waits,
            mut places,
        } = self;
        if !put_all(&world, &mut places, &mut seats) {
            let room = Room {
                world,
                waits,
                places,
            };
            return Err((room, seats));
        }
        match world.close(places) {
            Ok(closed) => Ok(closed),
            Err(_) => unreachable!(),
        }
    }

    /// Whether the seat's share says what the book says of its thread.
    fn fits(&self, seat: &Seat) -> bool
        ensures { IsTrue result ↔ FitsLog self.now.world seat.now }
    {
        self.world.fits(&seat.share)
    }

    /// Does an action that is no fork, by a seat that fits.
    fn act(&mut self, seat: &mut Seat, action: Action) -> Result<Reply, Refusal>
        requires fork { IsNoFork action }
        requires fits { FitsLog self.old.world seat.old }
        ensures { ActsIn self.old seat.old action result self.new seat.new }
    {
        self.world.act(&mut seat.share, action)
    }

    /// Forks a thread, by a seat that fits.
    fn fork(&mut self, seat: &mut Seat, child: ThreadId) -> Result<(Reply, Seat), Refusal>
        requires { FitsLog self.old.world seat.old }
        ensures { ForksIn self.old seat.old child result self.new seat.new }
    {
        let (reply, share) = self.world.fork(&mut seat.share, child)?;
        Ok((reply, Seat { share }))
    }

    /// Does an action that is no fork, or has the thread wait, by a seat that fits.
    fn turn(&mut self, seat: &mut Seat, action: Action) -> Turn
        requires fork { IsNoFork action }
        requires fits { FitsLog self.old.world seat.old }
        ensures { TakesTurn self.old seat.old action result self.new seat.new }
    {
        let thread = seat.share.thread();
        let outcome = self.act(seat, action);
        let (turn, wait) = self.turn_after(thread, action, outcome);
        self.waits[usize::from(thread.0)] = wait;
        turn
    }

    /// What a turn returns after the outcome of its step, and what its thread waits for then.
    fn turn_after(
        &self,
        thread: ThreadId,
        action: Action,
        outcome: Result<Reply, Refusal>,
    ) -> (Turn, Option<Wanted>)
        requires { IfErr outcome (λ refusal. IfSome (wanted_by action refusal) (IsThere self.now.world.config.bounds)) }
        ensures turn { IsTurnAfter self.now thread action outcome result.0 result.1 }
        ensures there { IfSome result.1 (IsThere self.now.world.config.bounds) }
    {
        let refusal = match outcome {
            Ok(reply) => return (Turn::Done(reply), None),
            Err(refusal) => refusal,
        };
        let Some(wanted) = wanted_by(action, refusal) else {
            return (Turn::Refused(refusal), None);
        };
        if comes_back(self, thread, wanted) {
            return (Turn::Refused(Refusal::WouldDeadlock), None);
        }
        (Turn::Wait, Some(wanted))
    }

    /// The threads that a wanted thing leads to.
    fn leads(&self, wanted: Wanted) -> ThreadSet
        requires { IsThere self.now.world.config.bounds wanted }
        ensures { AreLeads self.now.world.log wanted result }
    {
        let heap = self.world.heap();
        match wanted {
            Wanted::Lock(m) => heap.sharers(m).union(set_of(heap.holder(m))),
            Wanted::LockShared(m) => set_of(heap.holder(m)),
            Wanted::Thread(u) => match heap.status(u) {
                Status::Unborn | Status::Live => set_of(Some(u)),
                Status::Exited | Status::Joined => ThreadSet::none(),
            },
        }
    }

    /// The threads that what a thread waits for leads to, if it waits.
    fn next_leads(&self, thread: ThreadId) -> ThreadSet
        ensures { AreNextLeads self.now.world.log (wait_of self.now.waits thread.0) result }
    {
        match self.wait_of(thread) {
            Some(wanted) => self.leads(wanted),
            None => ThreadSet::none(),
        }
    }

    /// What a thread waits for.
    fn wait_of(&self, thread: ThreadId) -> Option<Wanted>
        ensures wait { result ≡ wait_of self.now.waits thread.0 }
        ensures there { IfSome result (IsThere self.now.world.config.bounds) }
    {
        match self.waits.get(usize::from(thread.0)) {
            None => None,
            Some(wait) => *wait,
        }
    }
}

/// A place for each thread, of which none waits.
fn no_waits(alloc: Global, threads: u8) -> Result<Vec<Option<Wanted>>, Memory>
    ensures { IfOk result (λ waits. waits.items ≡ replicate threads None) }
{
    filled(alloc, None, usize::from(threads))
}

/// Puts the seats' shares to their places, if they and those that are there are one fitting share
/// of each thread that was born. Else all stays as it was. A call puts the last seat's share and
/// has the rest done by one more call, so it knows without memory whose seat comes back at the end.
/// Each fills a place, so they are few.
fn put_all(world: &World, places: &mut Shares, seats: &mut Vec<Seat>) -> bool
    requires { length places.old ≡ world.now.config.bounds.threads }
    ensures all { IsTrue result ↔ AreTogether world.now places.old seats.old.items }
    ensures complete { IsTrue result → CompletesShares world.now places.new }
    ensures total { IsTrue result → events_in_all places.new ≡ events_in_all places.old + events_of_all seats.old.items }
    ensures places { IsFalse result → places.new ≡ places.old }
    ensures seats { IsFalse result → seats.new ≡ seats.old }
{
    if seats.is_empty() {
        return world.is_complete(places);
    }
    let Seat { share } = seats.take_last();
    let thread = share.thread();
    if let Err(share) = places.put(share) {
        seats.push_reserved(Seat { share });
        return false;
    }
    if put_all(world, places, seats) {
        return true;
    }
    let Some(share) = places.take(thread) else {
        unreachable!()
    };
    seats.push_reserved(Seat { share });
    false
}

/// Does one action of the seat's thread, where it is not a fork. The caller has the room, so this
/// waits for nobody.
///
/// # Errors
/// `Foreign` (22) where the seat's share does not fit the room's book, and else the refusals of the
/// world. Nothing changes then.
pub fn step_in(room: &mut Room, seat: &mut Seat, action: Action) -> Result<Reply, Refusal>
    requires { IsNoFork action }
    ensures step { StepsIn room.old seat.old action result room.new seat.new }
    ensures foreign { (result ≡ Err refusal.Foreign) ↔ ¬ FitsLog room.old.world seat.old }
    ensures memory { result ≡ Err refusal.Memory → GrowthRefused }
    ensures runtime { result ≢ Err refusal.RuntimeMemory }
{
    if !room.fits(seat) {
        return Err(Refusal::Foreign);
    }
    room.act(seat, action)
}

/// Forks a thread, and gives its seat. The caller has the room, so this waits for nobody.
///
/// # Errors
/// As `step_in`.
pub fn fork_in(room: &mut Room, seat: &mut Seat, child: ThreadId) -> Result<(Reply, Seat), Refusal>
    ensures step { StepsForking room.old seat.old child result room.new seat.new }
    ensures foreign { (result ≡ Err refusal.Foreign) ↔ ¬ FitsLog room.old.world seat.old }
    ensures memory { result ≡ Err refusal.Memory → GrowthRefused }
    ensures runtime { result ≢ Err refusal.RuntimeMemory }
{
    if !room.fits(seat) {
        return Err(Refusal::Foreign);
    }
    room.fork(seat, child)
}

/// Does one action of the seat's thread, where it is not a fork, or has the thread wait. The caller
/// has the room, so this call itself waits for nobody: if it returns `Wait`, make the same call
/// again after another thread has acted.
///
/// In place of `Busy` (6) of an acquire of either kind and `NotExited` (13) of a join the thread
/// waits, and the refusal is `WouldDeadlock` (20) where a chain of waits comes back to it. Every
/// other refusal is that of `step_in`.
pub fn turn_in(room: &mut Room, seat: &mut Seat, action: Action) -> Turn
    requires { IsNoFork action }
    ensures turn { TurnsIn room.old seat.old action result room.new seat.new }
    ensures foreign { (result ≡ turn.Refused refusal.Foreign) ↔ ¬ FitsLog room.old.world seat.old }
    ensures memory { result ≡ turn.Refused refusal.Memory → GrowthRefused }
    ensures runtime { result ≢ turn.Refused refusal.RuntimeMemory }
{
    if !room.fits(seat) {
        return Turn::Refused(Refusal::Foreign);
    }
    room.turn(seat, action)
}

/// Whether some chain of waits leads from what the caller wants back to the caller: a lock that is
/// wanted alone leads to each thread that holds it, alone or with others, one that is wanted shared
/// to the thread that holds it alone, a wanted thread to itself unless it has exited, and a thread
/// to what it waits for.
pub fn comes_back(room: &Room, caller: ThreadId, wanted: Wanted) -> bool
    requires { IsThere room.now.world.config.bounds wanted }
    ensures { IsTrue result ↔ ComesBackIn room.now caller wanted }
{
    // The threads that a chain is known to lead to, and those of them whose wait was followed.
    let mut reached = room.leads(wanted);
    let mut done = ThreadSet::none();
    while let Some(thread) = reached.difference(done).first() {
        done = done.with(thread);
        reached = reached.union(room.next_leads(thread));
    }
    reached.has(caller)
}

/// The thread, if there is one.
fn set_of(thread: Option<ThreadId>) -> ThreadSet
    requires { IfSome thread (λ t. t.0 < MAX_THREADS) }
    ensures { result ≡ set_of thread }
{
    match thread {
        Some(t) => ThreadSet::none().with(t),
        None => ThreadSet::none(),
    }
}

/// What the action waits for, where the refusal may pass.
fn wanted_by(action: Action, refusal: Refusal) -> Option<Wanted>
    ensures { result ≡ wanted_by action refusal }
{
    match (refusal, action) {
        (Refusal::Busy, Action::Acquire(m)) => Some(Wanted::Lock(m)),
        (Refusal::Busy, Action::AcquireShared(m)) => Some(Wanted::LockShared(m)),
        (Refusal::NotExited, Action::Join(u)) => Some(Wanted::Thread(u)),
        _ => None,
    }
}
