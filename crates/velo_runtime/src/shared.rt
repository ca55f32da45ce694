//! A room under its lock.
ghost use Rattle.velo_events.specs.Refusals.{GrowthRefused};
ghost use Rattle.std.specs.Prelude.{◌≡◌, length, sum_by, IfOk, IfErr, OnErr};
ghost use Rattle.velo_events.specs.declared.refusal.Refusal.TheVariants as refusal;
ghost use Rattle.velo_ledger.specs.Shares.{opening_share};
ghost use Rattle.velo_runtime.specs.Seats.{AreSeatsOf};

use crate::room::Room;
use crate::seat::Seat;
use std::alloc::Global;
use std::fmt;
use std::fmt::{Debug, Formatter, Write};
use std::sync::{Condvar, Mutex, MutexGuard, Wait};
use thiserror::Error;
use velo_events::{Config, Refusal};
use velo_world::Closed;

/// A room under its lock, for any number of threads.
#[derive(Drop)]
pub struct Shared {
    /// Whoever has the guard may do several actions in one hold, by `step_in`, `fork_in` and
    /// `turn_in`. They wake nobody.
    pub room: Mutex<Room>,
    /// Notified when a waiting thread may go on.
    changed: Condvar,
    /// What the room was opened with. It is beside the lock, since no clause can name what a lock
    /// holds.
    config: Config,
}

impl Shared {
    /// Opens a room without events, and gives the seat of thread 0.
    ///
    /// Runs that are alive together need numbers of their own in their configurations: a seat of
    /// one run fits another of the same number where its thread has the same events there.
    ///
    /// # Errors
    /// `RuntimeMemory` (21) if an allocation failed.
    pub fn open(alloc: Global, config: Config) -> Result<(Shared, Seat), Refusal>
        ensures config { IfOk result (λ opened. opened.0.config ≡ config) }
        ensures seat { IfOk result (λ opened. opened.1 ≡ opening_share config.run 0) }
        ensures cause { IfErr result (λ e. e ≡ refusal.RuntimeMemory) }
        ensures memory { OnErr result GrowthRefused }
    {
        let Ok((room, seat)) = Room::open(alloc, config) else {
            return Err(Refusal::RuntimeMemory);
        };
        let shared = Shared {
            room: Mutex::new(room),
            changed: Condvar::new(),
            config,
        };
        Ok((shared, seat))
    }

    /// What the room was opened with.
    pub fn config(&self) -> Config
        ensures { result ≡ self.now.config }
    {
        self.config
    }

    /// Refuses every action from now on, and notifies the threads that wait.
    pub fn halt<R: Wait>(&self, rt: &R) {
        self.room.lock(rt).halt();
        self.wake_all();
    }

    /// Notifies the threads that wait: each that wakes tries its action again.
    pub(crate) fn wake_all(&self) {
        self.changed.notify_all();
    }

    /// Lets the room go until it is woken, and takes it again.
    pub(crate) fn wait<'a, R: Wait>(
        &self,
        rt: &R,
        room: MutexGuard<'a, Room>,
    ) -> MutexGuard<'a, Room> {
        self.changed.wait(rt, room)
    }
}

/// What `close` gives back, all as it was.
#[derive(Drop, Error)]
#[error("a seat is missing, or one does not fit")]
pub struct Missing {
    /// The room under its lock.
    pub shared: Shared,
    /// The seats that were given.
    pub seats: Vec<Seat>,
}

impl Debug for Missing {
    fn fmt<W: Write>(&self, f: &mut Formatter<W>) -> fmt::Result {
        f.debug_struct("Missing").finish_non_exhaustive()
    }
}

/// Ends the run. It takes no memory. What is closed has the configuration with which the room was
/// opened.
///
/// # Errors
/// `Missing` where the seats are not one fitting seat of each thread that was forked, and of thread
/// 0; and where callers had the rooms of two runs change places, and the other run has another
/// configuration.
pub fn close(shared: Shared, seats: Vec<Seat>) -> Result<Closed, Missing>
    ensures config { IfOk result (λ closed. closed.config ≡ shared.config) }
    ensures seats { IfOk result (λ closed. AreSeatsOf closed seats.items) }
    ensures total { IfOk result (λ closed.
        length closed.log ≡ sum_by (λ seat. seat.tally.events) seats.items) }
    ensures back { IfErr result (λ missing. missing.seats ≡ seats) }
    ensures same { IfErr result (λ missing. missing.shared.config ≡ shared.config) }
{
    let Shared {
        room,
        changed,
        config,
    } = shared;
    match room.into_inner().close_as(config, seats) {
        Ok(closed) => Ok(closed),
        Err((room, seats)) => Err(Missing {
            shared: Shared {
                room: Mutex::new(room),
                changed,
                config,
            },
            seats,
        }),
    }
}
