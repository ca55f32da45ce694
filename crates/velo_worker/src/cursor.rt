//! The place of a walk through a body.
ghost use Rattle.std.specs.Prelude.{◌≡◌, ◌<◌, ◌+◌, [], length};
ghost use Rattle.velo_worker.specs.Cursor.{moved_on, entered, repeated_or_left};

use std::marker::Model;
use velo_workload::MAX_OPEN_REPEATS;

/// A repeat that is being done.
#[derive(Clone, Copy)]
pub struct OpenRepeat {
    /// Where its statements start.
    pub start: usize,
    /// How many times they are done after this time.
    pub again: u64,
}

/// A position in a body, and the repeats that are open there.
#[derive(Drop)]
pub struct Cursor {
    position: usize,
    repeats: [OpenRepeat; MAX_OPEN_REPEATS],
    depth: usize,
}

impl Model for Cursor {
    ghost use Rattle.std.specs.Prelude.{◌≤◌};
    ghost use Rattle.velo_workload.specs.declared.limits.TheConstants.{MAX_OPEN_REPEATS};
    ghost use Rattle.velo_worker.specs.Cursor.{Cursor, innermost_first};

    ghost Value = { Cursor };

    ghost view = { λ p. record { position = p.position; repeats = innermost_first p.repeats p.depth } };

    ghost invariant = { λ p. p.depth ≤ MAX_OPEN_REPEATS };
}

impl Cursor {
    /// The start of a body.
    pub fn start() -> Cursor
        ensures { result ≡ record { position = 0; repeats = [] } }
    {
        let none = OpenRepeat { start: 0, again: 0 };
        Cursor {
            position: 0,
            repeats: [none; MAX_OPEN_REPEATS],
            depth: 0,
        }
    }

    /// The position of the statement that comes next.
    pub fn position(&self) -> usize
        ensures { result ≡ self.now.position }
    {
        self.position
    }

    /// Goes past a statement.
    pub fn move_on(&mut self)
        requires { self.old.position < usize.MAX }
        ensures { self.new ≡ moved_on self.old }
    {
        self.position += 1;
    }

    /// Goes into a repeat, or to its end where it is to be done no time.
    pub fn enter_repeat(&mut self, times: u64, end: usize)
        requires within { self.old.position < usize.MAX }
        requires room { length self.old.repeats < MAX_OPEN_REPEATS }
        ensures { self.new ≡ entered self.old times end }
    {
        if times == 0 {
            self.position = end;
            return;
        }
        self.position += 1;
        self.repeats[self.depth] = OpenRepeat {
            start: self.position,
            again: times - 1,
        };
        self.depth += 1;
    }

    /// Goes from the end of the innermost open repeat back to its start, or out of it where it was
    /// done often enough.
    pub fn repeat_or_leave(&mut self)
        requires within { self.old.position < usize.MAX }
        requires inside { 0 < length self.old.repeats }
        ensures { self.new ≡ repeated_or_left self.old.position self.old.repeats }
    {
        let innermost = self.depth - 1;
        let OpenRepeat { start, again } = self.repeats[innermost];
        if again == 0 {
            self.position += 1;
            self.depth = innermost;
            return;
        }
        self.position = start;
        self.repeats[innermost].again = again - 1;
    }
}
