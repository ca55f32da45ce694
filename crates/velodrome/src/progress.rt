//! How far a search is, on standard error, and when it is over. Nothing of this is proved but that it is
//! safe, that it ends, and that only a search with a limit is said to be over.
ghost use Rattle.std.specs.Prelude.{◌≡◌, is_some};

use std::alloc::Global;
use std::cmp::max;
use std::time::{Clock, Duration};
use velo_bytes::{Sink, write_all};
use velo_cli::{ExploreProgress, Progress};

/// A search that takes no longer is not reported on a terminal, and lines that stay are no nearer
/// to one another: in milliseconds.
const PAUSE: u128 = 2_000;

/// A line that is written over is not written more often: in milliseconds.
const BLINK: u128 = 100;

/// When the progress of a search is printed, and in what form.
#[derive(Clone, Copy)]
struct Manner {
    /// Each line is written over the one before.
    over: bool,
    /// How long a search takes at least whose progress is printed, in milliseconds.
    patience: u128,
    /// How far the lines are at least from one another, in milliseconds.
    pause: u128,
}

/// In what manner the progress of a search is printed, if it is.
fn manner_of(is_terminal: bool, always: bool) -> Option<Manner> {
    match (is_terminal, always) {
        (true, _) => Some(Manner {
            over: true,
            patience: if always { 0 } else { PAUSE },
            pause: BLINK,
        }),
        (false, true) => Some(Manner {
            over: false,
            patience: 0,
            pause: PAUSE,
        }),
        (false, false) => None,
    }
}

/// Prints how far a search is, and says when its time is over.
#[derive(Drop)]
pub struct ProgressLine<'a, C, S> {
    clock: &'a C,
    alloc: Global,
    sink: S,
    is_terminal: bool,
    /// In what manner the progress is printed, if it is.
    manner: Option<Manner>,
    /// When the search began, on the clock.
    begun: Duration,
    /// After how many seconds it is over, if it is limited.
    seconds: Option<u32>,
    /// Whether it was said to be over.
    over: bool,
    /// How many milliseconds the search had taken when its progress was last printed, if it was.
    told: Option<u128>,
}

impl<'a, C: Clock, S: Sink> ProgressLine<'a, C, S> {
    /// Prints it on a sink that is a terminal, or is none.
    pub fn new(clock: &'a C, alloc: Global, sink: S, is_terminal: bool) -> ProgressLine<'a, C, S> {
        ProgressLine {
            clock,
            alloc,
            sink,
            is_terminal,
            manner: None,
            begun: Duration::ZERO,
            seconds: None,
            over: false,
            told: None,
        }
    }

    /// Whether the search has taken so many seconds. It has if the clock cannot be read.
    fn has_taken(&self, seconds: u32) -> bool {
        match self.clock.monotonic() {
            Ok(now) => now.saturating_sub(self.begun).as_secs() >= u64::from(seconds),
            Err(_) => true,
        }
    }

    /// Prints the progress of a search that has taken `taken` milliseconds. After a failure nothing
    /// more is printed.
    fn tell(&mut self, over: bool, taken: u128, levels: u64, states: u64)
        ensures seconds { self.new.seconds ≡ self.old.seconds }
        ensures over { self.new.over ≡ self.old.over }
    {
        self.told = Some(taken);
        let (before, after) = if over { ("\r", "\x1b[K") } else { ("", "\n") };
        let rate = states_a_second(states, taken);
        let text = format!(in self.alloc;
            "{before}levels {levels} states {states}, {rate} a second{after}"
        );
        let is_told = match text {
            Ok(text) => write_all(&mut self.sink, text.as_bytes()).is_ok(),
            Err(_) => false,
        };
        if !is_told {
            self.manner = None;
        }
    }
}

/// How many of the states were looked at in a second, of `taken` milliseconds.
fn states_a_second(states: u64, taken: u128) -> u128 {
    u128::from(states) * 1000 / max(taken, 1)
}

/// Whether it is time to print the progress of a search that has taken `taken` milliseconds, and
/// was last printed then.
fn is_due(manner: Manner, taken: u128, told: Option<u128>) -> bool {
    match told {
        Some(told) => taken.saturating_sub(told) >= manner.pause,
        None => taken >= manner.patience,
    }
}

impl<C: Clock, S: Sink> Progress for ProgressLine<'_, C, S> {
    ghost may_end = { λ s. is_some s.seconds };

    ghost says_over = { λ s. s.over };

    fn level_done(&mut self, levels: u64, states: u64) {
        let Some(manner) = self.manner else {
            return;
        };
        let Ok(now) = self.clock.monotonic() else {
            return;
        };
        let taken = now.saturating_sub(self.begun).as_millis();
        if is_due(manner, taken, self.told) {
            self.tell(manner.over, taken, levels, states);
        }
    }

    fn is_over(&mut self) -> bool {
        let Some(seconds) = self.seconds else {
            self.over = false;
            return false;
        };
        self.over = self.has_taken(seconds);
        self.over
    }
}

impl<C: Clock, S: Sink> ExploreProgress for ProgressLine<'_, C, S> {
    fn begin(&mut self, always: bool, seconds: Option<u32>) {
        self.told = None;
        self.manner = None;
        self.seconds = seconds;
        self.over = false;
        if let Ok(now) = self.clock.monotonic() {
            self.begun = now;
            self.manner = manner_of(self.is_terminal, always);
        }
    }

    fn end(&mut self) {
        if self.told.is_some() && self.manner.is_some_and(|manner| manner.over) {
            let _ = write_all(&mut self.sink, b"\r\x1b[K");
        }
        self.manner = None;
    }
}
