//! Who is told how far a search has come, and may end it.
ghost use Rattle.std.specs.Prelude.{◌≡◌, Bool, true, false};

/// Is told how far a search has come, and may end it.
pub trait Progress {
    /// Whether it may say that the search is over.
    ghost may_end: { Self → Bool };

    /// Whether it said so when it was last asked.
    ghost says_over: { Self → Bool };

    /// A level of the search is done: so many levels and states were looked at in all.
    fn level_done(&mut self, levels: u64, states: u64)
        ensures may { may_end self.new ≡ may_end self.old }
        ensures says { says_over self.new ≡ says_over self.old };

    /// Whether the search is over: no more states are to be looked at.
    fn is_over(&mut self) -> bool
        ensures may { may_end self.new ≡ may_end self.old }
        ensures says { says_over self.new ≡ result }
        ensures only { result ≡ true → may_end self.old ≡ true };
}

/// Tells nobody, and lets the search go on.
#[derive(Clone, Copy)]
pub struct Quiet;

impl Progress for Quiet {
    ghost may_end = { λ _. false };

    ghost says_over = { λ _. false };

    fn level_done(&mut self, _levels: u64, _states: u64) {}

    fn is_over(&mut self) -> bool {
        false
    }
}
