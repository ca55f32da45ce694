//! Bytes in memory as a source, in pieces and with failures as a test wants them.
ghost use Rattle.std.specs.Prelude.{◌≡◌, ◌≤◌, max, min, Some, length, IfOk, OnOk, OnErr};
ghost use Rattle.std.specs.Io.{ReadsAtMost};
ghost use Rattle.std.specs.Io.KnownBytes.{ReadConsumes};
ghost use Rattle.velo_bytes.specs.Device.{count_at_once, left_after, with_failure};

use crate::device::{Failed, Source};

/// Bytes as a source. It gives as many at a time as the piece takes, unless set otherwise.
#[derive(Drop)]
pub struct Bytes<'a> {
    rest: &'a [u8],
    /// The most that one read gives, at least 1.
    pub step: usize,
    /// How many bytes are left before each read fails, if they are to fail.
    pub until_failure: Option<usize>,
    failures: u64,
    ghost some: { 1 ≤ step },
}

impl<'a> Bytes<'a> {
    /// A source of these bytes.
    pub fn new(bytes: &'a [u8]) -> Bytes<'a>
        ensures { ⟦<Bytes<'a> as Source>⟧.remaining result ≡ Some bytes.now }
    {
        Bytes {
            rest: bytes,
            step: usize::MAX,
            until_failure: None,
            failures: 0,
        }
    }

    /// Gives at most this many bytes at a time, and at least one.
    pub fn in_steps(mut self, step: usize) -> Bytes<'a>
        ensures bytes { ⟦<Bytes<'a> as Source>⟧.remaining result ≡ ⟦<Bytes<'a> as Source>⟧.remaining self.entry }
        ensures step { result.step ≡ max step 1 }
    {
        self.step = step.max(1);
        self
    }

    /// Fails at each read once this many bytes were given.
    pub fn failing_after(mut self, count: usize) -> Bytes<'a>
        ensures bytes { ⟦<Bytes<'a> as Source>⟧.remaining result ≡ ⟦<Bytes<'a> as Source>⟧.remaining self.entry }
        ensures fails { result.until_failure ≡ Some count }
    {
        self.until_failure = Some(count);
        self
    }
}

impl Source for Bytes<'_> {
    ghost remaining = { λ s. Some s.rest.now };

    ghost failures = { λ s. s.failures };

    /// It fails exactly where it was set to fail. Else it gives what the piece takes, or as many as
    /// it was set to.
    fn read(&mut self, piece: &mut [u8]) -> Result<usize, Failed>
        ensures bound { ReadsAtMost result piece.new }
        ensures bytes { ReadConsumes (Some self.old.rest.now) (Some self.new.rest.now) result piece.new }
        ensures ok { OnOk result (self.new.failures ≡ self.old.failures) }
        ensures err { OnErr result (self.new.failures ≡ with_failure self.old.failures) }
        ensures fails { self.old.until_failure ≡ Some 0 → OnOk result ⊥ }
        ensures cause { OnErr result (self.old.until_failure ≡ Some 0) }
        ensures count { IfOk result (λ n.
            n ≡ count_at_once (min (length self.old.rest.now) (length piece.new)) self.old.step self.old.until_failure) }
        ensures left { IfOk result (λ n. self.new.until_failure ≡ left_after self.old.until_failure n) }
        ensures lasting { OnErr result (self.new.until_failure ≡ self.old.until_failure) }
        ensures step { self.new.step ≡ self.old.step }
    {
        let mut count = self.rest.len().min(piece.len()).min(self.step);
        if let Some(left) = self.until_failure {
            if left == 0 {
                self.failures = self.failures.wrapping_add(1);
                return Err(Failed);
            }
            count = count.min(left);
            self.until_failure = Some(left - count);
        }
        let (front, rest) = self.rest.split_at(count);
        piece[..count].copy_from_slice(front);
        self.rest = rest;
        Ok(count)
    }
}
