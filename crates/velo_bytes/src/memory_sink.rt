//! Bytes in memory as a sink, in pieces and with failures as a test wants them.
ghost use Rattle.std.specs.Prelude.{◌≡◌, ◌<◌, ◌≤◌, ◌⊎◌, max, Some, [], length, IfOk, OnOk, OnErr};
ghost use Rattle.std.specs.Io.{WritesAtMost};
ghost use Rattle.std.specs.Io.KnownBytes.{WriteAppends};
ghost use Rattle.velo_events.specs.Refusals.{GrowthRefused};
ghost use Rattle.velo_bytes.specs.Device.{count_at_once, left_after, with_failure};

use crate::device::{Failed, Sink};
use crate::growing::append;
use std::alloc::Global;

/// Bytes in memory as a sink. It takes all that it is given, unless set otherwise.
#[derive(Drop)]
pub struct Text {
    written: Vec<u8>,
    /// The most that one write takes, at least 1.
    pub step: usize,
    /// How many bytes are left before each write fails, if they are to fail.
    pub until_failure: Option<usize>,
    failures: u64,
    ghost some: { 1 ≤ step },
}

impl Text {
    /// A sink to which nothing was written.
    pub fn new(alloc: Global) -> Text
        ensures { ⟦<Text as Sink>⟧.contents result ≡ Some [] }
    {
        Text {
            written: Vec::new(alloc),
            step: usize::MAX,
            until_failure: None,
            failures: 0,
        }
    }

    /// Takes at most this many bytes at a time, and at least one.
    pub fn in_steps(mut self, step: usize) -> Text
        ensures bytes { ⟦<Text as Sink>⟧.contents result ≡ ⟦<Text as Sink>⟧.contents self }
        ensures step { result.step ≡ max step 1 }
    {
        self.step = step.max(1);
        self
    }

    /// Fails at each write once this many bytes more were taken.
    pub fn failing_after(mut self, count: usize) -> Text
        ensures bytes { ⟦<Text as Sink>⟧.contents result ≡ ⟦<Text as Sink>⟧.contents self }
        ensures fails { result.until_failure ≡ Some count }
    {
        self.until_failure = Some(count);
        self
    }

    /// What was written.
    pub fn as_slice(&self) -> &[u8]
        ensures { ⟦<Text as Sink>⟧.contents self.now ≡ Some result.now }
    {
        self.written.as_slice()
    }
}

impl Sink for Text {
    ghost contents = { λ s. Some s.written.items };

    ghost failures = { λ s. s.failures };

    /// It fails where it was set to fail, and if an allocation failed. Else it takes all, or as
    /// many as it was set to.
    fn write(&mut self, piece: &[u8]) -> Result<usize, Failed>
        ensures bound { WritesAtMost result piece.now }
        ensures some { 0 < length piece.now → IfOk result (λ n. 0 < n) }
        ensures bytes { WriteAppends (Some self.old.written.items) (Some self.new.written.items) result piece.now }
        ensures ok { OnOk result (self.new.failures ≡ self.old.failures) }
        ensures err { OnErr result (self.new.failures ≡ with_failure self.old.failures) }
        ensures fails { self.old.until_failure ≡ Some 0 → OnOk result ⊥ }
        ensures cause { OnErr result ((self.old.until_failure ≡ Some 0) ⊎ GrowthRefused) }
        ensures count { IfOk result (λ n. n ≡ count_at_once (length piece.now) self.old.step self.old.until_failure) }
        ensures left { IfOk result (λ n. self.new.until_failure ≡ left_after self.old.until_failure n) }
        ensures lasting { OnErr result (self.new.until_failure ≡ self.old.until_failure) }
        ensures step { self.new.step ≡ self.old.step }
    {
        let mut count = piece.len().min(self.step);
        if let Some(left) = self.until_failure {
            if left == 0 {
                self.failures = self.failures.wrapping_add(1);
                return Err(Failed);
            }
            count = count.min(left);
        }
        if append(&mut self.written, &piece[..count]).is_err() {
            self.failures = self.failures.wrapping_add(1);
            return Err(Failed);
        }
        self.until_failure = self.until_failure.map(|left| left.saturating_sub(count));
        Ok(count)
    }
}
