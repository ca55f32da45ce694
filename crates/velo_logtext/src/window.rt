//! The bytes that a reader holds.
ghost use Rattle.std.specs.Prelude.{◌≡◌, ◌≤◌, ◌<◌, ◌⊎◌, ◌+◌, ◌-◌, [], true, false, length, take, drop, IfOk, OnOk, OnErr, IsTrue};
ghost use Rattle.std.specs.Io.KnownBytes.{IsAtEnd, Keeps, prepend_known};
ghost use Rattle.velo_bytes.specs.Device.{with_failure};
ghost use Rattle.velo_logtext.specs.declared.window.TheConstants.{LONGEST_LINE};

use std::alloc::Global;
use std::marker::Model;
use velo_bytes::{Failed, Source};
use velo_events::{Memory, growth};

/// The most bytes of a line before its newline.
pub const LONGEST_LINE: usize = 64;

/// Room for what a read gives at a time, after less than a line that was left.
const ROOM: usize = 65_536 + LONGEST_LINE;

/// Bytes that were read and not taken yet.
#[derive(Drop)]
pub struct Window {
    buffer: Vec<u8>,
    start: usize,
    end: usize,
    ended: bool,
}

impl Model for Window {
    ghost use Rattle.std.specs.Prelude.{◌≤◌, ◌<◌, ◌-◌, length, take, drop};
    ghost use Rattle.velo_logtext.specs.Window.{Window};
    ghost use Rattle.velo_logtext.specs.declared.window.TheConstants.{LONGEST_LINE};

    ghost Value = { Window };

    ghost view = { λ w. record { bytes = drop w.start (take w.end w.buffer.items); ended = w.ended } };

    ghost invariant = { λ w. (w.start ≤ w.end) × (w.end ≤ length w.buffer.items) × (LONGEST_LINE < length w.buffer.items) };
}

impl Window {
    /// No bytes yet.
    pub fn new(alloc: Global) -> Result<Window, Memory>
        ensures bytes { IfOk result (λ window. window.bytes ≡ []) }
        ensures ended { IfOk result (λ window. window.ended ≡ false) }
    {
        let buffer = growth::filled(alloc, 0u8, ROOM)?;
        Ok(Window {
            buffer,
            start: 0,
            end: 0,
            ended: false,
        })
    }

    /// The bytes.
    pub fn bytes(&self) -> &[u8]
        ensures { result.now ≡ self.now.bytes }
    {
        &self.buffer[self.start..self.end]
    }

    /// Whether the source has ended.
    pub fn is_ended(&self) -> bool
        ensures { result ≡ self.now.ended }
    {
        self.ended
    }

    /// Takes all but the last bytes.
    pub fn take_to(&mut self, left: usize)
        requires { left ≤ length self.old.bytes }
        ensures { self.new ≡ record self.old { bytes = drop (length self.old.bytes - left) self.old.bytes } }
    {
        self.start = self.end - left;
    }

    /// Reads once.
    pub fn read_once<S: Source>(&mut self, source: &mut S) -> Result<(), Failed>
        requires { length self.old.bytes ≤ LONGEST_LINE }
        ensures bytes { OnOk result
            (Keeps (prepend_known self.old.bytes (S.remaining source.old))
            (prepend_known self.new.bytes (S.remaining source.new))) }
        ensures known_end { OnOk result (IsTrue self.new.ended → IsAtEnd (S.remaining source.new)) }
        ensures progress { OnOk result
            ((length self.old.bytes < length self.new.bytes) ⊎ ((self.new.ended ≡ true)
            × (length self.old.bytes ≤ length self.new.bytes))) }
        ensures ok { OnOk result (S.failures source.new ≡ S.failures source.old) }
        ensures err { OnErr result (S.failures source.new ≡ with_failure (S.failures source.old)) }
    {
        let left = self.end - self.start;
        let count = read_behind(source, self.buffer.as_mut_slice(), self.end, left)?;
        self.start = 0;
        self.end = left + count;
        self.ended = count == 0;
        Ok(())
    }
}

/// Moves the last bytes of those that are there to the front, and reads once after them.
fn read_behind<S: Source>(
    source: &mut S,
    buffer: &mut [u8],
    end: usize,
    left: usize,
) -> Result<usize, Failed>
    requires within { end ≤ length buffer.old }
    requires few { left ≤ end }
    requires room { left < length buffer.old }
    ensures bytes { IfOk result (λ count.
        Keeps (prepend_known (drop (end - left) (take end buffer.old)) (S.remaining source.old))
        (prepend_known (take (left + count) buffer.new) (S.remaining source.new))) }
    ensures within { IfOk result (λ count. left + count ≤ length buffer.new) }
    ensures known_end { IfOk result (λ count. count ≡ 0 → IsAtEnd (S.remaining source.new)) }
    ensures ok { OnOk result (S.failures source.new ≡ S.failures source.old) }
    ensures err { OnErr result (S.failures source.new ≡ with_failure (S.failures source.old)) }
{
    keep(buffer, end, left);
    let count = source.read(&mut buffer[left..])?;
    Ok(count)
}

/// Moves the last bytes of those that are there to the front.
fn keep(buffer: &mut [u8], end: usize, left: usize)
    requires within { end ≤ length buffer.old }
    requires few { left ≤ end }
    ensures { take left buffer.new ≡ drop (end - left) (take end buffer.old) }
{
    buffer.copy_within(end - left..end, 0);
}
