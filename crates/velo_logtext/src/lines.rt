//! The lines of a log, read from the front of bytes.
ghost use Rattle.std.specs.Prelude.{◌≡◌, false, not, option_map};
ghost use Rattle.velo_logtext.specs.Text.{has_kind};
ghost use Rattle.velo_logtext.specs.Reading.{access_at, thread_kind_at, block_kind_at, share_kind_at, lock_kind_at, kind_at, event_at, event_in, bounds_at, header_at};

use velo_bytes::{after, number, spaced_number};
use velo_events::{Bounds, Event, Kind, Label, LockId, MAX_LOCKS, MAX_THREADS, ThreadId, VarId};

/// A variable and a value.
#[inline(always)]
#[tactic(auto, unfolding(crate::specs::Reading::access_at))]
fn access(bytes: &[u8]) -> Option<(VarId, u64, &[u8])>
    ensures { option_map (λ r. ((r.0.0, r.1), r.2.now)) result ≡ access_at bytes.now }
{
    let (x, rest) = number(bytes, u64::from(u16::MAX))?;
    let rest = after(rest, b" ")?;
    let (value, rest) = number(rest, u64::MAX)?;
    Some((VarId(x as u16), value, rest))
}

/// A fork, a join or an exit.
#[inline(always)]
#[tactic(auto, unfolding(crate::specs::Reading::thread_kind_at))]
fn thread_kind(bytes: &[u8]) -> Option<(Kind, &[u8])>
    ensures { option_map (λ r. (r.0, r.1.now)) result ≡ thread_kind_at bytes.now }
{
    if let Some(rest) = after(bytes, b"fork ") {
        let (u, rest) = number(rest, u64::from(u8::MAX))?;
        return Some((Kind::Fork(ThreadId(u as u8)), rest));
    }
    if let Some(rest) = after(bytes, b"join ") {
        let (u, rest) = number(rest, u64::from(u8::MAX))?;
        return Some((Kind::Join(ThreadId(u as u8)), rest));
    }
    let rest = after(bytes, b"exit")?;
    Some((Kind::Exit, rest))
}

/// A begin or an end, or one of the above.
#[inline(always)]
#[tactic(auto, unfolding(crate::specs::Reading::block_kind_at))]
fn block_kind(bytes: &[u8]) -> Option<(Kind, &[u8])>
    ensures { option_map (λ r. (r.0, r.1.now)) result ≡ block_kind_at bytes.now }
{
    if let Some(rest) = after(bytes, b"begin ") {
        let (label, rest) = number(rest, u64::from(u32::MAX))?;
        return Some((Kind::Begin(Label(label as u32)), rest));
    }
    if let Some(rest) = after(bytes, b"end") {
        return Some((Kind::End, rest));
    }
    thread_kind(bytes)
}

/// A shared acquire or a shared release, or one of the above.
#[inline(always)]
#[tactic(auto, unfolding(crate::specs::Reading::share_kind_at))]
fn share_kind(bytes: &[u8]) -> Option<(Kind, &[u8])>
    ensures { option_map (λ r. (r.0, r.1.now)) result ≡ share_kind_at bytes.now }
{
    if let Some(rest) = after(bytes, b"acqs ") {
        let (m, rest) = number(rest, u64::from(u16::MAX))?;
        return Some((Kind::AcquireShared(LockId(m as u16)), rest));
    }
    if let Some(rest) = after(bytes, b"rels ") {
        let (m, rest) = number(rest, u64::from(u16::MAX))?;
        return Some((Kind::ReleaseShared(LockId(m as u16)), rest));
    }
    block_kind(bytes)
}

/// An acquire or a release, or one of the above.
#[inline(always)]
#[tactic(auto, unfolding(crate::specs::Reading::lock_kind_at))]
fn lock_kind(bytes: &[u8]) -> Option<(Kind, &[u8])>
    ensures { option_map (λ r. (r.0, r.1.now)) result ≡ lock_kind_at bytes.now }
{
    if let Some(rest) = after(bytes, b"acq ") {
        let (m, rest) = number(rest, u64::from(u16::MAX))?;
        return Some((Kind::Acquire(LockId(m as u16)), rest));
    }
    if let Some(rest) = after(bytes, b"rel ") {
        let (m, rest) = number(rest, u64::from(u16::MAX))?;
        return Some((Kind::Release(LockId(m as u16)), rest));
    }
    share_kind(bytes)
}

/// Any operation.
#[inline(always)]
#[tactic(auto, unfolding(crate::specs::Reading::kind_at))]
fn kind(bytes: &[u8]) -> Option<(Kind, &[u8])>
    ensures { option_map (λ r. (r.0, r.1.now)) result ≡ kind_at bytes.now }
{
    if let Some(rest) = after(bytes, b"rd ") {
        let (x, value, rest) = access(rest)?;
        return Some((Kind::Read(x, value), rest));
    }
    if let Some(rest) = after(bytes, b"wr ") {
        let (x, value, rest) = access(rest)?;
        return Some((Kind::Write(x, value), rest));
    }
    lock_kind(bytes)
}

/// The event whose line stands at the front, and the bytes after its newline.
#[inline(always)]
#[tactic(auto, unfolding(crate::specs::Reading::event_at))]
fn any_event(bytes: &[u8]) -> Option<(Event, &[u8])>
    ensures { option_map (λ r. (r.0, r.1.now)) result ≡ event_at bytes.now }
{
    let (t, rest) = number(bytes, u64::from(u8::MAX))?;
    let rest = after(rest, b" ")?;
    let (kind, rest) = kind(rest)?;
    let next = after(rest, b"\n")?;
    let thread = ThreadId(t as u8);
    Some((Event { thread, kind }, next))
}

/// Whether the operation is a shared one.
fn is_shared(kind: Kind) -> bool
    ensures { has_kind false kind ≡ not result }
{
    matches!(kind, Kind::AcquireShared(_) | Kind::ReleaseShared(_))
}

/// The event of a version, which has shared operations or not.
#[inline(always)]
#[tactic(auto, unfolding(crate::specs::Reading::event_in))]
pub fn event(bytes: &[u8], shares: bool) -> Option<(Event, &[u8])>
    ensures { option_map (λ r. (r.0, r.1.now)) result ≡ event_in shares bytes.now }
{
    let (event, rest) = any_event(bytes)?;
    if !shares && is_shared(event.kind) {
        return None;
    }
    Some((event, rest))
}

/// What follows the version in a header, and the bytes after its newline.
#[tactic(auto, unfolding(crate::specs::Reading::bounds_at))]
fn bounds(bytes: &[u8], shares: bool) -> Option<(bool, Bounds, &[u8])>
    ensures { option_map (λ r. ((r.0, r.1), r.2.now)) result ≡ bounds_at shares bytes.now }
{
    let (threads, rest) = spaced_number(bytes, u64::from(MAX_THREADS))?;
    let (variables, rest) = spaced_number(rest, u64::from(u16::MAX))?;
    let (locks, rest) = number(rest, u64::from(MAX_LOCKS))?;
    let rest = after(rest, b"\n")?;
    if threads == 0 {
        return None;
    }
    let bounds = Bounds {
        threads: threads as u8,
        variables: variables as u16,
        locks: locks as u16,
    };
    Some((shares, bounds, rest))
}

/// Whether the header at the front is of a version with shared operations, its bounds, and the bytes after its newline.
#[tactic(auto, unfolding(crate::specs::Reading::header_at))]
pub fn header(bytes: &[u8]) -> Option<(bool, Bounds, &[u8])>
    ensures { option_map (λ r. ((r.0, r.1), r.2.now)) result ≡ header_at bytes.now }
{
    if let Some(rest) = after(bytes, b"vlog 2 ") {
        return bounds(rest, true);
    }
    let rest = after(bytes, b"vlog 1 ")?;
    bounds(rest, false)
}
