//! A round by pieces: behind a cut the rest is judged as a log of its own.
ghost use Rattle.std.specs.Prelude.{◌≡◌, ◌≤◌, false, length, IfOk, IfErr, OnOk, OnErr, IsTrue};
ghost use Rattle.velo_events.specs.Refusals.{GrowthRefused};
ghost use Rattle.velo_events.specs.WellFormed.{IsWellFormed};
ghost use Rattle.velo_filter.specs.Tables.{left_of, members};
ghost use Rattle.velo_laws.specs.Cut.{IsQuiet};
ghost use Rattle.velo_filter.specs.Left.{Omitted};
ghost use Rattle.velo_laws.specs.Restart.{HasNoBegin};
ghost use Rattle.velo_audit.specs.Audit.{out_of_memory};
ghost use Rattle.velo_audit.specs.Cut.{AreBegun, EndsAt, IsCut, IsPiece};
ghost use Rattle.velo_audit.specs.Verdict.{IsRoundVerdict, Judges};

use crate::cut::{Cut, add_begun};
use crate::piece::{Piece, PieceEnd, next_piece};
use crate::round::{AuditFault, replayed, told_in};
use crate::told::Told as RoundTold;
use std::alloc::Global;
use velo_events::{Config, Memory, ThreadId};
use velo_filter::{LeftOut, Thinned};
use velo_laws::prologue;
use velo_traces::Trace;
use velo_world::{Closed, LogReplayFault};

/// How many events a piece has at least.
const FEW_EVENTS: usize = 256;

/// What the pieces say of a round.
#[derive(Drop)]
pub enum PiecesVerdict {
    /// The rest has a cycle, and this is reported of its first alarm.
    Told(RoundTold),
    /// The rest has no cycle.
    NoCycle,
    /// A piece cannot be judged by itself.
    Unknown,
}

/// Judges one piece of the rest after another, from the cut on. The cut moves to the end of each piece
/// that has no cycle and leaves no block open. Each is twice as long as the one before it,
/// so there are few without an alarm.
pub fn by_pieces(
    alloc: Global,
    config: &Config,
    log: &Trace,
    left: &LeftOut,
    cut: &mut Cut,
    with_witness: bool,
) -> Result<PiecesVerdict, AuditFault>
    requires goes_on { config.now.stop ≡ false }
    requires short { length log.now.events ≤ config.now.events }
    requires well_formed { IsWellFormed config.now.bounds log.now.events }
    requires cut { IsCut (left_of left.now) log.now.events cut.old }
    ensures verdict { IfOk result (IsRoundVerdict with_witness log.now.events (left_of left.now)) }
    ensures cut { OnOk result (IsCut (left_of left.now) log.now.events cut.new) }
    ensures fault { IfErr result (λ fault. fault ≡ out_of_memory) }
    ensures memory { OnErr result GrowthRefused }
{
    let mut count = first_count(config);
    while cut.place < log.len() {
        let piece = next_piece(alloc, log, left, cut, count)?;
        if let Some(verdict) = judged(alloc, config, log, left, cut, with_witness, piece)? {
            return Ok(verdict);
        }
        count = count.saturating_mul(2);
    }
    Ok(PiecesVerdict::NoCycle)
}

/// How many events the first piece has: so many that to begin it costs no more than to judge it.
fn first_count(config: &Config) -> usize {
    let bounds = config.bounds;
    let shares = usize::from(bounds.threads) * usize::from(bounds.locks);
    FEW_EVENTS
        .saturating_add(usize::from(bounds.variables))
        .saturating_add(shares)
}

/// Judges the piece. Without a verdict the cut has moved to its end.
fn judged(
    alloc: Global,
    config: &Config,
    log: &Trace,
    left: &LeftOut,
    cut: &mut Cut,
    with_witness: bool,
    piece: Piece,
) -> Result<Option<PiecesVerdict>, AuditFault>
    requires goes_on { config.now.stop ≡ false }
    requires cut { IsCut (left_of left.now) log.now.events cut.old }
    requires piece { IsPiece (left_of left.now) log.now.events cut.old piece }
    ensures judges { IfOk result (
        Judges with_witness log.now.events (left_of left.now) cut.old.place cut.new) }
    ensures fault { IfErr result (λ fault. fault ≡ out_of_memory) }
    ensures memory { OnErr result GrowthRefused }
{
    let Piece {
        thinned: Thinned { trace, places },
        end,
        ..
    } = piece;
    match replayed(alloc, config, trace) {
        Ok(closed) => {
            let judged = judged_by(alloc, log, cut, with_witness, &closed, &places, end);
            drop(closed);
            judged
        }
        Err(LogReplayFault::Memory) => Err(AuditFault::Memory),
        Err(_) => Ok(Some(PiecesVerdict::Unknown)),
    }
}

/// Judges the piece that has come about in this world.
fn judged_by(
    alloc: Global,
    log: &Trace,
    cut: &mut Cut,
    with_witness: bool,
    closed: &Closed,
    places: &[u32],
    end: PieceEnd,
) -> Result<Option<PiecesVerdict>, AuditFault>
    requires { (left : Omitted) × IsCut left log.now.events cut.old
        × EndsAt left log.now.events cut.old end.place end.marks.items closed.now.log places.now }
    ensures judges { IfOk result (λ judged. (left : Omitted) → IsCut left log.now.events cut.old
        → EndsAt left log.now.events cut.old end.place end.marks.items closed.now.log places.now
        → Judges with_witness log.now.events left cut.old.place cut.new judged) }
    ensures fault { IfErr result (λ fault. fault ≡ out_of_memory) }
    ensures memory { OnErr result GrowthRefused }
{
    if let Some(told) = told_in(alloc, with_witness, closed, places)? {
        return Ok(Some(PiecesVerdict::Told(told)));
    }
    if end.place == log.len() {
        return Ok(Some(PiecesVerdict::NoCycle));
    }
    if !is_quiet(closed) {
        return Ok(Some(PiecesVerdict::Unknown));
    }
    move_to(alloc, log, cut, closed, end)?;
    Ok(None)
}

/// Moves the cut to the end of the piece that has come about in this world.
fn move_to(
    alloc: Global,
    log: &Trace,
    cut: &mut Cut,
    closed: &Closed,
    end: PieceEnd,
) -> Result<(), Memory>
    requires later { cut.old.place ≤ end.place }
    requires within { end.place ≤ length log.now.events }
    requires begun { AreBegun (members cut.old.begun) log.now.events cut.old.place }
    ensures place { OnOk result (cut.new.place ≡ end.place) }
    ensures marks { OnOk result (cut.new.marks.items ≡ end.marks.items) }
    ensures no_begin { OnOk result (HasNoBegin cut.new.prologue.events) }
    ensures begun { OnOk result (AreBegun (members cut.new.begun) log.now.events end.place) }
{
    let made = prologue(alloc, closed.bounds(), closed.heap())?;
    add_begun(&mut cut.begun, log.as_slice(), cut.place, end.place)?;
    cut.place = end.place;
    cut.marks = end.marks;
    cut.prologue = made;
    Ok(())
}

/// Whether no block is open at the end.
fn is_quiet(closed: &Closed) -> bool
    ensures { IsTrue result → IsQuiet closed.now.log }
{
    let heap = closed.heap();
    for thread in 0..closed.bounds().threads {
        if heap.depth(ThreadId(thread)) != 0 {
            return false;
        }
    }
    true
}
