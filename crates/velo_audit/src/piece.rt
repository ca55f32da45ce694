//! A piece of the rest: its events from a cut to a later place.
ghost use Rattle.std.specs.Prelude.{◌≡◌, ◌<◌, ◌≤◌, ◌+◌, ℕ, List, length, IfOk, OnOk};
ghost use Rattle.velo_events.specs.declared.event.Event.{Event as EventOf};
ghost use Rattle.velo_events.specs.declared.limits.TheConstants.{MAX_EVENTS};
ghost use Rattle.velo_filter.specs.Marks.{AreMarks, IsShallow};
ghost use Rattle.velo_filter.specs.Tables.{left_of};
ghost use Rattle.velo_filter.specs.Thinned.{CanComeAbout};
ghost use Rattle.velo_audit.specs.Cut.{GoesTo, IsCut, IsPiece};

use crate::cut::Cut;
use std::alloc::Global;
use velo_events::growth::with_capacity;
use velo_events::{Event, Kind, Memory};
use velo_filter::{LeftOut, Thinned, stays_at};
use velo_traces::Trace;

/// The events of the rest from a cut to a later place, after the prologue of the cut.
#[derive(Drop)]
pub struct Piece {
    /// The events. The place of each event of the prologue is 0.
    pub thinned: Thinned,
    /// How many blocks of the rest are open at its end.
    pub open: usize,
    /// Its end.
    pub end: PieceEnd,
}

/// The end of a piece.
#[derive(Drop)]
pub struct PieceEnd {
    /// How many events of the log come before it.
    pub place: usize,
    /// The marks there.
    pub marks: Vec<u64>,
}

/// The next piece, of so many events. It goes on until no block of the rest is open, or to the end
/// of the log.
pub fn next_piece(
    alloc: Global,
    log: &Trace,
    left: &LeftOut,
    cut: &Cut,
    count: usize,
) -> Result<Piece, Memory>
    requires few { length log.now.events ≤ MAX_EVENTS }
    requires can_come_about { CanComeAbout log.now.events }
    requires cut { IsCut (left_of left.now) log.now.events cut.now }
    requires more { cut.now.place < length log.now.events }
    ensures { IfOk result (IsPiece (left_of left.now) log.now.events cut.now) }
{
    let events = log.as_slice();
    let enough = cut.prologue.len().saturating_add(count);
    let mut piece = no_piece(alloc, cut)?;
    for position in cut.place..events.len() {
        take_in(&mut piece, left, events, position)?;
        if piece.open == 0 && piece.thinned.trace.len() >= enough {
            return Ok(piece);
        }
    }
    Ok(piece)
}

/// The piece that ends at the cut.
fn no_piece(alloc: Global, cut: &Cut) -> Result<Piece, Memory>
    ensures end { IfOk result (λ piece. piece.end.place ≡ cut.now.place) }
    ensures marks { IfOk result (λ piece. piece.end.marks.items ≡ cut.now.marks.items) }
    ensures events { IfOk result (λ piece. piece.thinned.trace.events ≡ cut.now.prologue.events) }
    ensures places { IfOk result (λ piece.
        length piece.thinned.places.items ≡ length cut.now.prologue.events) }
{
    let marks = copied(alloc, &cut.marks)?;
    let thinned = as_thinned(alloc, &cut.prologue)?;
    Ok(Piece {
        thinned,
        open: 0,
        end: PieceEnd {
            place: cut.place,
            marks,
        },
    })
}

/// The same marks.
fn copied(alloc: Global, marks: &[u64]) -> Result<Vec<u64>, Memory>
    ensures { IfOk result (λ same. same.items ≡ marks.now) }
{
    let mut same = with_capacity(alloc, marks.len())?;
    for mark in marks {
        same.push_reserved(*mark);
    }
    Ok(same)
}

/// The events of a prologue, each at place 0.
fn as_thinned(alloc: Global, prologue: &Trace) -> Result<Thinned, Memory>
    ensures events { IfOk result (λ thinned. thinned.trace.events ≡ prologue.now.events) }
    ensures places { IfOk result (λ thinned.
        length thinned.places.items ≡ length prologue.now.events) }
{
    let mut thinned = Thinned {
        trace: Trace::new(alloc),
        places: Vec::new(alloc),
    };
    for event in prologue.as_slice() {
        thinned.push(0, *event)?;
    }
    Ok(thinned)
}

/// Takes the event at the position in, if it stays.
fn take_in(
    piece: &mut Piece,
    left: &LeftOut,
    events: &[Event],
    position: usize,
) -> Result<(), Memory>
    requires within { position < length events.now }
    requires few { length events.now ≤ MAX_EVENTS }
    requires shallow { IsShallow events.now }
    requires many { length piece.old.end.marks.items ≡ 256 }
    requires marks { AreMarks (left_of left.now) events.now position piece.old.end.marks.items }
    ensures end { OnOk result (piece.new.end.place ≡ position + 1) }
    ensures goes { OnOk result ((place : ℕ) (prologue : List EventOf)
        → GoesTo (left_of left.now) events.now place position prologue
        piece.old.thinned.trace.events piece.old.thinned.places.items
        → GoesTo (left_of left.now) events.now place (position + 1) prologue
        piece.new.thinned.trace.events piece.new.thinned.places.items) }
    ensures many { OnOk result (length piece.new.end.marks.items ≡ 256) }
    ensures marks { OnOk result (
        AreMarks (left_of left.now) events.now (position + 1) piece.new.end.marks.items) }
{
    if stays_at(&mut piece.end.marks, left, events, position) {
        let event = events[position];
        piece.thinned.push(position, event)?;
        piece.open = open_after(piece.open, event.kind);
    }
    piece.end.place = position + 1;
    Ok(())
}

/// How many blocks are open after the event, if so many are before it.
fn open_after(open: usize, kind: Kind) -> usize {
    match kind {
        Kind::Begin(_) => open.saturating_add(1),
        Kind::End => open.saturating_sub(1),
        _ => open,
    }
}
