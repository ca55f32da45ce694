//! The operations of all threads that may hinder others.
ghost use Rattle.std.specs.Prelude.{◌≡◌, ◌⊎◌, [], ℕ, false, length, take, map, slice_get, Some, Contains, IfOk, OnOk};
ghost use Rattle.velo_events.specs.declared.event.Kind.{Kind};
ghost use Rattle.velo_movers.specs.Free.{is_private};
ghost use Rattle.velo_search.specs.declared.listing.TheConstants.{LISTS};
ghost use Rattle.velo_search.specs.declared.note.Note.{Note};

use crate::held::Held;
use crate::listing::{LISTS, is_clear, list_of, put};
use crate::note::Note;
use crate::rivals::is_private;
use std::alloc::Global;
use velo_events::growth::reserve;
use velo_events::{Kind, Memory};

/// The operations of all threads that may hinder others, each with the locks that its thread has before it. Those that are
/// alike are noted once.
#[derive(Drop)]
pub struct Notes {
    /// Those that access one variable, one lock or one thread are in one list.
    lists: Vec<Vec<Note>>,
    ghost many: { length lists.items ≡ LISTS },
}

impl Notes {
    ghost use Rattle.velo_search.specs.Notes.{is_clear, list_at, list_of, AreNoted, IsAmong, IsNoted, IsNoteOf, IsOfScript};

    /// No operation.
    fn new(alloc: Global) -> Result<Notes, Memory>
        ensures { IfOk result (λ notes. (n : ℕ) → list_at notes n ≡ []) }
    {
        let mut lists = Vec::new(alloc);
        for _list in 0..LISTS {
            reserve(&mut lists, 1)?;
            lists.push_reserved(Vec::new(alloc));
        }
        Ok(Notes { lists })
    }

    /// Notes an operation of a thread, unless it can hinder no other.
    fn note(&mut self, alloc: Global, thread: usize, kind: Kind, held: &Held) -> Result<(), Memory>
        ensures before { OnOk result ((n : ℕ) (note : Note) → Contains (list_at self.old n) note →
            Contains (list_at self.new n) note) }
        ensures there { OnOk result (is_private kind ≡ false →
            IsAmong (list_at self.new (list_of kind)) thread kind held.now.locks.items) }
        ensures only { OnOk result ((n : ℕ) (note : Note) → Contains (list_at self.new n) note →
            (Contains (list_at self.old n) note ⊎ IsNoteOf thread kind held.now.locks.items note)) }
    {
        if is_private(kind) {
            return Ok(());
        }
        put(alloc, &mut self.lists[list_of(kind)], thread, kind, held)?;
        Ok(())
    }

    /// Notes the operations of a thread.
    fn note_script(
        &mut self,
        alloc: Global,
        thread: usize,
        script: &[Kind],
        locks: usize,
    ) -> Result<(), Memory>
        ensures before { OnOk result ((n : ℕ) (note : Note) → Contains (list_at self.old n) note →
            Contains (list_at self.new n) note) }
        ensures there { OnOk result ((i : ℕ) (k : Kind) → slice_get script.now i ≡ Some k → is_private k ≡ false →
            IsNoted (list_at self.new (list_of k)) locks thread (take i script.now) k) }
        ensures only { OnOk result ((n : ℕ) (note : Note) → Contains (list_at self.new n) note →
            (Contains (list_at self.old n) note ⊎ IsOfScript locks thread script.now note)) }
    {
        let mut held = Held::none(alloc, locks)?;
        for place in 0..script.len() {
            let kind = script[place];
            self.note(alloc, thread, kind, &held)?;
            held.take_in(kind);
        }
        Ok(())
    }

    /// The operations of all threads.
    ///
    /// # Errors
    /// `Memory` where a growth was refused.
    pub fn of_scripts(alloc: Global, scripts: &[Vec<Kind>], locks: usize) -> Result<Notes, Memory>
        ensures { IfOk result (λ notes. AreNoted notes (map (λ v. v.items) scripts.now) locks) }
    {
        let mut notes = Notes::new(alloc)?;
        for thread in 0..scripts.len() {
            notes.note_script(alloc, thread, &scripts[thread], locks)?;
        }
        Ok(notes)
    }

    /// Whether no operation of another thread hinders this one.
    pub fn are_clear(&self, thread: usize, kind: Kind, held: &Held) -> bool
        ensures { result ≡ is_clear self.now held.now.locks.items thread kind }
    {
        is_private(kind) || is_clear(&self.lists[list_of(kind)], thread, kind, held)
    }
}
