//! The bodies of a text's threads: drafts in the first pass, whole after the second.
ghost use Rattle.std.specs.Prelude.{◌≡◌, ◌++◌, ◌∷◌, [], map, IfOk, OnOk};
ghost use Rattle.velo_workload.specs.Phrase.{said};
ghost use Rattle.velo_workload.specs.Outline.{AreFew, names_in, Judges};
ghost use Rattle.velo_workload.specs.Known.{known_of};
ghost use Rattle.velo_workload.specs.Sketch.{sketch_of, sketches_of, with_phrase, unknown_in_sketches, bodies_completed};

use crate::draft::{Draft, complete_body};
use crate::fault::WorkFault;
use crate::outline::Outline;
use crate::phrase::Phrase;
use crate::statement::Statement;
use std::alloc::Global;
use std::mem::replace;
use velo_events::Memory;
use velo_events::growth::reserve;

/// The bodies that are read. The first is what comes before the first thread.
#[derive(Drop)]
pub struct Bodies<'a> {
    alloc: Global,
    /// Those that are whole.
    pub whole: Vec<Draft<'a>>,
    current: Draft<'a>,
}

impl<'a> Bodies<'a> {
    /// Before the first line.
    pub fn new(alloc: Global) -> Bodies<'a>
        ensures { sketches_of result ≡ record { whole = []; current = record { statements = []; later = [] } } }
    {
        Bodies {
            alloc,
            whole: Vec::new(alloc),
            current: Draft::new(alloc),
        }
    }

    /// The current body is whole.
    ///
    /// # Errors
    /// `Memory` if an allocation failed.
    pub fn finish(&mut self) -> Result<(), Memory>
        ensures { OnOk result
            (sketches_of self.new
            ≡ record {
              whole = (sketches_of self.old).whole ++ (sketches_of self.old).current
                  ∷ [];
              current = record { statements = []; later = [] };
            }) }
    {
        reserve(&mut self.whole, 1)?;
        let whole = replace(&mut self.current, Draft::new(self.alloc));
        self.whole.push_reserved(whole);
        Ok(())
    }

    /// Takes in a line of this number.
    ///
    /// # Errors
    /// `Memory` if an allocation failed.
    pub fn take(&mut self, outline: &Outline, phrase: Phrase<'a>, line: usize) -> Result<(), Memory>
        requires { AreFew (known_of outline.now) }
        ensures { OnOk result
            (sketches_of self.new
            ≡ with_phrase (names_in (known_of outline.now)) (sketches_of self.old) (said phrase.entry) line) }
    {
        match phrase {
            Phrase::Thread(_) => self.finish(),
            Phrase::Body(said) => self.current.take(outline, said, line),
            _ => Ok(()),
        }
    }
}

/// The bodies of drafts, by all names of the text.
///
/// # Errors
/// `Unknown` for the first line that uses a name that the text does not declare; `Memory` if an
/// allocation failed.
pub fn complete_bodies(
    alloc: Global,
    outline: &Outline,
    mut drafts: Vec<Draft>,
) -> Result<Vec<Vec<Statement>>, WorkFault>
    requires { AreFew (known_of outline.now) }
    ensures judged { Judges (unknown_in_sketches (names_in (known_of outline.now)) (map sketch_of drafts.entry.items)) result }
    ensures bodies { IfOk result (λ found.
        map (λ body. body.items) found.items
        ≡ bodies_completed (names_in (known_of outline.now)) (map sketch_of drafts.entry.items)) }
{
    let mut bodies = Vec::new(alloc);
    for place in drafts.iter_mut() {
        let draft = replace(place, Draft::new(alloc));
        let body = match complete_body(outline, draft) {
            Ok(body) => body,
            Err(fault) => return Err(fault),
        };
        reserve(&mut bodies, 1)?;
        bodies.push_reserved(body);
    }
    Ok(bodies)
}
