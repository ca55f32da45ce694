//! A body as the first pass finds it, and as the second pass ends it.
ghost use Rattle.std.specs.Prelude.{◌≡◌, ◌∷◌, ◌++◌, [], length, slice_set, IfOk, OnOk};
ghost use Rattle.velo_workload.specs.declared.statement.Statement.TheVariants as of_statement;
ghost use Rattle.velo_workload.specs.Phrase.{spoken};
ghost use Rattle.velo_workload.specs.Outline.{AreFew, names_in, Judges};
ghost use Rattle.velo_workload.specs.Known.{known_of};
ghost use Rattle.velo_workload.specs.Sketch.{sketch_of, put_of, with_statement, unknown_later, completed};

use crate::fault::WorkFault;
use crate::outline::Outline;
use crate::phrase::Spoken;
use crate::resolving::statement;
use crate::statement::Statement;
use std::alloc::Global;
use velo_events::Memory;
use velo_events::growth::reserve;

/// A statement with a name that the lines up to its own do not declare.
#[derive(Clone, Copy)]
pub struct Later<'a> {
    /// The statement, by its names.
    pub said: Spoken<'a>,
    /// Its line.
    pub line: usize,
    /// Its place in the body.
    pub place: usize,
}

/// A body whose statements are known but for some.
#[derive(Drop)]
pub struct Draft<'a> {
    /// With a `Done` in place of each that is not known.
    pub statements: Vec<Statement>,
    /// Those that are not known.
    pub later: Vec<Later<'a>>,
}

impl<'a> Draft<'a> {
    /// Before the first statement.
    pub fn new(alloc: Global) -> Draft<'a>
        ensures { sketch_of result ≡ record { statements = []; later = [] } }
    {
        Draft {
            statements: Vec::new(alloc),
            later: Vec::new(alloc),
        }
    }

    /// The next statement.
    fn put(&mut self, statement: Statement) -> Result<(), Memory>
        ensures statements { OnOk result (self.new.statements.items ≡ self.old.statements.items ++ statement ∷ []) }
        ensures later { OnOk result (self.new.later.items ≡ self.old.later.items) }
    {
        reserve(&mut self.statements, 1)?;
        self.statements.push_reserved(statement);
        Ok(())
    }

    /// The next statement, which is not known yet.
    fn put_later(&mut self, said: Spoken<'a>, line: usize) -> Result<(), Memory>
        ensures statements { OnOk result
            (self.new.statements.items ≡ self.old.statements.items ++ of_statement.Done ∷ []) }
        ensures later { OnOk result
            (self.new.later.items
            ≡ self.old.later.items
            ++ record { said = said.entry; line = line; place = length self.old.statements.items } ∷ []) }
    {
        let place = self.statements.len();
        reserve(&mut self.statements, 1)?;
        reserve(&mut self.later, 1)?;
        self.statements.push_reserved(Statement::Done);
        self.later.push_reserved(Later { said, line, place });
        Ok(())
    }

    /// Takes in the statement of a line.
    ///
    /// # Errors
    /// `Memory` if an allocation failed.
    pub fn take(&mut self, outline: &Outline, said: Spoken<'a>, line: usize) -> Result<(), Memory>
        requires { AreFew (known_of outline.now) }
        ensures { OnOk result
            (sketch_of self.new
            ≡ with_statement (names_in (known_of outline.now)) (sketch_of self.old) (spoken said.entry) line) }
    {
        match statement(outline, said) {
            Some(statement) => self.put(statement),
            None => self.put_later(said, line),
        }
    }
}

/// Puts a statement in its place, if there is one.
fn set(statements: &mut Vec<Statement>, place: usize, statement: Statement)
    ensures { statements.new.items ≡ slice_set statements.old.items place statement }
{
    if place < statements.len() {
        statements[place] = statement;
    }
}

/// The body of a draft, by all names of the text.
///
/// # Errors
/// `Unknown` for the first line that uses a name that the text does not declare; `Memory` if an
/// allocation failed.
pub fn complete_body(outline: &Outline, draft: Draft) -> Result<Vec<Statement>, WorkFault>
    requires { AreFew (known_of outline.now) }
    ensures judged { Judges (unknown_later (names_in (known_of outline.now)) (sketch_of draft.entry).later) result }
    ensures body { IfOk result (λ body.
        body.items
        ≡ completed (names_in (known_of outline.now)) (sketch_of draft.entry).statements
        (sketch_of draft.entry).later) }
{
    let Draft {
        mut statements,
        later,
    } = draft;
    for open in &later {
        match statement(outline, open.said) {
            None => return Err(WorkFault::Unknown(open.line)),
            Some(statement) => set(&mut statements, open.place, statement),
        }
    }
    Ok(statements)
}
