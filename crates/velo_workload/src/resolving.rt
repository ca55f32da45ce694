//! From names to numbers.
ghost use Rattle.std.specs.Prelude.{◌≡◌, ◌≤◌, length, option_map};
ghost use Rattle.velo_events.specs.declared.limits.TheConstants.{MAX_LOCKS, MAX_THREADS};
ghost use Rattle.velo_workload.specs.declared.limits.TheConstants.{MAX_STATEMENTS, MAX_VARIABLES};
ghost use Rattle.velo_workload.specs.Names.{names_of};
ghost use Rattle.velo_workload.specs.Known.{known_of};
ghost use Rattle.velo_workload.specs.Outline.{AreFew, names_in};
ghost use Rattle.velo_workload.specs.Phrase.{spoken};
ghost use Rattle.velo_workload.specs.Program.{number_of, statement_of};

use crate::names::number_of;
use crate::outline::Outline;
use crate::phrase::Spoken;
use crate::statement::Statement;
use indexmap::IndexSet;
use velo_events::{Label, LockId, ThreadId, VarId};

fn variable(names: &IndexSet<&str>, name: &str) -> Option<VarId>
    requires { length (names_of names.now) ≤ MAX_VARIABLES }
    ensures { result ≡ option_map (λ i. record { 0 = i }) (number_of (names_of names.now) name.now) }
{
    let number = number_of(names, name)?;
    Some(VarId(number as u16))
}

fn lock(names: &IndexSet<&str>, name: &str) -> Option<LockId>
    requires { length (names_of names.now) ≤ MAX_LOCKS }
    ensures { result ≡ option_map (λ i. record { 0 = i }) (number_of (names_of names.now) name.now) }
{
    let number = number_of(names, name)?;
    Some(LockId(number as u16))
}

fn thread(names: &IndexSet<&str>, name: &str) -> Option<ThreadId>
    requires { length (names_of names.now) ≤ MAX_THREADS }
    ensures { result ≡ option_map (λ i. record { 0 = i }) (number_of (names_of names.now) name.now) }
{
    let number = number_of(names, name)?;
    Some(ThreadId(number as u8))
}

fn label(names: &IndexSet<&str>, name: &str) -> Option<Label>
    requires { length (names_of names.now) ≤ MAX_STATEMENTS }
    ensures { result ≡ option_map (λ i. record { 0 = i }) (number_of (names_of names.now) name.now) }
{
    let number = number_of(names, name)?;
    Some(Label(number as u32))
}

/// The statement of the program, unless it uses a name that the text does not declare.
pub fn statement(outline: &Outline, said: Spoken) -> Option<Statement>
    requires { AreFew (known_of outline.now) }
    ensures { result ≡ statement_of (names_in (known_of outline.now)) (spoken said.entry) }
{
    match said {
        Spoken::Read(name) => Some(Statement::Read(variable(&outline.variables, name)?)),
        Spoken::Write(name) => Some(Statement::Write(variable(&outline.variables, name)?)),
        Spoken::Set(n) => Some(Statement::Set(n)),
        Spoken::Add(n) => Some(Statement::Add(n)),
        Spoken::Acquire(name) => Some(Statement::Acquire(lock(&outline.locks, name)?)),
        Spoken::Release(name) => Some(Statement::Release(lock(&outline.locks, name)?)),
        Spoken::Share(name) => Some(Statement::Share(lock(&outline.locks, name)?)),
        Spoken::Unshare(name) => Some(Statement::Unshare(lock(&outline.locks, name)?)),
        Spoken::Begin(name) => Some(Statement::Begin(label(&outline.labels, name)?)),
        Spoken::End => Some(Statement::End),
        Spoken::Fork(name) => Some(Statement::Fork(thread(&outline.threads, name)?)),
        Spoken::Join(name) => Some(Statement::Join(thread(&outline.threads, name)?)),
        Spoken::Repeat(n) => Some(Statement::Repeat(n)),
        Spoken::Done => Some(Statement::Done),
    }
}
