//! How far a thread has come in its body.
ghost use Rattle.std.specs.Prelude.{◌≡◌, map, IfOk, length};
ghost use Rattle.velo_workload.specs.Bodies.{IsBody};
ghost use Rattle.velo_worker.specs.Progress.{action_for, after_event, is_quiet, register_after, settled, start_of, wanted};

use crate::walk::Walk;
use std::alloc::Global;
use velo_events::growth::reserve;
use velo_events::{Action, Memory, ThreadId};
use velo_workload::{Statement, Workload};

/// A thread's register, and what it has left to do.
#[derive(Drop)]
pub struct Progress<'a> {
    /// Its register.
    pub register: u64,
    /// What it has left to do.
    pub left: Walk<'a>,
    /// Whether it has exited.
    pub done: bool,
}

impl<'a> Progress<'a> {
    /// A thread that has done nothing of its body.
    ///
    /// # Errors
    /// `Memory` if an allocation failed.
    pub fn start(alloc: Global, body: &'a [Statement]) -> Result<Progress<'a>, Memory>
        requires { IsBody body.now }
        ensures { IfOk result (λ progress. progress ≡ start_of body.now) }
    {
        let left = Walk::start(alloc, body)?;
        Ok(Progress {
            register: 0,
            left,
            done: false,
        })
    }

    /// Does the statements without events up to the next event.
    pub fn settle(&mut self)
        ensures { self.new ≡ settled self.old }
    {
        while let Some(statement) = self.left.next() {
            if !is_quiet(statement) {
                return;
            }
            self.register = register_after(self.register, statement);
            self.left.advance();
        }
    }

    /// The action that it tries next, once it is settled.
    pub fn wanted(&self) -> Action
        ensures { result ≡ wanted self.now }
    {
        action_for(self.register, self.left.next())
    }

    /// Goes on after the event that it tried, which may have read a value. After its exit it is
    /// done.
    pub fn go_on(&mut self, read: Option<u64>)
        ensures { self.new ≡ after_event self.old read }
    {
        if self.left.next().is_none() {
            self.done = true;
            return;
        }
        if let Some(value) = read {
            self.register = value;
        }
        self.left.advance();
    }
}

/// The threads of a workload, each before its first statement.
///
/// # Errors
/// `Memory` if an allocation failed.
pub fn threads_of<'a>(alloc: Global, workload: &'a Workload) -> Result<Vec<Progress<'a>>, Memory>
    ensures threads { IfOk result (λ threads. threads.items ≡ map start_of workload.now.bodies) }
    ensures count { IfOk result (λ threads. length threads.items ≡ workload.now.bounds.threads) }
{
    let count = workload.bounds().threads;
    let mut threads: Vec<Progress<'a>> = Vec::new(alloc);
    reserve(&mut threads, usize::from(count))?;
    for thread in 0..count {
        threads.push_reserved(Progress::start(alloc, workload.body(ThreadId(thread)))?);
    }
    Ok(threads)
}

/// Whether the statement has no event.
pub fn is_quiet(statement: Statement) -> bool
    ensures { result ≡ is_quiet statement }
{
    matches!(
        statement,
        Statement::Set(_) | Statement::Add(_) | Statement::Repeat(_) | Statement::Done
    )
}

/// The register after a statement without an event.
fn register_after(register: u64, statement: Statement) -> u64
    ensures { result ≡ register_after register statement }
{
    match statement {
        Statement::Set(n) => n,
        Statement::Add(n) => register.wrapping_add(n),
        _ => register,
    }
}

/// The action of the next statement; an exit where none is left.
fn action_for(register: u64, statement: Option<Statement>) -> Action
    ensures { result ≡ action_for register statement }
{
    match statement {
        Some(Statement::Read(x)) => Action::Read(x),
        Some(Statement::Write(x)) => Action::Write(x, register),
        Some(Statement::Acquire(m)) => Action::Acquire(m),
        Some(Statement::Release(m)) => Action::Release(m),
        Some(Statement::Share(m)) => Action::AcquireShared(m),
        Some(Statement::Unshare(m)) => Action::ReleaseShared(m),
        Some(Statement::Begin(label)) => Action::Begin(label),
        Some(Statement::End) => Action::End,
        Some(Statement::Fork(t)) => Action::Fork(t),
        Some(Statement::Join(t)) => Action::Join(t),
        _ => Action::Exit,
    }
}
