//! A thread's statements, one after another, with its repeats done as often as they say.
ghost use Rattle.std.specs.Prelude.{◌≡◌, ◌<◌, ◌≤◌, drop, length, slice_get, IfOk};
ghost use Rattle.velo_workload.specs.Bodies.{IsBody};
ghost use Rattle.velo_worker.specs.Walk.{walk_of};
ghost use Rattle.velo_worker.specs.Cursor.{AreRepeatEnds, MayPass, end_before, past};

use crate::cursor::Cursor;
use std::alloc::Global;
use std::marker::Model;
use velo_events::Memory;
use velo_events::growth::filled;
use velo_workload::Statement;

/// What is left to do of a body.
#[derive(Drop)]
pub struct Walk<'a> {
    body: &'a [Statement],
    /// For each statement the position after the end of the repeat that is open after it.
    ends: Vec<usize>,
    cursor: Cursor,
}

impl<'a> Model for Walk<'a> {
    ghost use Rattle.std.specs.Prelude.{List};
    ghost use Rattle.velo_workload.specs.declared.statement.Statement.{Statement};
    ghost use Rattle.velo_worker.specs.Inside.{left_of, IsInside};

    ghost Value = { List Statement };

    ghost view = { left_of };

    ghost invariant = { IsInside };
}

impl<'a> Walk<'a> {
    /// The whole body.
    ///
    /// # Errors
    /// `Memory` if an allocation failed.
    pub fn start(alloc: Global, body: &'a [Statement]) -> Result<Walk<'a>, Memory>
        requires { IsBody body.now }
        ensures { IfOk result (λ walk. walk ≡ walk_of body.now) }
    {
        let ends = ends_of(alloc, body)?;
        Ok(Walk {
            body,
            ends,
            cursor: Cursor::start(),
        })
    }

    /// The statement that comes next, if one is left.
    pub fn next(&self) -> Option<Statement>
        ensures { result ≡ slice_get self.now 0 }
    {
        statement_at(self.body, self.cursor.position())
    }

    /// Goes past the statement that comes next.
    pub fn advance(&mut self)
        ensures { self.new ≡ drop 1 self.old }
    {
        if let Some(statement) = statement_at(self.body, self.cursor.position()) {
            go_past(statement, &mut self.cursor, &self.ends);
        }
    }
}

/// The statement at a position, if there is one.
fn statement_at(body: &[Statement], position: usize) -> Option<Statement>
    ensures { result ≡ slice_get body.now position }
{
    body.get(position).copied()
}

/// Goes past a statement, where the ends of the repeats are these.
fn go_past(statement: Statement, cursor: &mut Cursor, ends: &[usize])
    requires within { cursor.old.position < length ends.now }
    requires fits { MayPass statement cursor.old }
    ensures { cursor.new ≡ past statement cursor.old ends.now }
{
    match statement {
        Statement::Repeat(times) => cursor.enter_repeat(times, ends[cursor.position()]),
        Statement::Done => cursor.repeat_or_leave(),
        _ => cursor.move_on(),
    }
}

/// The end of the repeat that is open before the statement at a position, by the end of the one
/// that is open after it.
fn end_before(statement: Statement, position: usize, ends: &[usize], end: usize) -> usize
    requires position { position < length ends.now }
    requires some { 0 < end }
    requires end { end ≤ length ends.now }
    ensures { result ≡ end_before statement position ends.now end }
{
    match statement {
        Statement::Done => position + 1,
        Statement::Repeat(_) => ends[end - 1],
        _ => end,
    }
}

/// For each statement the position after the end of the repeat that is open after it, found from
/// the last to the first.
fn ends_of(alloc: Global, body: &[Statement]) -> Result<Vec<usize>, Memory>
    ensures { IfOk result (λ ends. AreRepeatEnds body.now ends.items) }
{
    let mut ends = filled(alloc, 0, body.len())?;
    let mut end = body.len();
    let mut position = body.len();
    while position > 0 {
        position -= 1;
        ends[position] = end;
        end = end_before(body[position], position, &ends, end);
    }
    Ok(ends)
}
