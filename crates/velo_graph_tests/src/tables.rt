//! Tests of the tables of last accesses.
ghost use Rattle.std.specs.Prelude.{◌≡◌, length};
ghost use Rattle.velo_tables.specs.LastAccesses.{HasItsThreads};

use crate::words::by;
use std::alloc::Global;
use std::process::Abort;
use velo_arena::Step;
use velo_events::{Bounds, Config, Event, Kind, Label, LockId, ThreadId, VarId};
use velo_tables::Tables;

const BOUNDS: Bounds = Bounds {
    threads: 4,
    variables: 3,
    locks: 2,
};

/// The tables of a run of four threads.
fn tables_of_four(rt: &impl Abort, alloc: Global) -> Tables
    ensures { length result.threads ≡ 4 }
{
    let config = Config::new(1, BOUNDS, 100, 10, false).expect(rt, "a configuration");
    Tables::new(alloc, &config).expect(rt, "memory")
}

fn at(stamp: u32) -> Step {
    Step { slot: 7, stamp }
}

/// Makes room for the event and records it.
fn note(rt: &impl Abort, tables: &mut Tables, event: Event, step: Option<Step>)
    requires { HasItsThreads tables.old event }
    ensures { length tables.new.threads ≡ length tables.old.threads }
{
    tables.reserve_for(&event).expect(rt, "memory");
    tables.record(&event, step);
}

/// Looks at the steps that the event looks up.
fn look(rt: &impl Abort, tables: &Tables, event: Event, steps: &[Step]) {
    assert!(rt; tables.predecessors(&event).as_slice() == steps);
}

const X: VarId = VarId(0);

const Y: VarId = VarId(1);

#[test]
fn a_write_finds_every_reader(rt: HostRuntime) {
    let mut tables = tables_of_four(&rt, rt.alloc());
    note(&rt, &mut tables, by(0, Kind::Read(X, 0)), Some(at(1)));
    note(&rt, &mut tables, by(2, Kind::Read(X, 0)), Some(at(2)));
    note(&rt, &mut tables, by(1, Kind::Read(X, 0)), Some(at(3)));
    note(&rt, &mut tables, by(1, Kind::Read(Y, 0)), Some(at(4)));
    let write = by(3, Kind::Write(X, 5));
    look(&rt, &tables, write, &[at(1), at(3), at(2)]);

    tables.reserve_for(&write).expect(&rt, "memory");
    look(&rt, &tables, write, &[at(1), at(3), at(2)]);

    note(&rt, &mut tables, write, Some(at(5)));
    let next = by(0, Kind::Write(X, 6));
    look(&rt, &tables, next, &[at(1), at(5), at(1), at(3), at(2)]);

    note(&rt, &mut tables, by(2, Kind::Read(X, 5)), None);
    look(&rt, &tables, next, &[at(1), at(5), at(1), at(3)]);
}

#[test]
fn a_fork_leads_to_the_child_and_a_join_from_it(rt: HostRuntime) {
    let mut tables = tables_of_four(&rt, rt.alloc());
    note(
        &rt,
        &mut tables,
        by(0, Kind::Fork(ThreadId(1))),
        Some(at(1)),
    );
    let first = by(1, Kind::Begin(Label(0)));
    look(&rt, &tables, first, &[at(1)]);
    look(&rt, &tables, by(2, Kind::End), &[]);

    note(&rt, &mut tables, first, Some(at(2)));
    look(
        &rt,
        &tables,
        by(0, Kind::Join(ThreadId(1))),
        &[at(1), at(2)],
    );
}

#[test]
fn a_lock_has_one_last_event(rt: HostRuntime) {
    let mut tables = tables_of_four(&rt, rt.alloc());
    note(
        &rt,
        &mut tables,
        by(0, Kind::Acquire(LockId(1))),
        Some(at(1)),
    );
    note(
        &rt,
        &mut tables,
        by(0, Kind::Release(LockId(1))),
        Some(at(2)),
    );
    look(&rt, &tables, by(1, Kind::Acquire(LockId(1))), &[at(2)]);
    look(&rt, &tables, by(1, Kind::Acquire(LockId(0))), &[]);
    assert!(rt; tables.last_write(LockId(1).cell()) == Some(at(2)));
    assert!(rt; tables.last_write(X.cell()).is_none());
    assert!(rt; tables.last_read(X.cell(), ThreadId(3)).is_none());
}

const LOCK: LockId = LockId(1);

/// Who shares a lock looks up who last had it alone, and who takes it alone looks up its sharers
/// too.
#[test]
fn a_lock_has_a_last_event_of_each_sharer(rt: HostRuntime) {
    let mut tables = tables_of_four(&rt, rt.alloc());
    note(&rt, &mut tables, by(0, Kind::Release(LOCK)), Some(at(1)));
    note(
        &rt,
        &mut tables,
        by(2, Kind::AcquireShared(LOCK)),
        Some(at(2)),
    );
    note(
        &rt,
        &mut tables,
        by(1, Kind::AcquireShared(LOCK)),
        Some(at(3)),
    );
    note(
        &rt,
        &mut tables,
        by(2, Kind::ReleaseShared(LOCK)),
        Some(at(4)),
    );
    look(&rt, &tables, by(3, Kind::AcquireShared(LOCK)), &[at(1)]);
    let alone = by(3, Kind::Acquire(LOCK));
    look(&rt, &tables, alone, &[at(1), at(3), at(4)]);

    note(&rt, &mut tables, alone, Some(at(5)));
    look(
        &rt,
        &tables,
        by(0, Kind::AcquireShared(LOCK)),
        &[at(1), at(5)],
    );
}
