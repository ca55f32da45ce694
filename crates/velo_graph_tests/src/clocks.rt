//! Tests of the clocks.
ghost use Rattle.std.specs.Prelude.{◌≡◌, ◌<◌, length};
ghost use Rattle.velo_tables.specs.Clocks.{IsOfThreads};

use crate::words::by;
use std::alloc::Global;
use std::process::Abort;
use velo_events::{Bounds, Config, Event, Kind, Label, ThreadId, VarId};
use velo_tables::ClockTables;

/// The clocks of a run of four threads.
fn clocks_of_four(rt: &impl Abort, alloc: Global) -> ClockTables
    ensures { result.count ≡ 4 }
{
    let bounds = Bounds {
        threads: 4,
        variables: 2,
        locks: 0,
    };
    let config = Config::new(1, bounds, 100, 10, false).expect(rt, "a configuration");
    ClockTables::new(alloc, &config).expect(rt, "memory")
}

/// Makes room in the clocks for the event and notes it.
fn note_clock(rt: &impl Abort, clocks: &mut ClockTables, position: u32, event: Event)
    requires known { IsOfThreads clocks.old.count event }
    requires early { position < 100 }
    ensures { clocks.new.count ≡ clocks.old.count }
{
    clocks.reserve_for(&event).expect(rt, "memory");
    clocks.note(position, &event);
}

const X: VarId = VarId(0);

const Y: VarId = VarId(1);

#[test]
fn the_own_thread_is_known_through_others(rt: HostRuntime) {
    let mut clocks = clocks_of_four(&rt, rt.alloc());
    note_clock(&rt, &mut clocks, 0, by(0, Kind::Fork(ThreadId(1))));
    note_clock(&rt, &mut clocks, 1, by(0, Kind::Begin(Label(1))));
    note_clock(&rt, &mut clocks, 2, by(0, Kind::Write(X, 1)));
    note_clock(&rt, &mut clocks, 3, by(0, Kind::Begin(Label(2))));
    note_clock(&rt, &mut clocks, 4, by(0, Kind::Write(Y, 1)));
    assert!(rt; clocks.bound(&by(0, Kind::Write(X, 2))) == 0);
    note_clock(&rt, &mut clocks, 5, by(1, Kind::Read(X, 1)));
    assert!(rt; clocks.bound(&by(0, Kind::Write(X, 2))) == 3);
    note_clock(&rt, &mut clocks, 6, by(1, Kind::Exit));
    assert!(rt; clocks.bound(&by(0, Kind::Join(ThreadId(1)))) == 3);
}
