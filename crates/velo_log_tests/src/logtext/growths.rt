//! One allocation fails, whichever it is: the call reports it, and a second call returns what the
//! first would have. Without a failure each call is done once.
use crate::growths::again;
use velo_bytes::Bytes;
use velo_events::{Bounds, Kind, Label, LockId, ThreadId, VarId};
use velo_logtext::{LogFault, read_log};

const LOG: &str =
    "vlog 1 2 1 1\n0 fork 1\n0 begin 7\n0 rd 0 0\n1 wr 0 5\n0 wr 0 1\n0 end\n1 acq 0\n1 rel 0\n1 exit\n0 join 1\n";

const BOUNDS: Bounds = Bounds {
    threads: 2,
    variables: 1,
    locks: 1,
};

static EVENTS: [(u8, Kind); 10] = [
    (0, Kind::Fork(ThreadId(1))),
    (0, Kind::Begin(Label(7))),
    (0, Kind::Read(VarId(0), 0)),
    (1, Kind::Write(VarId(0), 5)),
    (0, Kind::Write(VarId(0), 1)),
    (0, Kind::End),
    (1, Kind::Acquire(LockId(0))),
    (1, Kind::Release(LockId(0))),
    (1, Kind::Exit),
    (0, Kind::Join(ThreadId(1))),
];

#[test]
fn a_refused_growth_of_a_read(rt: HostRuntime) {
    let read = again!(
        LogFault::Memory,
        read_log(rt.alloc(), &mut Bytes::new(LOG.as_bytes()))
    );
    let (bounds, trace) = read.expect(&rt, "a log");
    let events = trace.as_slice().iter();
    let events = events.map(|event| (event.thread.0, event.kind));
    assert!(rt; bounds == BOUNDS && events.eq(EVENTS.iter().copied()));
    drop(trace);
}

#[test]
fn a_refused_growth_before_a_fault(rt: HostRuntime) {
    let log = "vlog 1 1 1 1\n0 end\n0 end\n0 end\n0 end\n0 end\n0 done\n".as_bytes();
    let read = again!(LogFault::Memory, read_log(rt.alloc(), &mut Bytes::new(log)));
    assert!(rt; read.err() == Some(LogFault::BadLine(7)));
}
