//! One allocation fails, whichever it is: the call reports it, and a second call returns what the
//! first would have. Without a failure each call is done once.
use super::{LOST_UPDATE, LOST_UPDATE_CERTIFIED};
use crate::growths::again;
use std::alloc::Global;
use velo_bytes::{Bytes, WriterSink};
use velo_check::{CheckFault, Verdict, check_run, config_of};
use velo_events::{Action, Refusal, ThreadId, VarId};
use velo_logtext::{LogFault, read_log};
use velo_world::{LogReplayFault, World};

/// Nothing is written where a growth is refused. The sink takes no growth itself.
#[test]
fn a_refused_growth_of_a_check(rt: HostRuntime) {
    let written = LOST_UPDATE_CERTIFIED.as_bytes();
    let mut space = [0u8; 100];
    let mut sink = WriterSink::new(space.as_mut_slice());
    let checked = again!(
        CheckFault::Memory | CheckFault::Log(LogFault::Memory),
        check_run(
            rt.alloc(),
            &mut Bytes::new(LOST_UPDATE.as_bytes()),
            &mut sink,
            100,
            64,
            true,
        )
    );
    assert!(rt; checked == Ok(Verdict::Alarm));
    drop(sink);
    assert!(rt; space.as_slice().get(..written.len()) == Some(written));
    assert!(rt; space.as_slice().get(written.len()) == Some(&0));
}

/// A block that has written a variable, and a thread that has done nothing.
const WRITTEN: &str = "vlog 2 2 1 0\n0 fork 1\n0 begin 1\n0 wr 0 1\n";

/// What the world of this log, whose block has the one node that there may be, returns for a read
/// by the thread.
fn read_beside(alloc: Global) -> Result<Option<Refusal>, LogReplayFault> {
    let (bounds, log) = match read_log(alloc, &mut Bytes::new(WRITTEN.as_bytes())) {
        Ok(read) => read,
        Err(_) => return Err(LogReplayFault::Memory),
    };
    match World::from_log(alloc, config_of(bounds, 4, 1), log) {
        Ok((mut world, mut shares)) => {
            let read = world.act_as(&mut shares, ThreadId(1), Action::Read(VarId(0)));
            drop((world, shares));
            Ok(read.err())
        }
        Err(fault) => Err(fault),
    }
}

/// A full graph is reported before any allocation for the event, whether that would fail or not.
#[test]
fn a_refused_growth_beside_a_full_graph(rt: HostRuntime) {
    let refusal = again!(LogReplayFault::Memory, read_beside(rt.alloc()));
    assert!(rt; refusal == Ok(Some(Refusal::GraphFull)));
}
