//! Sources and sinks that fail after each number of bytes.
use super::{LOST_UPDATE, LOST_UPDATE_CERTIFIED};
use velo_bytes::{Bytes, Text};
use velo_check::{CheckFault, check_run};
use velo_events::MAX_EVENTS;
use velo_logtext::LogFault;

#[test]
fn reads_fail(rt: HostRuntime) {
    let log = LOST_UPDATE.as_bytes();
    for count in 0..=log.len() {
        let mut source = Bytes::new(log).in_steps(1).failing_after(count);
        let mut sink = Text::new(rt.alloc());
        let answer = check_run(rt.alloc(), &mut source, &mut sink, MAX_EVENTS, 1024, false);
        assert!(rt; answer == Err(CheckFault::Log(LogFault::Read)));
        assert!(rt; sink.as_slice().is_empty());
        drop(sink);
    }
}

#[test]
fn writes_fail(rt: HostRuntime) {
    let written = LOST_UPDATE_CERTIFIED.as_bytes();
    for count in 0..written.len() {
        let mut source = Bytes::new(LOST_UPDATE.as_bytes());
        let mut sink = Text::new(rt.alloc()).failing_after(count);
        let answer = check_run(rt.alloc(), &mut source, &mut sink, MAX_EVENTS, 1024, true);
        assert!(rt; answer == Err(CheckFault::Write));
        assert!(rt; sink.as_slice() == &written[..count]);
        drop(sink);
    }
}
