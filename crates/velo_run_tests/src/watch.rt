//! A watch in whose call one allocation fails, whichever it is.
use crate::check::LOST_UPDATE;
use std::alloc::Global;
use velo_bytes::{Bytes, Text, WriterSink};
use velo_check::{CheckFault, Fate, Files, Limits, WatchOptions};
use velo_cli::watch_file;
use velo_events::MAX_EVENTS;
use velo_logtext::LogFault;
use velo_worker::Ending;

/// The line of the alarm, and behind it the report and the certificate.
const TOLD: &str = "alarm 4 blame 1 7\n";

const CERTIFIED: &str =
    "alarm 4 blame 1 7\nevents 5\nthread 0 4\nthread 1 1\nverdict alarm 4\ntransaction 1\nblame 1 7\ncycle 1 3\n";

const ALARM: Fate = Fate::Finished {
    ending: Ending::Done,
    alarm: true,
};

const OPTIONS: WatchOptions<'static> = WatchOptions {
    input: "-",
    stop: false,
    limits: Limits {
        events: MAX_EVENTS,
        nodes: 64,
    },
    certificate: true,
    names: None,
};

/// A log on standard input, and no files.
#[derive(Drop)]
struct Pipe;

impl Files for Pipe {
    type Input = Bytes<'static>;

    type Output = Text;

    fn open(&self, _path: &str) -> Option<Bytes<'static>> {
        None
    }

    fn standard_input(&self) -> Bytes<'static> {
        Bytes::new(LOST_UPDATE.as_bytes())
    }

    fn create(&mut self, _path: &str) -> Option<Text> {
        None
    }

    fn close(&mut self, _path: &str, file: Text) {
        drop(file);
    }
}

/// Watches the lost update with its certificate, into this space.
fn watch(alloc: Global, space: &mut [u8]) -> Fate {
    let mut sink = WriterSink::new(space);
    watch_file(alloc, &OPTIONS, &mut Pipe, &mut sink)
}

/// Where a growth is refused, nothing is written but the line of the alarm; again, all is.
#[test]
fn a_refused_growth_of_a_watch(rt: HostRuntime) {
    let mut space = [0u8; 200];
    let mut fate = watch(rt.alloc(), space.as_mut_slice());
    if fate != ALARM {
        let told = space.iter().take_while(|byte| **byte != 0).count();
        assert!(rt; told == 0 || told == TOLD.len());
        assert!(rt;
            matches!(
                fate,
                Fate::Check(CheckFault::Memory | CheckFault::Log(LogFault::Memory))
            )
        );
        fate = watch(rt.alloc(), space.as_mut_slice());
    }
    assert!(rt; fate == ALARM);
    assert!(rt; space.as_slice().get(..CERTIFIED.len()) == Some(CERTIFIED.as_bytes()));
    assert!(rt; space.as_slice().get(CERTIFIED.len()) == Some(&0));
}
