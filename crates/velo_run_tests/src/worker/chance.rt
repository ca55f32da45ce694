//! Live runs whose threads are held up randomly.
use std::alloc::Global;
use std::process::Abort;
use std::sync::Wait;
use std::thread;
use std::thread::Threads;
use std::time::{Clock, Duration};
use velo_bytes::{Bytes, Text};
use velo_check::{check_run, order_or_cycle_of, verdict_of, write_output};
use velo_events::{Config, ThreadId};
use velo_logtext::write_log;
use velo_report::Names;
use velo_worker::{Ending, Gate, live};
use velo_workload::parse;
use velo_world::Closed;

/// Two threads that add to one variable in blocks; then under a lock, once, or twice; two that take
/// two locks in opposite orders; and two of which one reads under a lock that it shares.
static WORKLOADS: [&str; 5] = [
    "var x\nthread main\nfork a\nbegin inc\nread x\nadd 1\nwrite x\nend\njoin a\nthread a\nbegin inc\nread x\nadd 1\nwrite x\nend\n",
    "var x\nlock m\nthread main\nfork a\nbegin inc\nacquire m\nread x\nadd 1\nwrite x\nrelease m\nend\njoin a\nthread a\nbegin inc\nacquire m\nread x\nadd 1\nwrite x\nrelease m\nend\n",
    "var x\nlock m\nthread main\nfork a\nbegin inc\nacquire m\nread x\nrelease m\nadd 1\nacquire m\nwrite x\nrelease m\nend\njoin a\nthread a\nbegin inc\nacquire m\nread x\nrelease m\nadd 1\nacquire m\nwrite x\nrelease m\nend\n",
    "lock m\nlock n\nthread main\nfork a\nacquire m\nacquire n\nrelease n\nrelease m\njoin a\nthread a\nacquire n\nacquire m\nrelease m\nrelease n\n",
    "var x\nlock m\nthread main\nfork a\nbegin look\nshare m\nread x\nunshare m\nshare m\nread x\nunshare m\nend\njoin a\nthread a\nbegin inc\nacquire m\nread x\nadd 1\nwrite x\nrelease m\nend\n",
];

/// A gate at which each thread sleeps for a random time before some of its events.
#[derive(Drop)]
struct Sleepy<'a, R: Clock> {
    rt: &'a R,
    seed: u64,
}

impl<R: Clock> Gate for Sleepy<'_, R> {
    fn pass(&self, thread: ThreadId, step: u64) -> bool {
        let dice = (self.seed ^ (step << 8) ^ u64::from(thread.0)).wrapping_mul(
            0x9e37_79b9_7f4a_7c15,
        ) >> 60;
        if dice >= 8 {
            thread::sleep(self.rt, Duration::from_micros(dice * 10));
        }
        true
    }
}

/// What a run shows, and what a check of its log does.
fn compare(rt: &impl Abort, alloc: Global, closed: &Closed) {
    let mut log = Text::new(alloc);
    write_log(closed.bounds(), closed.log(), &mut log).expect(rt, "memory");
    let list = order_or_cycle_of(alloc, closed).expect(rt, "memory");
    let mut shown = Text::new(alloc);
    let told = write_output(closed, &Names::Numbers, Some(list.as_slice()), &mut shown);
    assert!(rt; told.is_ok());
    let mut checked = Text::new(alloc);
    let mut source = Bytes::new(log.as_slice());
    let again = check_run(alloc, &mut source, &mut checked, 64, 64, true);
    assert!(rt; again == Ok(verdict_of(closed)));
    assert!(rt; checked.as_slice() == shown.as_slice());
    drop((log, list, shown, checked));
}

/// Runs a workload by threads that are held up randomly, and compares what it shows.
fn run_by_chance<R: Threads + Wait + Clock + Abort + Sync>(rt: &R, alloc: Global, seed: u64) {
    let workload = parse(alloc, WORKLOADS[(seed % 5) as usize]).expect(rt, "a workload");
    let config = Config::new(seed, workload.bounds(), 64, 64, false).expect(rt, "a configuration");
    let gate = Sleepy { rt, seed };
    let (closed, ending) = live(rt, alloc, &workload, config, &gate).expect(rt, "a run");
    assert!(rt; matches!(ending, Ending::Done | Ending::Stuck));
    compare(rt, alloc, &closed);
    drop((closed, workload, gate));
}

/// The log of each run is checked again, to the same report and the same certificate.
#[test]
fn logs_of_runs_are_checked_again(rt: HostRuntime) {
    for seed in 0..200u64 {
        run_by_chance(&rt, rt.alloc(), seed);
    }
}
