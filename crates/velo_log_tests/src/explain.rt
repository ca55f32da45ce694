//! Tests of explanations in words.
use crate::traces::logs;
use crate::words::{block, event, trace_of};
use std::alloc::Global;
use std::process::Abort;
use std::test::Fail;
use velo_certify::{CertFault, serial_order};
use velo_events::Event;
use velo_explain::{Evidence, evidence_of, explain_clean, explain_named};
use velo_names::Names;
use velo_traces::{Block, Trace};

/// A log with its alarm, and what is to be written.
#[derive(Clone, Copy)]
struct Known<'a> {
    events: &'a [Event],
    position: usize,
    blamed: &'a [Block],
    text: &'a str,
}

/// Compares the words of an alarm with what is wanted.
fn compare(rt: &impl Abort, alloc: Global, trace: &Trace, known: &Known) -> Result<(), Fail> {
    assert!(rt; trace.len() < 100);
    let evidence = evidence_of(alloc, trace, known.position, known.blamed)?;
    let names = Names::new(alloc);
    let words = explain_named(alloc, trace, known.position, &evidence, &names)?;
    assert!(rt; words.as_slice() == known.text.as_bytes());
    Ok(())
}

static ALARMS: [Known; 3] = [
    Known {
        events: &[
            event!(0 fork 1),
            event!(0 begin 7),
            event!(0 rd 0 0),
            event!(1 wr 0 5),
            event!(0 wr 0 1),
        ],
        position: 4,
        blamed: &[block!(1, 7)],
        text: "\
The blocks of this log cannot be serialized.
    line  thread 0                            thread 1
       3  begin 7
       4  rd 0 0
       5                                      wr 0 5
       6  wr 0 1
Line 6 `0 wr 0 1` closes a cycle of 2 transactions:
  T1: thread 0, block 7, lines 3 to 6
  T2: thread 1, outside blocks, line 5
Each must come before the next, and the last before the first:
  T1 before T2: line 4 `0 rd 0 0`, then line 5 `1 wr 0 5`
  T2 before T1: line 5 `1 wr 0 5`, then line 6 `0 wr 0 1`
To blame in thread 0:
  block 7, from line 3: line 5 `1 wr 0 5` must come after its begin and before line 6
",
    },
    Known {
        events: &[
            event!(0 fork 1),
            event!(0 begin 1),
            event!(0 wr 0 1),
            event!(1 begin 2),
            event!(1 wr 1 1),
            event!(0 rd 1 1),
            event!(1 rd 0 1),
        ],
        position: 6,
        blamed: &[],
        text: "\
The blocks of this log cannot be serialized.
    line  thread 0                            thread 1
       3  begin 1
       4  wr 0 1
       5                                      begin 2
       6                                      wr 1 1
       7  rd 1 1
       8                                      rd 0 1
Line 8 `1 rd 0 1` closes a cycle of 2 transactions:
  T1: thread 1, block 2, lines 5 to 8
  T2: thread 0, block 1, lines 3 to 7
Each must come before the next, and the last before the first:
  T1 before T2: line 6 `1 wr 1 1`, then line 7 `0 rd 1 1`
  T2 before T1: line 4 `0 wr 0 1`, then line 8 `1 rd 0 1`
No block alone is to blame: each can be brought together, but not all transactions at once.
",
    },
    Known {
        events: &[
            event!(0 fork 1),
            event!(0 begin 1),
            event!(0 acq 3),
            event!(0 rel 3),
            event!(0 begin 2),
            event!(1 acq 3),
            event!(1 rel 3),
            event!(0 acq 3),
        ],
        position: 7,
        blamed: &[block!(1, 1), block!(4, 2)],
        text: "\
The blocks of this log cannot be serialized.
    line  thread 0                            thread 1
       3  begin 1
      .. 1 line ..
       5  rel 3
      .. 1 line ..
       7                                      acq 3
      .. 1 line ..
       9  acq 3
Line 9 `0 acq 3` closes a cycle of 2 transactions:
  T1: thread 0, block 1, lines 3 to 9
  T2: thread 1, outside blocks, line 7
Each must come before the next, and the last before the first:
  T1 before T2: line 5 `0 rel 3`, then line 7 `1 acq 3`
  T2 before T1: line 7 `1 acq 3`, then line 9 `0 acq 3`
To blame in thread 0:
  block 1, from line 3: line 7 `1 acq 3` must come after its begin and before line 9
",
    },
];

#[test]
fn alarms(rt: HostRuntime) -> Result<(), Fail> {
    for known in &ALARMS {
        let trace = trace_of(rt.alloc(), known.events)?;
        compare(&rt, rt.alloc(), &trace, known)?;
    }
    Ok(())
}

static ALARMS_OF_BLOCKS: [Known; 2] = [
    Known {
        events: logs::LOCK_SHARED_TWICE,
        position: 6,
        blamed: &[block!(1, 1)],
        text: "\
The blocks of this log cannot be serialized.
    line  thread 0                            thread 1
       3  begin 1
      .. 1 line ..
       5  rels 0
       6                                      acq 0
      .. 1 line ..
       8  acqs 0
Line 8 `0 acqs 0` closes a cycle of 2 transactions:
  T1: thread 0, block 1, lines 3 to 8
  T2: thread 1, outside blocks, line 6
Each must come before the next, and the last before the first:
  T1 before T2: line 5 `0 rels 0`, then line 6 `1 acq 0`
  T2 before T1: line 6 `1 acq 0`, then line 8 `0 acqs 0`
To blame in thread 0:
  block 1, from line 3: line 6 `1 acq 0` must come after its begin and before line 8
",
    },
    Known {
        events: logs::INNER_BLOCK_BEFORE_THE_READ,
        position: 5,
        blamed: &[block!(1, 1), block!(2, 2)],
        text: "\
The blocks of this log cannot be serialized.
    line  thread 0                            thread 1
       3  begin 1
       4  begin 2
       5  rd 0 0
       6                                      wr 0 3
       7  wr 0 4
Line 7 `0 wr 0 4` closes a cycle of 2 transactions:
  T1: thread 0, block 1, lines 3 to 7
  T2: thread 1, outside blocks, line 6
Each must come before the next, and the last before the first:
  T1 before T2: line 5 `0 rd 0 0`, then line 6 `1 wr 0 3`
  T2 before T1: line 6 `1 wr 0 3`, then line 7 `0 wr 0 4`
To blame in thread 0:
  block 1, from line 3: line 6 `1 wr 0 3` must come after its begin and before line 7
  block 2, from line 4: line 6 `1 wr 0 3` must come after its begin and before line 7
",
    },
];

#[test]
fn alarms_by_sharers_and_of_nested_blocks(rt: HostRuntime) -> Result<(), Fail> {
    for known in &ALARMS_OF_BLOCKS {
        let trace = trace_of(rt.alloc(), known.events)?;
        compare(&rt, rt.alloc(), &trace, known)?;
    }
    Ok(())
}

static CLEAN: [Event; 5] = [
    event!(0 fork 1),
    event!(0 begin 1),
    event!(1 wr 0 2),
    event!(0 rd 0 2),
    event!(0 end),
];

#[test]
fn clean_log(rt: HostRuntime) -> Result<(), Fail> {
    let trace = trace_of(rt.alloc(), &CLEAN)?;
    let words = match serial_order(rt.alloc(), &trace) {
        Ok(_) => explain_clean(rt.alloc(), &trace)?,
        Err(_) => panic!(&rt; "no serial order"),
    };
    let wanted = "\
The blocks of this log can be serialized.
Events: 5
Transactions, which can follow one another: 3
";
    assert!(&rt; words.as_slice() == wanted.as_bytes());
    Ok(())
}

#[test]
fn faults(rt: HostRuntime) -> Result<(), Fail> {
    let trace = trace_of(rt.alloc(), logs::LOST_UPDATE)?;
    assert!(&rt; trace.len() < 100);
    assert!(&rt; evidence_of(rt.alloc(), &trace, 3, &[]).err() == Some(CertFault::NoCycle));
    assert!(&rt; evidence_of(rt.alloc(), &trace, 5, &[]).err() == Some(CertFault::NotThere));
    Ok(())
}
