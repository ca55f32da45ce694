//! Tests of explanations in lanes.
use crate::words::{block, event, trace_of};
use std::alloc::Global;
use std::process::Abort;
use std::test::Fail;
use velo_events::Event;
use velo_explain::{evidence_of, explain_named};
use velo_names::Names;
use velo_traces::Block;

/// A log with names and its alarm, and the first lines of what is to be written.
#[derive(Clone, Copy)]
struct Known<'a> {
    names: &'a str,
    events: &'a [Event],
    position: usize,
    blamed: &'a [Block],
    text: &'a str,
}

/// Compares the first lines of what is written of an alarm with what is wanted.
fn compare(rt: &impl Abort, alloc: Global, known: &Known) -> Result<(), Fail> {
    let trace = trace_of(alloc, known.events)?;
    assert!(rt; trace.len() < 100);
    let evidence = evidence_of(alloc, &trace, known.position, known.blamed)?;
    let Ok(names) = Names::parse(alloc, known.names.as_bytes()) else {
        panic!(rt; "the names have a fault");
    };
    let written = explain_named(alloc, &trace, known.position, &evidence, &names)?;
    assert!(rt; written.as_slice().starts_with(known.text.as_bytes()));
    Ok(())
}

/// Three transactions. The names are cut before a character of two bytes, and after one; one just
/// fits.
static THREE_LANES: Known = Known {
    names: "\
thread 0 main
thread 1 a worker with a long name
variable 0 Zähler der offenen Aufträge
variable 1 aaaaaaaaaaaaéééé
variable 2 exactly fifteen
label 1 Übertrag
",
    events: &[
        event!(0 fork 1),
        event!(0 fork 2),
        event!(0 begin 1),
        event!(0 wr 0 1),
        event!(1 begin 2),
        event!(1 rd 0 1),
        event!(1 wr 1 1),
        event!(1 end),
        event!(2 begin 3),
        event!(2 rd 1 1),
        event!(2 wr 2 1),
        event!(0 rd 2 1),
    ],
    position: 11,
    blamed: &[block!(2, 1)],
    text: "\
The blocks of this log cannot be serialized.
    line  thread 0 main           thread 1 a worker wi..  thread 2
       4  begin 1 Übertrag
       5  wr 0 1 Zähler der of..
       6                          begin 2
       7                          rd 0 1 Zähler der of..
       8                          wr 1 1 aaaaaaaaaaaaé..
      .. 1 line ..
      10                                                  begin 3
      11                                                  rd 1 1 aaaaaaaaaaaaé..
      12                                                  wr 2 1 exactly fifteen
      13  rd 2 1 exactly fifteen
Line 13 `0 rd 2 1` exactly fifteen closes a cycle of 3 transactions:
",
};

/// The event that parts the block is not on the cycle. Two events of thread 1 are side by side.
static WITNESS_BESIDE_THE_CYCLE: Known = Known {
    names: "lock 0 table\n",
    events: &[
        event!(0 begin 1),
        event!(0 begin 9),
        event!(0 end),
        event!(0 fork 1),
        event!(1 begin 2),
        event!(1 acq 0),
        event!(1 wr 0 1),
        event!(1 wr 0 2),
        event!(1 rel 0),
        event!(0 acq 0),
    ],
    position: 9,
    blamed: &[block!(0, 1)],
    text: "\
The blocks of this log cannot be serialized.
    line  thread 0                            thread 1
       2  begin 1
      .. 2 lines ..
       5  fork 1
       6                                      begin 2
       7                                      acq 0 table
      .. 2 lines ..
      10                                      rel 0 table
      11  acq 0 table
Line 11 `0 acq 0` table closes a cycle of 2 transactions:
",
};

/// Six transactions of six threads, with lines between any two events of the cycle: a screen is
/// full, and no begin is shown.
static SIX_LANES: Known = Known {
    names: "thread 0 main\nvariable 0 total\nvariable 5 abc\n",
    events: &[
        event!(0 fork 1),
        event!(0 fork 2),
        event!(0 fork 3),
        event!(0 fork 4),
        event!(0 fork 5),
        event!(0 begin 1),
        event!(0 wr 0 1),
        event!(0 rd 9 0),
        event!(1 begin 2),
        event!(1 rd 0 1),
        event!(0 rd 9 0),
        event!(1 wr 1 1),
        event!(0 rd 9 0),
        event!(2 begin 3),
        event!(2 rd 1 1),
        event!(0 rd 9 0),
        event!(2 wr 2 1),
        event!(0 rd 9 0),
        event!(3 begin 4),
        event!(3 rd 2 1),
        event!(0 rd 9 0),
        event!(3 wr 3 1),
        event!(0 rd 9 0),
        event!(4 begin 5),
        event!(4 rd 3 1),
        event!(0 rd 9 0),
        event!(4 wr 4 1),
        event!(0 rd 9 0),
        event!(5 begin 6),
        event!(5 rd 4 1),
        event!(0 rd 9 0),
        event!(5 wr 5 1),
        event!(0 rd 9 0),
        event!(0 rd 5 1),
    ],
    position: 33,
    blamed: &[block!(5, 1)],
    text: "\
The blocks of this log cannot be serialized.
    line  thread 0..  thread 1    thread 2    thread 3    thread 4    thread 5
       8  wr 0 1 t..
      .. 2 lines ..
      11              rd 0 1 t..
      .. 1 line ..
      13              wr 1 1
      .. 2 lines ..
      16                          rd 1 1
      .. 1 line ..
      18                          wr 2 1
      .. 2 lines ..
      21                                      rd 2 1
      .. 1 line ..
      23                                      wr 3 1
      .. 2 lines ..
      26                                                  rd 3 1
      .. 1 line ..
      28                                                  wr 4 1
      .. 2 lines ..
      31                                                              rd 4 1
      .. 1 line ..
      33                                                              wr 5 1 abc
      .. 1 line ..
      35  rd 5 1 abc
Line 35 `0 rd 5 1` abc closes a cycle of 6 transactions:
",
};

#[test]
fn lanes(rt: HostRuntime) -> Result<(), Fail> {
    compare(&rt, rt.alloc(), &THREE_LANES)?;
    compare(&rt, rt.alloc(), &WITNESS_BESIDE_THE_CYCLE)?;
    compare(&rt, rt.alloc(), &SIX_LANES)
}
