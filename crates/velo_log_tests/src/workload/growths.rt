//! One allocation fails, whichever it is: the call reports it, and a second call returns what the
//! first would have. Without a failure each call is done once.
use super::{MAIN_BODY, OTHER_BODY, PROGRAM, PROGRAM_BOUNDS, has_body};
use crate::growths::again;
use velo_events::ThreadId;
use velo_workload::{WorkFault, parse};

fn are(names: &[String], wanted: &[&str]) -> bool {
    let names = names.iter().map(|name| name.as_str());
    names.eq(wanted.iter().copied())
}

#[test]
fn a_refused_growth_of_a_program(rt: HostRuntime) {
    let program = again!(WorkFault::Memory, parse(rt.alloc(), PROGRAM)).expect(&rt, "a program");
    assert!(rt; program.bounds() == PROGRAM_BOUNDS);
    assert!(rt; has_body(&program, ThreadId(0), MAIN_BODY));
    assert!(rt; has_body(&program, ThreadId(1), OTHER_BODY));
    assert!(rt; are(program.thread_names(), &["main", "b"]));
    assert!(rt; are(program.variable_names(), &["y", "x"]));
    assert!(rt; are(program.lock_names(), &["end"]));
    assert!(rt; are(program.label_names(), &["inc", "dec"]));
    drop(program);
}

#[test]
fn a_refused_growth_before_a_fault(rt: HostRuntime) {
    let text = "var x\nthread main\nread x\nread y";
    let fault = again!(WorkFault::Memory, parse(rt.alloc(), text)).err();
    assert!(rt; fault == Some(WorkFault::Unknown(4)));
}
