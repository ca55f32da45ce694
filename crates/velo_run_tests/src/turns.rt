//! Schedules as they are read and written.
use std::alloc::Global;
use std::test::Fail;
use velo_schedule_text::{ScheduleFault, append_turns, schedule_of, turns_of};

/// Whether a text is read and written as this short one, each word after a space.
fn is_short(alloc: Global, text: &str, short: &[u8]) -> bool {
    let mut written = Vec::new(alloc);
    match turns_of(alloc, text) {
        Ok(schedule) => append_turns(&mut written, &schedule).is_ok()
            && written.as_slice() == short,
        Err(_) => false,
    }
}

/// Whether a text says no turns.
fn is_bad(alloc: Global, text: &str) -> bool {
    matches!(turns_of(alloc, text), Err(ScheduleFault::Bad))
}

/// Whether thread numbers alone are the schedule that is written as this short text.
fn are_numbers_of(alloc: Global, text: &str, short: &[u8]) -> bool {
    let mut written = Vec::new(alloc);
    match schedule_of(alloc, text) {
        Ok(schedule) => append_turns(&mut written, &schedule).is_ok()
            && written.as_slice() == short,
        Err(_) => false,
    }
}

/// Whether a text is not thread numbers alone.
fn are_no_numbers(alloc: Global, text: &str) -> bool {
    matches!(schedule_of(alloc, text), Err(ScheduleFault::Bad))
}

#[test]
fn schedules_are_shortened(rt: HostRuntime) -> Result<(), Fail> {
    assert!(rt; is_short(rt.alloc(), "", b""));
    assert!(rt; is_short(rt.alloc(), "0", b" 0"));
    assert!(rt; is_short(rt.alloc(), "63", b" 63"));
    assert!(rt; is_short(rt.alloc(), "0 0 0 1 0", b" 0*3 1 0"));
    assert!(rt; is_short(rt.alloc(), "0*2 0 1*2 1*3 0", b" 0*3 1*5 0"));
    assert!(rt; is_short(rt.alloc(), "0*1000000", b" 0*1000000"));
    assert!(rt; is_short(rt.alloc(), "0*999999 12", b" 0*999999 12"));
    Ok(())
}

#[test]
fn other_texts_are_bad(rt: HostRuntime) -> Result<(), Fail> {
    for text in [
        "64",
        "01",
        "0 x",
        " 0",
        "0 ",
        "0  1",
        "0*",
        "0*0",
        "0*1",
        "0*01",
        "0*02",
        "*2",
        "0**2",
        "0*2*2",
        "0* 2",
        "0*2x",
        "0*1000001",
        "0*1000000 1",
        "1 0*1000000",
        "-1",
        "+1",
        "0,1",
        "0\n",
        "9999999999999999999999",
    ] {
        assert!(rt; is_bad(rt.alloc(), text));
    }
    Ok(())
}

#[test]
fn thread_numbers_are_read(rt: HostRuntime) -> Result<(), Fail> {
    assert!(rt; are_numbers_of(rt.alloc(), "", b""));
    assert!(rt; are_numbers_of(rt.alloc(), "63", b" 63"));
    assert!(rt; are_numbers_of(rt.alloc(), "0 0 0 1 0", b" 0*3 1 0"));
    assert!(rt; are_numbers_of(rt.alloc(), "9 10 10 2", b" 9 10*2 2"));
    Ok(())
}

#[test]
fn other_texts_are_no_numbers(rt: HostRuntime) -> Result<(), Fail> {
    for text in [
        "0*3 1", "0*1", "0 1*2", "*", "@s", "@", "0  1", " 0", "0 ", " ", "01", "00", "64", "0\t1",
        "\t0", "0\n", "0,1", "+1", "-1", "x",
    ] {
        assert!(rt; are_no_numbers(rt.alloc(), text));
    }
    Ok(())
}
