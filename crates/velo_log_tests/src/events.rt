//! Tests of events, refusals and configurations.
use crate::words::{holds_for, is_told_as};
use std::mem::size_of;
use velo_events::{BadConfig, Bounds, Config, Event, Kind, MAX_OPEN_BLOCKS, Refusal};

static REFUSALS: [(Refusal, u8, &str); 22] = [
    (Refusal::Halted, 1, "halted"),
    (Refusal::NotLive, 2, "thread not live"),
    (Refusal::NoSuchVariable, 3, "no such variable"),
    (Refusal::NoSuchLock, 4, "no such lock"),
    (Refusal::NoSuchThread, 5, "no such thread"),
    (Refusal::Busy, 6, "lock busy"),
    (Refusal::AlreadyHeld, 7, "lock already held"),
    (Refusal::NotHolder, 8, "not the holder"),
    (Refusal::NoOpenBlock, 9, "no open block"),
    (Refusal::TooDeep, 10, "blocks too deep"),
    (Refusal::AlreadyForked, 11, "thread already forked"),
    (Refusal::NotForked, 12, "thread not forked"),
    (Refusal::NotExited, 13, "thread not exited"),
    (Refusal::AlreadyJoined, 14, "thread already joined"),
    (Refusal::BlockOpen, 15, "block open"),
    (Refusal::LockHeld, 16, "lock held"),
    (Refusal::LogFull, 17, "log full"),
    (Refusal::GraphFull, 18, "graph full"),
    (Refusal::Memory, 19, "out of memory"),
    (Refusal::WouldDeadlock, 20, "would deadlock"),
    (Refusal::RuntimeMemory, 21, "runtime out of memory"),
    (Refusal::Foreign, 22, "foreign seat"),
];

#[test]
fn refusals_have_their_numbers_and_texts(rt: HostRuntime) {
    for (refusal, number, text) in &REFUSALS {
        let is_told = is_told_as(rt.alloc(), refusal, *text);
        holds_for(&rt, is_told && *refusal as u8 == *number, &text);
    }
}

static BAD_VALUES: [(BadConfig, u8, &str); 5] = [
    (
        BadConfig::Threads,
        1,
        "the number of threads is not from 1 to 64",
    ),
    (
        BadConfig::Variables,
        2,
        "the number of variables is out of range",
    ),
    (BadConfig::Locks, 3, "the number of locks is above 4096"),
    (
        BadConfig::Events,
        4,
        "the limit of events is not from 1 to 16777216",
    ),
    (
        BadConfig::Nodes,
        5,
        "the limit of nodes is not from 1 to 4096",
    ),
];

#[test]
fn bad_values_have_their_numbers_and_texts(rt: HostRuntime) {
    for (bad, number, text) in &BAD_VALUES {
        let is_told = is_told_as(rt.alloc(), bad, *text);
        holds_for(&rt, is_told && *bad as u8 == *number, &text);
    }
}

/// The most events, the most nodes, and which of the two is out of its range.
static LIMITS: [(u32, u16, Option<BadConfig>); 7] = [
    (1, 1, None),
    (16_777_216, 4_096, None),
    (0, 1, Some(BadConfig::Events)),
    (16_777_217, 4_096, Some(BadConfig::Events)),
    (1, 0, Some(BadConfig::Nodes)),
    (16_777_216, 4_097, Some(BadConfig::Nodes)),
    (0, 0, Some(BadConfig::Events)),
];

const GREATEST_BOUNDS: Bounds = Bounds {
    threads: 64,
    variables: 65_535,
    locks: 4_096,
};

/// The bounds of a configuration with the greatest bounds, or which of its limits is out of range.
fn bounds_within(events: u32, nodes: u16) -> Result<Bounds, BadConfig> {
    Ok(Config::new(0, GREATEST_BOUNDS, events, nodes, true)?.bounds)
}

/// Configurations with the greatest bounds, and limits at both sides of their ends.
#[test]
fn the_limits_may_be_reached(rt: HostRuntime) {
    for (events, nodes, bad) in &LIMITS {
        let is_right = match bounds_within(*events, *nodes) {
            Ok(bounds) => bad.is_none() && bounds == GREATEST_BOUNDS,
            Err(refused) => *bad == Some(refused),
        };
        assert!(rt; is_right, "{events} events, {nodes} nodes");
    }
    assert!(rt; MAX_OPEN_BLOCKS == 32);
}

#[test]
fn events_are_small(rt: HostRuntime) {
    assert!(rt; size_of::<Kind>() <= 16);
    assert!(rt; size_of::<Event>() <= 24);
}
