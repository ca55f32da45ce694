//! Faults of usage, on the matches of `command`.
use crate::words::holds_for;
use std::alloc::Global;
use velo_cli::{command, matches_of};

/// Words that are taken: each limit at its ends.
static RIGHT: [&[&str]; 15] = [
    &["velodrome", "check", "a.log"],
    &["velodrome", "check", "-"],
    &["velodrome", "check", "--certificate", "a.log"],
    &[
        "velodrome",
        "check",
        "a.log",
        "--events",
        "1",
        "--nodes",
        "1",
    ],
    &[
        "velodrome",
        "check",
        "a.log",
        "--events=16777216",
        "--nodes=4096",
    ],
    &["velodrome", "replay", "w", "--events", "1", "--nodes", "1"],
    &[
        "velodrome",
        "replay",
        "w",
        "--events=16777216",
        "--nodes=4096",
    ],
    &[
        "velodrome",
        "replay",
        "w",
        "--schedule",
        "0 0 1",
        "--stop",
        "--log",
        "o",
    ],
    &[
        "velodrome",
        "replay",
        "w",
        "--schedule",
        "",
        "--certificate",
    ],
    &["velodrome", "replay", "w", "--schedule", "64"],
    &["velodrome", "run", "w", "--events", "1", "--nodes", "1"],
    &["velodrome", "run", "w", "--events=16777216", "--nodes=4096"],
    &[
        "velodrome",
        "run",
        "w",
        "--stop",
        "--log",
        "o",
        "--certificate",
    ],
    &["velodrome", "carry", "a.log", "--log", "o.log"],
    &["velodrome", "carry", "--log=o.log", "-"],
];

/// Words that are not.
static WRONG: [&[&str]; 39] = [
    &["velodrome"],
    &["velodrome", "race", "a.log"],
    &["velodrome", "check"],
    &["velodrome", "check", "a.log", "b.log"],
    &["velodrome", "check", "a.log", "--events", "0"],
    &["velodrome", "check", "a.log", "--events", "16777217"],
    &["velodrome", "check", "a.log", "--events", "x"],
    &["velodrome", "check", "a.log", "--events"],
    &["velodrome", "check", "a.log", "--nodes", "0"],
    &["velodrome", "check", "a.log", "--nodes", "4097"],
    &["velodrome", "check", "a.log", "--nodes=-1"],
    &["velodrome", "check", "a.log", "--stop"],
    &["velodrome", "check", "a.log", "--log", "o.log"],
    &["velodrome", "check", "a.log", "--schedule", "0"],
    &["velodrome", "replay"],
    &["velodrome", "replay", "w", "--events", "0"],
    &["velodrome", "replay", "w", "--events", "16777217"],
    &["velodrome", "replay", "w", "--nodes", "0"],
    &["velodrome", "replay", "w", "--nodes", "4097"],
    // a fault of usage goes before a schedule that is none
    &[
        "velodrome",
        "replay",
        "w",
        "--schedule",
        "64",
        "--nodes",
        "0",
    ],
    &["velodrome", "replay", "w", "--schedule"],
    &["velodrome", "replay", "w", "--turns"],
    &["velodrome", "replay", "w", "--turns", "0", "--turns", "0"],
    &["velodrome", "replay", "w", "--log"],
    &["velodrome", "run"],
    &["velodrome", "run", "w", "--schedule", "0"],
    &["velodrome", "run", "w", "--turns", "0"],
    &["velodrome", "run", "w", "--events", "0"],
    &["velodrome", "run", "w", "--events", "16777217"],
    &["velodrome", "run", "w", "--nodes", "0"],
    &["velodrome", "run", "w", "--nodes", "4097"],
    &["velodrome", "carry", "a.log"],
    &["velodrome", "carry", "--log", "o.log"],
    &["velodrome", "carry", "a.log", "--log"],
    &["velodrome", "carry", "a.log", "b.log", "--log", "o.log"],
    &["velodrome", "carry", "a.log", "--log", "o.log", "--stop"],
    &[
        "velodrome",
        "carry",
        "a.log",
        "--log",
        "o.log",
        "--certificate",
    ],
    &[
        "velodrome",
        "carry",
        "a.log",
        "--log",
        "o.log",
        "--nodes",
        "4",
    ],
    &["velodrome", "carry", "a.log", "--log", "o.log", "--why"],
];

/// Whether the words are taken.
fn are_taken(alloc: Global, words: &[&str]) -> Option<bool> {
    let command = command(alloc).ok()?;
    Some(matches_of(command, words).is_ok())
}

#[test]
fn right_words_are_taken(rt: HostRuntime) {
    for (at, words) in RIGHT.iter().enumerate() {
        holds_for(&rt, are_taken(rt.alloc(), *words) == Some(true), &at);
    }
}

#[test]
fn wrong_words_are_not(rt: HostRuntime) {
    for (at, words) in WRONG.iter().enumerate() {
        holds_for(&rt, are_taken(rt.alloc(), *words) == Some(false), &at);
    }
}
