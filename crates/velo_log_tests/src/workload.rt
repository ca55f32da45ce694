//! Tests of the text of a workload.

mod growths;

use crate::words::holds_for;
use std::alloc::Global;
use std::fmt::Write;
use std::process::Abort;
use velo_events::{Bounds, Label, LockId, ThreadId, VarId};
use velo_workload::{Statement, WorkFault, Workload, parse, text_of};

/// Texts and their faults.
static FIRST_FAULTS: &[(&str, Option<WorkFault>)] = &[
    ("", Some(WorkFault::BadLine(0))),
    ("# only\n\n \t \nvar x\n", Some(WorkFault::BadLine(0))),
    ("thread main", None),
    ("thread main\nend\n", None),
    ("\t thread \t main # read x\n\n#\nend#end\n", None),
    ("thread main\r\n", Some(WorkFault::BadLine(1))),
    ("thread main\ndone", Some(WorkFault::Unmatched(2))),
    ("done", Some(WorkFault::BadLine(1))),
    (
        "thread main\nrepeat 2\nread x",
        Some(WorkFault::Unmatched(2)),
    ),
    (
        "thread main\nrepeat 2\nrepeat 3\nread x\ndone",
        Some(WorkFault::Unmatched(2)),
    ),
    (
        "thread main\nrepeat 2\n\nthread",
        Some(WorkFault::Unmatched(2)),
    ),
    (
        "thread main\nrepeat 2\nthread main",
        Some(WorkFault::Unmatched(2)),
    ),
    ("thread main\n\nthread", Some(WorkFault::BadLine(3))),
    ("var x\nvar x\nthread main", Some(WorkFault::Twice(2))),
    (
        "lock x\nvar x\nlock x\nthread main",
        Some(WorkFault::Twice(3)),
    ),
    ("thread a\nend\nthread a", Some(WorkFault::Twice(3))),
    ("thread main\nread x", Some(WorkFault::Unknown(2))),
    ("thread main\nread x\nlock m", Some(WorkFault::BadLine(3))),
    ("lock x\nthread main\nread x", Some(WorkFault::Unknown(3))),
    ("lock m\nthread main\nshare m\nunshare m", None),
    ("var x\nthread main\nshare x", Some(WorkFault::Unknown(3))),
    (
        "lock m\nthread main\nunshare n",
        Some(WorkFault::Unknown(3)),
    ),
    ("lock m\nthread main\nshare", Some(WorkFault::BadLine(3))),
    ("lock m\nthread main\nunshare", Some(WorkFault::BadLine(3))),
    (
        "lock m\nthread main\nshare m m",
        Some(WorkFault::BadLine(3)),
    ),
    ("lock m\nthread main\nshare 1m", Some(WorkFault::BadLine(3))),
    ("lock m\nshare m\nthread main", Some(WorkFault::BadLine(2))),
    (
        "lock m\nunshare m\nthread main",
        Some(WorkFault::BadLine(2)),
    ),
    (
        "lock share\nlock unshare\nthread main\nshare unshare\nunshare share",
        None,
    ),
    (
        "lock m\nthread main\nrepeat 8388607\nshare m\ndone\nunshare m",
        None,
    ),
    (
        "lock m\nthread main\nrepeat 8388607\nunshare m\ndone\nshare m\nshare m",
        Some(WorkFault::TooMany(2)),
    ),
    (
        "thread a\nfork b\n\nthread b\njoin c",
        Some(WorkFault::Unknown(5)),
    ),
    ("var x\nread x\nthread main", Some(WorkFault::BadLine(2))),
    ("thread main\nset 18446744073709551615", None),
    (
        "thread main\nset 18446744073709551616",
        Some(WorkFault::BadLine(2)),
    ),
    ("thread main\nadd 01", Some(WorkFault::BadLine(2))),
    ("thread main\nadd 0", None),
    ("thread main\nadd 1 1", Some(WorkFault::BadLine(2))),
    ("thread main\nend 1", Some(WorkFault::BadLine(2))),
    ("thread 1a", Some(WorkFault::BadLine(1))),
    (
        "thread a_1_aaaaaaaaaaaaaaaaaaaaaaaaaaaaa",
        Some(WorkFault::BadLine(1)),
    ),
    ("thread a_1_aaaaaaaaaaaaaaaaaaaaaaaaaaaa", None),
    (
        "thread main\nrepeat 18446744073709551615\nset 1\ndone",
        Some(WorkFault::TooMany(1)),
    ),
    (
        "thread main\nrepeat 18446744073709551615\nset 1\ndone\nwait",
        Some(WorkFault::BadLine(5)),
    ),
    ("\nthread main\nrepeat 8388607\nset 1\ndone\nset 1", None),
    (
        "\nthread main\nrepeat 8388607\nset 1\ndone\nset 1\nset 1",
        Some(WorkFault::TooMany(2)),
    ),
    (
        "thread a\nrepeat 4294967295\nrepeat 4294967295\nend\ndone\ndone\nthread",
        Some(WorkFault::TooMany(1)),
    ),
    (
        "thread a\nrepeat 0\nrepeat 18446744073709551615\nend\ndone\ndone",
        None,
    ),
];

fn fault_of(alloc: Global, text: &str) -> Option<WorkFault> {
    parse(alloc, text).err()
}

/// The fault of the text that repeats each piece as often as its number says.
fn fault_of_pieces(rt: &impl Abort, alloc: Global, pieces: &[(usize, &str)]) -> Option<WorkFault> {
    let mut text = String::new(alloc);
    for (count, piece) in pieces {
        for _ in 0..*count {
            text.push_str(*piece).expect(rt, "memory");
        }
    }
    let fault = fault_of(alloc, text.as_str());
    drop(text);
    fault
}

/// A number of declarations by this word, what comes after them, and the fault.
struct Declarations {
    word: &'static str,
    count: usize,
    rest: &'static str,
    fault: Option<WorkFault>,
}

static DECLARATIONS: [Declarations; 6] = [
    Declarations {
        word: "thread",
        count: 64,
        rest: "",
        fault: None,
    },
    Declarations {
        word: "thread",
        count: 65,
        rest: "",
        fault: Some(WorkFault::TooMany(65)),
    },
    Declarations {
        word: "var",
        count: 65_535,
        rest: "thread main",
        fault: None,
    },
    Declarations {
        word: "var",
        count: 65_536,
        rest: "thread main",
        fault: Some(WorkFault::TooMany(65_536)),
    },
    Declarations {
        word: "lock",
        count: 4_096,
        rest: "thread main",
        fault: None,
    },
    Declarations {
        word: "lock",
        count: 4_097,
        rest: "thread main",
        fault: Some(WorkFault::TooMany(4_097)),
    },
];

/// The fault of a text with these declarations.
fn fault_of_declarations(
    rt: &impl Abort,
    alloc: Global,
    declared: &Declarations,
) -> Option<WorkFault> {
    let mut text = String::new(alloc);
    for number in 0..declared.count {
        writeln!(text, "{} n{number}", declared.word).expect(rt, "memory");
    }
    text.push_str(declared.rest).expect(rt, "memory");
    let fault = fault_of(alloc, text.as_str());
    drop(text);
    fault
}

#[test]
fn first_faults(rt: HostRuntime) {
    for (text, fault) in FIRST_FAULTS {
        holds_for(&rt, fault_of(rt.alloc(), *text) == *fault, &text);
    }
}

#[test]
fn limits(rt: HostRuntime) {
    for (pieces, fault) in [
        ([(1, "thread a\n"), (8, "repeat 1\n"), (8, "done\n")], None),
        (
            [(1, "thread a\n"), (9, "repeat 1\n"), (9, "done\n")],
            Some(WorkFault::TooMany(10)),
        ),
        (
            [(1, "thread a\n"), (1_000_000, "end\n"), (1, "thread b\n")],
            None,
        ),
        (
            [
                (1, "thread a\n"),
                (1_000_000, "end\n"),
                (1, "thread b\nend"),
            ],
            Some(WorkFault::TooMany(1_000_003)),
        ),
    ] {
        assert!(rt; fault_of_pieces(&rt, rt.alloc(), &pieces) == fault);
    }
}

#[test]
fn limits_of_declarations(rt: HostRuntime) {
    for declared in &DECLARATIONS {
        let fault = fault_of_declarations(&rt, rt.alloc(), declared);
        let Declarations { word, count, .. } = declared;
        assert!(rt; fault == declared.fault, "{count} times {word}");
    }
}

/// A program with each statement.
const PROGRAM: &str =
    "var y\nvar x\nlock end # a lock\nthread main\nfork b\nbegin inc\nread x\nwrite y\n\
        set 5\nadd 6\nbegin dec\nend\nend\njoin b\n\nthread b\nrepeat 2\nacquire end\nbegin inc\n\
        release end\nshare end\nunshare end\ndone";

const PROGRAM_BOUNDS: Bounds = Bounds {
    threads: 2,
    variables: 2,
    locks: 1,
};

static MAIN_BODY: &[Statement] = &[
    Statement::Fork(ThreadId(1)),
    Statement::Begin(Label(0)),
    Statement::Read(VarId(1)),
    Statement::Write(VarId(0)),
    Statement::Set(5),
    Statement::Add(6),
    Statement::Begin(Label(1)),
    Statement::End,
    Statement::End,
    Statement::Join(ThreadId(1)),
];

static OTHER_BODY: &[Statement] = &[
    Statement::Repeat(2),
    Statement::Acquire(LockId(0)),
    Statement::Begin(Label(0)),
    Statement::Release(LockId(0)),
    Statement::Share(LockId(0)),
    Statement::Unshare(LockId(0)),
    Statement::Done,
];

fn has_body(workload: &Workload, thread: ThreadId, body: &[Statement]) -> bool {
    thread.0 < workload.bounds().threads && workload.body(thread) == body
}

/// The names of the threads, the variables, the locks and the labels.
fn names_of(rt: &impl Abort, alloc: Global, workload: &Workload) -> String {
    let threads = workload.thread_names();
    let variables = workload.variable_names();
    let locks = workload.lock_names();
    let labels = workload.label_names();
    format!(in alloc; "{threads:?} {variables:?} {locks:?} {labels:?}").expect(rt, "memory")
}

#[test]
fn a_program(rt: HostRuntime) {
    let workload = parse(rt.alloc(), PROGRAM).expect(&rt, "a program");
    assert!(rt; workload.bounds() == PROGRAM_BOUNDS);
    assert!(rt; has_body(&workload, ThreadId(0), MAIN_BODY));
    assert!(rt; has_body(&workload, ThreadId(1), OTHER_BODY));
    let names = names_of(&rt, rt.alloc(), &workload);
    drop(workload);
    let wanted = "[\"main\", \"b\"] [\"y\", \"x\"] [\"end\"] [\"inc\", \"dec\"]";
    assert!(rt; names.as_str() == wanted);
}

/// The fault of bytes that are no text.
fn fault_of_bytes(bytes: &[u8]) -> Option<WorkFault> {
    text_of(bytes).err()
}

#[test]
fn texts(rt: HostRuntime) {
    assert!(rt; text_of(b"thread a") == Ok("thread a"));
    assert!(rt; fault_of_bytes(b"thread \xff") == Some(WorkFault::BadLine(0)));
    for (count, fault) in [
        (16_777_216, WorkFault::BadLine(0)),
        (16_777_217, WorkFault::TooMany(0)),
    ] {
        let bytes = vec![in rt.alloc(); 255u8; count].expect(&rt, "memory");
        assert!(rt; fault_of_bytes(bytes.as_slice()) == Some(fault));
    }
}
