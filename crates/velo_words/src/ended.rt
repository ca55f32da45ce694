//! What is said of a run of a workload: of turns of threads that it does not have, and of why it
//! could not go on.

use crate::again::read_again;
use crate::lines::{add_file, add_text};
use crate::place::{Complaint, place_words};
use crate::waits_of;
use std::alloc::Global;
use velo_check::{Files, ReplayOptions, Request, RunOptions, ScheduleSource};
use velo_events::{Config, Memory, Refusal, ThreadId};
use velo_explain::{Page, Piece};
use velo_schedule_text::{MAX_SCHEDULE_BYTES, schedule_in, schedule_of, turns_of};
use velo_worker::{Ending, replay};
use velo_workload::{MAX_WORKLOAD_BYTES, Workload, parse, text_of};
use velo_world::Closed;

/// The first thread of a schedule that a workload with so many threads does not have.
fn foreign_in(threads: u8, schedule: &[ThreadId]) -> Option<ThreadId> {
    schedule.iter().copied().find(|thread| thread.0 >= threads)
}

/// Adds that a thread is none of a workload with so many.
fn add_none_of(
    page: &mut Page,
    alloc: Global,
    place: &str,
    threads: u64,
    thread: u64,
) -> Result<(), Memory> {
    add_file(page, alloc, place)?;
    page.add(&[
        Piece::Text("thread "),
        Piece::Number(thread),
        Piece::Text(" is none of the workload (threads: "),
        Piece::Number(threads),
        Piece::Text("): its turns are passed over\n"),
    ])
}

/// Adds that a schedule has turns of no thread, if it has.
fn add_foreign(
    page: &mut Page,
    alloc: Global,
    place: &str,
    threads: u8,
    foreign: Option<ThreadId>,
) -> Result<(), Memory> {
    match foreign {
        Some(thread) => add_none_of(page, alloc, place, u64::from(threads), u64::from(thread.0)),
        None => Ok(()),
    }
}

/// Where a schedule is.
fn place_of<'a>(source: ScheduleSource<'a>) -> &'a str {
    match source {
        ScheduleSource::Text(_) => "--schedule",
        ScheduleSource::Turns(_) => "--turns",
        ScheduleSource::File(path) => path,
    }
}

/// What a thread does that is refused.
fn refused_act(refusal: Refusal) -> &'static str {
    match refusal {
        Refusal::AlreadyHeld => "acquires a lock that it holds already",
        Refusal::NotHolder => "releases a lock that it does not hold in this way",
        Refusal::NoOpenBlock => "ends a block, but has none open",
        Refusal::TooDeep => "begins a block, but has 32 open, as many as there may be",
        Refusal::AlreadyForked => "forks a thread that runs already or was forked before",
        Refusal::NotForked => "joins a thread that was not forked",
        Refusal::AlreadyJoined => "joins a thread that was joined before",
        Refusal::BlockOpen => "ends, but has a block open",
        Refusal::LockHeld => "ends, but holds a lock",
        Refusal::LogFull => "cannot go on: the log is full",
        Refusal::GraphFull => "cannot go on: no node of the graph is free",
        _ => "cannot go on",
    }
}

/// What to do about a refusal.
fn refused_help(refusal: Refusal) -> &'static str {
    match refusal {
        Refusal::LogFull => "help: raise the limit with --events, up to 16777216\n",
        Refusal::GraphFull => "help: raise the limit with --nodes, up to 4096\n",
        _ => "",
    }
}

/// Adds the name of a thread, or its number, where it has none.
fn add_name(page: &mut Page, names: &[String], thread: ThreadId) -> Result<(), Memory> {
    match names.get(usize::from(thread.0)) {
        Some(name) => add_text(page, name.as_str()),
        None => page.add(&[Piece::Number(u64::from(thread.0))]),
    }
}

/// Adds what a thread does that is refused, and what to do about it.
fn add_act(
    page: &mut Page,
    alloc: Global,
    path: &str,
    names: &[String],
    thread: ThreadId,
    refusal: Refusal,
) -> Result<(), Memory> {
    add_file(page, alloc, path)?;
    add_text(page, "thread ")?;
    add_name(page, names, thread)?;
    page.add(&[
        Piece::Text(" "),
        Piece::Text(refused_act(refusal)),
        Piece::Text("\n"),
        Piece::Text(refused_help(refusal)),
    ])
}

/// Adds which threads wait for one another.
fn add_stuck(page: &mut Page, alloc: Global, path: &str, waits: &str) -> Result<(), Memory> {
    add_file(page, alloc, path)?;
    page.add(&[
        Piece::Text("these threads wait for one another\n"),
        Piece::Text(waits),
    ])
}

/// The workload of the file at a path, which is read again.
pub(crate) fn workload_at<F: Files>(alloc: Global, path: &str, files: &F) -> Option<Workload> {
    let bytes = read_again(alloc, path, MAX_WORKLOAD_BYTES, files)?;
    let text = text_of(&bytes).ok()?;
    parse(alloc, text).ok()
}

/// The schedule of the file at a path, which is read again.
fn schedule_at<F: Files>(alloc: Global, path: &str, files: &F) -> Option<Vec<ThreadId>> {
    let bytes = read_again(alloc, path, MAX_SCHEDULE_BYTES, files)?;
    schedule_in(alloc, &bytes).ok()
}

/// The schedule that is given.
fn schedule_of_source<F: Files>(
    alloc: Global,
    source: ScheduleSource,
    files: &F,
) -> Option<Vec<ThreadId>> {
    match source {
        ScheduleSource::Text(text) => schedule_of(alloc, text).ok(),
        ScheduleSource::Turns(text) => turns_of(alloc, text).ok(),
        ScheduleSource::File(path) => schedule_at(alloc, path, files),
    }
}

/// Who waits for what in the world of a run that is stuck.
fn waits_in(alloc: Global, workload: &Workload, closed: &Closed) -> Option<Vec<u8>> {
    if closed.bounds() != workload.bounds() {
        return None;
    }
    waits_of(alloc, workload, closed).ok()
}

/// Who waits for what at the end of a run, if it is stuck.
fn waits_of_ended(alloc: Global, workload: &Workload, ended: (Closed, Ending)) -> Option<Vec<u8>> {
    let (closed, ending) = ended;
    let waits = match ending {
        Ending::Stuck => waits_in(alloc, workload, &closed),
        _ => None,
    };
    drop(closed);
    waits
}

/// Who waits for what at the end of a replay, if it is stuck.
fn waits_after(
    alloc: Global,
    workload: &Workload,
    schedule: &[ThreadId],
    options: &RunOptions,
) -> Option<Vec<u8>> {
    let limits = options.limits;
    let config = Config::new(
        0,
        workload.bounds(),
        limits.events,
        limits.nodes,
        options.stop,
    )
    .ok()?;
    match replay(alloc, workload, schedule, config) {
        Ok(ended) => waits_of_ended(alloc, workload, ended),
        Err(Memory) => None,
    }
}

/// Adds why a replay could not go on, if it could not.
fn add_stop(
    page: &mut Page,
    alloc: Global,
    workload: &Workload,
    schedule: &[ThreadId],
    options: &RunOptions,
    ending: Ending,
) -> Option<()> {
    match ending {
        Ending::Stuck => {
            let waits = waits_after(alloc, workload, schedule, options)?;
            add_stuck(
                page,
                alloc,
                options.input,
                std::str::from_utf8(&waits).ok()?,
            )
            .ok()
        }
        Ending::Refused(thread, refusal) => {
            add_act(
                page,
                alloc,
                options.input,
                workload.thread_names(),
                thread,
                refusal,
            )
            .ok()
        }
        _ => Some(()),
    }
}

/// What is said of a replay of the workload by the schedule.
fn replay_words(
    alloc: Global,
    workload: &Workload,
    schedule: &[ThreadId],
    options: &ReplayOptions,
    ending: Ending,
) -> Option<Page> {
    let threads = workload.bounds().threads;
    let foreign = foreign_in(threads, schedule);
    let mut page = Page::new(alloc);
    let place = place_of(options.schedule);
    add_foreign(&mut page, alloc, place, threads, foreign).ok()?;
    add_stop(&mut page, alloc, workload, schedule, &options.run, ending)?;
    Some(page)
}

/// What is said of a replay, by its schedule and its workload, which are read again.
fn words_of_replay<F: Files>(
    alloc: Global,
    options: &ReplayOptions,
    ending: Ending,
    files: &F,
) -> Option<Page> {
    let schedule = schedule_of_source(alloc, options.schedule, files)?;
    let workload = workload_at(alloc, options.run.input, files)?;
    let page = replay_words(alloc, &workload, &schedule, options, ending);
    drop(workload);
    page
}

/// What is said of a thread that was refused, by the workload, which is read again.
fn words_of_act<F: Files>(
    alloc: Global,
    path: &str,
    thread: ThreadId,
    refusal: Refusal,
    files: &F,
) -> Option<Page> {
    let workload = workload_at(alloc, path, files)?;
    let mut page = Page::new(alloc);
    let names = workload.thread_names();
    let added = add_act(&mut page, alloc, path, names, thread, refusal);
    drop(workload);
    match added {
        Ok(()) => Some(page),
        Err(Memory) => None,
    }
}

/// What is said of a run that was not a replay.
fn words_of_run<F: Files>(alloc: Global, path: &str, ending: Ending, files: &F) -> Option<Page> {
    match ending {
        Ending::Refused(thread, refusal) => words_of_act(alloc, path, thread, refusal, files),
        Ending::Stuck => {
            let complaint = Complaint {
                line: 0,
                reason: "threads wait for one another",
                help: "help: `velodrome explore` says which thread waits for which lock, held by whom\n",
            };
            place_words(alloc, path, &[], complaint).ok()
        }
        _ => None,
    }
}

/// What is said of how a run ended.
pub(crate) fn words_of_end<F: Files>(
    alloc: Global,
    request: &Request,
    ending: Ending,
    files: &F,
) -> Option<Page> {
    match (request, ending) {
        (Request::Replay(options), _) if options.run.why => {
            words_of_replay(alloc, options, ending, files)
        }
        (Request::Run(options), _) if options.why => {
            words_of_run(alloc, options.input, ending, files)
        }
        (Request::Explore(options), Ending::Refused(thread, refusal)) => {
            words_of_act(alloc, options.input, thread, refusal, files)
        }
        _ => None,
    }
}

/// What is said of a search of the workload at a path that is undecided, with what to do.
fn undecided(alloc: Global, path: &str, help: &str) -> Option<Page> {
    let complaint = Complaint {
        line: 0,
        reason: "some findings are undecided",
        help,
    };
    place_words(alloc, path, &[], complaint).ok()
}

/// What is said of a search that is undecided.
pub(crate) fn words_of_open(alloc: Global, request: &Request) -> Option<Page> {
    match request {
        Request::Explore(options) => undecided(
            alloc,
            options.input,
            "help: raise --states, --seconds, --events or --nodes; or make runs by chance: see --random\n",
        ),
        _ => None,
    }
}
