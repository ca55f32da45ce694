//! What a command says of its end, before its last line.

use crate::again::read_again;
use crate::beside::other_sites_words;
use crate::ended::{words_of_end, words_of_open};
use crate::events::events_up_to;
use crate::failing::{Recall, words_of_failure};
use crate::faults::{FileFault, fault_words, most_bytes_for, most_up_to};
use crate::given::{names_explained_of, schedule_of};
use crate::ignoring::words_in_vain;
use crate::refused::{refused_words, wrong_value_words};
use crate::roles::{list_of, report_of, sites_of};
use crate::schedule::{numbers_words, schedule_words, turns_words};
use std::alloc::Global;
use velo_bytes::{Bytes, Sink, WriteFault, write_all};
use velo_check::status::FAILED;
use velo_check::{CheckFault, Fate, Files, Request, ScheduleSource, end_with};
use velo_claims::ReportFault;
use velo_events::{Bounds, Event, Memory, Refusal};
use velo_explain::Page;
use velo_names::NamesFault;
use velo_schedule_text::{MAX_SCHEDULE_BYTES, ScheduleFault};
use velo_sidecars::{ListFault, SitesFault};
use velo_workload::WorkFault;

/// The path where words are asked for.
fn if_asked(why: bool, path: &str) -> Option<&str> {
    if why { Some(path) } else { None }
}

/// The path of the log whose faults are said in words, if the request has one.
fn log_of<'a>(request: &Request<'a>) -> Option<&'a str> {
    match request {
        Request::Explain(options) => Some(options.input),
        Request::Watch(options) => Some(options.input),
        Request::WatchRest(options) => Some(options.watch.input),
        Request::Audit(options) => Some(options.input),
        Request::Thin(options) => Some(options.input),
        Request::Predict(options) => Some(options.input),
        Request::Verify(options) => Some(options.input),
        Request::Check(options) => if_asked(options.why, options.input),
        _ => None,
    }
}

/// The path of the workload whose faults are said in words, if the request has one.
fn work_of<'a>(request: &Request<'a>) -> Option<&'a str> {
    match request {
        Request::Explore(options) => Some(options.input),
        Request::Run(options) => if_asked(options.why, options.input),
        Request::Replay(options) => if_asked(options.run.why, options.run.input),
        _ => None,
    }
}

/// What is said of a fault of the file at a path, whose bytes are read again.
fn words_of_file<F: Files>(alloc: Global, path: &str, fault: FileFault, files: &F) -> Option<Page> {
    let bytes = read_again(alloc, path, most_bytes_for(fault), files)?;
    fault_words(alloc, path, &bytes, fault).ok()
}

/// What is said of the file at a path that says no turns, by its bytes, which are read again.
fn words_of_turns_file<F: Files>(alloc: Global, path: &str, files: &F) -> Option<Page> {
    let bytes = read_again(alloc, path, MAX_SCHEDULE_BYTES, files)?;
    schedule_words(alloc, path, &bytes).ok()
}

/// What is said of a text that is no schedule.
fn words_of_schedule<F: Files>(alloc: Global, source: ScheduleSource, files: &F) -> Option<Page> {
    match source {
        ScheduleSource::Text(text) => { numbers_words(alloc, "--schedule", text.as_bytes()).ok() }
        ScheduleSource::Turns(text) => turns_words(alloc, "--turns", text.as_bytes()).ok(),
        ScheduleSource::File(path) => words_of_turns_file(alloc, path, files),
    }
}

/// What is said of sites that are not those of the log, by the path of their file.
fn words_of_other_sites(alloc: Global, path: &str) -> Option<Page> {
    other_sites_words(alloc, path).ok()
}

/// What is said of an event that is refused, or else reads a wrong value.
fn event_words(
    alloc: Global,
    path: &str,
    refusal: Option<Refusal>,
    bounds: Bounds,
    before: &[Event],
    event: Event,
) -> Result<Page, Memory> {
    match refusal {
        Some(refusal) => refused_words(alloc, path, bounds, before, event, refusal),
        None => wrong_value_words(alloc, path, before, event),
    }
}

/// What is said of the event at a position, by the bytes of its log.
fn words_in(
    alloc: Global,
    path: &str,
    bytes: &[u8],
    position: usize,
    refusal: Option<Refusal>,
) -> Option<Page> {
    let mut source = Bytes::new(bytes);
    let (bounds, trace, event) = events_up_to(alloc, &mut source, position)?;
    match event_words(alloc, path, refusal, bounds, trace.as_slice(), event) {
        Ok(page) => Some(page),
        Err(_) => None,
    }
}

/// What is said of the event at a position of the log at a path, whose bytes are read again.
fn words_of_event<F: Files>(
    alloc: Global,
    path: &str,
    position: usize,
    refusal: Option<Refusal>,
    files: &F,
) -> Option<Page> {
    let bytes = read_again(alloc, path, most_up_to(position.saturating_add(2)), files)?;
    words_in(alloc, path, &bytes, position, refusal)
}

/// What is said of a fate, if there is something to say.
fn words_of<F: Files>(alloc: Global, request: &Request, fate: Fate, files: &F) -> Option<Page> {
    match fate {
        Fate::Finished { ending, .. } => words_of_end(alloc, request, ending, files),
        Fate::Check(CheckFault::Log(fault)) => {
            words_of_file(alloc, log_of(request)?, FileFault::Log(fault), files)
        }
        Fate::Check(CheckFault::Refused { position, refusal }) => {
            words_of_event(alloc, log_of(request)?, position, Some(refusal), files)
        }
        Fate::Check(CheckFault::WrongValue { position }) => {
            words_of_event(alloc, log_of(request)?, position, None, files)
        }
        Fate::Work(WorkFault::Memory) => None,
        Fate::Work(fault) => {
            words_of_file(alloc, work_of(request)?, FileFault::Work(fault), files)
        }
        Fate::Schedule(ScheduleFault::Bad) => {
            words_of_schedule(alloc, schedule_of(request)?, files)
        }
        Fate::Names(NamesFault::Memory) => None,
        Fate::Names(fault) => {
            words_of_file(
                alloc,
                names_explained_of(request)?,
                FileFault::Names(fault),
                files,
            )
        }
        Fate::Sites(SitesFault::Memory) => None,
        Fate::Sites(fault) => {
            words_of_file(alloc, sites_of(request)?, FileFault::Sites(fault), files)
        }
        Fate::OtherSites => words_of_other_sites(alloc, sites_of(request)?),
        Fate::Report(ReportFault::Memory) => None,
        Fate::Report(fault) => {
            words_of_file(alloc, report_of(request)?, FileFault::Report(fault), files)
        }
        Fate::Ignored(what) => words_in_vain(alloc, request, what, files),
        Fate::Open => words_of_open(alloc, request),
        Fate::List(ListFault::Memory) => None,
        Fate::List(fault) => {
            words_of_file(alloc, list_of(request)?, FileFault::List(fault), files)
        }
        _ => None,
    }
}

/// What is said of a file that failed, or else of what a file says.
fn said_of<F: Files + Recall>(
    alloc: Global,
    request: &Request,
    fate: Fate,
    files: &F,
) -> Option<Page> {
    match words_of_failure(alloc, request, fate, files) {
        Some(page) => Some(page),
        None => words_of(alloc, request, fate, files),
    }
}

/// Writes the words, and then reports how a run ended.
fn end_after<E: Sink>(words: &[u8], fate: &Fate, err: &mut E) -> u8 {
    match write_all(err, words) {
        Ok(()) => end_with(fate, err),
        Err(WriteFault) => FAILED,
    }
}

/// Reports how a run ended, in words before the line where the request asks for them and they can be
/// had, and returns the status to end with: that of `end_line`, or [`FAILED`] where what is to be
/// written could not be written.
pub fn end_in_words<F: Files + Recall, E: Sink>(
    alloc: Global,
    request: &Request,
    fate: &Fate,
    files: &F,
    err: &mut E,
) -> u8 {
    match said_of(alloc, request, *fate, files) {
        Some(page) => end_after(page.as_slice(), fate, err),
        None => end_with(fate, err),
    }
}
