//! Paths that do not go together.

use crate::clash::Clash;
use velo_check::ScheduleSource;

/// Whether this is the path of standard input.
fn is_standard_input(path: Option<&str>) -> bool {
    matches!(path, Some("-"))
}

/// Standard input can be read once: an input and what is read beside it are not to be both there.
pub fn clash_of_inputs(input: &str, other: Option<&str>) -> Option<Clash> {
    if input == "-" && is_standard_input(other) {
        Some(Clash::InputTwice)
    } else {
        None
    }
}

/// The path of a schedule, if it is in a file.
pub fn path_of_schedule<'a>(schedule: ScheduleSource<'a>) -> Option<&'a str> {
    match schedule {
        ScheduleSource::Text(_) | ScheduleSource::Turns(_) => None,
        ScheduleSource::File(path) => Some(path),
    }
}

/// A log, its names, its sites and the labels that are known are not to be there twice either.
pub fn clash_of_files(
    log: &str,
    names: Option<&str>,
    sites: Option<&str>,
    known: Option<&str>,
) -> Option<Clash> {
    let (log, names) = (log == "-", is_standard_input(names));
    let (sites, known) = (is_standard_input(sites), is_standard_input(known));
    if log && names || sites && known || (log || names) && (sites || known) {
        Some(Clash::InputTwice)
    } else {
        None
    }
}

/// The names of a run are saved beside its log.
pub fn clash_of_targets(log: Option<&str>, names: Option<&str>) -> Option<Clash> {
    match (log, names) {
        (None, Some(_)) => Some(Clash::NamesWithoutLog),
        _ => None,
    }
}
