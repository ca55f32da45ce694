//! Where the names and the schedule of a request are whose faults are said in words.

use crate::roles::{asks_for_words, names_of};
use velo_check::{Request, ScheduleSource};

/// The path of the names whose faults are said in words, if the request has one.
pub fn names_explained_of<'a>(request: &Request<'a>) -> Option<&'a str> {
    if asks_for_words(request) {
        names_of(request)
    } else {
        None
    }
}

/// Where the schedule is whose fault is said in words, if the request has one.
pub fn schedule_of<'a>(request: &Request<'a>) -> Option<ScheduleSource<'a>> {
    match request {
        Request::Replay(options) => {
            if options.run.why {
                Some(options.schedule)
            } else {
                None
            }
        }
        _ => None,
    }
}
