//! The names of a file, if one is given.

use velo_names::Names;

/// These names, if a file of names is given, and else none.
pub fn names_given<'a>(path: Option<&str>, names: &'a Names<'a>) -> Option<&'a Names<'a>> {
    match path {
        Some(_) => Some(names),
        None => None,
    }
}

/// What a report calls threads and labels by the names of a file, if there are some.
pub fn shown_of<'a>(names: Option<&'a Names<'a>>) -> velo_report::Names<'a> {
    match names {
        Some(names) => velo_report::Names::Listed(names),
        None => velo_report::Names::Numbers,
    }
}
