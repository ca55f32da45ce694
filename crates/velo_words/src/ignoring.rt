//! What is said of a word that was to be ignored and means nothing.

use crate::again::read_again;
use crate::ended::workload_at;
use crate::given::names_explained_of;
use crate::lines::{add_shown, add_text};
use crate::place::{Complaint, place_words};
use crate::roles::ignored_of;
use std::alloc::Global;
use velo_check::{Files, Ignorable, Ignored, Request};
use velo_events::Memory;
use velo_explain::Page;
use velo_names::{MAX_NAMES_BYTES, NameKind, Names, append_names};
use velo_workload::Workload;

/// The option that takes these.
fn option_of(what: Ignorable) -> &'static str {
    match what {
        Ignorable::Lock => "--ignore-lock",
        Ignorable::Variable => "--ignore-variable",
        Ignorable::Label => "--ignore-label",
    }
}

/// The words of this option.
fn words_of<'a>(what: Ignorable, ignored: Ignored<'a>) -> &'a [&'a str] {
    match what {
        Ignorable::Lock => ignored.locks,
        Ignorable::Variable => ignored.variables,
        Ignorable::Label => ignored.labels,
    }
}

fn kind_of(what: Ignorable) -> NameKind {
    match what {
        Ignorable::Lock => NameKind::Lock,
        Ignorable::Variable => NameKind::Variable,
        Ignorable::Label => NameKind::Label,
    }
}

/// Whether a word means nothing of a kind.
fn means_none(alloc: Global, names: &Names, kind: NameKind, word: &str) -> Option<bool> {
    let meant = names.meant_by(alloc, kind, word.as_bytes()).ok()?;
    Some(meant.is_empty())
}

/// The first word that means nothing.
fn first_in_vain<'a>(
    alloc: Global,
    names: &Names,
    kind: NameKind,
    words: &'a [&'a str],
) -> Option<&'a str> {
    for word in words {
        let none = means_none(alloc, names, kind, word)?;
        if none {
            return Some(*word);
        }
    }
    None
}

/// What is wrong with such a word.
fn vain_reason(what: Ignorable) -> &'static str {
    match what {
        Ignorable::Lock => "no lock has this name, and numbers go from 0 to 65535",
        Ignorable::Variable => "no variable has this name, and numbers go from 0 to 65535",
        Ignorable::Label => "no label has this name, and numbers go from 0 to 4294967295",
    }
}

/// Where the names are from in which words are looked up.
#[derive(Clone, Copy)]
enum NamesFrom {
    /// A file that is given.
    File,
    /// The workload.
    Workload,
    /// There are none.
    Nowhere,
}

/// What to do about it.
fn vain_help(from: NamesFrom) -> &'static str {
    match from {
        NamesFrom::File => "help: names are those of --names; quote a word that has a star\n",
        NamesFrom::Workload => {
            "help: names are those of the workload; quote a word that has a star\n"
        }
        NamesFrom::Nowhere => "help: for names, give their file: see --names\n",
    }
}

/// What is said of such a word.
fn vain_words(alloc: Global, what: Ignorable, word: &str, from: NamesFrom) -> Result<Page, Memory> {
    let complaint = Complaint {
        line: 0,
        reason: vain_reason(what),
        help: "",
    };
    let mut page = place_words(alloc, option_of(what), &[], complaint)?;
    add_shown(&mut page, alloc, word.as_bytes())?;
    add_text(&mut page, vain_help(from))?;
    Ok(page)
}

/// What is said of the first word of an option that means nothing by these names.
fn words_by(
    alloc: Global,
    names: &Names,
    what: Ignorable,
    ignored: Ignored,
    from: NamesFrom,
) -> Option<Page> {
    let word = first_in_vain(alloc, names, kind_of(what), words_of(what, ignored))?;
    vain_words(alloc, what, word, from).ok()
}

/// The same, by the names that these bytes say.
fn words_by_names(
    alloc: Global,
    bytes: &[u8],
    what: Ignorable,
    ignored: Ignored,
    from: NamesFrom,
) -> Option<Page> {
    match Names::parse(alloc, bytes) {
        Ok(names) => words_by(alloc, &names, what, ignored, from),
        Err(_) => None,
    }
}

/// The same, by the file of names at a path, which is read again.
fn words_by_file<F: Files>(
    alloc: Global,
    path: &str,
    what: Ignorable,
    ignored: Ignored,
    files: &F,
) -> Option<Page> {
    let bytes = read_again(alloc, path, MAX_NAMES_BYTES, files)?;
    words_by_names(alloc, &bytes, what, ignored, NamesFrom::File)
}

/// The same, where there are no names.
fn words_without_names(alloc: Global, what: Ignorable, ignored: Ignored) -> Option<Page> {
    let names = Names::new(alloc);
    words_by(alloc, &names, what, ignored, NamesFrom::Nowhere)
}

/// What is said where something that was to be ignored means nothing.
pub(crate) fn words_in_vain<F: Files>(
    alloc: Global,
    request: &Request,
    what: Ignorable,
    files: &F,
) -> Option<Page> {
    let ignored = ignored_of(request)?;
    match names_explained_of(request) {
        Some(path) => words_by_file(alloc, path, what, ignored, files),
        None => words_without_names(alloc, what, ignored),
    }
}
