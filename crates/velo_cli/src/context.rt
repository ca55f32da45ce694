//! What a command knows before it opens its log: names, what is left out of the log, and sites.

use crate::ignoring::{ignored_labels, ignored_locks, ignored_variables};
use crate::listing::{Listed, listed_of};
use crate::naming::{names_in, read_given};
use crate::siting::sites_in;
use std::alloc::Global;
use velo_bytes::Sink;
use velo_check::{Beside, Fate, Files, Ignored, Operand, list_beside};
use velo_finding::Asked;
use velo_names::{MAX_NAMES_BYTES, Names};
use velo_sidecars::{MAX_SITES_BYTES, Sites};

/// What was asked for of all that a command knows before it opens its log.
#[derive(Clone, Copy)]
pub struct ContextOptions<'a> {
    /// The path of the names, or `-`.
    pub names: Option<&'a str>,
    /// What is left out of the log.
    pub ignored: Ignored<'a>,
    /// The path of the sites, or `-`.
    pub sites: Option<&'a str>,
}

/// The files of a context, which are read beside the log.
pub fn reads_of<'a>(options: &ContextOptions<'a>) -> [Beside<'a>; 3] {
    let names = Beside {
        operand: Operand::Names,
        path: options.names,
    };
    let sites = Beside {
        operand: Operand::Sites,
        path: options.sites,
    };
    [names, list_beside(&options.ignored), sites]
}

/// What is done by names, without what is left out of the log, and with sites.
pub trait InContext {
    /// Does it by these names, without what was asked for, and with these sites.
    fn do_in<F: Files, O: Sink>(
        &self,
        alloc: Global,
        names: &Names,
        asked: &Asked,
        sites: &Option<Sites>,
        files: &mut F,
        out: &mut O,
    ) -> Fate;
}

/// Does a command with the sites of the file at a path, if one is given, which is read first.
fn do_by_sites<C: InContext, F: Files, O: Sink>(
    alloc: Global,
    command: &C,
    names: &Names,
    asked: &Asked,
    options: &ContextOptions,
    files: &mut F,
    out: &mut O,
) -> Fate {
    let path = options.sites;
    let bytes = match read_given(alloc, path, MAX_SITES_BYTES, files) {
        Ok(bytes) => bytes,
        Err(fate) => return fate,
    };
    let fate = match sites_in(alloc, path, &bytes) {
        Ok(sites) => {
            let fate = command.do_in(alloc, names, asked, &sites, files, out);
            drop(sites);
            fate
        }
        Err(fate) => fate,
    };
    drop(bytes);
    fate
}

/// Does a command without what is known, and without what is to be ignored by the names.
fn do_known<C: InContext, F: Files, O: Sink>(
    alloc: Global,
    command: &C,
    names: &Names,
    options: &ContextOptions,
    listed: &mut Listed,
    files: &mut F,
    out: &mut O,
) -> Fate {
    let ignored = &options.ignored;
    let labels = match ignored_labels(alloc, names, &mut listed.labels, ignored.labels) {
        Ok(labels) => labels,
        Err(fate) => return fate,
    };
    let locks = match ignored_locks(alloc, names, &listed.locks, ignored.locks) {
        Ok(locks) => locks,
        Err(fate) => return fate,
    };
    let variables = match ignored_variables(alloc, names, &listed.variables, ignored.variables) {
        Ok(variables) => variables,
        Err(fate) => return fate,
    };
    let asked = Asked {
        labels: &labels,
        locks: &locks,
        variables: &variables,
        all_locks: listed.all_locks || ignored.all_locks,
    };
    do_by_sites(alloc, command, names, &asked, options, files, out)
}

/// Does a command without what is to be ignored by the names. The list of what is known is read
/// first.
fn do_by_asked<C: InContext, F: Files, O: Sink>(
    alloc: Global,
    command: &C,
    names: &Names,
    options: &ContextOptions,
    files: &mut F,
    out: &mut O,
) -> Fate {
    match listed_of(alloc, names, &options.ignored, files) {
        Ok(mut listed) => {
            let fate = do_known(alloc, command, names, options, &mut listed, files, out);
            drop(listed);
            fate
        }
        Err(fate) => fate,
    }
}

/// Does a command in its context. The names are read first, then what is left out is judged by them,
/// and then the sites are read.
pub fn do_in_context<C: InContext, F: Files, O: Sink>(
    alloc: Global,
    command: &C,
    options: &ContextOptions,
    files: &mut F,
    out: &mut O,
) -> Fate {
    let bytes = match read_given(alloc, options.names, MAX_NAMES_BYTES, files) {
        Ok(bytes) => bytes,
        Err(fate) => return fate,
    };
    let fate = match names_in(alloc, options.names, &bytes) {
        Ok(names) => {
            let fate = do_by_asked(alloc, command, &names, options, files, out);
            drop(names);
            fate
        }
        Err(fate) => fate,
    };
    drop(bytes);
    fate
}
