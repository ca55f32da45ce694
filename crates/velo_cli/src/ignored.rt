//! What the matches of a subcommand leave out of a log.

use clap::ArgMatches;
use velo_check::Ignored;

/// What is left out of a log.
pub fn left_out<'a>(found: &'a ArgMatches) -> Ignored<'a> {
    let wide = found.get_str("ignore");
    let labels = found.get_str("not-atomic");
    Ignored {
        known: wide.or(labels),
        is_wide: wide.is_some(),
        labels: found.get_strs("ignore-label").unwrap_or(&[]),
        locks: found.get_strs("ignore-lock").unwrap_or(&[]),
        variables: found.get_strs("ignore-variable").unwrap_or(&[]),
        all_locks: found.get_flag("ignore-locks"),
    }
}

/// Whether something is left out.
pub fn leaves_out(ignored: &Ignored) -> bool {
    ignored.known.is_some()
        || !ignored.labels.is_empty()
        || !ignored.locks.is_empty()
        || !ignored.variables.is_empty()
        || ignored.all_locks
}
