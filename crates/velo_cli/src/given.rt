//! Which options the words give.

use crate::requests::text_or_json_named;
use clap::ArgMatches;
use clap::parser::ValueSource;

/// Whether the words give this option: a value by default does not count.
fn is_given(found: &ArgMatches, option: &str) -> bool {
    match found.value_source(option) {
        Some(ValueSource::CommandLine) => true,
        Some(ValueSource::DefaultValue) => false,
        None => found.contains_id(option),
    }
}

/// Whether an option is given that leaves something out of a log.
fn has_option_that_leaves_out(found: &ArgMatches) -> bool {
    is_given(found, "not-atomic")
        || is_given(found, "ignore")
        || is_given(found, "ignore-label")
        || is_given(found, "ignore-lock")
        || is_given(found, "ignore-locks")
        || is_given(found, "ignore-variable")
}

/// Which of the options the words give that a request does not show.
#[derive(Clone, Copy, PartialEq, Eq)]
pub struct Given {
    /// `--states`.
    pub states: bool,
    /// `--seed`.
    pub seed: bool,
    /// `--schedule`.
    pub schedule: bool,
    /// `--certificate`.
    pub certificate: bool,
    /// `--not-atomic`.
    pub not_atomic: bool,
    /// An option that leaves something out of a log.
    pub leaves_out: bool,
    /// `--sites`.
    pub sites: bool,
    /// `--format`, with a word that names neither form.
    pub neither_text_nor_json: bool,
}

/// Whether a word is given that names neither form.
fn is_neither_text_nor_json(word: Option<&str>) -> bool {
    match word {
        Some(word) => text_or_json_named(word).is_none(),
        None => false,
    }
}

/// Which of the options a subcommand is given that a request does not show.
fn given_in(found: &ArgMatches) -> Given {
    Given {
        states: is_given(found, "states"),
        seed: is_given(found, "seed"),
        schedule: is_given(found, "schedule"),
        certificate: is_given(found, "certificate"),
        not_atomic: is_given(found, "not-atomic"),
        leaves_out: has_option_that_leaves_out(found),
        sites: is_given(found, "sites"),
        neither_text_nor_json: is_neither_text_nor_json(found.get_str("format")),
    }
}

/// Which of the options the words give that a request does not show.
pub fn given_by(matches: &ArgMatches) -> Given {
    match matches.subcommand() {
        Some((_, found)) => given_in(found),
        None => Given {
            states: false,
            seed: false,
            schedule: false,
            certificate: false,
            not_atomic: false,
            leaves_out: false,
            sites: false,
            neither_text_nor_json: false,
        },
    }
}
