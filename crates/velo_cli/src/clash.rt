//! Why the options of a request do not go together, and the line that says so.

/// Why the options of a request do not go together.
#[derive(Clone, Copy, PartialEq, Eq)]
pub enum Clash {
    /// An endless watch is to have a certificate.
    EndlessCertificate,
    /// An endless watch is to leave something out of the log.
    EndlessRest,
    /// An endless watch is to tell places.
    EndlessSites,
    /// Both inputs are standard input.
    InputTwice,
    /// A JSON object is to have a certificate behind it.
    JsonCertificate,
    /// The names of a run are to be saved, and its log is not.
    NamesWithoutLog,
    /// The form of an answer is to be neither of the two.
    NeitherTextNorJson,
    /// The words ask for nothing, which the command refuses before.
    NothingAsked,
    /// What is left of a log is to have a certificate.
    RestCertificate,
    /// Random runs are asked for, and what a search alone has.
    SearchByChance,
    /// A seed is given, and no random runs are asked for.
    SeedAlone,
    /// A watch is to tell places and to have a certificate.
    SitesCertificate,
    /// Two lists of what is known are given.
    TwoLists,
    /// A schedule is given as text and as turns.
    TwoSchedules,
}

/// The line that says why the options of a request do not go together.
pub fn line_of_clash(clash: Clash) -> &'static [u8] {
    match clash {
        Clash::EndlessCertificate => b"error: --endless does not go with --certificate\n",
        Clash::EndlessRest => {
            b"error: --endless does not go with what leaves events out of the log\n"
        }
        Clash::EndlessSites => b"error: --endless does not go with --sites\n",
        Clash::InputTwice => b"error: standard input can be read once\n",
        Clash::JsonCertificate => b"error: --format json does not go with --certificate\n",
        Clash::NamesWithoutLog => b"error: --names-out goes only with --log\n",
        Clash::NeitherTextNorJson => b"error: --format takes text or json\n",
        Clash::NothingAsked => b"error: the words ask for nothing\n",
        Clash::RestCertificate => {
            b"error: --certificate does not go with what leaves events out of the log\n"
        }
        Clash::SearchByChance => {
            b"error: --random goes with neither --states nor --seconds nor --first nor --progress\n"
        }
        Clash::SeedAlone => b"error: --seed goes only with --random\n",
        Clash::SitesCertificate => {
            b"error: for a watch --certificate does not go with --sites\n"
        }
        Clash::TwoLists => b"error: --ignore does not go with --not-atomic\n",
        Clash::TwoSchedules => b"error: --schedule does not go with --turns\n",
    }
}
