//! What threads and labels are called in a report.
ghost use Rattle.std.specs.Prelude.{◌≡◌};
ghost use Rattle.std.specs.Option.{option_copied};
ghost use Rattle.velo_report.specs.Names.{thread_name, label_word, name_behind};
ghost use Rattle.velo_report.specs.Lines.{word_text};

use crate::lines::Word;
use velo_events::{Label, ThreadId};
use velo_names::NameKind;

/// What threads and labels are called in a report.
#[derive(Clone, Copy)]
pub enum Names<'a> {
    /// Threads have no names, and a label is its number.
    Numbers,
    /// The names by number. A thread beyond them has none, and a label beyond them is its number.
    Words {
        threads: &'a [String],
        labels: &'a [String],
    },
    /// Those of a file: each is the last of its line, after the number.
    Listed(&'a velo_names::Names<'a>),
}

impl<'a> Names<'a> {
    /// The name of a thread, if it has one.
    pub(crate) fn of_thread(&self, thread: ThreadId) -> Option<&'a str>
        ensures { option_copied result ≡ thread_name self.now thread.0 }
    {
        match self {
            Names::Numbers | Names::Listed(_) => None,
            Names::Words { threads, .. } => threads
                .get(thread.0 as usize)
                .map(|name| name.as_str()),
        }
    }

    /// The word for a label.
    pub(crate) fn of_label(&self, label: Label) -> Word<'a>
        ensures { word_text result ≡ label_word self.now label.0 }
    {
        match self {
            Names::Numbers | Names::Listed(_) => Word::Number(u64::from(label.0)),
            Names::Words { labels, .. } => match labels.get(label.0 as usize) {
                Some(name) => Word::Text(name.as_str()),
                None => Word::Number(u64::from(label.0)),
            },
        }
    }

    /// The name that follows a number at the end of its line, if there is one.
    pub(crate) fn behind(&self, kind: NameKind, number: u32) -> Option<&'a [u8]>
        ensures { option_copied result ≡ name_behind self.now kind number }
    {
        match self {
            Names::Numbers | Names::Words { .. } => None,
            Names::Listed(names) => names.name_of(kind, number),
        }
    }
}
