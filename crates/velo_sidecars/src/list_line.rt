//! What a line of a list of what is known says.
ghost use Rattle.std.specs.Prelude.{◌≡◌, option_map};
ghost use Rattle.velo_sidecars.specs.ListAnswers.{entry, mention};
ghost use Rattle.velo_sidecars.specs.ListLine.{bare_entry, entry_of, in_scope, is_audit_count, is_count, is_counted, is_of_all_locks, is_predict_count, is_silent, is_word, label_entry, named_at, other_at, told_at, told_entry, wide_entry, word_at};

use velo_bytes::{after, number};
use velo_names::{NameKind, is_name, is_number, number_of_kind};

/// What the lines of a list may speak of.
#[derive(Clone, Copy, PartialEq, Eq)]
pub enum Scope {
    /// Labels. What an audit says of locks and variables says nothing.
    Labels,
    /// Labels, locks and variables.
    Everything,
}

/// How a line mentions labels, locks or variables.
#[derive(Clone, Copy)]
pub enum Mention<'a> {
    /// The one of this number.
    Number(u32),
    /// Those of this name.
    Name(&'a [u8]),
    /// Those that this word of an option means: a number, a name or a pattern of names.
    Word(&'a [u8]),
    /// One that an audit printed with its name.
    Told(u32, &'a [u8]),
}

/// What a line says.
#[derive(Clone, Copy)]
pub enum Entry<'a> {
    /// Nothing.
    Nothing,
    /// Those of this kind are known.
    Of(NameKind, Mention<'a>),
    /// All locks are left out.
    AllLocks,
}

/// Whether a line is empty, a comment or a line of a witness.
fn is_silent(line: &[u8]) -> bool
    ensures { result ≡ is_silent line.now }
{
    match line.first() {
        None => true,
        Some(first) => *first == b'#' || *first == b' ',
    }
}

/// Whether a line says that an audit left out all locks.
fn is_of_all_locks(line: &[u8]) -> bool
    ensures { result ≡ is_of_all_locks line.now }
{
    line == b"left out all locks".as_slice()
}

/// Whether a line is a number between these words.
fn is_counted(before: &[u8], behind: &[u8], line: &[u8]) -> bool
    ensures { result ≡ is_counted before.now behind.now line.now }
{
    let Some(rest) = after(line, before) else {
        return false;
    };
    match number(rest, u64::MAX) {
        None => false,
        Some((_, rest)) => rest == behind,
    }
}

/// Whether a line is one of the counts of an audit.
fn is_audit_count(line: &[u8]) -> bool
    ensures { result ≡ is_audit_count line.now }
{
    is_counted(b"atomic ", b" labels", line) || is_counted(b"rounds ", b"", line)
}

/// Whether a line counts what was tried in search of predictions, or threads that wait.
fn is_predict_count(line: &[u8]) -> bool
    ensures { result ≡ is_predict_count line.now }
{
    is_counted(b"nothing found in ", b" tries", line)
        || is_counted(b"nothing else found in ", b" tries", line)
        || is_counted(b"deadlock? ", b" threads wait in a circle", line)
}

/// Whether a line is a count.
fn is_count(line: &[u8]) -> bool
    ensures { result ≡ is_count line.now }
{
    is_audit_count(line) || is_predict_count(line)
}

/// What is mentioned by its number, and by the name after it if there is one.
fn named(number: u32, rest: &[u8]) -> Option<Mention<'_>>
    ensures { option_map mention result ≡ named_at number rest.now }
{
    if rest.is_empty() {
        return Some(Mention::Number(number));
    }
    let name = after(rest, b" ")?;
    if !is_name(name) {
        return None;
    }
    Some(Mention::Told(number, name))
}

/// What follows the first words of a line that an audit prints.
fn told(kind: NameKind, bytes: &[u8]) -> Option<Entry<'_>>
    ensures { option_map entry result ≡ told_at kind bytes.now }
{
    let (number, rest) = number(bytes, u64::from(kind.greatest()))?;
    let mention = named(number as u32, rest)?;
    Some(Entry::Of(kind, mention))
}

/// What is said of locks and variables, in a list of this scope.
fn in_scope(scope: Scope, said: Entry<'_>) -> Entry<'_>
    ensures { entry result ≡ in_scope scope (entry said.entry) }
{
    match scope {
        Scope::Labels => Entry::Nothing,
        Scope::Everything => said,
    }
}

/// What follows the first words of the line of a lock or a variable that was left out.
fn other(scope: Scope, kind: NameKind, bytes: &[u8]) -> Option<Entry<'_>>
    ensures { option_map entry result ≡ other_at scope kind bytes.now }
{
    let said = told(kind, bytes)?;
    Some(in_scope(scope, said))
}

/// Whether the bytes can be a word of an option.
fn is_word(kind: NameKind, word: &[u8]) -> bool
    ensures { result ≡ is_word kind word.now }
{
    if is_number(word) {
        return number_of_kind(kind, word).is_some();
    }
    is_name(word)
}

/// What follows the first word of the line of a lock or a variable.
fn word(kind: NameKind, bytes: &[u8]) -> Option<Entry<'_>>
    ensures { option_map entry result ≡ word_at kind bytes.now }
{
    if !is_word(kind, bytes) {
        return None;
    }
    Some(Entry::Of(kind, Mention::Word(bytes)))
}

/// The label that a line is, or the labels.
fn label_entry(line: &[u8]) -> Option<Entry<'_>>
    ensures { option_map entry result ≡ label_entry line.now }
{
    if is_number(line) {
        let number = number_of_kind(NameKind::Label, line)?;
        return Some(Entry::Of(NameKind::Label, Mention::Number(number)));
    }
    if !is_name(line) {
        return None;
    }
    Some(Entry::Of(NameKind::Label, Mention::Name(line)))
}

/// What a line says by itself, where it may speak of locks and variables.
#[tactic(auto, unfolding(crate::specs::ListLine::wide_entry))]
fn wide_entry(line: &[u8]) -> Option<Entry<'_>>
    ensures { option_map entry result ≡ wide_entry line.now }
{
    if line == b"all locks".as_slice() {
        return Some(Entry::AllLocks);
    }
    if let Some(rest) = after(line, b"lock ") {
        return word(NameKind::Lock, rest);
    }
    if let Some(rest) = after(line, b"variable ") {
        return word(NameKind::Variable, rest);
    }
    label_entry(line)
}

/// What a line says by itself.
fn bare_entry(scope: Scope, line: &[u8]) -> Option<Entry<'_>>
    ensures { option_map entry result ≡ bare_entry scope line.now }
{
    match scope {
        Scope::Labels => label_entry(line),
        Scope::Everything => wide_entry(line),
    }
}

/// What a line says by the words at its front, or by itself.
#[tactic(auto, unfolding(crate::specs::ListLine::told_entry))]
fn told_entry(scope: Scope, line: &[u8]) -> Option<Entry<'_>>
    ensures { option_map entry result ≡ told_entry scope line.now }
{
    if let Some(rest) = after(line, b"not atomic ") {
        return told(NameKind::Label, rest);
    }
    if let Some(rest) = after(line, b"not atomic? ") {
        return told(NameKind::Label, rest);
    }
    if let Some(rest) = after(line, b"left out label ") {
        return told(NameKind::Label, rest);
    }
    if let Some(rest) = after(line, b"left out lock ") {
        return other(scope, NameKind::Lock, rest);
    }
    if let Some(rest) = after(line, b"left out variable ") {
        return other(scope, NameKind::Variable, rest);
    }
    bare_entry(scope, line)
}

/// What a line says in a list of this scope, if it is an entry.
pub fn entry_of(scope: Scope, line: &[u8]) -> Option<Entry<'_>>
    ensures { option_map entry result ≡ entry_of scope line.now }
{
    if is_silent(line) || is_count(line) {
        return Some(Entry::Nothing);
    }
    if is_of_all_locks(line) {
        return Some(in_scope(scope, Entry::AllLocks));
    }
    told_entry(scope, line)
}
