//! What a line says.
ghost use Rattle.std.specs.Prelude.{◌≡◌, ◌<◌, ◌∷◌, length, IfSome, option_copied};
ghost use Rattle.std.specs.List.{before_first};
ghost use Rattle.std.specs.Str.{bytes_eq};
ghost use Rattle.velo_workload.specs.Phrase.{said, verb_of, block_verb, order_verb, sharing_verb, declaring_verb, argument_of, bad_phrase, phrase_of_one_word, phrase_with_name, phrase_with_number, phrase_with_argument, phrase_by, phrase_of};
ghost use Rattle.velo_workload.specs.Known.{lines_left};
ghost use Rattle.velo_workload.specs.Words.{lines, is_newline};

use crate::naming::name;
use crate::words::{Words, after_line, find_words};
use velo_bytes::whole_number;

/// What the first word of a line says.
#[derive(Clone, Copy)]
pub enum Verb {
    /// `var`.
    Variable,
    /// `lock`.
    Lock,
    /// `thread`.
    Thread,
    /// `read`.
    Read,
    /// `write`.
    Write,
    /// `set`.
    Set,
    /// `add`.
    Add,
    /// `acquire`.
    Acquire,
    /// `release`.
    Release,
    /// `share`.
    Share,
    /// `unshare`.
    Unshare,
    /// `begin`.
    Begin,
    /// `end`.
    End,
    /// `fork`.
    Fork,
    /// `join`.
    Join,
    /// `repeat`.
    Repeat,
    /// `done`.
    Done,
    /// No statement begins with the word.
    Unknown,
}

/// What has to follow the first word.
#[derive(Clone, Copy)]
pub enum Argument {
    /// No word.
    Nothing,
    /// A name.
    Name,
    /// A number.
    Number,
}

/// A statement of a body, with names where the program has numbers.
#[derive(Clone, Copy)]
pub enum Spoken<'a> {
    /// `read` of a variable.
    Read(&'a str),
    /// `write` to a variable.
    Write(&'a str),
    /// `set` to a number.
    Set(u64),
    /// `add` of a number.
    Add(u64),
    /// `acquire` of a lock.
    Acquire(&'a str),
    /// `release` of a lock.
    Release(&'a str),
    /// `share` of a lock.
    Share(&'a str),
    /// `unshare` of a lock.
    Unshare(&'a str),
    /// `begin` with a label.
    Begin(&'a str),
    /// `end`.
    End,
    /// `fork` of a thread.
    Fork(&'a str),
    /// `join` of a thread.
    Join(&'a str),
    /// `repeat`, with how many times.
    Repeat(u64),
    /// `done`.
    Done,
}

/// What a line says.
#[derive(Clone, Copy)]
pub enum Phrase<'a> {
    /// No word.
    Blank,
    /// No statement, and its first word is not `thread`.
    Bad,
    /// No statement, and its first word is `thread`.
    BadThread,
    /// The declaration of a variable.
    Variable(&'a str),
    /// The declaration of a lock.
    Lock(&'a str),
    /// The line of a thread.
    Thread(&'a str),
    /// A statement of a body.
    Body(Spoken<'a>),
}

/// Whether two words are the same.
#[inline(always)]
fn is_same_word(word: &[u8], other: &[u8]) -> bool
    ensures { result ≡ bytes_eq word.now other.now }
{
    word == other
}

/// A declaration.
#[inline(always)]
#[tactic(auto, unfolding(crate::specs::Phrase::declaring_verb))]
fn declaring_verb(word: &[u8]) -> Verb
    ensures { result ≡ declaring_verb word.now }
{
    if is_same_word(word, b"var") {
        return Verb::Variable;
    }
    if is_same_word(word, b"lock") {
        return Verb::Lock;
    }
    if is_same_word(word, b"thread") {
        return Verb::Thread;
    }
    Verb::Unknown
}

/// What is done to a share of a lock, or one of the above.
#[inline(always)]
#[tactic(auto, unfolding(crate::specs::Phrase::sharing_verb))]
fn sharing_verb(word: &[u8]) -> Verb
    ensures { result ≡ sharing_verb word.now }
{
    if is_same_word(word, b"share") {
        return Verb::Share;
    }
    if is_same_word(word, b"unshare") {
        return Verb::Unshare;
    }
    declaring_verb(word)
}

/// A fork, a join or a repeat's end, or one of the above.
#[inline(always)]
#[tactic(auto, unfolding(crate::specs::Phrase::order_verb))]
fn order_verb(word: &[u8]) -> Verb
    ensures { result ≡ order_verb word.now }
{
    if is_same_word(word, b"fork") {
        return Verb::Fork;
    }
    if is_same_word(word, b"join") {
        return Verb::Join;
    }
    if is_same_word(word, b"repeat") {
        return Verb::Repeat;
    }
    if is_same_word(word, b"done") {
        return Verb::Done;
    }
    sharing_verb(word)
}

/// A change of the register or a block's end, or one of the above.
#[inline(always)]
#[tactic(auto, unfolding(crate::specs::Phrase::block_verb))]
fn block_verb(word: &[u8]) -> Verb
    ensures { result ≡ block_verb word.now }
{
    if is_same_word(word, b"set") {
        return Verb::Set;
    }
    if is_same_word(word, b"add") {
        return Verb::Add;
    }
    if is_same_word(word, b"begin") {
        return Verb::Begin;
    }
    if is_same_word(word, b"end") {
        return Verb::End;
    }
    order_verb(word)
}

/// What the first word of a line says. What most lines say is looked for first.
#[tactic(auto, unfolding(crate::specs::Phrase::verb_of))]
fn read_verb(word: &[u8]) -> Verb
    ensures { result ≡ verb_of word.now }
{
    if is_same_word(word, b"read") {
        return Verb::Read;
    }
    if is_same_word(word, b"write") {
        return Verb::Write;
    }
    if is_same_word(word, b"acquire") {
        return Verb::Acquire;
    }
    if is_same_word(word, b"release") {
        return Verb::Release;
    }
    block_verb(word)
}

/// What has to follow.
fn argument_after(verb: Verb) -> Argument
    ensures { result ≡ argument_of verb }
{
    match verb {
        Verb::Set | Verb::Add | Verb::Repeat => Argument::Number,
        Verb::End | Verb::Done | Verb::Unknown => Argument::Nothing,
        _ => Argument::Name,
    }
}

/// A line that is no statement.
fn bad_phrase(verb: Verb) -> Phrase<'static>
    ensures { said result ≡ bad_phrase verb }
{
    match verb {
        Verb::Thread => Phrase::BadThread,
        _ => Phrase::Bad,
    }
}

/// A line of one word.
fn phrase_of_one_word(verb: Verb) -> Phrase<'static>
    ensures { said result ≡ phrase_of_one_word verb }
{
    match verb {
        Verb::End => Phrase::Body(Spoken::End),
        Verb::Done => Phrase::Body(Spoken::Done),
        _ => bad_phrase(verb),
    }
}

/// A word with a name after it.
fn phrase_with_name<'a>(verb: Verb, name: &'a str) -> Phrase<'a>
    ensures { said result ≡ phrase_with_name verb name.now }
{
    match verb {
        Verb::Variable => Phrase::Variable(name),
        Verb::Lock => Phrase::Lock(name),
        Verb::Thread => Phrase::Thread(name),
        Verb::Read => Phrase::Body(Spoken::Read(name)),
        Verb::Write => Phrase::Body(Spoken::Write(name)),
        Verb::Acquire => Phrase::Body(Spoken::Acquire(name)),
        Verb::Release => Phrase::Body(Spoken::Release(name)),
        Verb::Share => Phrase::Body(Spoken::Share(name)),
        Verb::Unshare => Phrase::Body(Spoken::Unshare(name)),
        Verb::Begin => Phrase::Body(Spoken::Begin(name)),
        Verb::Fork => Phrase::Body(Spoken::Fork(name)),
        Verb::Join => Phrase::Body(Spoken::Join(name)),
        _ => Phrase::Bad,
    }
}

/// A word with a number after it.
fn phrase_with_number(verb: Verb, n: u64) -> Phrase<'static>
    ensures { said result ≡ phrase_with_number verb n }
{
    match verb {
        Verb::Set => Phrase::Body(Spoken::Set(n)),
        Verb::Add => Phrase::Body(Spoken::Add(n)),
        Verb::Repeat => Phrase::Body(Spoken::Repeat(n)),
        _ => Phrase::Bad,
    }
}

/// A line of two words.
fn phrase_with_argument<'a>(verb: Verb, word: &'a [u8]) -> Phrase<'a>
    ensures { said result ≡ phrase_with_argument verb (argument_of verb) word.now }
{
    match argument_after(verb) {
        Argument::Nothing => bad_phrase(verb),
        Argument::Name => match name(word) {
            Some(name) => phrase_with_name(verb, name),
            None => bad_phrase(verb),
        },
        Argument::Number => match whole_number(word, u64::MAX) {
            Some(n) => phrase_with_number(verb, n),
            None => bad_phrase(verb),
        },
    }
}

/// What the words of a line say.
#[inline(always)]
fn read_phrase(words: Words<'_>) -> Phrase<'_>
    ensures { said result ≡ phrase_by words.entry.first.now words.entry.second.now words.entry.more }
{
    if words.first.is_empty() {
        return Phrase::Blank;
    }
    let verb = read_verb(words.first);
    if words.more {
        return bad_phrase(verb);
    }
    if words.second.is_empty() {
        return phrase_of_one_word(verb);
    }
    phrase_with_argument(verb, words.second)
}

/// What the first line says, and what follows its newline, if it has one.
pub fn next_phrase(bytes: &[u8]) -> (Phrase<'_>, Option<&[u8]>)
    ensures phrase { said result.0 ≡ phrase_of (before_first is_newline bytes.now) }
    ensures lines { lines bytes.now ≡ before_first is_newline bytes.now ∷ lines_left (option_copied result.1) }
    ensures shorter { IfSome result.1 (λ rest. length rest.now < length bytes.now) }
{
    let words = find_words(bytes);
    let rest = after_line(words.rest);
    (read_phrase(words), rest)
}
