//! The names of a file.
ghost use Rattle.std.specs.Prelude.{◌≡◌, ◌+◌, ◌≤◌, length, IfOk};
ghost use Rattle.std.specs.Option.{option_copied};
ghost use Rattle.velo_names.specs.Answers.{AnswersAs};
ghost use Rattle.velo_names.specs.Said.{said};
ghost use Rattle.velo_names.specs.Line.{lines};
ghost use Rattle.velo_names.specs.Names.{no_names, meant_by, numbers_like, list_of, names_with, names_after, names_from, name_of, numbers_of, ReadsAs};

use crate::fault::NamesFault;
use crate::kind::NameKind;
use crate::kind_names::KindNames;
use crate::limits::{MAX_NAME_LINES, MAX_NAMES_BYTES};
use crate::line::{Said, is_number, is_silent, naming, number_of_kind, split_line};
use std::alloc::Global;
use std::marker::Model;
use velo_events::Memory;
use velo_events::growth::reserve;

/// The names of threads, variables, locks and labels, as bytes of a file that are UTF-8.
#[derive(Drop)]
pub struct Names<'a> {
    threads: KindNames<'a>,
    variables: KindNames<'a>,
    locks: KindNames<'a>,
    labels: KindNames<'a>,
}

impl<'a> Model for Names<'a> {
    ghost use Rattle.velo_names.specs.Names.{NameLists};

    ghost Value = { NameLists };

    ghost view = { λ n. record { threads = n.threads; variables = n.variables; locks = n.locks; labels = n.labels } };
}

impl<'a> Names<'a> {
    /// No names.
    pub fn new(alloc: Global) -> Names<'a>
        ensures { result ≡ no_names }
    {
        Names {
            threads: KindNames::new(alloc),
            variables: KindNames::new(alloc),
            locks: KindNames::new(alloc),
            labels: KindNames::new(alloc),
        }
    }

    /// Takes in what a line says.
    fn put(&mut self, found: Said<'a>, line: usize) -> Result<(), NamesFault>
        ensures { AnswersAs (names_with self.old (said found.entry) line) self.new result }
    {
        match found.kind {
            NameKind::Thread => self.threads.add(found.number, found.name, line),
            NameKind::Variable => self.variables.add(found.number, found.name, line),
            NameKind::Lock => self.locks.add(found.number, found.name, line),
            NameKind::Label => self.labels.add(found.number, found.name, line),
        }
    }

    /// Takes in a line of this number.
    #[tactic(auto, unfolding(crate::specs::Names::names_after))]
    fn take(&mut self, bytes: &'a [u8], line: usize) -> Result<(), NamesFault>
        ensures { AnswersAs (names_after self.old line bytes.now) self.new result }
    {
        if line > MAX_NAME_LINES {
            return Err(NamesFault::TooManyLines);
        }
        if is_silent(bytes) {
            return Ok(());
        }
        match naming(bytes) {
            None => Err(NamesFault::BadLine(line)),
            Some(found) => self.put(found, line),
        }
    }

    /// Takes in the lines of a text.
    fn take_lines(&mut self, text: &'a [u8]) -> Result<(), NamesFault>
        ensures { AnswersAs (names_from self.old 0 (lines text.now)) self.new result }
    {
        let mut rest = text;
        let mut line = 0;
        while !rest.is_empty() {
            let (bytes, others) = split_line(rest);
            line += 1;
            self.take(bytes, line)?;
            rest = others;
        }
        Ok(())
    }

    /// Reads the names in the bytes of a file.
    ///
    /// # Errors
    /// `TooManyBytes`, and else `NotText`, and else the fault of the first line that has one.
    /// `Memory` if an allocation failed.
    pub fn parse(alloc: Global, bytes: &'a [u8]) -> Result<Names<'a>, NamesFault>
        ensures { ReadsAs bytes.now result }
    {
        if bytes.len() > MAX_NAMES_BYTES {
            return Err(NamesFault::TooManyBytes);
        }
        if std::str::from_utf8(bytes).is_err() {
            return Err(NamesFault::NotText);
        }
        let mut names = Names::new(alloc);
        match names.take_lines(bytes) {
            Ok(()) => Ok(names),
            Err(fault) => {
                drop(names);
                Err(fault)
            }
        }
    }

    /// The name of a number, if it has one.
    pub fn name_of(&self, kind: NameKind, number: u32) -> Option<&'a [u8]>
        ensures { option_copied result ≡ name_of self.now kind number }
    {
        match kind {
            NameKind::Thread => self.threads.name_of(number),
            NameKind::Variable => self.variables.name_of(number),
            NameKind::Lock => self.locks.name_of(number),
            NameKind::Label => self.labels.name_of(number),
        }
    }

    /// The numbers of a name, in the order of their lines.
    ///
    /// # Errors
    /// `Memory` if an allocation failed.
    pub fn numbers_of(&self, alloc: Global, kind: NameKind, name: &[u8]) -> Result<Vec<u32>, Memory>
        ensures { IfOk result (λ numbers. numbers.items ≡ numbers_of self.now kind name.now) }
    {
        match kind {
            NameKind::Thread => self.threads.numbers_of(alloc, name),
            NameKind::Variable => self.variables.numbers_of(alloc, name),
            NameKind::Lock => self.locks.numbers_of(alloc, name),
            NameKind::Label => self.labels.numbers_of(alloc, name),
        }
    }

    /// The numbers whose names are like a pattern, in the order of their lines.
    fn numbers_like(
        &self,
        alloc: Global,
        kind: NameKind,
        pattern: &[u8],
    ) -> Result<Vec<u32>, Memory>
        ensures { IfOk result (λ numbers. numbers.items
            ≡ numbers_like (list_of kind self.now) pattern.now) }
    {
        match kind {
            NameKind::Thread => self.threads.numbers_like(alloc, pattern),
            NameKind::Variable => self.variables.numbers_like(alloc, pattern),
            NameKind::Lock => self.locks.numbers_like(alloc, pattern),
            NameKind::Label => self.labels.numbers_like(alloc, pattern),
        }
    }

    /// The numbers that an argument means: a number, if the argument is digits alone, and else
    /// those whose names are like it: a `*` in it stands for any bytes, also for none. Digits with a
    /// leading zero, or beyond the ids of the kind, mean none.
    ///
    /// # Errors
    /// `Memory` if an allocation failed.
    pub fn meant_by(
        &self,
        alloc: Global,
        kind: NameKind,
        argument: &[u8],
    ) -> Result<Vec<u32>, Memory>
        ensures { IfOk result (λ numbers. numbers.items ≡ meant_by self.now kind argument.now) }
    {
        if !is_number(argument) {
            return self.numbers_like(alloc, kind, argument);
        }
        let mut numbers = Vec::new(alloc);
        if let Some(number) = number_of_kind(kind, argument) {
            reserve(&mut numbers, 1)?;
            numbers.push_reserved(number);
        }
        Ok(numbers)
    }
}
