//! Growing calls of `clap`, whose refusal is want of memory.

use clap::{Arg, ArgMatches, Command, Error};
use std::alloc::Global;
use std::convert::AsStr;
use velo_events::Memory;

/// The command with one more argument.
///
/// # Errors
/// `Memory` if an allocation failed.
pub fn with_argument<'a>(command: Command<'a>, argument: Arg<'a>) -> Result<Command<'a>, Memory> {
    match command.arg(argument) {
        Ok(command) => Ok(command),
        Err(_) => Err(Memory),
    }
}

/// The command with one more subcommand.
///
/// # Errors
/// `Memory` if an allocation failed.
pub fn with_subcommand<'a>(
    command: Command<'a>,
    subcommand: Command<'a>,
) -> Result<Command<'a>, Memory> {
    match command.subcommand(subcommand) {
        Ok(command) => Ok(command),
        Err(_) => Err(Memory),
    }
}

/// The matches of the words.
///
/// # Errors
/// A fault of the words. An allocation failed if it is out of memory.
pub fn matches_of<'a, W: AsStr>(
    command: Command<'a>,
    words: &'a [W],
) -> Result<ArgMatches<'a>, Error> {
    command.try_get_matches_from(words)
}

/// The text of an error, whole, so that it can go out in one piece.
///
/// # Errors
/// `Memory` if an allocation failed.
pub fn text_of(alloc: Global, error: &Error) -> Result<String, Memory> {
    match format!(in alloc; "{error}") {
        Ok(text) => Ok(text),
        Err(_) => Err(Memory),
    }
}
