//! Words on a terminal: where standard error is one, `--why` is on.
ghost use Rattle.std.specs.Prelude.{◌<◌, IsTrue, length};
ghost use Rattle.velodrome.specs.declared.why.TheConstants.{SUBCOMMAND};

use std::alloc::{AllocError, Global};

const WHY: &str = "--why";

/// The place of the subcommand among the words.
const SUBCOMMAND: usize = 1;

/// Whether a subcommand has `--why`. The others say what is wrong in words anyway, and `carry` never.
fn has_why(subcommand: &str) -> bool {
    matches!(subcommand, "check" | "replay" | "run")
}

/// Whether `--why` can be added to the words: their subcommand has it, and it is not among them.
fn lacks_why(words: &[&str]) -> bool
    ensures { IsTrue result → SUBCOMMAND < length words.now }
{
    match words.get(SUBCOMMAND) {
        Some(subcommand) => has_why(subcommand) && !words.contains(&WHY),
        None => false,
    }
}

/// The words as they are passed on: on a terminal with `--why`, where that can be added.
///
/// # Errors
/// Where an allocation failed.
pub fn with_why<'w>(
    alloc: Global,
    words: &'w [String],
    is_terminal: bool,
) -> Result<Vec<&'w str>, AllocError> {
    let mut passed = Vec::new(alloc);
    for word in words {
        passed.push(word.as_str())?;
    }
    if is_terminal && lacks_why(&passed) {
        passed.insert(SUBCOMMAND + 1, WHY)?;
    }
    Ok(passed)
}
