//! Patterns of names.
ghost use Rattle.std.specs.Prelude.{◌≡◌, ◌≤◌, length};
ghost use Rattle.velo_names.specs.Meeting.{Goes, left_of, value_of};
ghost use Rattle.velo_names.specs.Pattern.{is_like, some_tail};

/// Stands for any bytes, also for none.
const STAR: u8 = b'*';

/// How far a piece of a pattern, up to its first star or its end, goes with a text.
#[derive(Clone, Copy)]
pub enum Met<'a> {
    /// Up to a star: what follows it in the pattern, and the text from there on.
    Star(&'a [u8], &'a [u8]),
    /// Up to the end of both.
    End,
    /// Not so far.
    Apart,
}

/// How far the first piece of the pattern goes with the text.
fn meet<'a>(pattern: &'a [u8], text: &'a [u8]) -> Met<'a>
    ensures { Goes pattern.now text.now result }
{
    let mut piece = pattern;
    let mut rest = text;
    while let Some((byte, more)) = piece.split_first() {
        if *byte == STAR {
            return Met::Star(more, rest);
        }
        match rest.split_first() {
            Some((first, others)) if *first == *byte => {
                piece = more;
                rest = others;
            }
            _ => return Met::Apart,
        }
    }
    if rest.is_empty() {
        Met::End
    } else {
        Met::Apart
    }
}

/// How far the first piece of the pattern goes with the first tail of the text with which it goes to
/// its end.
fn meet_tail<'a>(pattern: &'a [u8], text: &'a [u8]) -> Met<'a>
    ensures value { value_of result ≡ some_tail (is_like pattern.now) text.now }
    ensures shorter { left_of result ≤ length pattern.now }
{
    let mut tail = text;
    loop {
        let met = meet(pattern, tail);
        if !matches!(met, Met::Apart) {
            return met;
        }
        match tail.split_first() {
            Some((_, others)) => tail = others,
            None => return Met::Apart,
        }
    }
}

/// Whether a text is like a pattern: a star stands for any bytes, also for none, and any other byte
/// for itself.
pub fn is_like(pattern: &[u8], text: &[u8]) -> bool
    ensures { result ≡ is_like pattern.now text.now }
{
    let mut met = meet(pattern, text);
    while let Met::Star(others, rest) = met {
        met = meet_tail(others, rest);
    }
    matches!(met, Met::End)
}
