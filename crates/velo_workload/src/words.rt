//! Finding the words of a line, and the next line.
ghost use Rattle.std.specs.Prelude.{◌≡◌, ◌<◌, ◌≤◌, ◌∷◌, [], length, IfSome, option_copied};
ghost use Rattle.std.specs.List.{position_or_len};
ghost use Rattle.velo_workload.specs.Known.{lines_left};
ghost use Rattle.velo_workload.specs.Words.{AreWords, is_newline, is_no_blank, ends_word, content, later_lines, pieces};

/// The index of the first newline, or the length.
#[inline(always)]
fn line_end(bytes: &[u8]) -> usize
    ensures value { result ≡ position_or_len is_newline bytes.now }
    ensures within { result ≤ length bytes.now }
{
    for (i, byte) in bytes.iter().enumerate() {
        if *byte == b'\n' {
            return i;
        }
    }
    bytes.len()
}

/// What follows the first newline, if there is one.
#[inline(always)]
pub fn after_line(bytes: &[u8]) -> Option<&[u8]>
    ensures lines { lines_left (option_copied result) ≡ later_lines bytes.now }
    ensures shorter { IfSome result (λ rest. length rest.now < length bytes.now) }
{
    let (_, rest) = bytes.split_at(line_end(bytes));
    match rest.split_first() {
        Some((_, rest)) => Some(rest),
        None => None,
    }
}

/// The index of the first byte that is no space or tab, or the length.
#[inline(always)]
fn blanks_end(bytes: &[u8]) -> usize
    ensures value { result ≡ position_or_len is_no_blank bytes.now }
    ensures within { result ≤ length bytes.now }
{
    for (i, byte) in bytes.iter().enumerate() {
        if *byte != b' ' && *byte != b'\t' {
            return i;
        }
    }
    bytes.len()
}

/// The index of the first byte that ends a word, or the length.
#[inline(always)]
fn word_end(bytes: &[u8]) -> usize
    ensures value { result ≡ position_or_len ends_word bytes.now }
    ensures within { result ≤ length bytes.now }
{
    for (i, byte) in bytes.iter().enumerate() {
        if *byte == b' ' || *byte == b'\t' || *byte == b'\n' || *byte == b'#' {
            return i;
        }
    }
    bytes.len()
}

/// The first line's next word, which is empty where there is none, and what follows it.
#[inline(always)]
fn next_word(bytes: &[u8]) -> (&[u8], &[u8])
    ensures some { 0 < length result.0.now → pieces (content bytes.now) ≡ result.0.now ∷ pieces (content result.1.now) }
    ensures none { length result.0.now ≡ 0 → pieces (content bytes.now) ≡ [] }
    ensures ended { length result.0.now ≡ 0 → pieces (content result.1.now) ≡ [] }
    ensures later { later_lines result.1.now ≡ later_lines bytes.now }
    ensures shorter { length result.1.now ≤ length bytes.now }
{
    let start = blanks_end(bytes);
    let (_, front) = bytes.split_at(start);
    let end = word_end(front);
    front.split_at(end)
}

/// The words of a line.
#[derive(Clone, Copy)]
pub struct Words<'a> {
    /// The first, which is empty where there is none.
    pub first: &'a [u8],
    /// The second, which is empty where there is none.
    pub second: &'a [u8],
    /// Whether there are more.
    pub more: bool,
    /// What follows the words that were looked at, from within the line.
    pub rest: &'a [u8],
}

/// The words of the first line.
#[inline(always)]
pub fn find_words(bytes: &[u8]) -> Words<'_>
    ensures words { AreWords result.first.now result.second.now result.more (pieces (content bytes.now)) }
    ensures later { later_lines result.rest.now ≡ later_lines bytes.now }
    ensures shorter { length result.rest.now ≤ length bytes.now }
{
    let (first, rest) = next_word(bytes);
    let (second, rest) = next_word(rest);
    let (third, rest) = next_word(rest);
    Words {
        first,
        second,
        more: !third.is_empty(),
        rest,
    }
}
