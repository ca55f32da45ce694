//! Fixed words.
ghost use Rattle.std.specs.Prelude.{◌≡◌, option_map};
ghost use Rattle.velo_bytes.specs.Parsing.{after_word};

/// What follows the word, if the bytes begin with it.
#[inline(always)]
pub fn after<'a>(bytes: &'a [u8], word: &[u8]) -> Option<&'a [u8]>
    ensures { option_map (λ r. r.now) result ≡ after_word word.now bytes.now }
{
    if bytes.len() < word.len() {
        return None;
    }
    for i in 0..word.len() {
        if bytes[i] != word[i] {
            return None;
        }
    }
    Some(&bytes[word.len()..])
}
