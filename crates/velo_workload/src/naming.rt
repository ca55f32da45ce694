//! Names.
ghost use Rattle.std.specs.Prelude.{◌≡◌, option_map, if◌then◌else◌, Some, None};
ghost use Rattle.std.specs.List.{list_all};
ghost use Rattle.velo_workload.specs.Words.{is_name, is_name_byte};

use crate::limits::MAX_NAME_LENGTH;

/// Whether each byte is a letter, a digit or an underscore.
fn has_name_bytes(word: &[u8]) -> bool
    ensures { result ≡ list_all is_name_byte word.now }
{
    word.iter()
        .all(|byte| byte.is_ascii_alphanumeric() || *byte == b'_')
}

/// Whether the word is a name.
fn is_name(word: &[u8]) -> bool
    ensures { result ≡ is_name word.now }
{
    match word.first() {
        None => false,
        Some(first) => {
            !first.is_ascii_digit() && word.len() <= MAX_NAME_LENGTH && has_name_bytes(word)
        }
    }
}

/// The name that the word is.
pub fn name(word: &[u8]) -> Option<&str>
    ensures { option_map (λ n. n.now) result ≡ (if is_name word.now then Some word.now else None) }
{
    if !is_name(word) {
        return None;
    }
    // The bytes of a name are text, which is proved, so no line pays for a look at them again.
    Some(unsafe { std::str::from_utf8_unchecked(word) })
}
