//! Decimal numbers without leading zeros.
ghost use Rattle.std.specs.Prelude.{◌≡◌, ◌≤◌, ◌<◌, ℕ, Some, length, option_map, IfSome, decimal};
ghost use Rattle.velo_bytes.specs.Parsing.{digits_on, number_at, spaced_number_at, whole_number};
ghost use Rattle.velo_bytes.specs.declared.numbers.TheConstants.{NEAR};

use crate::words::after;

/// How many digits are looked for at once. Most numbers end among them.
const NEAR: usize = 5;

/// The digits that go on a number that is not 0, up to `most`.
#[inline(never)]
fn digits(start: u64, bytes: &[u8], most: u64) -> Option<(u64, &[u8])>
    requires { start ≤ most }
    ensures value { option_map (λ r. (r.0, r.1.now)) result ≡ digits_on most start bytes.now }
    ensures bound { IfSome result (λ r. r.0 ≤ most) }
{
    let mut value = start;
    for (i, byte) in bytes.iter().enumerate() {
        if !byte.is_ascii_digit() {
            return Some((value, &bytes[i..]));
        }
        let digit = u64::from(*byte - b'0');
        // far below the bound, as most numbers are, one comparison decides
        if value >= most / 10 && (value > most / 10 || digit > most - value * 10) {
            return None;
        }
        value = value * 10 + digit;
    }
    Some((value, &bytes[bytes.len()..]))
}

/// The same where `NEAR` bytes are there, so that the first digits need no test for the end.
#[inline(always)]
fn near_digits(start: u64, bytes: &[u8], most: u64) -> Option<(u64, &[u8])>
    requires start { start ≤ most }
    requires near { NEAR ≤ length bytes.now }
    ensures value { option_map (λ r. (r.0, r.1.now)) result ≡ digits_on most start bytes.now }
    ensures bound { IfSome result (λ r. r.0 ≤ most) }
{
    let mut value = start;
    for i in 0..NEAR {
        if !bytes[i].is_ascii_digit() {
            return Some((value, &bytes[i..]));
        }
        let digit = u64::from(bytes[i] - b'0');
        if value >= most / 10 && (value > most / 10 || digit > most - value * 10) {
            return None;
        }
        value = value * 10 + digit;
    }
    let (value, rest) = digits(value, &bytes[NEAR..], most)?;
    Some((value, rest))
}

/// The number at the front, up to `most`, and the bytes after it.
#[inline(always)]
pub fn number(bytes: &[u8], most: u64) -> Option<(u64, &[u8])>
    requires { 9 ≤ most }
    ensures value { option_map (λ r. (r.0, r.1.now)) result ≡ number_at most bytes.now }
    ensures bound { IfSome result (λ r. r.0 ≤ most) }
{
    let (first, rest) = bytes.split_first()?;
    if *first == b'0' {
        return Some((0, rest));
    }
    if !first.is_ascii_digit() {
        return None;
    }
    let digit = u64::from(*first - b'0');
    if rest.len() >= NEAR {
        return near_digits(digit, rest, most);
    }
    // taken apart, so that what is found near needs no place in memory
    let (value, rest) = digits(digit, rest, most)?;
    Some((value, rest))
}

/// The number at the front and the space after it.
pub fn spaced_number(bytes: &[u8], most: u64) -> Option<(u64, &[u8])>
    requires { 9 ≤ most }
    ensures value { option_map (λ r. (r.0, r.1.now)) result ≡ spaced_number_at most bytes.now }
    ensures bound { IfSome result (λ r. r.0 ≤ most) }
{
    let (value, rest) = number(bytes, most)?;
    let rest = after(rest, b" ")?;
    Some((value, rest))
}

/// The number up to `most` whose text the bytes are as a whole.
pub fn whole_number(bytes: &[u8], most: u64) -> Option<u64>
    requires { 9 ≤ most }
    ensures value { result ≡ whole_number most bytes.now }
    ensures bound { IfSome result (λ n. n ≤ most) }
    ensures text { IfSome result (λ n. bytes.now ≡ decimal n) }
    ensures each { (n : ℕ) → n ≤ most → bytes.now ≡ decimal n → result ≡ Some n }
{
    let (value, rest) = number(bytes, most)?;
    if rest.is_empty() { Some(value) } else { None }
}
