//! The tokens that are written.
ghost use Rattle.std.specs.Prelude.{◌≡◌, ◌++◌, ◌∷◌, [], decimal, OnOk};
ghost use Rattle.json.specs.Print.{IsNumber, IsPrintable, begins, ends, quoted, separator, token_text};
ghost use Rattle.velo_finding.specs.Writing.{token_of};

use crate::escape::add_quoted;
use velo_bytes::{append, append_number};
use velo_events::Memory;

/// A token.
#[derive(Clone, Copy)]
pub enum Token<'a> {
    /// The begin of an object.
    BeginObject,
    /// Its end.
    EndObject,
    /// The begin of an array.
    BeginArray,
    /// Its end.
    EndArray,
    /// The key of a member.
    Key(&'a str),
    /// A text.
    String(&'a [u8]),
    /// A number.
    Number(u64),
    /// A truth value.
    Boolean(bool),
    /// No value.
    Null,
}

/// Whether a value or a member begins with the token.
fn begins(token: Token<'_>) -> bool
    ensures { result ≡ begins (token_of token.entry) }
{
    match token {
        Token::EndObject | Token::EndArray => false,
        _ => true,
    }
}

/// Whether a value ends with the token.
pub(crate) fn ends(token: Token<'_>) -> bool
    ensures { result ≡ ends (token_of token.entry) }
{
    match token {
        Token::BeginObject | Token::BeginArray | Token::Key(_) => false,
        _ => true,
    }
}

/// Adds the comma between a value and a token, if there is one.
pub(crate) fn add_separator(
    text: &mut Vec<u8>,
    after_value: bool,
    token: Token<'_>,
) -> Result<(), Memory>
    ensures { OnOk result (text.new.items
        ≡ text.old.items ++ separator after_value (token_of token.entry)) }
{
    if after_value && begins(token) {
        return append(text, b",");
    }
    Ok(())
}

/// Adds a key with its colon.
fn add_key(text: &mut Vec<u8>, key: &[u8]) -> Result<(), Memory>
    ensures { OnOk result (text.new.items ≡ text.old.items ++ (quoted key.now ++ 58 ∷ [])) }
{
    add_quoted(text, key)?;
    append(text, b":")
}

/// Adds the digits of a number.
fn add_number(text: &mut Vec<u8>, number: u64) -> Result<(), Memory>
    ensures text { OnOk result (text.new.items ≡ text.old.items ++ decimal number) }
    ensures printable { IsNumber (decimal number) }
{
    append_number(text, number)
}

/// Adds the text of a token.
pub(crate) fn add_token(text: &mut Vec<u8>, token: Token<'_>) -> Result<(), Memory>
    ensures text { OnOk result (text.new.items
        ≡ text.old.items ++ token_text (token_of token.entry)) }
    ensures printable { IsPrintable (token_of token.entry) }
{
    match token {
        Token::BeginObject => append(text, b"{"),
        Token::EndObject => append(text, b"}"),
        Token::BeginArray => append(text, b"["),
        Token::EndArray => append(text, b"]"),
        Token::Key(key) => add_key(text, key.as_bytes()),
        Token::String(bytes) => add_quoted(text, bytes),
        Token::Number(number) => add_number(text, number),
        Token::Boolean(true) => append(text, b"true"),
        Token::Boolean(false) => append(text, b"false"),
        Token::Null => append(text, b"null"),
    }
}
