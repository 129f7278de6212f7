ghost use Rattle.std.specs.Prelude.{◌≡◌, ◌<◌, ◌+◌, ◌++◌, ◌∷◌, [], length, drop, map, filter, IfOk, OnOk, IsAscii};
ghost use Rattle.std.specs.Char.{to_ascii_lowercase};
ghost use Rattle.std.specs.List.{position_or_len};
ghost use Rattle.word_index.specs.Tokens.{separates, has_bytes, tokens_of};

use doc_types::TextList;
use std::alloc::Global;
use std::str;
use value_lists::{NoMemory, TextValue};

/// How many bytes stand in front of the first that separates.
fn end_of(bytes: &[u8]) -> usize
    ensures { result ≡ position_or_len separates bytes.now }
{
    let mut at = 0;
    while at < bytes.len() {
        if !bytes[at].is_ascii_alphanumeric() {
            return at;
        }
        at += 1;
    }
    at
}

/// What stands behind a place.
fn behind(bytes: &[u8], at: usize) -> &[u8]
    requires { at < length bytes.now }
    ensures { result.now ≡ drop (at + 1) bytes.now }
{
    &bytes[at + 1..]
}

/// Adds a part of a text as a token, in lower case, if it has a byte.
fn push_token(alloc: Global, tokens: &mut Vec<TextValue>, part: &[u8]) -> Result<(), NoMemory>
    requires { IsAscii part.now }
    ensures { OnOk result (tokens.new.items
        ≡ tokens.old.items ++ filter has_bytes (map to_ascii_lowercase part.now ∷ [])) }
{
    if part.is_empty() {
        return Ok(());
    }
    let Ok(text) = str::from_utf8(part) else {
        unreachable!();
    };
    tokens.push(TextValue::of(text.to_ascii_lowercase(alloc)?))?;
    Ok(())
}

/// The tokens of a text.
pub fn tokens(alloc: Global, text: &str) -> Result<TextList, NoMemory>
    ensures { IfOk result (λ list. list ≡ tokens_of text.now) }
{
    tokens_of_bytes(alloc, text.as_bytes())
}

/// The tokens of bytes.
pub fn tokens_of_bytes(alloc: Global, bytes: &[u8]) -> Result<TextList, NoMemory>
    ensures { IfOk result (λ list. list ≡ tokens_of bytes.now) }
{
    let mut tokens = Vec::new(alloc);
    let mut rest = bytes;
    let mut end = end_of(rest);
    while end < rest.len() {
        push_token(alloc, &mut tokens, &rest[..end])?;
        rest = behind(rest, end);
        end = end_of(rest);
    }
    push_token(alloc, &mut tokens, rest)?;
    Ok(TextList::of(tokens))
}
