ghost use Rattle.std.specs.Prelude.{◌≡◌, ◌∷◌, ◌≤◌, ◌<◌, ◌-◌, true, ◌+◌, nat_eq, IfOk, IfSome, Some, drop, length, slice_index_or};
ghost use Rattle.std.specs.Char.{is_ascii_digit, is_ascii_alphabetic};
ghost use Rattle.doc_types.specs.Tokens.{skip_blanks, word_at, number_of, token_at, digits_at, literal_at, symbol_at, is_quote};
ghost use Rattle.doc_types.specs.Reading.{number_size, symbol_size, token_of, told, EndsInAscii};

use crate::cuts::{blank_run, cut, digit_run, name_run};
use crate::integers::number_of;
use crate::literals::body_at;
use crate::symbols::{Language, Symbol, pair_symbol, single_symbol};
use std::alloc::Global;
use value_lists::NoMemory;

/// A token; a word is lent by the text.
#[derive(Debug, Drop)]
pub enum Lexeme<'a> {
    /// A run of ASCII letters, digits and `_` that begins with a letter.
    Word(&'a str),
    /// A number in the signed 64-bit range.
    Integer(i64),
    /// The bytes of a text literal, without quotes and escapes.
    Text(Vec<u8>),
    /// Signs.
    Signs(Symbol),
}

/// The text behind its blanks: spaces, tabs and line ends.
pub fn skip_blanks(text: &str) -> &str
    ensures { result.now ≡ skip_blanks text.now }
{
    let blanks = blank_run(text.as_bytes());
    if blanks == 0 {
        text
    } else {
        cut(text, blanks).1
    }
}

/// The number at the front of bytes, and how many digits it has.
fn number_at(negative: bool, bytes: &[u8]) -> Option<(i64, usize)>
    ensures value { result ≡ number_size negative bytes.now }
    ensures sized { IfSome result (λ p. EndsInAscii p.1 bytes.now) }
{
    let size = digit_run(bytes);
    match number_of(negative, &bytes[..size]) {
        Some(number) => Some((number, size)),
        None => None,
    }
}

/// The symbol that begins with a sign, and how many bytes it has.
fn symbol_at(language: Language, sign: u8, rest: &[u8]) -> Option<(Symbol, usize)>
    ensures value { result ≡ symbol_size language sign rest.now }
    ensures sized { IfSome result (λ p. EndsInAscii p.1 (sign ∷ rest.now)) }
{
    if let Some(second) = rest.first() {
        if let Some(symbol) = pair_symbol(language, sign, *second) {
            return Some((symbol, 2));
        }
    }
    match single_symbol(language, sign) {
        Some(symbol) => Some((symbol, 1)),
        None => None,
    }
}

/// The word at the front of a text that begins with a letter, and what is behind it.
fn read_word(text: &str) -> (Lexeme<'_>, &str)
    requires some { 0 < length text.now }
    requires letter { is_ascii_alphabetic (slice_index_or text.now 0 0) ≡ true }
    ensures { (token_of result.0, result.1.now) ≡ word_at text.now }
{
    let (word, rest) = cut(text, name_run(text.as_bytes()));
    (Lexeme::Word(word), rest)
}

/// The number at the front of a text, behind its sign where `skip` is 1, and what is behind it.
fn read_number(text: &str, skip: usize) -> Option<(Lexeme<'_>, &str)>
    requires { skip ≤ length text.now }
    ensures { told result ≡ digits_at (nat_eq skip 1) (drop skip text.now) }
{
    match number_at(skip == 1, &text.as_bytes()[skip..]) {
        Some((number, size)) => Some((Lexeme::Integer(number), cut(text, skip + size).1)),
        None => None,
    }
}

/// The text literal at the front of a text, and what is behind it.
fn read_literal(alloc: Global, text: &str) -> Result<Option<(Lexeme<'_>, &str)>, NoMemory>
    requires some { 0 < length text.now }
    requires quote { slice_index_or text.now 0 0 < 128 }
    ensures { IfOk result (λ read. told read ≡ literal_at (slice_index_or text.now 0 0) (drop 1 text.now)) }
{
    let bytes = text.as_bytes();
    match body_at(alloc, bytes[0], &bytes[1..])? {
        Some((body, size)) => Ok(Some((Lexeme::Text(body), cut(text, size + 1).1))),
        None => Ok(None),
    }
}

/// The symbol at the front of a text, and what is behind it.
fn read_symbol(language: Language, text: &str) -> Option<(Lexeme<'_>, &str)>
    requires { 0 < length text.now }
    ensures { told result ≡ symbol_at language (slice_index_or text.now 0 0) (drop 1 text.now) }
{
    let bytes = text.as_bytes();
    match symbol_at(language, bytes[0], &bytes[1..]) {
        Some((symbol, size)) => Some((Lexeme::Signs(symbol), cut(text, size).1)),
        None => None,
    }
}

/// The longest token at the front of a text, and what is behind it; none where no token can be read there. Only a text
/// literal takes memory.
pub fn read_token(
    alloc: Global,
    language: Language,
    text: &str,
) -> Result<Option<(Lexeme<'_>, &str)>, NoMemory>
    ensures { IfOk result (λ read. told read ≡ token_at language text.now) }
{
    let Some(first) = text.as_bytes().first() else {
        return Ok(None);
    };
    let first = *first;
    if first.is_ascii_alphabetic() {
        return Ok(Some(read_word(text)));
    }
    if first.is_ascii_digit() {
        return Ok(read_number(text, 0));
    }
    if first == b'-' {
        return Ok(read_number(text, 1));
    }
    if is_quote(first) {
        return read_literal(alloc, text);
    }
    Ok(read_symbol(language, text))
}

/// Whether a byte begins a text literal.
fn is_quote(byte: u8) -> bool
    ensures { result ≡ is_quote byte }
{
    byte == b'"' || byte == b'\''
}
