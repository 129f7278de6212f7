ghost use Rattle.std.specs.Prelude.{◌≡◌};
ghost use Rattle.doc_types.specs.Reading.{token_of};
ghost use Rattle.query_groups.specs.Cues.{cue_of, word_cue, output_cue, sign_cue};

use doc_types::{Lexeme, Symbol};

/// What a token is to the frame of a query, outside of its condition.
#[derive(Clone, Copy, PartialEq, Eq)]
pub enum Cue {
    Select,
    Star,
    From,
    Where,
    Bar,
    All,
    Group,
    Each,
    Output,
    Count,
    Sum,
    Min,
    Max,
    Open,
    Close,
    Comma,
    Semicolon,
    /// A name, or a token of no frame.
    Other,
}

/// What a word of the outputs is.
fn output_cue(word: &str) -> Cue
    ensures { result ≡ output_cue word.now }
{
    if word == "output" {
        Cue::Output
    } else if word == "count" {
        Cue::Count
    } else if word == "sum" {
        Cue::Sum
    } else if word == "min" {
        Cue::Min
    } else if word == "max" {
        Cue::Max
    } else {
        Cue::Other
    }
}

/// What a word is.
#[tactic(auto, unfolding(crate::specs::Cues::word_cue))]
fn word_cue(word: &str) -> Cue
    ensures { result ≡ word_cue word.now }
{
    if word == "select" {
        Cue::Select
    } else if word == "from" {
        Cue::From
    } else if word == "where" {
        Cue::Where
    } else if word == "all" {
        Cue::All
    } else if word == "group" {
        Cue::Group
    } else if word == "each" {
        Cue::Each
    } else {
        output_cue(word)
    }
}

/// What signs are.
fn sign_cue(symbol: Symbol) -> Cue
    ensures { result ≡ sign_cue symbol }
{
    match symbol {
        Symbol::Star => Cue::Star,
        Symbol::Bar => Cue::Bar,
        Symbol::Open => Cue::Open,
        Symbol::Close => Cue::Close,
        Symbol::Comma => Cue::Comma,
        Symbol::Semicolon => Cue::Semicolon,
        _ => Cue::Other,
    }
}

/// What a token is to the frame of a query.
#[tactic(auto, unfolding(crate::specs::Cues::cue_of))]
pub fn cue_of(token: &Lexeme<'_>) -> Cue
    ensures { result ≡ cue_of (token_of token.now) }
{
    match token {
        Lexeme::Word(word) => word_cue(word),
        Lexeme::Signs(symbol) => sign_cue(*symbol),
        _ => Cue::Other,
    }
}
