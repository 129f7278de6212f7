ghost use Rattle.std.specs.Prelude.{◌≡◌};
ghost use Rattle.doc_types.specs.Reading.{token_of};
ghost use Rattle.conditions.specs.Kinds.{kind_of, word_kind, sign_kind, not_kind, ends_operand, is_other};

use doc_types::{Lexeme, Symbol};

/// What negates: the word `not`, or the sign `!` before a bracket.
#[derive(Clone, Copy, PartialEq, Eq)]
pub enum Negation {
    Word,
    Sign,
}

/// What a token is to a condition.
#[derive(Clone, Copy, PartialEq, Eq)]
pub enum Kind {
    Not,
    Open,
    Close,
    And,
    Or,
    True,
    False,
    /// A token of an atom, or of none.
    Other,
}

/// What `not` is.
fn not_kind(negation: Negation) -> Kind
    ensures { result ≡ not_kind negation }
{
    match negation {
        Negation::Word => Kind::Not,
        Negation::Sign => Kind::Other,
    }
}

/// What a word is.
fn word_kind(negation: Negation, word: &str) -> Kind
    ensures { result ≡ word_kind negation word.now }
{
    if word == "and" {
        Kind::And
    } else if word == "or" {
        Kind::Or
    } else if word == "true" {
        Kind::True
    } else if word == "false" {
        Kind::False
    } else if word == "not" {
        not_kind(negation)
    } else {
        Kind::Other
    }
}

/// What signs are.
fn sign_kind(negation: Negation, symbol: Symbol) -> Kind
    ensures { result ≡ sign_kind negation symbol }
{
    match (negation, symbol) {
        (_, Symbol::Open) => Kind::Open,
        (_, Symbol::Close) => Kind::Close,
        (Negation::Sign, Symbol::Not) => Kind::Not,
        _ => Kind::Other,
    }
}

/// What a token is to a condition.
#[tactic(auto, unfolding(crate::specs::Kinds::kind_of))]
pub fn kind_of(negation: Negation, token: &Lexeme<'_>) -> Kind
    ensures { result ≡ kind_of negation (token_of token.now) }
{
    match token {
        Lexeme::Word(word) => word_kind(negation, word),
        Lexeme::Signs(symbol) => sign_kind(negation, *symbol),
        _ => Kind::Other,
    }
}

/// Whether a token ends the operand before it.
pub fn ends_operand(kind: Kind) -> bool
    ensures { result ≡ ends_operand kind }
{
    matches!(kind, Kind::And | Kind::Or | Kind::Close)
}

/// Whether a token is none of conditions.
pub fn is_other(kind: Kind) -> bool
    ensures { result ≡ is_other kind }
{
    matches!(kind, Kind::Other)
}
