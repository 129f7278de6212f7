ghost use Rattle.std.specs.Prelude.{◌≡◌, is_some};
ghost use Rattle.doc_types.specs.Reading.{token_of};
ghost use Rattle.conditions.specs.Views.{Goes};
ghost use Rattle.query_text.specs.Terms.{has_numbers, has_texts};
ghost use Rattle.query_text.specs.Parts.{rel_of, first, rel_if, contains_if, field_next, contains_next, sign_next, next, says};

use crate::terms::{Rel, Term};
use conditions::Stop;
use doc_types::{FieldType, Lexeme, Schema, Symbol};
use query_groups::kept;
use std::alloc::Global;
use value_lists::TextValue;
use word_index::tokens_of_bytes;

/// What was read of a term.
#[derive(Drop)]
pub enum Part {
    Field { field: TextValue, kind: FieldType },
    Contains(TextValue),
    Sign { field: TextValue, rel: Rel },
    Whole(Term),
}

/// The relation of a symbol.
fn rel_of(symbol: Symbol) -> Option<Rel>
    ensures { result ≡ rel_of symbol }
{
    match symbol {
        Symbol::Is => Some(Rel::Eq),
        Symbol::Less => Some(Rel::Lt),
        Symbol::LessEqual => Some(Rel::Le),
        Symbol::Greater => Some(Rel::Gt),
        Symbol::GreaterEqual => Some(Rel::Ge),
        _ => None,
    }
}

/// Whether a field has numbers.
fn has_numbers(kind: FieldType) -> bool
    ensures { result ≡ has_numbers kind }
{
    matches!(kind, FieldType::Int | FieldType::IntArray)
}

/// Whether a field has texts.
fn has_texts(kind: FieldType) -> bool
    ensures { result ≡ has_texts kind }
{
    matches!(kind, FieldType::Text | FieldType::TextArray)
}

/// A term begins with the name of a field.
pub fn first(
    alloc: Global,
    schema: &Schema,
    type_name: &str,
    token: Lexeme<'_>,
) -> Result<Part, Stop>
    ensures { Goes (λ p. p) result (first schema.now type_name.now (token_of token.entry)) }
{
    match token {
        Lexeme::Word(field) => match schema.field(type_name, field) {
            Some(kind) => Ok(Part::Field {
                field: kept(alloc, field)?,
                kind,
            }),
            None => Err(Stop::Refused),
        },
        _ => Err(Stop::Refused),
    }
}

/// A relation behind a field, where it has numbers.
fn rel_if(field: TextValue, kind: FieldType, rel: Rel) -> Result<Part, Stop>
    ensures { Goes (λ p. p) result (rel_if field kind rel) }
{
    if !has_numbers(kind) {
        return Err(Stop::Refused);
    }
    Ok(Part::Sign { field, rel })
}

/// A word behind a field, where it has texts.
fn contains_if(field: TextValue, kind: FieldType, word: &str) -> Result<Part, Stop>
    ensures { Goes (λ p. p) result (contains_if field kind word.now) }
{
    if word != "contains" || !has_texts(kind) {
        return Err(Stop::Refused);
    }
    Ok(Part::Contains(field))
}

/// A token behind a field.
fn field_next(field: TextValue, kind: FieldType, token: Lexeme<'_>) -> Result<Part, Stop>
    ensures { Goes (λ p. p) result (field_next field kind (token_of token.entry)) }
{
    match token {
        Lexeme::Signs(symbol) => match rel_of(symbol) {
            Some(rel) => rel_if(field, kind, rel),
            None => Err(Stop::Refused),
        },
        Lexeme::Word(word) => contains_if(field, kind, word),
        _ => Err(Stop::Refused),
    }
}

/// A text behind `contains`.
fn contains_next(alloc: Global, field: TextValue, token: Lexeme<'_>) -> Result<Part, Stop>
    ensures { Goes (λ p. p) result (contains_next field (token_of token.entry)) }
{
    match token {
        Lexeme::Text(text) => {
            let tokens = tokens_of_bytes(alloc, &text)?;
            Ok(Part::Whole(Term::Contains { field, tokens }))
        }
        _ => Err(Stop::Refused),
    }
}

/// A number behind a relation.
fn sign_next(field: TextValue, rel: Rel, token: Lexeme<'_>) -> Result<Part, Stop>
    ensures { Goes (λ p. p) result (sign_next field rel (token_of token.entry)) }
{
    match token {
        Lexeme::Integer(number) => Ok(Part::Whole(Term::Compare { field, rel, number })),
        _ => Err(Stop::Refused),
    }
}

/// The part with one token more.
pub fn next(alloc: Global, part: Part, token: Lexeme<'_>) -> Result<Part, Stop>
    ensures { Goes (λ p. p) result (next part (token_of token.entry)) }
{
    match part {
        Part::Field { field, kind } => field_next(field, kind, token),
        Part::Contains(field) => contains_next(alloc, field, token),
        Part::Sign { field, rel } => sign_next(field, rel, token),
        Part::Whole(_) => Err(Stop::Refused),
    }
}

/// What a part says, where it is a whole term.
pub fn says(part: Part) -> Option<Term>
    ensures { result ≡ says part }
{
    match part {
        Part::Whole(term) => Some(term),
        _ => None,
    }
}

/// Whether a part is a whole term.
pub fn is_whole(part: &Part) -> bool
    ensures { result ≡ is_some (says part.now) }
{
    matches!(part, Part::Whole(_))
}
