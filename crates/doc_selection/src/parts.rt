ghost use Rattle.std.specs.Prelude.{◌≡◌, IfOk, is_some, option_map};
ghost use Rattle.doc_types.specs.Reading.{token_of};
ghost use Rattle.conditions.specs.Views.{Goes};
ghost use Rattle.doc_selection.specs.Atoms.{is_equality, is_int, is_text, takes};
ghost use Rattle.doc_selection.specs.Parts.{comparison_of, literal_of, has_order, may_follow, first, dot_sign, type_next, dot_next, sign_if, field_next, whole_if, sign_next, next, says};

use crate::terms::{Comparison, Literal, Term};
use conditions::Stop;
use doc_types::{FieldType, Lexeme, Schema, Symbol};
use std::alloc::Global;
use value_lists::{Listed, NoMemory, TextValue};

/// What was read of a term.
#[derive(Drop)]
pub enum Part {
    Type(TextValue),
    Dot(TextValue),
    Field {
        type_name: TextValue,
        field: TextValue,
        kind: FieldType,
    },
    Sign {
        type_name: TextValue,
        field: TextValue,
        kind: FieldType,
        comparison: Comparison,
    },
    Whole(Term),
}

/// The comparison of a symbol.
fn comparison_of(symbol: Symbol) -> Option<Comparison>
    ensures { result ≡ comparison_of symbol }
{
    match symbol {
        Symbol::Equal => Some(Comparison::Equal),
        Symbol::NotEqual => Some(Comparison::NotEqual),
        Symbol::Less => Some(Comparison::Less),
        Symbol::LessEqual => Some(Comparison::LessEqual),
        Symbol::Greater => Some(Comparison::Greater),
        Symbol::GreaterEqual => Some(Comparison::GreaterEqual),
        _ => None,
    }
}

/// The literal of a token.
fn literal_of(token: Lexeme<'_>) -> Option<Literal>
    ensures { result ≡ literal_of (token_of token.entry) }
{
    match token {
        Lexeme::Integer(number) => Some(Literal::Integer(number)),
        Lexeme::Text(text) => Some(Literal::Text(Listed::of(text))),
        Lexeme::Word(word) => {
            if word == "null" {
                return Some(Literal::Null);
            }
            None
        }
        Lexeme::Signs(_) => None,
    }
}

/// Whether a comparison is `==` or `!=`.
fn is_equality(comparison: Comparison) -> bool
    ensures { result ≡ is_equality comparison }
{
    matches!(comparison, Comparison::Equal | Comparison::NotEqual)
}

/// Whether a field is a number.
fn is_int(kind: FieldType) -> bool
    ensures { result ≡ is_int kind }
{
    matches!(kind, FieldType::Int)
}

/// Whether a field is a text.
fn is_text(kind: FieldType) -> bool
    ensures { result ≡ is_text kind }
{
    matches!(kind, FieldType::Text)
}

/// Whether values of a kind have an order.
fn has_order(kind: FieldType) -> bool
    ensures { result ≡ has_order kind }
{
    matches!(kind, FieldType::Int | FieldType::Text)
}

/// Whether some literal may follow.
fn may_follow(kind: FieldType, comparison: Comparison) -> bool
    ensures { result ≡ may_follow kind comparison }
{
    is_equality(comparison) || has_order(kind)
}

/// Whether a field of a kind takes a literal.
fn takes(kind: FieldType, comparison: Comparison, literal: &Literal) -> bool
    ensures { result ≡ takes kind comparison literal.now }
{
    match literal {
        Literal::Integer(_) => is_int(kind),
        Literal::Text(_) => is_text(kind),
        Literal::Null => is_equality(comparison),
    }
}

/// A name that is kept.
fn kept(alloc: Global, name: &str) -> Result<TextValue, NoMemory>
    ensures { IfOk result (λ text. text ≡ name.now) }
{
    Ok(TextValue::of(String::from_str(alloc, name)?))
}

/// A term begins with the name of a type.
pub fn first(alloc: Global, schema: &Schema, token: Lexeme<'_>) -> Result<Part, Stop>
    ensures { Goes (λ p. p) result (first schema.now (token_of token.entry)) }
{
    match token {
        Lexeme::Word(name) => {
            if !schema.has_type(name) {
                return Err(Stop::Refused);
            }
            Ok(Part::Type(kept(alloc, name)?))
        }
        _ => Err(Stop::Refused),
    }
}

/// A sign behind a type.
fn dot_sign(schema: &Schema, name: TextValue, symbol: Symbol) -> Result<Part, Stop>
    ensures { Goes (λ p. p) result (dot_sign schema.now name symbol) }
{
    match symbol {
        Symbol::Dot => {
            if !schema.has_fields(name.text()) {
                return Err(Stop::Refused);
            }
            Ok(Part::Dot(name))
        }
        _ => Err(Stop::Refused),
    }
}

/// A token behind a type.
fn type_next(schema: &Schema, name: TextValue, token: Lexeme<'_>) -> Result<Part, Stop>
    ensures { Goes (λ p. p) result (type_next schema.now name (token_of token.entry)) }
{
    match token {
        Lexeme::Signs(symbol) => dot_sign(schema, name, symbol),
        _ => Err(Stop::Refused),
    }
}

/// A token behind a dot.
fn dot_next(
    alloc: Global,
    schema: &Schema,
    name: TextValue,
    token: Lexeme<'_>,
) -> Result<Part, Stop>
    ensures { Goes (λ p. p) result (dot_next schema.now name (token_of token.entry)) }
{
    match token {
        Lexeme::Word(field) => match schema.field(name.text(), field) {
            Some(kind) => Ok(Part::Field {
                type_name: name,
                field: kept(alloc, field)?,
                kind,
            }),
            None => Err(Stop::Refused),
        },
        _ => Err(Stop::Refused),
    }
}

/// A comparison behind a field, where some literal may follow.
fn sign_if(
    type_name: TextValue,
    field: TextValue,
    kind: FieldType,
    comparison: Comparison,
) -> Result<Part, Stop>
    ensures { Goes (λ p. p) result (sign_if type_name field kind comparison) }
{
    if !may_follow(kind, comparison) {
        return Err(Stop::Refused);
    }
    Ok(Part::Sign {
        type_name,
        field,
        kind,
        comparison,
    })
}

/// A token behind a field.
fn field_next(
    type_name: TextValue,
    field: TextValue,
    kind: FieldType,
    token: Lexeme<'_>,
) -> Result<Part, Stop>
    ensures { Goes (λ p. p) result (field_next type_name field kind (token_of token.entry)) }
{
    match token {
        Lexeme::Signs(symbol) => match comparison_of(symbol) {
            Some(comparison) => sign_if(type_name, field, kind, comparison),
            None => Err(Stop::Refused),
        },
        _ => Err(Stop::Refused),
    }
}

/// A literal behind a comparison, where the field takes it.
fn whole_if(
    type_name: TextValue,
    field: TextValue,
    kind: FieldType,
    comparison: Comparison,
    literal: Literal,
) -> Result<Part, Stop>
    ensures { Goes (λ p. p) result (whole_if type_name field kind comparison literal) }
{
    if !takes(kind, comparison, &literal) {
        return Err(Stop::Refused);
    }
    Ok(Part::Whole(Term::Compare {
        type_name,
        field,
        comparison,
        literal,
    }))
}

/// A token behind a comparison.
fn sign_next(
    type_name: TextValue,
    field: TextValue,
    kind: FieldType,
    comparison: Comparison,
    token: Lexeme<'_>,
) -> Result<Part, Stop>
    ensures { Goes (λ p. p) result (sign_next type_name field kind comparison (token_of token.entry)) }
{
    match literal_of(token) {
        Some(literal) => whole_if(type_name, field, kind, comparison, literal),
        None => Err(Stop::Refused),
    }
}

/// The part with one token more.
pub fn next(alloc: Global, schema: &Schema, part: Part, token: Lexeme<'_>) -> Result<Part, Stop>
    ensures { Goes (λ p. p) result (next schema.now part (token_of token.entry)) }
{
    match part {
        Part::Type(name) => type_next(schema, name, token),
        Part::Dot(name) => dot_next(alloc, schema, name, token),
        Part::Field {
            type_name,
            field,
            kind,
        } => field_next(type_name, field, kind, token),
        Part::Sign {
            type_name,
            field,
            kind,
            comparison,
        } => sign_next(type_name, field, kind, comparison, token),
        Part::Whole(_) => Err(Stop::Refused),
    }
}

/// What a part says, where it is a whole term.
pub fn says(part: Part) -> Option<Term>
    ensures { result ≡ says part }
{
    match part {
        Part::Type(name) => Some(Term::OfType(name)),
        Part::Whole(term) => Some(term),
        _ => None,
    }
}

/// Whether a part is a whole term.
pub fn is_whole(part: &Part) -> bool
    ensures { result ≡ is_some (says part.now) }
{
    matches!(part, Part::Type(_) | Part::Whole(_))
}
