ghost use Rattle.std.specs.Prelude.{◌≡◌, option_map};
ghost use Rattle.std.specs.Str.{bytes_eq};
ghost use Rattle.document_ids.specs.Parts.{type_of};
ghost use Rattle.conditions.specs.Views.{formula_of};
ghost use Rattle.doc_selection.specs.Truth.{ordered, null_compared, integer_compared, text_compared, compared, value_in, term_holds, selects};

use crate::terms::{Comparison, Literal, Term};
use conditions::Tree;
use doc_types::FieldValue;
use documents::Document;
use std::cmp::Ordering;

/// Whether an order is one that a comparison asks for.
fn ordered(comparison: Comparison, order: Ordering) -> bool
    ensures { result ≡ ordered comparison order }
{
    match comparison {
        Comparison::Equal => order.is_eq(),
        Comparison::NotEqual => order.is_ne(),
        Comparison::Less => order.is_lt(),
        Comparison::LessEqual => order.is_le(),
        Comparison::Greater => order.is_gt(),
        Comparison::GreaterEqual => order.is_ge(),
    }
}

/// A comparison with `null`.
fn null_compared(comparison: Comparison, there: bool) -> bool
    ensures { result ≡ null_compared comparison there }
{
    match comparison {
        Comparison::Equal => !there,
        Comparison::NotEqual => there,
        _ => false,
    }
}

/// A comparison with a number.
fn integer_compared(comparison: Comparison, number: i64, value: Option<&FieldValue>) -> bool
    ensures { result ≡ integer_compared comparison number (option_map (λ v. v.now) value.entry) }
{
    match value {
        Some(FieldValue::Int(own)) => ordered(comparison, own.cmp(&number)),
        _ => false,
    }
}

/// A comparison with a text.
fn text_compared(comparison: Comparison, text: &[u8], value: Option<&FieldValue>) -> bool
    ensures { result ≡ text_compared comparison text.now (option_map (λ v. v.now) value.entry) }
{
    match value {
        Some(FieldValue::Text(own)) => {
            let bytes = own.text().as_bytes();
            ordered(comparison, Ord::cmp(&bytes, &text))
        }
        _ => false,
    }
}

/// A comparison with a literal.
fn compared(comparison: Comparison, literal: &Literal, value: Option<&FieldValue>) -> bool
    ensures { result ≡ compared comparison literal.now (option_map (λ v. v.now) value.entry) }
{
    match literal {
        Literal::Null => null_compared(comparison, value.is_some()),
        Literal::Integer(number) => integer_compared(comparison, *number, value),
        Literal::Text(text) => text_compared(comparison, text.items(), value),
    }
}

/// Whether a document is of a type.
fn is_of(document: &Document, type_name: &str) -> bool
    ensures { result ≡ bytes_eq (type_of document.now.id) type_name.now }
{
    document.id().type_name() == type_name
}

/// What a field of a type has in a document.
fn value_in<'a>(document: &'a Document, type_name: &str, field: &str) -> Option<&'a FieldValue>
    ensures { option_map (λ v. v.now) result ≡ value_in document.now type_name.now field.now }
{
    if is_of(document, type_name) {
        document.get(field)
    } else {
        None
    }
}

/// Whether a term is true of a document.
fn term_holds(term: &Term, document: &Document) -> bool
    ensures { result ≡ term_holds document.now term.now }
{
    match term {
        Term::OfType(type_name) => is_of(document, type_name.text()),
        Term::Compare {
            type_name,
            field,
            comparison,
            literal,
        } => compared(
            *comparison,
            literal,
            value_in(document, type_name.text(), field.text()),
        ),
    }
}

/// Whether a tree is true of a document.
pub fn tree_holds(tree: &Tree<Term>, document: &Document) -> bool
    ensures { result ≡ selects document.now (formula_of tree.now) }
{
    match tree {
        Tree::True => true,
        Tree::False => false,
        Tree::Atom(term) => term_holds(term, document),
        Tree::Not(inner) => !tree_holds(inner, document),
        Tree::And(one, two) => tree_holds(one, document) && tree_holds(two, document),
        Tree::Or(one, two) => tree_holds(one, document) || tree_holds(two, document),
    }
}
