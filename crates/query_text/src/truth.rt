ghost use Rattle.std.specs.Prelude.{◌≡◌, ◌++◌, ◌∷◌, [], IfOk, OnOk, List, ℕ, map, option_map};
ghost use Rattle.std.specs.FinMap as fin;
ghost use Rattle.std.specs.List.{list_all, list_any};
ghost use Rattle.std.specs.Str.{bytes_eq};
ghost use Rattle.word_index.specs.Tokens.{tokens_of};
ghost use Rattle.query_text.specs.Truth.{is_related, relates, value_relates, texts_in, has_token, contains, expr_holds, matches_document};

use crate::expr::Expr;
use crate::query::Query;
use crate::terms::Rel;
use doc_types::{FieldValue, TextList, TextValue};
use documents::Document;
use std::alloc::Global;
use std::cmp::Ordering;
use value_lists::NoMemory;
use word_index::tokens;

/// Whether an order is one that a relation asks for.
fn is_related(rel: Rel, order: Ordering) -> bool
    ensures { result ≡ is_related rel order }
{
    match rel {
        Rel::Eq => order.is_eq(),
        Rel::Lt => order.is_lt(),
        Rel::Le => order.is_le(),
        Rel::Gt => order.is_gt(),
        Rel::Ge => order.is_ge(),
    }
}

/// Whether a number stands so to another.
fn relates(rel: Rel, number: i64, own: i64) -> bool
    ensures { result ≡ relates rel number own }
{
    is_related(rel, own.cmp(&number))
}

/// Whether some number stands so to another.
fn some_relates(rel: Rel, number: i64, items: &[i64]) -> bool
    ensures { result ≡ list_any (relates rel number) items.now }
{
    items.iter().any(|own| relates(rel, number, *own))
}

/// Whether a value, or some item of it, stands so to a number.
fn value_relates(rel: Rel, number: i64, value: Option<&FieldValue>) -> bool
    ensures { result ≡ value_relates rel number (option_map (λ v. v.now) value.entry) }
{
    match value {
        Some(FieldValue::Int(own)) => relates(rel, number, *own),
        Some(FieldValue::Ints(items)) => some_relates(rel, number, items.items()),
        _ => false,
    }
}

/// Adds the tokens of a text.
fn push_tokens(alloc: Global, lists: &mut Vec<TextList>, text: &TextValue) -> Result<(), NoMemory>
    ensures { OnOk result (lists.new.items ≡ lists.old.items ++ tokens_of text.now ∷ []) }
{
    lists.push(tokens(alloc, text.text())?)?;
    Ok(())
}

/// The tokens of each text.
fn tokens_of_all(alloc: Global, texts: &[TextValue]) -> Result<Vec<TextList>, NoMemory>
    ensures { IfOk result (λ lists. lists.items ≡ map tokens_of texts.now) }
{
    let mut lists = Vec::with_capacity(alloc, texts.len())?;
    for text in texts {
        push_tokens(alloc, &mut lists, text)?;
    }
    Ok(lists)
}

/// The tokens of one text, in a list.
fn tokens_of_one(alloc: Global, text: &TextValue) -> Result<Vec<TextList>, NoMemory>
    ensures { IfOk result (λ lists. lists.items ≡ tokens_of text.now ∷ []) }
{
    let mut lists = Vec::new(alloc);
    push_tokens(alloc, &mut lists, text)?;
    Ok(lists)
}

/// The tokens of each text of a value.
fn tokens_in(alloc: Global, value: Option<&FieldValue>) -> Result<Vec<TextList>, NoMemory>
    ensures { IfOk result (λ lists. lists.items
        ≡ map tokens_of (texts_in (option_map (λ v. v.now) value.entry))) }
{
    match value {
        Some(FieldValue::Text(text)) => tokens_of_one(alloc, text),
        Some(FieldValue::Texts(texts)) => tokens_of_all(alloc, texts.items()),
        _ => Ok(Vec::new(alloc)),
    }
}

/// Whether a token is one of some.
fn is_among(token: &str, tokens: &[TextValue]) -> bool
    ensures { result ≡ list_any (bytes_eq token.now) tokens.now }
{
    tokens.iter().any(|other| token == other.text())
}

/// Whether a token is one of a list.
fn is_among_all(token: &str, lists: &[TextList]) -> bool
    ensures { result ≡ list_any (λ tokens. list_any (bytes_eq token.now) tokens) lists.now }
{
    lists.iter().any(|list| is_among(token, list.items()))
}

/// Whether each token is one of a list.
fn all_among(tokens: &[TextValue], lists: &[TextList]) -> bool
    ensures { result
        ≡ list_all (λ token. list_any (λ list. list_any (bytes_eq token) list) lists.now) tokens.now }
{
    tokens.iter().all(|token| is_among_all(token.text(), lists))
}

/// Whether a value has each token.
fn has_tokens(
    alloc: Global,
    tokens: &[TextValue],
    value: Option<&FieldValue>,
) -> Result<bool, NoMemory>
    ensures { IfOk result (λ found. found
        ≡ list_all (has_token (option_map (λ v. v.now) value.entry)) tokens.now) }
{
    let lists = tokens_in(alloc, value)?;
    Ok(all_among(tokens, &lists))
}

/// Whether a value contains tokens, of which there is one.
fn contains(
    alloc: Global,
    tokens: &[TextValue],
    value: Option<&FieldValue>,
) -> Result<bool, NoMemory>
    ensures { IfOk result (λ found. found ≡ contains tokens.now (option_map (λ v. v.now) value.entry)) }
{
    if tokens.is_empty() {
        return Ok(false);
    }
    has_tokens(alloc, tokens, value)
}

/// Whether a field of a document contains tokens.
fn field_contains(
    alloc: Global,
    tokens: &TextList,
    field: &TextValue,
    document: &Document,
) -> Result<bool, NoMemory>
    ensures { IfOk result (λ found. found ≡ contains tokens.now (fin.get document.now.fields field.now)) }
{
    contains(alloc, tokens.items(), document.get(field.text()))
}

/// Whether a field of a document, or some item of it, stands so to a number.
fn field_relates(rel: Rel, number: i64, field: &TextValue, document: &Document) -> bool
    ensures { result ≡ value_relates rel number (fin.get document.now.fields field.now) }
{
    value_relates(rel, number, document.get(field.text()))
}

/// Whether an expression is true of a document.
fn expr_holds(alloc: Global, expr: &Expr, document: &Document) -> Result<bool, NoMemory>
    ensures { IfOk result (λ holds. holds ≡ expr_holds document.now expr.now) }
{
    match expr {
        Expr::True => Ok(true),
        Expr::False => Ok(false),
        Expr::Not(inner) => Ok(!expr_holds(alloc, inner, document)?),
        Expr::And(one, two) => {
            if !expr_holds(alloc, one, document)? {
                return Ok(false);
            }
            expr_holds(alloc, two, document)
        }
        Expr::Or(one, two) => {
            if expr_holds(alloc, one, document)? {
                return Ok(true);
            }
            expr_holds(alloc, two, document)
        }
        Expr::Contains { field, tokens } => field_contains(alloc, tokens, field, document),
        Expr::Compare { field, rel, number } => Ok(field_relates(*rel, *number, field, document)),
    }
}

/// Whether a query is true of a document.
pub fn query_holds(alloc: Global, query: &Query, document: &Document) -> Result<bool, NoMemory>
    ensures { IfOk result (λ holds. holds ≡ matches_document query.now document.now) }
{
    if document.id().type_name() != query.type_name.text() {
        return Ok(false);
    }
    expr_holds(alloc, &query.expr, document)
}
