//! Two comparisons of one field, of which both are to be true.

ghost use Rattle.std.specs.Prelude.{◌≡◌, ◌&&◌, IfOk, IfSome};
ghost use Rattle.std.specs.FinMap as fin;
ghost use Rattle.documents.specs.Fields.{Contents};
ghost use Rattle.view_changes.specs.Serving.{rows_of};
ghost use Rattle.document_rows.specs.Reading.{places_where, is_of_type};
ghost use Rattle.query_text.specs.Truth.{expr_holds, value_relates};

use crate::ranges::{Bound, between};
use query_text::Expr;
use std::alloc::Global;
use value_lists::NoMemory;
use view_columns::{Columns, has_one};

/// A field, and how its number is to stand to two others.
#[derive(Clone, Copy)]
struct Span<'a> {
    field: &'a str,
    one: Bound,
    two: Bound,
}

/// What two expressions say of a number, where both compare the same field.
fn span_of<'a>(one: &'a Expr, two: &'a Expr) -> Option<Span<'a>>
    ensures { IfSome result (λ s. (d : Contents) → (expr_holds d one.now && expr_holds d two.now)
        ≡ (value_relates s.one.rel s.one.number (fin.get d.fields s.field.now)
        && value_relates s.two.rel s.two.number (fin.get d.fields s.field.now))) }
{
    match (one, two) {
        (
            Expr::Compare { field, rel, number },
            Expr::Compare {
                field: other,
                rel: as_other,
                number: to_other,
            },
        ) if field.text() == other.text() => Some(Span {
            field: field.text(),
            one: Bound {
                rel: *rel,
                number: *number,
            },
            two: Bound {
                rel: *as_other,
                number: *to_other,
            },
        }),
        _ => None,
    }
}

/// The local ids of a node's documents of a type of which two expressions are true, where both compare a field in which
/// each has one number at most: the numbers between are read, and no others.
pub fn spanning<L: Columns>(
    alloc: Global,
    lists: &L,
    node: u8,
    type_name: &str,
    one: &Expr,
    two: &Expr,
) -> Result<Option<Vec<u32>>, NoMemory>
    ensures { IfOk result (λ found. IfSome found (λ ids. ids.items
        ≡ places_where (λ d. is_of_type type_name.now d && (expr_holds d one.now && expr_holds d two.now)) (rows_of node (L.seen lists.now)))) }
{
    let Some(span) = span_of(one, two) else {
        return Ok(None);
    };
    if !has_one(lists.column(node, type_name, span.field)) {
        return Ok(None);
    }
    let ids = between(
        alloc, lists, node, type_name, span.field, span.one, span.two,
    )?;
    Ok(Some(ids))
}
