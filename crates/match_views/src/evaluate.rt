ghost use Rattle.std.specs.Prelude.{◌≡◌, ◌&&◌, IfOk};
ghost use Rattle.view_changes.specs.Serving.{rows_of};
ghost use Rattle.document_rows.specs.Reading.{places_where, is_of_type};
ghost use Rattle.query_text.specs.Truth.{expr_holds};

use crate::ranges::comparing;
use crate::sets::{cut, join, lack};
use crate::spans::spanning;
use crate::terms::containing;
use query_text::Expr;
use std::alloc::Global;
use value_lists::NoMemory;
use view_columns::Columns;

/// The local ids of a node's documents of a type of which an expression is true.
pub fn evaluate<L: Columns>(
    alloc: Global,
    lists: &L,
    node: u8,
    type_name: &str,
    expr: &Expr,
) -> Result<Vec<u32>, NoMemory>
    ensures { IfOk result (λ ids. ids.items
        ≡ places_where (λ d. is_of_type type_name.now d && expr_holds d expr.now) (rows_of node (L.seen lists.now))) }
{
    match expr {
        Expr::True => Ok(Vec::from_slice(alloc, lists.of_type(node, type_name))?),
        Expr::False => Ok(Vec::new(alloc)),
        Expr::Not(inner) => {
            let found = evaluate(alloc, lists, node, type_name, inner)?;
            lack(alloc, lists.of_type(node, type_name), &found)
        }
        Expr::And(one, two) => {
            if let Some(found) = spanning(alloc, lists, node, type_name, one, two)? {
                return Ok(found);
            }
            let one = evaluate(alloc, lists, node, type_name, one)?;
            let two = evaluate(alloc, lists, node, type_name, two)?;
            cut(alloc, &one, &two)
        }
        Expr::Or(one, two) => {
            let one = evaluate(alloc, lists, node, type_name, one)?;
            let two = evaluate(alloc, lists, node, type_name, two)?;
            join(alloc, &one, &two)
        }
        Expr::Contains { field, tokens } => {
            containing(alloc, lists, node, type_name, field.text(), tokens.items())
        }
        Expr::Compare { field, rel, number } => {
            comparing(alloc, lists, node, type_name, field.text(), *rel, *number)
        }
    }
}
