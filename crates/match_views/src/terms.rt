ghost use Rattle.std.specs.Prelude.{◌≡◌, ◌&&◌, ◌<◌, length, IfOk};
ghost use Rattle.std.specs.FinMap as fin;
ghost use Rattle.view_changes.specs.Serving.{rows_of};
ghost use Rattle.document_rows.specs.Reading.{places_where, is_of_type};
ghost use Rattle.query_text.specs.Truth.{contains};

use crate::sets::cut;
use std::alloc::Global;
use value_lists::{NoMemory, TextValue};
use view_changes::Lists;

/// Which of some tokens the fewest documents have.
fn rarest<L: Lists>(
    lists: &L,
    node: u8,
    type_name: &str,
    field: &str,
    tokens: &[TextValue],
) -> usize
    requires { 0 < length tokens.now }
    ensures { result < length tokens.now }
{
    if tokens.len() == 1 {
        return 0;
    }
    let mut best = 0;
    let mut least = usize::MAX;
    for at in 0..tokens.len() {
        let many = lists
            .with_token(node, type_name, field, tokens[at].text())
            .len();
        if many < least {
            best = at;
            least = many;
        }
    }
    best
}

/// The local ids of a node's documents of a type that have each of some tokens in a field, of which there is one. Takes
/// the lengths of the tokens' lists.
pub fn containing<L: Lists>(
    alloc: Global,
    lists: &L,
    node: u8,
    type_name: &str,
    field: &str,
    tokens: &[TextValue],
) -> Result<Vec<u32>, NoMemory>
    ensures { IfOk result (λ ids. ids.items
        ≡ places_where (λ d. is_of_type type_name.now d && contains tokens.now (fin.get d.fields field.now)) (rows_of node (L.seen lists.now))) }
{
    if tokens.is_empty() {
        return Ok(Vec::new(alloc));
    }
    let best = rarest(lists, node, type_name, field, tokens);
    let first = lists.with_token(node, type_name, field, tokens[best].text());
    let mut found = Vec::from_slice(alloc, first)?;
    for at in 0..tokens.len() {
        if at != best {
            found = cut(
                alloc,
                &found,
                lists.with_token(node, type_name, field, tokens[at].text()),
            )?;
        }
    }
    Ok(found)
}
