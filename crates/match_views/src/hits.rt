ghost use Rattle.std.specs.Prelude.{◌≡◌, ◌≤◌, ◌<◌, ◌++◌, map, length, IfOk, OnOk};
ghost use Rattle.std.specs.List.{AllByRecursion};
ghost use Rattle.view_changes.specs.Serving.{rows_of};
ghost use Rattle.document_rows.specs.Reading.{places_where};
ghost use Rattle.query_text.specs.Truth.{matches_document};
ghost use Rattle.match_views.specs.Hits.{found_at, hits_below, hits_of};

use crate::evaluate::evaluate;
use query_text::Query;
use std::alloc::Global;
use std::marker::Model;
use value_lists::NoMemory;
use view_columns::Columns;

/// A document that a query finds.
#[derive(Clone, Copy, Debug, PartialEq, Eq, Drop)]
pub struct Hit {
    /// The number of a node, 0 to 31.
    pub node: u8,
    /// The document's local id there.
    pub local: u32,
}

/// The documents of a lane that a query finds, by rising node, then local id.
#[derive(Drop)]
pub struct Hits {
    items: Vec<Hit>,
}

impl Model for Hits {
    ghost use Rattle.std.specs.Prelude.{List};
    ghost use Rattle.std.specs.Coded.{coded_list};
    ghost use Rattle.match_views.specs.declared.hits.Hit.{Hit};
    ghost use Rattle.match_views.specs.contracts.hits.Hit as hit;

    ghost Value = { List Hit };

    ghost coded = { coded_list hit.the_row.coded };

    ghost view = { λ h. h.items.items };
}

impl Hits {
    /// The hits.
    pub fn items(&self) -> &[Hit]
        ensures { result.now ≡ self.now }
    {
        &self.items
    }
}

/// The hits of one node.
fn push_all(hits: &mut Vec<Hit>, node: u8, locals: &[u32]) -> Result<(), NoMemory>
    ensures items { OnOk result (hits.new.items ≡ hits.old.items ++ map (λ local. record { node = node; local = local }) locals.now) }
    ensures low { OnOk result (AllByRecursion (λ hit. hit.local < 4294967296) hits.old.items
        → AllByRecursion (λ hit. hit.local < 4294967296) hits.new.items) }
{
    for local in locals {
        hits.push(Hit {
            node,
            local: *local,
        })?;
    }
    Ok(())
}

/// Of which documents of nodes that serve at a version a query is true, by rising lists: no document and no value is read.
/// Takes for each such node the lengths of the lists that the query names. They are at most 2^37, since each of 32 nodes has
/// 2^32 local ids.
pub fn matches<L: Columns>(
    alloc: Global,
    query: &Query,
    lists: &L,
    version: u32,
) -> Result<Hits, NoMemory>
    ensures hits { IfOk result (λ hits. hits ≡ hits_of query.now version (L.seen lists.now)) }
    ensures few { IfOk result (λ hits. length hits ≤ 137438953472) }
{
    let mut items = Vec::new(alloc);
    for node in 0..32 {
        if lists.serves(node, version) {
            let locals = evaluate(alloc, lists, node, query.type_name.text(), &query.expr)?;
            push_all(&mut items, node, &locals)?;
        }
    }
    Ok(Hits { items })
}
