ghost use Rattle.std.specs.Prelude.{◌≡◌, ◌≤◌, ◌^◌, [], length, option_map, IfNone, IfSome, IfOk, OnOk, OnErr};
ghost use Rattle.std.specs.Option.{option_copied};
ghost use Rattle.global_ids.specs.Keys.{key_of};
ghost use Rattle.local_ids.specs.Rising.{IsRising};
ghost use Rattle.document_rows.specs.Reading.{places_where, is_any, row_at, value_at};
ghost use Rattle.view_changes.specs.Views.{changed};
ghost use Rattle.view_changes.specs.Opening.{opening};
ghost use Rattle.view_changes.specs.Serving.{serves_at, rows_of, covered_at};
ghost use Rattle.view_changes.specs.Kept.{IsView};

use crate::node::SeenNode;
use crate::nodes::{change_nodes, measure_at, new_nodes, rows_at, serves_at};
use doc_types::FieldValue;
use documents::Document;
use field_indexes::FieldIndex;
use node_rows::{NodeRows, SharedSchema};
use std::alloc::Global;
use std::marker::Model;
use value_lists::{NoMemory, TryCopy, copy_all};
use view_changes::{LaneChange, Lists, Shown};
use view_columns::Columns;

/// What is seen of a lane: its 32 nodes, and how many changes came.
#[derive(Drop)]
pub struct LaneView {
    schema: SharedSchema,
    nodes: Vec<SeenNode>,
    generation: u64,
}

impl Model for LaneView {
    ghost use Rattle.view_changes.specs.Views.{View};
    ghost use Rattle.lane_views.specs.ViewCodes.{view_code};
    ghost use Rattle.lane_views.specs.Typed.{seen, IsSound};

    ghost Value = { View };

    ghost coded = { view_code };

    ghost view = { λ v. seen v.schema v.nodes.items v.generation };

    ghost invariant = { λ v. IsSound v.schema v.nodes.items v.generation };
}

impl LaneView {
    /// A lane of which nothing was heard.
    pub fn new(alloc: Global, schema: &SharedSchema) -> Result<LaneView, NoMemory>
        ensures { IfOk result (λ v. v ≡ opening schema.now) }
    {
        Ok(LaneView {
            schema: schema.copy(alloc)?,
            nodes: new_nodes(alloc, schema, 32)?,
            generation: 0,
        })
    }

    /// A change comes, whatever it is. One of a node above 31, one that takes an entry outside the node's regions and
    /// one that brings a bucket that meets a region of another node at that version raise the generation alone. Costs
    /// what it changes, and a look at all regions for a new one.
    pub fn change(&mut self, alloc: Global, change: &LaneChange) -> Result<(), NoMemory>
        ensures ok { OnOk result (self.new ≡ changed self.old change.now) }
        ensures err { OnErr result (self.new ≡ self.old) }
    {
        change_nodes(alloc, &self.schema, &mut self.nodes, change)?;
        self.generation = self.generation.saturating_add(1);
        Ok(())
    }

    /// How many changes came, at most 2^64 - 1.
    pub fn generation(&self) -> u64
        ensures value { result ≡ self.now.generation }
        ensures valid { IsView self.now }
    {
        self.generation
    }

    /// How many keys the regions of the nodes have together that are at a version and aren't stopped, 0 to 2^58.
    pub fn measure(&self, version: u32) -> u64
        ensures value { result ≡ covered_at version self.now }
        ensures most { result ≤ 2 ^ 58 }
        ensures valid { IsView self.now }
    {
        measure_at(&self.nodes, version)
    }

    /// The documents of a node, where there is such a node.
    fn rows(&self, node: u8) -> Option<&NodeRows>
        ensures some { IfSome result (λ r. r.now.rows ≡ rows_of node self.now) }
        ensures none { IfNone result (rows_of node self.now ≡ []) }
    {
        rows_at(&self.nodes, node)
    }

    /// The local ids of a node's documents, rising. No node above 31 has one.
    pub fn locals(&self, node: u8) -> &[u32]
        ensures ids { result.now ≡ places_where is_any (rows_of node self.now) }
        ensures rising { IsRising result.now }
    {
        match self.rows(node) {
            Some(rows) => rows.locals(),
            None => &[],
        }
    }

    /// The key of a document, where a node has one with this local id.
    pub fn key(&self, node: u8, local: u32) -> Option<u64>
        ensures { result ≡ option_map (λ d. key_of d.id) (row_at (rows_of node self.now) local) }
    {
        self.rows(node)?.key(local)
    }

    /// A document, where a node has one with this local id: with those values alone that are of their kinds.
    pub fn document(&self, node: u8, local: u32) -> Option<&Document>
        ensures { option_copied result ≡ row_at (rows_of node self.now) local }
    {
        self.rows(node)?.document(local)
    }

    /// The value of a field there, from its column.
    pub fn value(&self, node: u8, local: u32, field: &str) -> Option<&FieldValue>
        ensures { option_copied result ≡ value_at (rows_of node self.now) local field.now }
    {
        self.rows(node)?.value(local, field)
    }
}

impl Lists for LaneView {
    ghost seen = { λ v. v };

    fn serves(&self, node: u8, version: u32) -> bool {
        serves_at(&self.nodes, node, version)
    }

    fn of_type(&self, node: u8, type_name: &str) -> &[u32] {
        match self.rows(node) {
            Some(rows) => rows.of_type(type_name),
            None => &[],
        }
    }

    fn with_token(&self, node: u8, type_name: &str, field: &str, token: &str) -> &[u32] {
        match self.rows(node) {
            Some(rows) => rows.with_token(type_name, field, token),
            None => &[],
        }
    }

    fn next_value(
        &self,
        node: u8,
        type_name: &str,
        field: &str,
        low: i64,
        high: i64,
    ) -> Option<(i64, &[u32])> {
        self.rows(node)?.next_value(type_name, field, low, high)
    }
}

impl Shown for LaneView {
    fn document(&self, node: u8, local: u32) -> Option<&Document> {
        self.rows(node)?.document(local)
    }

    fn measure(&self, version: u32) -> u64 {
        self.measure(version)
    }
}

impl Columns for LaneView {
    fn column(&self, node: u8, type_name: &str, field: &str) -> Option<&FieldIndex> {
        self.rows(node)?.column(type_name, field)
    }
}

impl TryCopy for LaneView {
    fn copy(&self, alloc: Global) -> Result<LaneView, NoMemory> {
        Ok(LaneView {
            schema: self.schema.copy(alloc)?,
            nodes: copy_all(alloc, &self.nodes)?,
            generation: self.generation,
        })
    }
}
