//! What groups read of hits: columns, each lent once for the hits of a node.

ghost use Rattle.std.specs.Prelude.{◌≡◌, ◌<◌, ℕ, List, length, slice_index_or, Some, IfOk, IfSome};
ghost use Rattle.std.specs.Option.{option_copied};
ghost use Rattle.documents.specs.Fields.{Contents};
ghost use Rattle.document_indexes.specs.Entering.{IsLent};
ghost use Rattle.document_rows.specs.Reading.{row_at, value_at};
ghost use Rattle.view_changes.specs.Serving.{rows_of};
ghost use Rattle.group_counts.specs.Keyed.{number_in};
ghost use Rattle.group_counts.specs.Tallies.{IsWide};
ghost use Rattle.group_counts.specs.Figures.{no_slot, figure_for, HasColumn, HaveColumns, AreFigures};

use crate::figures::number_of;
use doc_types::{FieldValue, OutputKind};
use field_indexes::FieldIndex;
use match_views::Hit;
use std::alloc::Global;
use value_lists::NoMemory;
use view_columns::{Columns, cell};

/// The column of a field at a node.
#[derive(Clone, Copy)]
pub struct Lent<'a> {
    pub node: u8,
    pub column: Option<&'a FieldIndex>,
}

/// The column of an output's field at a node, and the number of a hit there.
#[derive(Clone, Copy)]
pub struct Slot<'a> {
    pub node: u8,
    pub column: Option<&'a FieldIndex>,
    pub number: Option<i64>,
}

/// The column of a field at a node; that of before, if it is of the same node.
pub fn lend<'a, V: Columns>(
    view: &'a V,
    type_name: &str,
    field: &str,
    before: Lent<'a>,
    node: u8,
) -> Lent<'a>
    requires { IsLent type_name.now field.now (row_at (rows_of before.node (V.seen view.now))) (option_copied before.column) }
    ensures column { IsLent type_name.now field.now (row_at (rows_of node (V.seen view.now))) (option_copied result.column) }
    ensures node { result.node ≡ node }
{
    if before.node == node {
        before
    } else {
        Lent {
            node,
            column: view.column(node, type_name, field),
        }
    }
}

/// What the document at a hit has in a field: read from the column, and from the document only where the column has nothing.
pub fn value_at<'a, V: Columns>(
    view: &'a V,
    column: Option<&'a FieldIndex>,
    hit: Hit,
    field: &str,
) -> Option<&'a FieldValue>
    ensures { (name : List ℕ) → IsLent name field.now (row_at (rows_of hit.node (V.seen view.now))) (option_copied column.entry)
        → option_copied result ≡ value_at (rows_of hit.node (V.seen view.now)) hit.local field.now }
{
    match cell(column, hit.local) {
        Some(value) => Some(value),
        None => match view.document(hit.node, hit.local) {
            Some(document) => document.get(field),
            None => None,
        },
    }
}

/// The number of a hit in a field, and the column that it was read from.
fn read_field<'a, V: Columns>(
    view: &'a V,
    type_name: &str,
    field: &str,
    slot: Slot<'a>,
    hit: Hit,
) -> Slot<'a>
    requires { IsLent type_name.now field.now (row_at (rows_of slot.node (V.seen view.now))) (option_copied slot.column) }
    ensures column { IsLent type_name.now field.now (row_at (rows_of result.node (V.seen view.now))) (option_copied result.column) }
    ensures number { (d : Contents) → row_at (rows_of hit.node (V.seen view.now)) hit.local ≡ Some d
        → result.number ≡ number_in field.now d }
{
    let before = Lent {
        node: slot.node,
        column: slot.column,
    };
    let lent = lend(view, type_name, field, before, hit.node);
    Slot {
        node: lent.node,
        column: lent.column,
        number: number_of(value_at(view, lent.column, hit, field)),
    }
}

/// What an output takes of a hit.
fn read_slot<'a, V: Columns>(
    view: &'a V,
    type_name: &str,
    kind: &OutputKind,
    slot: Slot<'a>,
    hit: Hit,
) -> Slot<'a>
    requires { HasColumn type_name.now kind.now (V.seen view.now) slot }
    ensures column { HasColumn type_name.now kind.now (V.seen view.now) result }
    ensures number { (d : Contents) → row_at (rows_of hit.node (V.seen view.now)) hit.local ≡ Some d
        → result.number ≡ figure_for kind.now d }
{
    match kind {
        OutputKind::Count => Slot {
            node: slot.node,
            column: slot.column,
            number: Some(1),
        },
        OutputKind::Sum(field) => read_field(view, type_name, field.text(), slot, hit),
        OutputKind::Min(field) => read_field(view, type_name, field.text(), slot, hit),
        OutputKind::Max(field) => read_field(view, type_name, field.text(), slot, hit),
    }
}

/// What each output takes of a hit.
pub fn read_slots<'a, V: Columns>(
    view: &'a V,
    type_name: &str,
    kinds: &[OutputKind],
    slots: &mut [Slot<'a>],
    hit: Hit,
)
    requires same { length slots.old ≡ length kinds.now }
    requires columns { HaveColumns type_name.now kinds.now (V.seen view.now) slots.old }
    ensures same { length slots.new ≡ length kinds.now }
    ensures columns { HaveColumns type_name.now kinds.now (V.seen view.now) slots.new }
    ensures figures { (d : Contents) → row_at (rows_of hit.node (V.seen view.now)) hit.local ≡ Some d
        → AreFigures kinds.now d slots.new }
{
    for at in 0..kinds.len() {
        slots[at] = read_slot(view, type_name, &kinds[at], slots[at], hit);
    }
}

/// The column of an output's field at node 0.
fn first_slot<'a, V: Columns>(view: &'a V, type_name: &str, kind: &OutputKind) -> Slot<'a>
    ensures { HasColumn type_name.now kind.now (V.seen view.now) result }
{
    let column = match kind {
        OutputKind::Count => None,
        OutputKind::Sum(field) => view.column(0, type_name, field.text()),
        OutputKind::Min(field) => view.column(0, type_name, field.text()),
        OutputKind::Max(field) => view.column(0, type_name, field.text()),
    };
    Slot {
        node: 0,
        column,
        number: None,
    }
}

/// Of each output the column at node 0.
pub fn first_slots<'a, V: Columns>(
    alloc: Global,
    view: &'a V,
    type_name: &str,
    kinds: &[OutputKind],
) -> Result<Vec<Slot<'a>>, NoMemory>
    ensures same { IfOk result (λ slots. length slots.items ≡ length kinds.now) }
    ensures columns { IfOk result (λ slots. HaveColumns type_name.now kinds.now (V.seen view.now) slots.items) }
{
    let mut slots = Vec::with_capacity(alloc, kinds.len())?;
    for at in 0..kinds.len() {
        slots.push(first_slot(view, type_name, &kinds[at]))?;
    }
    Ok(slots)
}

/// The number of a slot.
pub fn number_at(slots: &[Slot<'_>], at: usize) -> Option<i64>
    requires { at < length slots.now }
    ensures value { result ≡ (slice_index_or slots.now at no_slot).number }
    ensures wide { IfSome result IsWide }
{
    let slot = slots[at];
    match slot.number {
        Some(number) => Some(number),
        None => None,
    }
}
