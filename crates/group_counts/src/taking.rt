//! Documents at hits: first a place for the value of each, which may want memory, and then each into its tally.

ghost use Rattle.std.specs.Prelude.{◌≡◌, ◌≤◌, ◌∷◌, [], None, length, OnOk};
ghost use Rattle.std.specs.Option.{option_copied};
ghost use Rattle.std.specs.Ordering.{int_cmp, int_eq, nat_cmp};
ghost use Rattle.std.specs.Cmp.Lexicographic.{slice_cmp};
ghost use Rattle.std.specs.FinMap as fin;
ghost use Rattle.indexmap.specs.IndexMap as table;
ghost use Rattle.indexmap.specs.IndexMap.{get_by_text};
ghost use Rattle.documents.specs.Fields.{Contents};
ghost use Rattle.group_counts.specs.Keyed.{number_of, text_of, number_in, text_in};
ghost use Rattle.group_counts.specs.Tallies.{AreKept, HasPlace, ArePlaced, ArePlacesMore, AreTaken};
ghost use Rattle.group_counts.specs.Figures.{AreFigures, HaveColumns};
ghost use Rattle.group_counts.specs.Gathered.{documents_at};

use crate::slots::{Lent, Slot, lend, read_slots, value_at};
use crate::tallies::{place_number, place_text, take_number, take_text};
use crate::tally::Tally;
use doc_types::FieldValue;
use indexmap::IndexMap;
use match_views::Hit;
use query_groups::GroupBy;
use std::alloc::Global;
use value_lists::NoMemory;
use view_columns::Columns;

/// A place for a value that is a number or a text.
fn place_value(
    alloc: Global,
    by: &GroupBy,
    numbers: &mut IndexMap<i64, Tally>,
    texts: &mut IndexMap<String, Tally>,
    value: Option<&FieldValue>,
) -> Result<(), NoMemory>
    ensures numbers { ArePlacesMore by.now.outputs numbers.old.entries numbers.new.entries
        (table.get int_eq numbers.old) (table.get int_eq numbers.new) }
    ensures texts { ArePlacesMore by.now.outputs texts.old.entries texts.new.entries
        (get_by_text texts.old) (get_by_text texts.new) }
    ensures number { OnOk result (HasPlace (number_of (option_copied value.entry)) (table.get int_eq numbers.new)) }
    ensures text { OnOk result (HasPlace (text_of (option_copied value.entry)) (get_by_text texts.new)) }
{
    match value {
        Some(FieldValue::Int(number)) => {
            place_number(alloc, numbers, *number, by.outputs.items())
        }
        Some(FieldValue::Text(text)) => {
            place_text(alloc, texts, text.text(), by.outputs.items())
        }
        _ => Ok(()),
    }
}

/// Places for the values of the documents at some hits.
pub fn place_all<V: Columns>(
    alloc: Global,
    by: &GroupBy,
    type_name: &str,
    numbers: &mut IndexMap<i64, Tally>,
    texts: &mut IndexMap<String, Tally>,
    view: &V,
    hits: &[Hit],
) -> Result<(), NoMemory>
    ensures numbers { ArePlacesMore by.now.outputs numbers.old.entries numbers.new.entries
        (table.get int_eq numbers.old) (table.get int_eq numbers.new) }
    ensures texts { ArePlacesMore by.now.outputs texts.old.entries texts.new.entries
        (get_by_text texts.old) (get_by_text texts.new) }
    ensures of_numbers { OnOk result (ArePlaced (number_in by.now.field)
        (documents_at (V.seen view.now) hits.now) (table.get int_eq numbers.new)) }
    ensures of_texts { OnOk result (ArePlaced (text_in by.now.field)
        (documents_at (V.seen view.now) hits.now) (get_by_text texts.new)) }
{
    let field = by.field.text();
    let mut lent = Lent {
        node: 0,
        column: view.column(0, type_name, field),
    };
    for hit in hits {
        lent = lend(view, type_name, field, lent, hit.node);
        let value = value_at(view, lent.column, *hit, field);
        place_value(alloc, by, numbers, texts, value)?;
    }
    Ok(())
}

/// A document more, where its value is a number or a text.
fn take_value(
    by: &GroupBy,
    numbers: &mut IndexMap<i64, Tally>,
    texts: &mut IndexMap<String, Tally>,
    value: Option<&FieldValue>,
    slots: &[Slot<'_>],
)
    requires numbers { AreKept by.now.outputs 9223372036854775807 (table.get int_eq numbers.old) }
    requires texts { AreKept by.now.outputs 9223372036854775807 (get_by_text texts.old) }
    requires number { HasPlace (number_of (option_copied value)) (table.get int_eq numbers.old) }
    requires text { HasPlace (text_of (option_copied value)) (get_by_text texts.old) }
    requires same { length slots.now ≡ length by.now.outputs }
    ensures numbers { (d : Contents) → AreFigures by.now.outputs d slots.now → fin.get d.fields by.now.field ≡ option_copied value.entry
        → AreTaken int_cmp by.now.outputs (number_in by.now.field) (d ∷ []) 1
        (table.get int_eq numbers.old) (table.get int_eq numbers.new) }
    ensures texts { (d : Contents) → AreFigures by.now.outputs d slots.now → fin.get d.fields by.now.field ≡ option_copied value.entry
        → AreTaken (slice_cmp nat_cmp) by.now.outputs (text_in by.now.field) (d ∷ []) 1
        (get_by_text texts.old) (get_by_text texts.new) }

    // Without a value nothing is done.
    ensures no_number { option_copied value.entry ≡ None → numbers.new ≡ numbers.old }
    ensures no_text { option_copied value.entry ≡ None → texts.new ≡ texts.old }
{
    match value {
        Some(FieldValue::Int(number)) => {
            take_number(numbers, *number, by.outputs.items(), slots);
        }
        Some(FieldValue::Text(text)) => {
            take_text(texts, text.text(), by.outputs.items(), slots);
        }
        _ => {}
    }
}

/// The documents at some hits more.
pub fn take_all<'a, V: Columns>(
    by: &GroupBy,
    type_name: &str,
    numbers: &mut IndexMap<i64, Tally>,
    texts: &mut IndexMap<String, Tally>,
    view: &'a V,
    hits: &[Hit],
    slots: &mut [Slot<'a>],
)
    requires few { length hits.now ≤ 137438953472 }
    requires numbers { AreKept by.now.outputs 8658654068736 (table.get int_eq numbers.old) }
    requires texts { AreKept by.now.outputs 8658654068736 (get_by_text texts.old) }
    requires of_numbers { ArePlaced (number_in by.now.field)
        (documents_at (V.seen view.now) hits.now) (table.get int_eq numbers.old) }
    requires of_texts { ArePlaced (text_in by.now.field)
        (documents_at (V.seen view.now) hits.now) (get_by_text texts.old) }
    requires same { length slots.old ≡ length by.now.outputs }
    requires columns { HaveColumns type_name.now by.now.outputs (V.seen view.now) slots.old }
    ensures numbers { AreTaken int_cmp by.now.outputs (number_in by.now.field)
        (documents_at (V.seen view.now) hits.now) (length hits.now)
        (table.get int_eq numbers.old) (table.get int_eq numbers.new) }
    ensures texts { AreTaken (slice_cmp nat_cmp) by.now.outputs (text_in by.now.field)
        (documents_at (V.seen view.now) hits.now) (length hits.now)
        (get_by_text texts.old) (get_by_text texts.new) }
{
    let field = by.field.text();
    let mut lent = Lent {
        node: 0,
        column: view.column(0, type_name, field),
    };
    for hit in hits {
        lent = lend(view, type_name, field, lent, hit.node);
        read_slots(view, type_name, by.outputs.items(), slots, *hit);
        let value = value_at(view, lent.column, *hit, field);
        take_value(by, numbers, texts, value, slots);
    }
}
