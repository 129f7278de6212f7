ghost use Rattle.std.specs.Prelude.{◌≡◌, ◌&&◌, ℕ, ℤ, List, true, not, Some, None, is_some, bytes_eq, if◌then◌else◌, IfOk, IfSome};
ghost use Rattle.std.specs.List.{list_all};
ghost use Rattle.std.specs.Option.{option_copied};
ghost use Rattle.std.specs.FinMap as fin;
ghost use Rattle.doc_types.specs.SchemaCodes.{Types};
ghost use Rattle.document_ids.specs.Parts.{type_of};
ghost use Rattle.documents.specs.Fields.{pairs};
ghost use Rattle.attribute_columns.specs.Columns.{numbers_of, has_number};
ghost use Rattle.document_indexes.specs.Entering.{value_of};
ghost use Rattle.document_rows.specs.Kinds.{same_kind};
ghost use Rattle.document_rows.specs.Rows.{fits, kind_in, fitted};
ghost use Rattle.document_rows.specs.Reading.{value_has_number, IsWide};
ghost use Rattle.node_rows.specs.Kept.{document_in, own_body, shown, pair_fits, IsProper};

use doc_types::{FieldType, FieldValue, Schema};
use documents::{Document, Entry, SharedEntry, SharedField};
use std::alloc::Global;
use std::slice;
use value_lists::{NoMemory, TryCopy};

/// Whether two kinds are one.
fn same_kind(one: FieldType, two: FieldType) -> bool
    ensures { result ≡ same_kind one two }
{
    match (one, two) {
        (FieldType::Int, FieldType::Int) => true,
        (FieldType::Text, FieldType::Text) => true,
        (FieldType::IntArray, FieldType::IntArray) => true,
        (FieldType::TextArray, FieldType::TextArray) => true,
        _ => false,
    }
}

/// Whether a value is of the kind of its field.
fn fits(schema: &Schema, type_name: &str, field: &SharedField) -> bool
    ensures { result ≡ fits (kind_in (fin.get schema.now type_name.now) field.now.name) (Some field.now.value) }
{
    match schema.field(type_name, field.name()) {
        Some(kind) => same_kind(kind, field.value().kind()),
        None => false,
    }
}

/// Whether each value is of the kind of its field.
fn all_fit(schema: &Schema, type_name: &str, fields: &[SharedField]) -> bool
    ensures { result ≡ list_all (pair_fits (fin.get schema.now type_name.now)) (pairs fields.now) }
{
    for at in 0..fields.len() {
        if !fits(schema, type_name, &fields[at]) {
            return false;
        }
    }
    true
}

/// Reads numbers: they are of 64 bits.
fn read_numbers(numbers: &[i64])
    ensures { (q : ℤ) → has_number q numbers.now ≡ true → IsWide q }
{
    for at in 0..numbers.len() {
        let _number = numbers[at];
    }
}

/// Reads the numbers of a value.
fn read_value(value: &FieldValue)
    ensures { (q : ℤ) → has_number q (numbers_of value.now) ≡ true → IsWide q }
{
    match value {
        FieldValue::Int(number) => read_numbers(slice::from_ref(number)),
        FieldValue::Ints(numbers) => read_numbers(numbers.items()),
        FieldValue::Text(_) => {}
        FieldValue::Texts(_) => {}
    }
}

/// Reads the numbers of some fields.
fn read_fields(fields: &[SharedField])
    ensures { (f : List ℕ) (q : ℤ) → value_has_number q (value_of f (pairs fields.now)) ≡ true → IsWide q }
{
    for at in 0..fields.len() {
        read_value(fields[at].value());
    }
}

/// A document has a field no more, if its value isn't of its kind.
fn clear_unfit(schema: &Schema, type_name: &str, document: &mut Document, field: &SharedField)
    ensures id { document.new.id ≡ document.old.id }
    ensures fields { (f : List ℕ) → fin.get document.new.fields f
        ≡ (if bytes_eq f field.now.name && not (pair_fits (fin.get schema.now type_name.now) (field.now.name, field.now.value))
        then None else fin.get document.old.fields f) }
{
    if !fits(schema, type_name, field) {
        document.clear(field.name());
    }
}

/// The document without the values that aren't of their kinds.
fn fitted_document(
    alloc: Global,
    schema: &Schema,
    document: &Document,
) -> Result<Document, NoMemory>
    ensures { IfOk result (λ copy. copy ≡ fitted schema.now document.now) }
{
    let mut copy = document.copy(alloc)?;
    let name = document.id().type_name();
    let fields = document.fields();
    for at in 0..fields.len() {
        clear_unfit(schema, name, &mut copy, &fields[at]);
    }
    Ok(copy)
}

/// The document of an entry, if it is of the entry's id.
fn own_document(entry: &Entry) -> Option<&Document>
    ensures { option_copied result ≡ own_body entry.now.id entry.now.body }
{
    match &entry.body {
        Some(document) if document.id().text() == entry.id.text() => Some(document),
        _ => None,
    }
}

/// An entry with the document that a row shows of it: the entry itself, where all values are of their kinds.
fn fitted_entry(
    alloc: Global,
    schema: &Schema,
    entry: &SharedEntry,
    document: &Document,
) -> Result<SharedEntry, NoMemory>
    requires { entry.now.body ≡ Some document.now }
    ensures body { IfOk result (λ e. e.body ≡ Some (fitted schema.now document.now)) }
    ensures id { IfOk result (λ e. e.id ≡ entry.now.id) }
{
    if all_fit(schema, document.id().type_name(), document.fields()) {
        return entry.copy(alloc);
    }
    let body = fitted_document(alloc, schema, document)?;
    SharedEntry::new(
        alloc,
        Entry {
            stamp: entry.entry().stamp,
            id: entry.entry().id.copy(alloc)?,
            body: Some(body),
        },
    )
}

/// An entry as a row keeps it, or none where the entry has no document of its own. The only error is want of memory,
/// and none takes none.
pub fn kept_entry(
    alloc: Global,
    schema: &Schema,
    entry: &SharedEntry,
) -> Result<Option<SharedEntry>, NoMemory>
    ensures shown { IfOk result (λ row. document_in row ≡ shown schema.now entry.now) }
    ensures proper { IfOk result (λ row. IfSome (document_in row) (IsProper schema.now)) }
    ensures some { IfOk result (λ row. IfSome row (λ e. is_some e.body ≡ true)) }
    ensures id { IfOk result (λ row. IfSome row (λ e. e.id ≡ entry.now.id)) }
{
    match own_document(entry.entry()) {
        Some(document) => {
            read_fields(document.fields());
            Ok(Some(fitted_entry(alloc, schema, entry, document)?))
        }
        None => Ok(None),
    }
}
