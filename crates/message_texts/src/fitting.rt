ghost use Rattle.std.specs.Prelude.{◌≡◌, ◌&&◌, ℤ, nat_le, length};
ghost use Rattle.std.specs.FinMap as fin;
ghost use Rattle.std.specs.List.{list_all};
ghost use Rattle.documents.specs.Fields.{pairs};
ghost use Rattle.documents.specs.Kinds.{kinds_of};
ghost use Rattle.message_texts.specs.Entries.{is_small, is_storable, is_kind, is_kind_of, is_allowed, document_fits};

use doc_types::{FieldType, FieldValue, Schema};
use documents::document::{LARGEST, MOST_ITEMS};
use documents::{Document, SharedField};

/// Whether numbers are small; each number of this type is.
fn are_small(numbers: &[i64]) -> bool
    ensures { result ≡ list_all is_small numbers.now }
{
    for number in numbers {
        if !is_small(*number) {
            return false;
        }
    }
    true
}

/// Whether a number has 64 bits with its sign; each number of this type has.
fn is_small(number: i64) -> bool
    ensures { result ≡ is_small number }
{
    i64::MIN <= number && number <= i64::MAX
}

/// Whether a field may have a value.
fn is_storable(value: &FieldValue) -> bool
    ensures { result ≡ is_storable value.now }
{
    match value {
        FieldValue::Int(number) => is_small(*number),
        FieldValue::Text(_) => true,
        FieldValue::Ints(numbers) => {
            numbers.items().len() <= MOST_ITEMS && are_small(numbers.items())
        }
        FieldValue::Texts(texts) => texts.items().len() <= MOST_ITEMS,
    }
}

/// Whether two kinds are one.
fn is_kind(kind: FieldType, other: FieldType) -> bool
    ensures { result ≡ is_kind kind other }
{
    match (kind, other) {
        (FieldType::Int, FieldType::Int)
        | (FieldType::Text, FieldType::Text)
        | (FieldType::IntArray, FieldType::IntArray)
        | (FieldType::TextArray, FieldType::TextArray) => true,
        _ => false,
    }
}

/// Whether a field is one of a type's, of its kind.
fn is_allowed(schema: &Schema, type_name: &str, field: &SharedField) -> bool
    ensures { result ≡ is_allowed (kinds_of schema.now type_name.now) (field.now.name, field.now.value) }
{
    match schema.field(type_name, field.name()) {
        Some(kind) => is_kind(kind, field.value().kind()) && is_storable(field.value()),
        None => false,
    }
}

/// Whether all fields are.
fn are_allowed(schema: &Schema, type_name: &str, fields: &[SharedField]) -> bool
    ensures { result ≡ list_all (is_allowed (kinds_of schema.now type_name.now)) (pairs fields.now) }
{
    for field in fields {
        if !is_allowed(schema, type_name, field) {
            return false;
        }
    }
    true
}

/// Whether a document fits a schema.
pub fn document_fits(schema: &Schema, document: &Document) -> bool
    ensures { result ≡ document_fits schema.now document.now }
{
    let type_name = document.id().type_name();
    schema.has_type(type_name)
        && are_allowed(schema, type_name, document.fields())
        && document.size() <= LARGEST
}
