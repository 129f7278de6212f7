ghost use Rattle.std.specs.Prelude.{◌≡◌, ◌+◌, ◌*◌, map, sum};
ghost use Rattle.documents.specs.Fields.{pairs};
ghost use Rattle.documents.specs.Sizes.{text_size, value_size, field_size, capped};

use crate::field::SharedField;
use doc_types::FieldValue;
use value_lists::TextValue;

/// The size of a text: 8 and its bytes.
fn text_size(text: &str) -> u64
    ensures { result ≡ capped (text_size text.now) }
{
    (text.len() as u64).saturating_add(8)
}

/// The sizes of some texts together.
fn texts_size(texts: &[TextValue]) -> u64
    ensures { result ≡ capped (sum (map text_size texts.now)) }
{
    let mut size: u64 = 0;
    for text in texts {
        size = size.saturating_add(text_size(text.text()));
    }
    size
}

/// The size of so many numbers: 8 and 8 for each.
fn numbers_size(count: usize) -> u64
    ensures { result ≡ capped (8 + 8 * count) }
{
    (count as u64).saturating_mul(8).saturating_add(8)
}

/// The size of a value.
fn value_size(value: &FieldValue) -> u64
    ensures { result ≡ capped (value_size value.now) }
{
    match value {
        FieldValue::Int(_) => 8,
        FieldValue::Text(text) => text_size(text.text()),
        FieldValue::Ints(numbers) => numbers_size(numbers.items().len()),
        FieldValue::Texts(texts) => texts_size(texts.items()).saturating_add(8),
    }
}

/// The size of a field: the bytes of its name, and its value.
fn field_size(field: &SharedField) -> u64
    ensures { result ≡ capped (field_size (field.now.name, field.now.value)) }
{
    (field.name().len() as u64).saturating_add(value_size(field.value()))
}

/// The sizes of some fields together.
pub fn fields_size(fields: &[SharedField]) -> u64
    ensures { result ≡ capped (sum (map field_size (pairs fields.now))) }
{
    let mut size: u64 = 0;
    for field in fields {
        size = size.saturating_add(field_size(field));
    }
    size
}
