ghost use Rattle.std.specs.Prelude.{◌≡◌, IfOk};
ghost use Rattle.serde_json.specs.Events.{items_len};
ghost use Rattle.serde_json.specs.Find.{as_array, as_str};
ghost use Rattle.line_values.specs.View.{view, items_view};
ghost use Rattle.json_documents.specs.Json.{whole, each, few, list_in, value_of, value_by};

use doc_types::{FieldType, FieldValue, IntList, TextList};
use documents::document::MOST_ITEMS;
use line_values::LineValue;
use std::alloc::Global;
use value_lists::{NoMemory, TextValue};

/// The numbers of a list; none where an item is no whole number.
fn numbers_of(alloc: Global, items: &[LineValue<'_>]) -> Result<Option<IntList>, NoMemory>
    ensures { IfOk result (λ list. list ≡ each whole (items_view items.now)) }
{
    let mut list = Vec::new(alloc);
    for item in items {
        match item.as_i64() {
            Some(number) => list.push(number)?,
            None => return Ok(None),
        }
    }
    Ok(Some(IntList::of(list)))
}

/// The texts of a list; none where an item is no text.
fn texts_of(alloc: Global, items: &[LineValue<'_>]) -> Result<Option<TextList>, NoMemory>
    ensures { IfOk result (λ list. list ≡ each as_str (items_view items.now)) }
{
    let mut list = Vec::new(alloc);
    for item in items {
        match item.as_str() {
            Some(text) => list.push(TextValue::of(String::from_str(alloc, text)?))?,
            None => return Ok(None),
        }
    }
    Ok(Some(TextList::of(list)))
}

/// How many items there are.
fn count(items: &[LineValue<'_>]) -> usize
    ensures { result ≡ items_len (items_view items.now) }
{
    items.len()
}

/// The numbers of a list of at most 256 items.
fn few_numbers(alloc: Global, items: &[LineValue<'_>]) -> Result<Option<IntList>, NoMemory>
    ensures { IfOk result (λ list. list ≡ few whole (items_view items.now)) }
{
    if count(items) > MOST_ITEMS {
        return Ok(None);
    }
    numbers_of(alloc, items)
}

/// The texts of a list of at most 256 items.
fn few_texts(alloc: Global, items: &[LineValue<'_>]) -> Result<Option<TextList>, NoMemory>
    ensures { IfOk result (λ list. list ≡ few as_str (items_view items.now)) }
{
    if count(items) > MOST_ITEMS {
        return Ok(None);
    }
    texts_of(alloc, items)
}

/// A list of numbers that a value says; none where it is no list of at most 256 whole numbers.
pub fn numbers_in(alloc: Global, value: &LineValue<'_>) -> Result<Option<IntList>, NoMemory>
    ensures { IfOk result (λ list. list ≡ list_in whole (view value.now)) }
{
    match value.as_array() {
        Some(items) => few_numbers(alloc, items),
        None => Ok(None),
    }
}

/// A list of texts that a value says; none where it is no list of at most 256 texts.
pub fn texts_in(alloc: Global, value: &LineValue<'_>) -> Result<Option<TextList>, NoMemory>
    ensures { IfOk result (λ list. list ≡ list_in as_str (view value.now)) }
{
    match value.as_array() {
        Some(items) => few_texts(alloc, items),
        None => Ok(None),
    }
}

/// A text that a value says.
fn text_in(alloc: Global, value: &LineValue<'_>) -> Result<Option<TextValue>, NoMemory>
    ensures { IfOk result (λ text. text ≡ as_str (view value.now)) }
{
    match value.as_str() {
        Some(text) => Ok(Some(TextValue::of(String::from_str(alloc, text)?))),
        None => Ok(None),
    }
}

/// What a value says of a field of a kind; none where it is no value of that kind.
#[tactic(auto, unfolding(crate::specs::Json::value_of))]
pub fn value_of(
    alloc: Global,
    kind: FieldType,
    value: &LineValue<'_>,
) -> Result<Option<FieldValue>, NoMemory>
    ensures { IfOk result (λ found. found ≡ value_of kind (view value.now)) }
{
    match kind {
        FieldType::Int => Ok(value.as_i64().map(FieldValue::Int)),
        FieldType::Text => Ok(text_in(alloc, value)?.map(FieldValue::Text)),
        FieldType::IntArray => Ok(numbers_in(alloc, value)?.map(FieldValue::Ints)),
        FieldType::TextArray => Ok(texts_in(alloc, value)?.map(FieldValue::Texts)),
    }
}

/// What a value says of a field of a kind that may not be there.
pub fn value_by(
    alloc: Global,
    kind: Option<FieldType>,
    value: &LineValue<'_>,
) -> Result<Option<FieldValue>, NoMemory>
    ensures { IfOk result (λ found. found ≡ value_by kind (view value.now)) }
{
    match kind {
        Some(kind) => value_of(alloc, kind, value),
        None => Ok(None),
    }
}
