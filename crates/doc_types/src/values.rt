ghost use Rattle.std.specs.Prelude.{◌≡◌, IsTrue, ◌↔◌};
ghost use Rattle.doc_types.specs.Values.{kind_of, value_order};

use std::alloc::Global;
use std::cmp::Ordering;
use value_lists::{Listed, NoMemory, TextValue, TryCopy};

/// Numbers in order.
pub type IntList = Listed<i64>;

/// Texts in order.
pub type TextList = Listed<TextValue>;

/// What the values of a field are.
#[derive(Clone, Copy, Debug, PartialEq, Eq)]
pub enum FieldType {
    Int,
    Text,
    IntArray,
    TextArray,
}

/// A value of a field.
#[derive(Drop)]
pub enum FieldValue {
    Int(i64),
    Text(TextValue),
    Ints(IntList),
    Texts(TextList),
}

impl TryCopy for FieldValue {
    fn copy(&self, alloc: Global) -> Result<FieldValue, NoMemory> {
        match self {
            FieldValue::Int(number) => Ok(FieldValue::Int(*number)),
            FieldValue::Text(text) => Ok(FieldValue::Text(text.copy(alloc)?)),
            FieldValue::Ints(numbers) => Ok(FieldValue::Ints(numbers.copy(alloc)?)),
            FieldValue::Texts(texts) => Ok(FieldValue::Texts(texts.copy(alloc)?)),
        }
    }
}

impl FieldValue {
    /// The kind of field that has such a value.
    pub fn kind(&self) -> FieldType
        ensures { result ≡ kind_of self.now }
    {
        match self {
            FieldValue::Int(_) => FieldType::Int,
            FieldValue::Text(_) => FieldType::Text,
            FieldValue::Ints(_) => FieldType::IntArray,
            FieldValue::Texts(_) => FieldType::TextArray,
        }
    }

    /// The order of two values: numbers by size and before all texts, texts by bytes; lists have none.
    pub fn order(&self, other: &FieldValue) -> Option<Ordering>
        ensures { result ≡ value_order self.now other.now }
    {
        match (self, other) {
            (FieldValue::Int(one), FieldValue::Int(two)) => Some(one.cmp(two)),
            (FieldValue::Int(_), FieldValue::Text(_)) => Some(Ordering::Less),
            (FieldValue::Text(_), FieldValue::Int(_)) => Some(Ordering::Greater),
            (FieldValue::Text(one), FieldValue::Text(two)) => Some(one.text().cmp(two.text())),
            _ => None,
        }
    }

    /// Whether two values are one.
    pub fn equals(&self, other: &FieldValue) -> bool
        ensures { IsTrue result ↔ (self.now ≡ other.now) }
    {
        match (self, other) {
            (FieldValue::Int(one), FieldValue::Int(two)) => one == two,
            (FieldValue::Text(one), FieldValue::Text(two)) => one.text() == two.text(),
            (FieldValue::Ints(one), FieldValue::Ints(two)) => same_numbers(
                one.items(),
                two.items(),
            ),
            (FieldValue::Texts(one), FieldValue::Texts(two)) => {
                same_texts(one.items(), two.items())
            }
            _ => false,
        }
    }
}

/// Whether two lists have the same numbers in the same order.
fn same_numbers(one: &[i64], two: &[i64]) -> bool
    ensures { IsTrue result ↔ (one.now ≡ two.now) }
{
    if one.len() != two.len() {
        return false;
    }
    for at in 0..one.len() {
        if one[at] != two[at] {
            return false;
        }
    }
    true
}

/// Whether two lists have the same texts in the same order.
fn same_texts(one: &[TextValue], two: &[TextValue]) -> bool
    ensures { IsTrue result ↔ (one.now ≡ two.now) }
{
    if one.len() != two.len() {
        return false;
    }
    for at in 0..one.len() {
        if one[at].text() != two[at].text() {
            return false;
        }
    }
    true
}
