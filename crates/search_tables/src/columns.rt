//! The values of a field. A value is a number, a text behind `'`, or a list: `#` and numbers or `"` and texts, with
//! commas between.

use crate::table::{done, shown};
use crate::texts::{number, signed, word};
use attribute_columns::Column;
use doc_types::{FieldType, FieldValue, IntList, TextList};
use std::alloc::Global;
use value_lists::TextValue;

/// A column that lines fill.
#[derive(Drop)]
pub struct Columns {
    column: Column,
}

/// The verbs, and the kinds of the words behind each.
pub const SHAPES: &[(&str, &str)] = &[
    ("begin", "word ."),
    ("set", "u32 word ."),
    ("clear", "u32 ."),
    ("value", "u32 ."),
    ("move", "u32 u32 ."),
    ("compact", "."),
    ("next", "i64 i64 ."),
];

/// The kind that a word says.
fn read_kind(word: &str) -> Option<FieldType> {
    Some(match word {
        "int" => FieldType::Int,
        "text" => FieldType::Text,
        "ints" => FieldType::IntArray,
        "texts" => FieldType::TextArray,
        _ => return None,
    })
}

/// A text.
fn read_text(alloc: Global, word: &str) -> Option<TextValue> {
    match String::from_str(alloc, word) {
        Ok(text) => Some(TextValue::of(text)),
        Err(_) => None,
    }
}

/// Appends a number; whether it is one.
fn push_number(numbers: &mut Vec<i64>, word: &str) -> bool {
    match word.parse::<i64>() {
        Ok(number) => numbers.push(number).is_ok(),
        Err(_) => false,
    }
}

/// Numbers with commas between.
fn read_numbers(alloc: Global, word: &str) -> Option<FieldValue> {
    let mut numbers = Vec::new(alloc);
    let mut good = true;
    for part in word.split(',') {
        good &= push_number(&mut numbers, part);
    }
    if good {
        Some(FieldValue::Ints(IntList::of(numbers)))
    } else {
        None
    }
}

/// Appends a text; whether there is memory for it.
fn push_text(alloc: Global, texts: &mut Vec<TextValue>, word: &str) -> bool {
    match read_text(alloc, word) {
        Some(text) => texts.push(text).is_ok(),
        None => false,
    }
}

/// Texts with commas between.
fn read_texts(alloc: Global, word: &str) -> Option<FieldValue> {
    let mut texts = Vec::new(alloc);
    let mut good = true;
    for part in word.split(',') {
        good &= push_text(alloc, &mut texts, part);
    }
    if good {
        Some(FieldValue::Texts(TextList::of(texts)))
    } else {
        None
    }
}

/// The value that a word says.
pub fn read_value(alloc: Global, word: &str) -> Option<FieldValue> {
    match word.split_at_checked(1) {
        Some(("'", text)) => Some(FieldValue::Text(read_text(alloc, text)?)),
        Some(("#", numbers)) => read_numbers(alloc, numbers),
        Some(("\"", texts)) => read_texts(alloc, texts),
        _ => Some(FieldValue::Int(word.parse::<i64>().ok()?)),
    }
}

/// What a value has, or `none`.
pub fn value_text(alloc: Global, value: Option<&FieldValue>) -> Option<String> {
    match value {
        Some(FieldValue::Int(number)) => shown(alloc, number),
        Some(FieldValue::Text(text)) => shown(alloc, &text.text()),
        Some(FieldValue::Ints(numbers)) => shown(alloc, &numbers.items()),
        Some(FieldValue::Texts(texts)) => shown(alloc, &texts.items().len()),
        None => String::from_str(alloc, "none").ok(),
    }
}

/// Sets a value, where it is of the column's kind.
fn set(alloc: Global, column: &mut Column, local: u32, word: &str) -> bool {
    match read_value(alloc, word) {
        Some(value) => { value.kind() == column.kind() && column.set(alloc, local, &value).is_ok() }
        None => false,
    }
}

/// Moves a value down, where that may be.
fn move_down(column: &mut Column, from: u32, to: u32) -> bool {
    let may = to < from && column.value(to).is_none();
    if may {
        column.move_down(from, to);
    }
    may
}

/// Begins with a column of a kind.
fn begin(alloc: Global, column: &mut Column, kind: &str) -> bool {
    match read_kind(kind) {
        Some(kind) => {
            *column = Column::new(alloc, kind);
            true
        }
        None => false,
    }
}

/// The least number of a range with its documents.
fn next(alloc: Global, column: &Column, rest: &str) -> Option<String> {
    shown(alloc, &column.next_value(signed(rest, 0), signed(rest, 1)))
}

impl Columns {
    /// No values.
    pub fn new(alloc: Global) -> Columns {
        Columns {
            column: Column::new(alloc, FieldType::Int),
        }
    }

    /// Does what a line says.
    pub fn say(&mut self, alloc: Global, verb: &str, rest: &str) -> Option<String> {
        let column = &mut self.column;
        match verb {
            "value" => value_text(alloc, column.value(number(rest, 0))),
            "next" => next(alloc, column, rest),
            verb => done(alloc, change(alloc, column, verb, rest)),
        }
    }
}

/// Changes the column.
fn change(alloc: Global, column: &mut Column, verb: &str, rest: &str) -> bool {
    let (local, to) = (number(rest, 0), number(rest, 1));
    match verb {
        "begin" => begin(alloc, column, rest),
        "set" => set(alloc, column, local, word(rest, 1)),
        "move" => move_down(column, local, to),
        "compact" => column.compact().is_ok(),
        _ => {
            column.clear(local);
            true
        }
    }
}
