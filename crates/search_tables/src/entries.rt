//! Documents and entries as lines say them, and the schema that they are of.

use crate::columns::read_value;
use doc_types::schema::{FieldOf, TypeOf};
use doc_types::{FieldType, Schema};
use document_ids::DocId;
use documents::{Document, Entry};
use node_rows::SharedSchema;
use stamps::Stamp;
use std::alloc::Global;
use value_lists::TryCopy;

/// Appends a field; whether there is memory for it.
fn push_field(alloc: Global, fields: &mut Vec<FieldOf>, name: &str, kind: FieldType) -> bool {
    match String::from_str(alloc, name) {
        Ok(name) => fields.push(FieldOf { name, kind }).is_ok(),
        Err(_) => false,
    }
}

/// Appends fields; whether there is memory for them.
fn push_fields(alloc: Global, fields: &mut Vec<FieldOf>, kinds: &[(&str, FieldType)]) -> bool {
    let mut good = true;
    for (name, kind) in kinds {
        good &= push_field(alloc, fields, name, *kind);
    }
    good
}

/// Appends a type; whether there is memory for it.
fn push_type(
    alloc: Global,
    types: &mut Vec<TypeOf>,
    name: &str,
    kinds: &[(&str, FieldType)],
) -> bool {
    let mut fields = Vec::new(alloc);
    let good = push_fields(alloc, &mut fields, kinds);
    match String::from_str(alloc, name) {
        Ok(name) => types.push(TypeOf { name, fields }).is_ok() && good,
        Err(_) => false,
    }
}

/// The fields of `music`, and those of `book`.
const MUSIC: &[(&str, FieldType)] = &[
    ("title", FieldType::Text),
    ("year", FieldType::Int),
    ("tags", FieldType::TextArray),
    ("marks", FieldType::IntArray),
];

const BOOK: &[(&str, FieldType)] = &[
    ("title", FieldType::TextArray),
    ("year", FieldType::Int),
    ("tags", FieldType::Text),
];

/// The schema of all documents.
pub fn schema(alloc: Global) -> Option<SharedSchema> {
    let mut types = Vec::new(alloc);
    if push_type(alloc, &mut types, "music", MUSIC) && push_type(alloc, &mut types, "book", BOOK) {
        SharedSchema::new(alloc, Schema::of(types)).ok()
    } else {
        None
    }
}

/// Sets the field that a word says, as `FIELD=VALUE`; whether it says one that the document may have.
fn set_field(alloc: Global, document: &mut Document, word: &str) -> bool {
    let (field, value) = word.split_once('=').unwrap_or(("", ""));
    match read_value(alloc, value) {
        Some(value) => document.set(alloc, field, value).is_ok(),
        None => false,
    }
}

/// The document that a word says: an id, and fields with their values, each behind a semicolon.
fn read_document(alloc: Global, word: &str) -> Option<Document> {
    let mut parts = word.split(';');
    let id = DocId::parse(alloc, parts.next().unwrap_or("")).ok()?;
    let mut document = Document::empty(alloc, id);
    let mut good = true;
    for part in parts {
        good &= set_field(alloc, &mut document, part);
    }
    if good { Some(document) } else { None }
}

/// The entry that stores a document.
fn entry_of(alloc: Global, stamp: Stamp, document: Document) -> Option<Entry> {
    match document.id().copy(alloc) {
        Ok(id) => Some(Entry {
            stamp,
            id,
            body: Some(document),
        }),
        Err(_) => None,
    }
}

/// The entry that removes the document of an id.
fn remove_of(alloc: Global, stamp: Stamp, id: &str) -> Option<Entry> {
    match DocId::parse(alloc, id) {
        Ok(id) => Some(Entry {
            stamp,
            id,
            body: None,
        }),
        Err(_) => None,
    }
}

/// The entry that a word says: a document, or behind a minus sign the id of one that is removed. Its stamp is of version 1
/// and this count.
pub fn read_entry(alloc: Global, word: &str, count: u64) -> Option<Entry> {
    let stamp = Stamp { version: 1, count };
    match word.strip_prefix('-') {
        Some(id) => remove_of(alloc, stamp, id),
        None => entry_of(alloc, stamp, read_document(alloc, word)?),
    }
}
