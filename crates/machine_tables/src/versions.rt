//! Entries in words: a document's id, `@`, a stamp as `VERSION:COUNT`, a stroke, and the document's fields in JSON, or a
//! `-` where it is a remove.

ghost use Rattle.std.specs.Prelude.{◌≡◌, IfSome};

use crate::texts::{number, short};
use doc_types::{DEFAULT_SCHEMA, Schema};
use doc_updates::Update;
use document_ids::DocId;
use documents::{Document, Entry};
use entry_maps::EntryMap;
use json_documents::{document_from_json, schema_from_json, update_from_json};
use serde_json::Value;
use stamps::Stamp;
use std::alloc::Global;
use value_lists::TryCopy;

/// The schema of all documents.
pub fn schema(alloc: Global) -> Option<Schema> {
    schema_from_json(alloc, DEFAULT_SCHEMA).ok()
}

/// The document of an id with these fields.
fn document_of(alloc: Global, id: &DocId, fields: &Value, schema: &Schema) -> Option<Document>
    ensures { IfSome result (λ document. document.id ≡ id.now) }
{
    if fields.is_object() {
        document_from_json(alloc, id.copy(alloc).ok()?, fields, schema).ok()
    } else {
        None
    }
}

/// The document of an id with fields in JSON.
pub fn read_document(alloc: Global, id: &DocId, word: &str) -> Option<Document>
    ensures { IfSome result (λ document. document.id ≡ id.now) }
{
    let schema = schema(alloc)?;
    match Value::from_str(alloc, word) {
        Ok(fields) => document_of(alloc, id, &fields, &schema),
        Err(_) => None,
    }
}

/// The update of the document of an id that these fields say.
fn update_of(alloc: Global, id: &DocId, fields: &Value, schema: &Schema) -> Option<Update> {
    if fields.is_object() {
        update_from_json(alloc, id, fields, schema).ok()
    } else {
        None
    }
}

/// An update in JSON of the document of an id.
pub fn read_update(alloc: Global, id: &DocId, word: &str) -> Option<Update> {
    let schema = schema(alloc)?;
    match Value::from_str(alloc, word) {
        Ok(fields) => update_of(alloc, id, &fields, &schema),
        Err(_) => None,
    }
}

/// A stamp.
fn read_stamp(word: &str) -> Option<Stamp> {
    let (version, count) = word.split_once(':')?;
    Some(Stamp {
        version: short(version, 0)?,
        count: number(count, 0)?,
    })
}

/// The entry of a document with these fields.
fn entry_of(alloc: Global, stamp: Stamp, id: DocId, fields: &str) -> Option<Entry> {
    let body = read_document(alloc, &id, fields);
    if body.is_some() {
        Some(Entry { stamp, id, body })
    } else {
        None
    }
}

/// The entry of a document, of which a word says the stamp and the body.
pub fn read_version(alloc: Global, id: DocId, word: &str) -> Option<Entry> {
    let (stamp, fields) = word.split_once('/').unwrap_or(("", ""));
    match read_stamp(stamp) {
        None => None,
        Some(stamp) if fields == "-" => Some(Entry {
            stamp,
            id,
            body: None,
        }),
        Some(stamp) => entry_of(alloc, stamp, id, fields),
    }
}

/// An entry.
pub fn read_entry(alloc: Global, word: &str) -> Option<Entry> {
    let (id, version) = word.split_once('@')?;
    match DocId::parse(alloc, id) {
        Ok(id) => read_version(alloc, id, version),
        Err(_) => None,
    }
}

/// Puts an entry; whether a word says one.
pub fn put(alloc: Global, entries: &mut EntryMap, word: &str) -> bool {
    match read_entry(alloc, word) {
        Some(entry) => entries.put(entry).is_ok(),
        None => false,
    }
}

/// Entries.
pub fn read_entries(alloc: Global, words: &str) -> Option<EntryMap> {
    let mut entries = EntryMap::new(alloc);
    let mut good = true;
    for word in words.split_ascii_whitespace() {
        good &= put(alloc, &mut entries, word);
    }
    if good { Some(entries) } else { None }
}
