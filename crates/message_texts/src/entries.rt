ghost use Rattle.std.specs.Prelude.{◌≡◌, true, false, codes, Some, None, IfOk, IfSome, map, option_and_then};
ghost use Rattle.std.specs.FinMap as fin;
ghost use Rattle.serde_json.specs.Data.{array};
ghost use Rattle.serde_json.specs.View.{view, items_of, items_view};
ghost use Rattle.document_ids.specs.Grammar.{IsId};
ghost use Rattle.stamps.specs.Printed.{IsStamp, stamp_in};
ghost use Rattle.doc_types.specs.SchemaCodes.{Types};
ghost use Rattle.message_texts.specs.ByKey.{by_key};
ghost use Rattle.message_texts.specs.Entries.{fields_data, entry_data, body_in, body_under, entry_in, if_fits, joined, gathered};
ghost use Rattle.message_texts.specs.Fitting.{FitsIfThere, FitsEntry, FitEntries};
ghost use Rattle.message_texts.specs.Parts.{id_in, text_at};

use crate::fitting::document_fits;
use crate::listing::by_key;
use crate::parts;
use bucket_ids::Bucket;
use doc_types::Schema;
use document_ids::DocId;
use documents::{Document, DocumentFault, Entry};
use entry_maps::EntryMap;
use global_ids::key_of;
use json_documents::{document_from_json, fields_json};
use serde_json::{Map, Value};
use stamps::Stamp;
use std::alloc::Global;
use value_lists::{NoMemory, TryCopy};

/// The fields of a document, or null for a remove.
fn fields_value(alloc: Global, body: &Option<Document>) -> Result<Value, NoMemory>
    ensures { IfOk result (λ value. view value ≡ fields_data body.now) }
{
    match body {
        Some(document) => fields_json(alloc, document),
        None => Ok(Value::Null),
    }
}

/// An entry in JSON.
pub fn entry_value(alloc: Global, entry: &Entry) -> Result<Value, NoMemory>
    ensures { IfOk result (λ value. view value ≡ entry_data entry.now) }
{
    let mut members = Map::new(alloc);
    let fields = fields_value(alloc, &entry.body)?;
    parts::put(alloc, &mut members, "fields", fields)?;
    let id = parts::text(alloc, entry.id.text())?;
    parts::put(alloc, &mut members, "id", id)?;
    let stamp = parts::text(alloc, entry.stamp.print(alloc)?.as_str())?;
    parts::put(alloc, &mut members, "stamp", stamp)?;
    Ok(Value::Object(members))
}

/// Entries in JSON, by key and id.
pub fn entries_value(alloc: Global, entries: &EntryMap) -> Result<Value, NoMemory>
    ensures { IfOk result (λ value. view value ≡ array (items_of (map entry_data (by_key entries.now)))) }
{
    let places = by_key(alloc, entries)?;
    let mut list = Vec::new(alloc);
    for (_place, entry) in &places {
        list.push(entry_value(alloc, entry.entry())?)?;
    }
    Ok(Value::Array(list))
}

/// A document, if it fits the schema.
fn if_fits(schema: &Schema, document: Document) -> Option<Option<Document>>
    ensures value { result ≡ if_fits schema.now document }
    ensures fits { IfSome result (FitsIfThere schema.now document.id) }
{
    if document_fits(schema, &document) {
        Some(Some(document))
    } else {
        None
    }
}

/// The document of an id that an object says, or a remove.
fn body_in(
    alloc: Global,
    schema: &Schema,
    id: &DocId,
    value: &Value,
) -> Result<Option<Option<Document>>, NoMemory>
    ensures value { IfOk result (λ body. body ≡ body_in schema.now id.now (view value.now)) }
    ensures fits { IfOk result (λ body. IfSome body (FitsIfThere schema.now id.now)) }
{
    if value.is_null() {
        return Ok(Some(None));
    }
    if !value.is_object() {
        return Ok(None);
    }
    match document_from_json(alloc, id.copy(alloc)?, value, schema) {
        Ok(document) => Ok(if_fits(schema, document)),
        Err(DocumentFault::NoMemory) => Err(NoMemory),
        Err(_) => Ok(None),
    }
}

/// The same, of the object under its key.
fn body_under(
    alloc: Global,
    schema: &Schema,
    id: &DocId,
    value: &Value,
) -> Result<Option<Option<Document>>, NoMemory>
    ensures value { IfOk result (λ body. body ≡ body_under schema.now (view value.now) (Some id.now)) }
    ensures fits { IfOk result (λ body. IfSome body (FitsIfThere schema.now id.now)) }
{
    match value.get("fields") {
        Some(fields) => body_in(alloc, schema, id, fields),
        None => Ok(None),
    }
}

/// The id under its key.
fn id_under(alloc: Global, value: &Value) -> Result<Option<DocId>, NoMemory>
    ensures value { IfOk result (λ id. id ≡ option_and_then id_in (text_at (codes "id") (view value.now))) }
    ensures valid { IfOk result (λ id. IfSome id IsId) }
{
    match parts::text_at(value, "id") {
        Some(text) => parts::id_in(alloc, text),
        None => Ok(None),
    }
}

/// The stamp under its key.
fn stamp_under(value: &Value) -> Option<Stamp>
    ensures value { result ≡ option_and_then stamp_in (text_at (codes "stamp") (view value.now)) }
    ensures valid { IfSome result IsStamp }
{
    match parts::text_at(value, "stamp") {
        Some(text) => parts::stamp_in(text),
        None => None,
    }
}

/// The entry that a value says.
#[tactic(auto, unfolding(crate::specs::Entries::entry_in))]
pub fn entry_in(alloc: Global, schema: &Schema, value: &Value) -> Result<Option<Entry>, NoMemory>
    ensures value { IfOk result (λ entry. entry ≡ entry_in schema.now (view value.now)) }
    ensures fits { IfOk result (λ entry. IfSome entry (FitsEntry schema.now)) }
{
    let Some(id) = id_under(alloc, value)? else {
        return Ok(None);
    };
    let Some(body) = body_under(alloc, schema, &id, value)? else {
        return Ok(None);
    };
    match stamp_under(value) {
        Some(stamp) => Ok(Some(Entry { stamp, id, body })),
        None => Ok(None),
    }
}

/// Whether an entry joined a map: where its key lies in the bucket and no newer one of its document is there.
fn join(map: &mut EntryMap, bucket: Bucket, entry: Entry) -> Result<bool, NoMemory>
    ensures joined { IfOk result (λ is. is ≡ true → joined bucket map.old (Some entry) ≡ Some map.new) }
    ensures not { IfOk result (λ is. is ≡ false → joined bucket map.old (Some entry) ≡ None) }
    ensures fits { (types : Types) → FitsEntry types entry → FitEntries types bucket map.old
        → IfOk result (λ is. is ≡ true → FitEntries types bucket map.new) }
{
    if !bucket.contains(key_of(&entry.id)) {
        return Ok(false);
    }
    map.put(entry)
}

/// The map of the entries that the items of a list say.
pub fn gathered(
    alloc: Global,
    schema: &Schema,
    bucket: Bucket,
    items: &[Value],
) -> Result<Option<EntryMap>, NoMemory>
    ensures value { IfOk result (λ m. m ≡ gathered schema.now bucket fin.empty (items_view items.now)) }
    ensures fits { IfOk result (λ m. IfSome m (FitEntries schema.now bucket)) }
{
    let mut map = EntryMap::new(alloc);
    for item in items {
        let Some(entry) = entry_in(alloc, schema, item)? else {
            return Ok(None);
        };
        if !join(&mut map, bucket, entry)? {
            return Ok(None);
        }
    }
    Ok(Some(map))
}
