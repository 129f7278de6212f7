ghost use Rattle.std.specs.Prelude.{◌≡◌, ◌<◌, ◌^◌, codes, Some, None, IfOk, IfSome, OnOk, option_map, option_and_then};
ghost use Rattle.std.specs.FinMap as fin;
ghost use Rattle.bucket_ids.specs.Buckets.{IsBucket};
ghost use Rattle.serde_json.specs.Find.{get, as_array};
ghost use Rattle.serde_json.specs.View.{view, members_view};
ghost use Rattle.document_ids.specs.Grammar.{IsId};
ghost use Rattle.doc_types.specs.SchemaCodes.{Types};
ghost use Rattle.messages.specs.declared.body.Body.TheVariants as asked;
ghost use Rattle.message_texts.specs.Bodies.{id_data, named, named_on, body_members, only_in, bare, on_bucket, body_by, body_in};
ghost use Rattle.message_texts.specs.Entries.{entry_in, gathered};
ghost use Rattle.message_texts.specs.Fitting.{FitsBody};
ghost use Rattle.message_texts.specs.Parts.{number_at};

use crate::entries::{entries_value, entry_in, entry_value, gathered};
use crate::parts;
use bucket_ids::Bucket;
use doc_types::Schema;
use document_ids::DocId;
use documents::SharedEntry;
use messages::Body;
use serde_json::{Map, Value};
use std::alloc::Global;
use value_lists::NoMemory;

/// The members of a body that has no field.
fn named(alloc: Global, name: &str) -> Result<Map<String, Value>, NoMemory>
    ensures { IfOk result (λ members. members_view members.entries ≡ named name.now) }
{
    let mut members = Map::new(alloc);
    parts::put(alloc, &mut members, "body", parts::text(alloc, name)?)?;
    Ok(members)
}

/// The members of a body that has a bucket alone.
fn named_on(alloc: Global, name: &str, bucket: Bucket) -> Result<Map<String, Value>, NoMemory>
    ensures { IfOk result (λ members. members_view members.entries ≡ named_on name.now bucket) }
{
    let mut members = named(alloc, name)?;
    let text = parts::text(alloc, bucket.print(alloc)?.as_str())?;
    parts::put(alloc, &mut members, "bucket", text)?;
    Ok(members)
}

/// An id, or null for none.
fn id_value(alloc: Global, id: &Option<DocId>) -> Result<Value, NoMemory>
    ensures { IfOk result (λ value. view value ≡ id_data id.now) }
{
    match id {
        Some(id) => parts::text(alloc, id.text()),
        None => Ok(Value::Null),
    }
}

/// The members of a body.
pub fn body_members(alloc: Global, body: &Body) -> Result<Map<String, Value>, NoMemory>
    ensures { IfOk result (λ members. members_view members.entries ≡ body_members body.now) }
{
    match body {
        Body::Ask => named(alloc, "ask"),
        Body::Read { bucket, only } => {
            let mut members = named_on(alloc, "read", *bucket)?;
            parts::put(alloc, &mut members, "only", id_value(alloc, only)?)?;
            Ok(members)
        }
        Body::Store { entry } => {
            let mut members = named(alloc, "store")?;
            let value = entry_value(alloc, entry.entry())?;
            parts::put(alloc, &mut members, "entry", value)?;
            Ok(members)
        }
        Body::Apply { bucket, entries } => {
            let mut members = named_on(alloc, "apply", *bucket)?;
            parts::put(
                alloc,
                &mut members,
                "entries",
                entries_value(alloc, entries)?,
            )?;
            Ok(members)
        }
        Body::Delete { bucket, serial } => {
            let mut members = named_on(alloc, "delete", *bucket)?;
            parts::put(alloc, &mut members, "serial", parts::number(*serial))?;
            Ok(members)
        }
        Body::Split { bucket } => named_on(alloc, "split", *bucket),
        Body::Join { bucket } => named_on(alloc, "join", *bucket),
        Body::Ready { bucket } => named_on(alloc, "ready", *bucket),
        Body::Activate { bucket } => named_on(alloc, "activate", *bucket),
    }
}

/// An id, or null for none.
fn only_in(alloc: Global, value: &Value) -> Result<Option<Option<DocId>>, NoMemory>
    ensures value { IfOk result (λ only. only ≡ only_in (view value.now)) }
    ensures valid { IfOk result (λ only. IfSome only (λ id. IfSome id IsId)) }
{
    if value.is_null() {
        return Ok(Some(None));
    }
    match value.as_str() {
        Some(text) => match parts::id_in(alloc, text)? {
            Some(id) => Ok(Some(Some(id))),
            None => Ok(None),
        },
        None => Ok(None),
    }
}

/// The body of a read.
fn read_in(alloc: Global, value: &Value, bucket: Bucket) -> Result<Option<Body>, NoMemory>
    ensures value { IfOk result (λ body. body
        ≡ option_map (asked.Read bucket) (option_and_then only_in (get (codes "only") (view value.now)))) }
    ensures fits { (types : Types) → IsBucket bucket → IfOk result (λ body. IfSome body (FitsBody types)) }
{
    let Some(found) = value.get("only") else {
        return Ok(None);
    };
    match only_in(alloc, found)? {
        Some(only) => Ok(Some(Body::Read { bucket, only })),
        None => Ok(None),
    }
}

/// The body of an apply.
fn apply_in(
    alloc: Global,
    schema: &Schema,
    value: &Value,
    bucket: Bucket,
) -> Result<Option<Body>, NoMemory>
    ensures value { IfOk result (λ body. body ≡ option_map (asked.Apply bucket)
        (option_and_then (gathered schema.now bucket fin.empty)
        (option_and_then as_array (get (codes "entries") (view value.now))))) }
    ensures fits { IsBucket bucket → IfOk result (λ body. IfSome body (FitsBody schema.now)) }
{
    let Some(found) = value.get("entries") else {
        return Ok(None);
    };
    let Some(items) = found.as_array() else {
        return Ok(None);
    };
    match gathered(alloc, schema, bucket, items)? {
        Some(entries) => Ok(Some(Body::Apply { bucket, entries })),
        None => Ok(None),
    }
}

/// The body of a delete.
fn delete_in(value: &Value, bucket: Bucket) -> Option<Body>
    ensures value { result ≡ option_map (asked.Delete bucket) (number_at (2 ^ 64) (codes "serial") (view value.now)) }
    ensures fits { (types : Types) → IsBucket bucket → IfSome result (FitsBody types) }
{
    match parts::serial_at(value) {
        Some(serial) => Some(Body::Delete { bucket, serial }),
        None => None,
    }
}

/// A body that has a bucket alone.
fn bare_in(name: &str, bucket: Bucket) -> Option<Body>
    ensures value { result ≡ bare name.now bucket }
    ensures fits { (types : Types) → IsBucket bucket → IfSome result (FitsBody types) }
{
    if name == "split" {
        Some(Body::Split { bucket })
    } else if name == "join" {
        Some(Body::Join { bucket })
    } else if name == "ready" {
        Some(Body::Ready { bucket })
    } else if name == "activate" {
        Some(Body::Activate { bucket })
    } else {
        None
    }
}

/// A body of this name that has a bucket.
fn on_bucket(
    alloc: Global,
    schema: &Schema,
    name: &str,
    value: &Value,
    bucket: Bucket,
) -> Result<Option<Body>, NoMemory>
    ensures value { IfOk result (λ body. body ≡ on_bucket schema.now name.now (view value.now) bucket) }
    ensures fits { IsBucket bucket → IfOk result (λ body. IfSome body (FitsBody schema.now)) }
{
    if name == "read" {
        return read_in(alloc, value, bucket);
    }
    if name == "apply" {
        return apply_in(alloc, schema, value, bucket);
    }
    if name == "delete" {
        return Ok(delete_in(value, bucket));
    }
    Ok(bare_in(name, bucket))
}

/// The body of a store.
fn store_in(alloc: Global, schema: &Schema, value: &Value) -> Result<Option<Body>, NoMemory>
    ensures value { IfOk result (λ body. body ≡ option_map asked.Store
        (option_and_then (entry_in schema.now) (get (codes "entry") (view value.now)))) }
    ensures fits { IfOk result (λ body. IfSome body (FitsBody schema.now)) }
{
    let Some(found) = value.get("entry") else {
        return Ok(None);
    };
    match entry_in(alloc, schema, found)? {
        Some(entry) => Ok(Some(Body::Store {
            entry: SharedEntry::new(alloc, entry)?,
        })),
        None => Ok(None),
    }
}

/// The body of a name.
fn body_by(
    alloc: Global,
    schema: &Schema,
    value: &Value,
    name: &str,
) -> Result<Option<Body>, NoMemory>
    ensures value { IfOk result (λ body. body ≡ body_by schema.now (view value.now) name.now) }
    ensures fits { IfOk result (λ body. IfSome body (FitsBody schema.now)) }
{
    if name == "ask" {
        return Ok(Some(Body::Ask));
    }
    if name == "store" {
        return store_in(alloc, schema, value);
    }
    match parts::bucket_at(value) {
        Some(bucket) => on_bucket(alloc, schema, name, value, bucket),
        None => Ok(None),
    }
}

/// The body that a value says.
#[tactic(auto, unfolding(crate::specs::Bodies::body_in))]
pub fn body_in(alloc: Global, schema: &Schema, value: &Value) -> Result<Option<Body>, NoMemory>
    ensures value { IfOk result (λ body. body ≡ body_in schema.now (view value.now)) }
    ensures fits { IfOk result (λ body. IfSome body (FitsBody schema.now)) }
{
    match parts::text_at(value, "body") {
        Some(name) => body_by(alloc, schema, value, name),
        None => Ok(None),
    }
}
