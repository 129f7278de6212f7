ghost use Rattle.std.specs.Prelude.{◌≡◌, ◌<◌, ◌^◌, codes, IfOk, IfSome, OnOk, option_map};
ghost use Rattle.serde_json.specs.Data.{string, put};
ghost use Rattle.serde_json.specs.View.{view, members_view};
ghost use Rattle.bucket_ids.specs.Buckets.{IsBucket};
ghost use Rattle.document_ids.specs.Grammar.{IsId};
ghost use Rattle.stamps.specs.Printed.{IsStamp, stamp_in};
ghost use Rattle.message_texts.specs.Parts.{num, bucket_in, id_in, number_at, text_at, bucket_at};

use bucket_ids::Bucket;
use document_ids::laws::ids_are_spelled;
use document_ids::{DocId, IdFault};
use serde_json::{Map, Value};
use stamps::Stamp;
use stamps::laws::texts_are_stamps;
use std::alloc::Global;
use value_lists::NoMemory;

/// Gives an object a member.
pub fn put(
    alloc: Global,
    members: &mut Map<String, Value>,
    name: &str,
    value: Value,
) -> Result<(), NoMemory>
    ensures { OnOk result (members_view members.new.entries
        ≡ put name.now (view value) (members_view members.old.entries)) }
{
    drop(members.insert(String::from_str(alloc, name)?, value)?);
    Ok(())
}

/// A number in JSON.
pub fn number(number: u64) -> Value
    ensures { view result ≡ num number }
{
    Value::from(number)
}

/// A text in JSON.
pub fn text(alloc: Global, text: &str) -> Result<Value, NoMemory>
    ensures { IfOk result (λ value. view value ≡ string text.now) }
{
    Ok(Value::try_from_str(alloc, text)?)
}

/// The bucket of a text.
pub fn bucket_in(text: &str) -> Option<Bucket>
    ensures value { result ≡ bucket_in text.now }
    ensures valid { IfSome result IsBucket }
{
    match Bucket::parse(text) {
        Ok(bucket) => Some(bucket),
        Err(_) => None,
    }
}

/// The stamp of a text.
pub fn stamp_in(text: &str) -> Option<Stamp>
    ensures value { result ≡ stamp_in text.now }
    ensures valid { IfSome result IsStamp }
{
    texts_are_stamps();
    Stamp::parse(text)
}

/// The id of a text.
pub fn id_in(alloc: Global, text: &str) -> Result<Option<DocId>, NoMemory>
    ensures value { IfOk result (λ id. id ≡ id_in text.now) }
    ensures valid { IfOk result (λ id. IfSome id IsId) }
{
    ids_are_spelled();
    match DocId::parse(alloc, text) {
        Ok(id) => Ok(Some(id)),
        Err(IdFault::NoMemory) => Err(NoMemory),
        Err(_) => Ok(None),
    }
}

/// The number below a limit under a key.
pub fn number_at(value: &Value, name: &str, limit: u64) -> Option<u64>
    ensures value { result ≡ number_at limit name.now (view value.now) }
    ensures small { IfSome result (λ n. n < limit) }
{
    match value.get(name).and_then(Value::as_u64) {
        Some(number) if number < limit => Some(number),
        _ => None,
    }
}

/// The serial under its key.
pub fn serial_at(value: &Value) -> Option<u64>
    ensures value { result ≡ number_at (2 ^ 64) (codes "serial") (view value.now) }
    ensures small { IfSome result (λ n. n < 2 ^ 64) }
{
    value.get("serial").and_then(Value::as_u64)
}

/// The text under a key.
pub fn text_at<'a>(value: &'a Value, name: &str) -> Option<&'a str>
    ensures { option_map (λ text. text.now) result ≡ text_at name.now (view value.now) }
{
    value.get(name).and_then(Value::as_str)
}

/// The bucket under its key.
pub fn bucket_at(value: &Value) -> Option<Bucket>
    ensures value { result ≡ bucket_at (view value.now) }
    ensures valid { IfSome result IsBucket }
{
    match text_at(value, "bucket") {
        Some(text) => bucket_in(text),
        None => None,
    }
}
