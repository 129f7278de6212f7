ghost use Rattle.std.specs.Prelude.{◌≡◌, is_some, None, Some, true};
ghost use Rattle.serde_json.specs.Events.{members_len};
ghost use Rattle.serde_json.specs.Find.{as_object};
ghost use Rattle.serde_json.specs.View.{view, members_view};
ghost use Rattle.std.specs.List.{list_all};
ghost use Rattle.doc_types.specs.Tokens as tokens;
ghost use Rattle.json_documents.specs.Schemas.{is_name, is_identifier, is_selection_word, is_output_word, is_query_word, name_fault, kind_named, kind_in, fields_fault, members_in, field_fault, has_many_fields, size_fault, members_fault};

use doc_types::FieldType;
use doc_types::cuts::is_name as is_name_byte;
use serde_json::{Map, Value};
use std::alloc::Global;
use thiserror::Error;
use value_lists::NoMemory;

/// Why a text is no schema; the first of these that holds, with the least place.
#[derive(Clone, Copy, Debug, PartialEq, Eq, Error)]
pub enum SchemaFault {
    /// The text is no JSON (RFC 8259).
    #[error("no JSON")]
    NotJson,
    /// It is no object.
    #[error("no object")]
    NotObject,
    /// A type's name is wrong, or its value is no object. Places count the names in rising byte order.
    #[error("wrong type at {type_at}")]
    BadName { type_at: u32 },
    /// A field's name or kind is wrong.
    #[error("wrong field at {type_at}, {field_at}")]
    BadField { type_at: u32, field_at: u32 },
    /// There are more than 16 types, or more than 32 fields of a type.
    #[error("too many types or fields")]
    TooMany,
    #[error("out of memory")]
    NoMemory,
}

/// Whether a text is a word of selections.
fn is_selection_word(text: &str) -> bool
    ensures { result ≡ is_selection_word text.now }
{
    text == "and"
        || text == "false"
        || text == "not"
        || text == "null"
        || text == "or"
        || text == "true"
}

/// Whether a text is a word of the outputs of a query.
fn is_output_word(text: &str) -> bool
    ensures { result ≡ is_output_word text.now }
{
    text == "count" || text == "max" || text == "min" || text == "output" || text == "sum"
}

/// Whether a text is a word of queries that no selection has.
fn is_query_word(text: &str) -> bool
    ensures { result ≡ is_query_word text.now }
{
    text == "all"
        || text == "contains"
        || text == "each"
        || text == "from"
        || text == "group"
        || text == "select"
        || text == "where"
        || is_output_word(text)
}

/// Whether a text may name a type or a field.
#[tactic(auto, unfolding(crate::specs::Schemas::is_name))]
fn is_name(text: &str) -> bool
    ensures { result ≡ is_name text.now }
{
    is_identifier(text.as_bytes()) && !is_selection_word(text) && !is_query_word(text)
}

/// A type's name that is wrong, or a type whose value is no object.
fn name_fault(members: &Map<String, Value>) -> Option<SchemaFault>
    ensures { result ≡ name_fault 0 (members_view members.now.entries) }
{
    let mut type_at: u32 = 0;
    for (name, value) in members {
        if !(is_name(name.as_str()) && value.is_object()) {
            return Some(SchemaFault::BadName { type_at });
        }
        type_at = type_at.saturating_add(1);
    }
    None
}

/// Whether bytes are an ASCII letter and then up to 63 ASCII letters, digits and `_`.
#[tactic(auto, unfolding(crate::specs::Schemas::is_identifier))]
fn is_identifier(bytes: &[u8]) -> bool
    ensures { result ≡ is_identifier bytes.now }
{
    match bytes {
        [] => false,
        [first, rest @ ..] => { first.is_ascii_alphabetic() && rest.len() < 64 && all_names(rest) }
    }
}

/// Whether each byte may stand in a name.
fn all_names(bytes: &[u8]) -> bool
    ensures { result ≡ list_all tokens.is_name bytes.now }
{
    bytes.iter().all(|byte| is_name_byte(*byte))
}

/// The kind that a text names.
fn kind_named(text: &str) -> Option<FieldType>
    ensures { result ≡ kind_named text.now }
{
    if text == "int" {
        Some(FieldType::Int)
    } else if text == "text" {
        Some(FieldType::Text)
    } else if text == "ints" {
        Some(FieldType::IntArray)
    } else if text == "texts" {
        Some(FieldType::TextArray)
    } else {
        None
    }
}

/// The kind that a value names.
pub fn kind_in(value: &Value) -> Option<FieldType>
    ensures { result ≡ kind_in (view value.now) }
{
    match value.as_str() {
        Some(text) => kind_named(text),
        None => None,
    }
}

/// The first field of a type whose name or kind is wrong.
fn fields_fault(type_at: u32, fields: &Map<String, Value>) -> Option<SchemaFault>
    ensures { result ≡ fields_fault type_at 0 (members_view fields.now.entries) }
{
    let mut field_at: u32 = 0;
    for (name, value) in fields {
        if !(is_name(name.as_str()) && kind_in(value).is_some()) {
            return Some(SchemaFault::BadField { type_at, field_at });
        }
        field_at = field_at.saturating_add(1);
    }
    None
}

/// The first wrong field of a type; none where it is no object.
fn type_fault(type_at: u32, value: &Value) -> Option<SchemaFault>
    ensures { result ≡ fields_fault type_at 0 (members_in (as_object (view value.now))) }
{
    match value.as_object() {
        Some(fields) => fields_fault(type_at, fields),
        None => None,
    }
}

/// The first wrong field of the first type that has one.
fn field_fault(members: &Map<String, Value>) -> Option<SchemaFault>
    ensures { result ≡ field_fault 0 (members_view members.now.entries) }
{
    let mut type_at: u32 = 0;
    for (_name, value) in members {
        if let Some(fault) = type_fault(type_at, value) {
            return Some(fault);
        }
        type_at = type_at.saturating_add(1);
    }
    None
}

/// How many members there are.
fn size_of(members: &Map<String, Value>) -> usize
    ensures { result ≡ members_len (members_view members.now.entries) }
{
    members.len()
}

/// How many members an object has; none where a value is no object.
fn count_in(value: &Value) -> usize
    ensures { result ≡ members_len (members_in (as_object (view value.now))) }
{
    match value.as_object() {
        Some(members) => size_of(members),
        None => 0,
    }
}

/// Whether a type has more than 32 fields.
fn has_many_fields(members: &Map<String, Value>) -> bool
    ensures { result ≡ has_many_fields (members_view members.now.entries) }
{
    for (_name, value) in members {
        if count_in(value) > 32 {
            return true;
        }
    }
    false
}

/// Whether there are more than 16 types, or more than 32 fields of a type.
fn size_fault(members: &Map<String, Value>) -> Option<SchemaFault>
    ensures { result ≡ size_fault (members_view members.now.entries) }
{
    if size_of(members) > 16 || has_many_fields(members) {
        Some(SchemaFault::TooMany)
    } else {
        None
    }
}

/// Why an object is no schema.
pub fn members_fault(members: &Map<String, Value>) -> Option<SchemaFault>
    ensures { result ≡ members_fault (members_view members.now.entries) }
{
    if let Some(fault) = name_fault(members) {
        return Some(fault);
    }
    if let Some(fault) = field_fault(members) {
        return Some(fault);
    }
    size_fault(members)
}
