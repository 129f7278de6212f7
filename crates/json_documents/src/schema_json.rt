ghost use Rattle.std.specs.Prelude.{◌≡◌, ◌≢◌, map, IfOk, IfErr, Some, None};
ghost use Rattle.serde_json.specs.Find.{as_object};
ghost use Rattle.serde_json.specs.Read.{read};
ghost use Rattle.serde_json.specs.View.{view, members_view};
ghost use Rattle.doc_types.specs.SchemaMaps.{field_pair, type_pair};
ghost use Rattle.json_documents.specs.Schemas.{schema_fault, members_in, fields_of, types_of, schema_in};
ghost use Rattle.json_documents.specs.declared.schema_faults.SchemaFault.TheVariants as reason;

use crate::schema_faults::{SchemaFault, kind_in, members_fault};
use doc_types::Schema;
use doc_types::schema::{FieldOf, TypeOf};
use serde_json::{Map, Value};
use std::alloc::Global;
use value_lists::NoMemory;

/// The fields of a type.
fn fields_of(alloc: Global, fields: &Map<String, Value>) -> Result<Vec<FieldOf>, NoMemory>
    ensures { IfOk result (λ list. map field_pair list.items ≡ fields_of (members_view fields.now.entries)) }
{
    let mut list = Vec::new(alloc);
    for (name, value) in fields {
        if let Some(kind) = kind_in(value) {
            list.push(FieldOf {
                name: String::from_str(alloc, name.as_str())?,
                kind,
            })?;
        }
    }
    Ok(list)
}

/// The fields of a type; none where a value is no object.
fn fields_in(alloc: Global, value: &Value) -> Result<Vec<FieldOf>, NoMemory>
    ensures { IfOk result (λ list. map field_pair list.items
        ≡ fields_of (members_in (as_object (view value.now)))) }
{
    match value.as_object() {
        Some(fields) => fields_of(alloc, fields),
        None => Ok(Vec::new(alloc)),
    }
}

/// The types of an object.
fn types_of(alloc: Global, members: &Map<String, Value>) -> Result<Vec<TypeOf>, NoMemory>
    ensures { IfOk result (λ list. map type_pair list.items ≡ types_of (members_view members.now.entries)) }
{
    let mut list = Vec::new(alloc);
    for (name, value) in members {
        list.push(TypeOf {
            name: String::from_str(alloc, name.as_str())?,
            fields: fields_in(alloc, value)?,
        })?;
    }
    Ok(list)
}

/// The schema that a value says.
fn schema_from(alloc: Global, value: &Value) -> Result<Schema, SchemaFault>
    ensures read { IfOk result (λ schema. (schema_fault (Some (view value.now)) ≡ None)
        × (schema_in (Some (view value.now)) ≡ Some schema)) }
    ensures refused { IfErr result (λ fault. (fault ≢ reason.NoMemory)
        → (schema_fault (Some (view value.now)) ≡ Some fault)) }
{
    let Some(members) = value.as_object() else {
        return Err(SchemaFault::NotObject);
    };
    if let Some(fault) = members_fault(members) {
        return Err(fault);
    }
    match types_of(alloc, members) {
        Ok(types) => Ok(Schema::of(types)),
        Err(_) => Err(SchemaFault::NoMemory),
    }
}

/// The schema that a JSON text says (RFC 8259): an object from type names to objects from field
/// names to `"int"`, `"text"`, `"ints"` or `"texts"`. A name is an ASCII letter and then up to 63
/// ASCII letters, digits and `_`, and no word of selections or queries.
pub fn schema_from_json(alloc: Global, text: &str) -> Result<Schema, SchemaFault>
    ensures read { IfOk result (λ schema. (schema_fault (read text.now) ≡ None)
        × (schema_in (read text.now) ≡ Some schema)) }
    ensures refused { IfErr result (λ fault. (fault ≢ reason.NoMemory)
        → (schema_fault (read text.now) ≡ Some fault)) }
{
    let value = match Value::from_str(alloc, text) {
        Ok(value) => value,
        Err(error) => {
            if error.is_memory() {
                return Err(SchemaFault::NoMemory);
            }
            return Err(SchemaFault::NotJson);
        }
    };
    schema_from(alloc, &value)
}
