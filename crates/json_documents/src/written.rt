ghost use Rattle.std.specs.Prelude.{◌≡◌, T, IfOk, map};
ghost use Rattle.std.specs.FinMap as fin;
ghost use Rattle.serde_json.specs.Data.{string};
ghost use Rattle.serde_json.specs.View.{view, members_view};
ghost use Rattle.doc_types.specs.SchemaCodes.{name_cmp};
ghost use Rattle.documents.specs.Fields.{pairs};
ghost use Rattle.json_documents.specs.Json.{number_json, value_json, members_json};

use doc_types::FieldValue;
use documents::SharedField;
use serde_json::{Map, Value};
use std::alloc::Global;
use value_lists::{NoMemory, TextValue};

/// Numbers in JSON.
fn numbers_json(alloc: Global, numbers: &[i64]) -> Result<Vec<Value>, NoMemory>
    ensures { IfOk result (λ list. map view list.items ≡ map number_json numbers.now) }
{
    let mut list = Vec::with_capacity(alloc, numbers.len())?;
    for number in numbers {
        list.push(Value::from(*number))?;
    }
    Ok(list)
}

/// Texts in JSON.
fn texts_json(alloc: Global, texts: &[TextValue]) -> Result<Vec<Value>, NoMemory>
    ensures { IfOk result (λ list. map view list.items ≡ map string texts.now) }
{
    let mut list = Vec::with_capacity(alloc, texts.len())?;
    for text in texts {
        list.push(Value::try_from_str(alloc, text.text())?)?;
    }
    Ok(list)
}

/// A value in JSON.
fn value_json(alloc: Global, value: &FieldValue) -> Result<Value, NoMemory>
    ensures { IfOk result (λ json. view json ≡ value_json value.now) }
{
    match value {
        FieldValue::Int(number) => Ok(Value::from(*number)),
        FieldValue::Text(text) => Ok(Value::try_from_str(alloc, text.text())?),
        FieldValue::Ints(numbers) => Ok(Value::Array(numbers_json(alloc, numbers.items())?)),
        FieldValue::Texts(texts) => Ok(Value::Array(texts_json(alloc, texts.items())?)),
    }
}

/// Fields in JSON, in the order of their names.
pub fn members_json(alloc: Global, fields: &[SharedField]) -> Result<Map<String, Value>, NoMemory>
    requires { T (fin.is_sorted name_cmp (pairs fields.now)) }
    ensures { IfOk result (λ members. members_view members.entries ≡ members_json (pairs fields.now)) }
{
    let mut members = Map::new(alloc);
    for field in fields {
        let name = String::from_str(alloc, field.name())?;
        let value = value_json(alloc, field.value())?;
        drop(members.insert(name, value)?);
    }
    Ok(members)
}
