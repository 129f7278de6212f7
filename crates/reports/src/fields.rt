//! A document's fields, as a report begins with them.

ghost use Rattle.std.specs.Prelude.{◌≡◌, ◌∷◌, [], IfOk, OnOk, codes, map};
ghost use Rattle.std.specs.List.{flat_map};
ghost use Rattle.json.specs.Token.{begin_object, key, string};
ghost use Rattle.json.specs.Tree.{json_tokens};
ghost use Rattle.serde_json.specs.Written.{outline};
ghost use Rattle.documents.specs.Fields.{pairs};
ghost use Rattle.reports.specs.ReportText.{fields_of};
ghost use Rattle.reports.specs.Writing.{Puts, number_token, number_list_tokens, text_list_tokens, value_tokens, field_tokens};

use doc_types::FieldValue;
use documents::{Document, SharedField};
use json::Writer;
use std::alloc::Global;
use value_lists::{NoMemory, TextValue};

/// The room of the rest of most reports, in bytes.
const ROOM: u64 = 128;

/// Writes numbers one after the other.
fn put_numbers(out: &mut Writer, numbers: &[i64]) -> Result<(), NoMemory>
    ensures { OnOk result (Puts out.old out.new (map number_token numbers.now)) }
{
    for number in numbers {
        out.i64(*number)?;
    }
    Ok(())
}

/// Writes texts one after the other.
fn put_texts(out: &mut Writer, texts: &[TextValue]) -> Result<(), NoMemory>
    ensures { OnOk result (Puts out.old out.new (map string texts.now)) }
{
    for text in texts {
        out.string(text.text())?;
    }
    Ok(())
}

/// Writes a list of numbers.
fn put_number_list(out: &mut Writer, numbers: &[i64]) -> Result<(), NoMemory>
    ensures { OnOk result (Puts out.old out.new (number_list_tokens numbers.now)) }
{
    out.begin_array()?;
    put_numbers(out, numbers)?;
    out.end_array()?;
    Ok(())
}

/// Writes a list of texts.
fn put_text_list(out: &mut Writer, texts: &[TextValue]) -> Result<(), NoMemory>
    ensures { OnOk result (Puts out.old out.new (text_list_tokens texts.now)) }
{
    out.begin_array()?;
    put_texts(out, texts)?;
    out.end_array()?;
    Ok(())
}

/// Writes the value of a field.
pub fn put_value(out: &mut Writer, value: &FieldValue) -> Result<(), NoMemory>
    ensures { OnOk result (Puts out.old out.new (value_tokens value.now)) }
{
    match value {
        FieldValue::Int(number) => Ok(out.i64(*number)?),
        FieldValue::Text(text) => Ok(out.string(text.text())?),
        FieldValue::Ints(numbers) => put_number_list(out, numbers.items()),
        FieldValue::Texts(texts) => put_text_list(out, texts.items()),
    }
}

/// Writes a field.
fn put_field(out: &mut Writer, field: &SharedField) -> Result<(), NoMemory>
    ensures { OnOk result (Puts out.old out.new (field_tokens (field.now.name, field.now.value))) }
{
    out.key(field.name())?;
    put_value(out, field.value())
}

/// Writes fields one after the other.
fn put_all(out: &mut Writer, fields: &[SharedField]) -> Result<(), NoMemory>
    ensures { OnOk result (Puts out.old out.new (flat_map field_tokens (pairs fields.now))) }
{
    for field in fields {
        put_field(out, field)?;
    }
    Ok(())
}

/// Writes the fields of a document, as an object.
fn put_fields(out: &mut Writer, document: &Document) -> Result<(), NoMemory>
    ensures { OnOk result (Puts out.old out.new (json_tokens (outline (fields_of document.now)))) }
{
    out.begin_object()?;
    put_all(out, document.fields())?;
    out.end_object()?;
    Ok(())
}

/// An object that begins with the fields of a document.
pub fn begun_with(alloc: Global, document: &Document) -> Result<Writer, NoMemory>
    ensures before { IfOk result (λ out. out.before ≡ []) }
    ensures tokens { IfOk result (λ out. out.tokens
        ≡ begin_object ∷ key (codes "fields") ∷ json_tokens (outline (fields_of document.now))) }
{
    let room = document.size().saturating_add(ROOM) as usize;
    let mut out = Writer::new(Vec::with_capacity(alloc, room)?);
    out.begin_object()?;
    out.key("fields")?;
    put_fields(&mut out, document)?;
    Ok(out)
}
