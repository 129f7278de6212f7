//! The groups of a search, as its report tells them.

ghost use Rattle.std.specs.Prelude.{◌≡◌, ◌∷◌, ◌++◌, [], IfOk, OnOk, ℕ, codes, string_bytes};
ghost use Rattle.std.specs.List.{flat_map};
ghost use Rattle.json.specs.Token.{begin_array, end_array, key};
ghost use Rattle.json.specs.Tree.{json_tokens};
ghost use Rattle.serde_json.specs.Data.{array};
ghost use Rattle.serde_json.specs.View.{items_of};
ghost use Rattle.serde_json.specs.Written.{outline};
ghost use Rattle.doc_types.specs.declared.values.FieldValue.{FieldValue as Value};
ghost use Rattle.json_documents.specs.Json.{number_json};
ghost use Rattle.reports.specs.GroupText.{output_key, number_or_null, digits_or_null, output_json, group_members, groups_json};
ghost use Rattle.reports.specs.Writing.{Puts, said_json, said_members, said_tokens, group_tokens};

use crate::fields::put_value;
use doc_types::{FieldValue, OutputKind};
use json::Writer;
use query_groups::{Group, Output};
use std::alloc::Global;
use std::collections::BTreeMap;
use value_lists::NoMemory;

/// What stands under a key of a group.
#[derive(Clone, Copy)]
pub enum Said {
    /// The value of the group.
    Value,
    Null,
    Number(i128),
    /// The text of a number's digits.
    Digits(i128),
}

/// A word, the name of a field, and the bracket that closes.
fn key_of(alloc: Global, word: &str, field: &str) -> Result<String, NoMemory>
    ensures { IfOk result (λ key. string_bytes key ≡ word.now ++ (field.now ++ codes ")")) }
{
    let mut key = String::from_str(alloc, word)?;
    key.push_str(field)?;
    key.push_str(")")?;
    Ok(key)
}

/// The key of an output.
fn output_key(alloc: Global, kind: &OutputKind) -> Result<String, NoMemory>
    ensures { IfOk result (λ key. string_bytes key ≡ output_key kind.now) }
{
    match kind {
        OutputKind::Count => Ok(String::from_str(alloc, "count")?),
        OutputKind::Sum(field) => key_of(alloc, "sum(", field.text()),
        OutputKind::Min(field) => key_of(alloc, "min(", field.text()),
        OutputKind::Max(field) => key_of(alloc, "max(", field.text()),
    }
}

/// A number, or null.
fn number_said(value: Option<i128>) -> Said
    ensures { (v : Value) → said_json v result ≡ number_or_null value }
{
    match value {
        Some(number) => Said::Number(number),
        None => Said::Null,
    }
}

/// The digits of a number, or null.
fn digits_said(value: Option<i128>) -> Said
    ensures { (v : Value) → said_json v result ≡ digits_or_null value }
{
    match value {
        Some(number) => Said::Digits(number),
        None => Said::Null,
    }
}

/// What is said of an output.
fn output_said(output: &Output) -> Said
    ensures { (v : Value) → said_json v result ≡ output_json output.now.kind output.now.value }
{
    match &output.kind {
        OutputKind::Count | OutputKind::Min(_) | OutputKind::Max(_) => number_said(output.value),
        OutputKind::Sum(_) => digits_said(output.value),
    }
}

/// What is said of a group, by key.
#[tactic(auto, using(crate::proofs::GroupTokens::said_put))]
fn said_of(alloc: Global, group: &Group) -> Result<BTreeMap<String, Said>, NoMemory>
    ensures { IfOk result (λ said. said_members group.now.value said.entries ≡ group_members group.now) }
{
    let mut said = BTreeMap::new(alloc);
    said.insert(String::from_str(alloc, "value")?, Said::Value)?;
    for output in group.outputs.items() {
        said.insert(output_key(alloc, &output.kind)?, output_said(output))?;
    }
    Ok(said)
}

/// Writes a number.
fn put_number(out: &mut Writer, number: i128) -> Result<(), NoMemory>
    ensures { OnOk result (Puts out.old out.new (json_tokens (outline (number_json number)))) }
{
    let mut buffer = itoa::Buffer::new();
    out.number(buffer.format(number))?;
    Ok(())
}

/// Writes the digits of a number as a text.
fn put_digits(out: &mut Writer, number: i128) -> Result<(), NoMemory>
    ensures { OnOk result (Puts out.old out.new (json_tokens (outline (digits_or_null (Some number))))) }
{
    let mut buffer = itoa::Buffer::new();
    out.string(buffer.format(number))?;
    Ok(())
}

/// Writes what stands under a key of a group of this value.
fn put_said(out: &mut Writer, value: &FieldValue, said: Said) -> Result<(), NoMemory>
    ensures { OnOk result (Puts out.old out.new (json_tokens (outline (said_json value.now said)))) }
{
    match said {
        Said::Value => put_value(out, value),
        Said::Null => Ok(out.null()?),
        Said::Number(number) => put_number(out, number),
        Said::Digits(number) => put_digits(out, number),
    }
}

/// Writes all that is said of a group of this value.
fn put_members(
    out: &mut Writer,
    value: &FieldValue,
    members: &BTreeMap<String, Said>,
) -> Result<(), NoMemory>
    ensures { OnOk result (Puts out.old out.new (flat_map (said_tokens value.now) members.now.entries)) }
{
    for (key, said) in members {
        out.key(key.as_str())?;
        put_said(out, value, *said)?;
    }
    Ok(())
}

/// Writes a group.
fn put_group(out: &mut Writer, alloc: Global, group: &Group) -> Result<(), NoMemory>
    ensures { OnOk result (Puts out.old out.new (group_tokens group.now)) }
{
    let said = said_of(alloc, group)?;
    out.begin_object()?;
    put_members(out, &group.value, &said)?;
    out.end_object()?;
    Ok(())
}

/// Writes groups one after the other.
fn put_each(out: &mut Writer, alloc: Global, groups: &[Group]) -> Result<(), NoMemory>
    ensures { OnOk result (Puts out.old out.new (flat_map group_tokens groups.now)) }
{
    for group in groups {
        put_group(out, alloc, group)?;
    }
    Ok(())
}

/// Writes a member that is the list of the groups.
pub fn put_groups(out: &mut Writer, alloc: Global, groups: &[Group]) -> Result<(), NoMemory>
    ensures { OnOk result (Puts out.old out.new
        (key (codes "groups") ∷ json_tokens (outline (array (items_of (groups_json groups.now)))))) }
{
    out.key("groups")?;
    out.begin_array()?;
    put_each(out, alloc, groups)?;
    out.end_array()?;
    Ok(())
}
