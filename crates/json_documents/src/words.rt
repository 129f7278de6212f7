ghost use Rattle.std.specs.Prelude.{◌≡◌, ◌≢◌, T, Some, None, IfOk, IfErr, option_map, option_and_then, true, false};
ghost use Rattle.std.specs.FinMap as fin;
ghost use Rattle.serde_json.specs.Find.{as_object};
ghost use Rattle.line_values.specs.Order.{are_rising};
ghost use Rattle.line_values.specs.View.{view, members_view};
ghost use Rattle.doc_types.specs.SchemaCodes.{name_cmp};
ghost use Rattle.json_documents.specs.DocumentFaults.{first_name, name_fault};
ghost use Rattle.documents.specs.Kinds.{kinds_of};
ghost use Rattle.json_documents.specs.Json.{said};
ghost use Rattle.documents.specs.declared.fault.DocumentFault.TheVariants as reason;
ghost use Rattle.doc_updates.specs.Updates.{pairs};
ghost use Rattle.json_documents.specs.Updates.{is_no_change, is_wrong};
ghost use Rattle.json_documents.specs.Words.{only, assign_by, number_change, numbers_change, texts_change, own_change, change_by, change_of, change_for, change_in};

use crate::members::unknown_in;
use crate::values::{numbers_in, texts_in, value_of};
use doc_types::{FieldType, Schema};
use doc_updates::Change;
use doc_updates::change::Named;
use documents::DocumentFault;
use documents::field::name_of;
use line_values::LineValue;
use std::alloc::Global;
use value_lists::NoMemory;

/// The one member of an object that has just one.
#[tactic(auto, using(crate::proofs::Only::only_none, crate::proofs::Only::only_one))]
fn only<'v, 'a>(members: &'v [(&'a str, LineValue<'a>)]) -> Option<(&'a str, &'v LineValue<'a>)>
    ensures { option_map (λ m. (m.0.now, view m.1.now)) result ≡ only (members_view members.now) }
{
    if members.len() != 1 {
        return None;
    }
    let member = &members[0];
    Some((member.0, &member.1))
}

/// What `assign` says of a field of a kind.
fn assign_by(
    alloc: Global,
    kind: FieldType,
    value: &LineValue<'_>,
) -> Result<Option<Change>, NoMemory>
    ensures { IfOk result (λ change. change ≡ assign_by kind (view value.now)) }
{
    if value.is_null() {
        return Ok(Some(Change::Clear));
    }
    match value_of(alloc, kind, value)? {
        Some(value) => Ok(Some(Change::Assign { value })),
        None => Ok(None),
    }
}

/// What a word says of a number.
fn number_change(word: &str, by: i64) -> Option<Change>
    ensures { result ≡ number_change word.now by }
{
    if word == "increment" {
        Some(Change::Increment { by })
    } else if word == "decrement" {
        Some(Change::Decrement { by })
    } else if word == "multiply" {
        Some(Change::Multiply { by })
    } else if word == "divide" {
        Some(Change::Divide { by })
    } else {
        None
    }
}

/// What a word says of a list of numbers.
fn numbers_change(
    alloc: Global,
    word: &str,
    value: &LineValue<'_>,
) -> Result<Option<Change>, NoMemory>
    ensures { IfOk result (λ change. change ≡ numbers_change word.now (view value.now)) }
{
    if word != "add" {
        return Ok(None);
    }
    match numbers_in(alloc, value)? {
        Some(items) => Ok(Some(Change::AddNumbers { items })),
        None => Ok(None),
    }
}

/// What a word says of a list of texts.
fn texts_change(
    alloc: Global,
    word: &str,
    value: &LineValue<'_>,
) -> Result<Option<Change>, NoMemory>
    ensures { IfOk result (λ change. change ≡ texts_change word.now (view value.now)) }
{
    if word != "add" {
        return Ok(None);
    }
    match texts_in(alloc, value)? {
        Some(items) => Ok(Some(Change::AddTexts { items })),
        None => Ok(None),
    }
}

/// What a word says of a field of a kind, if only fields of that kind have it.
fn own_change(
    alloc: Global,
    kind: FieldType,
    word: &str,
    value: &LineValue<'_>,
) -> Result<Option<Change>, NoMemory>
    ensures { IfOk result (λ change. change ≡ own_change kind word.now (view value.now)) }
{
    match kind {
        FieldType::Int => match value.as_i64() {
            Some(by) => Ok(number_change(word, by)),
            None => Ok(None),
        },
        FieldType::Text => Ok(None),
        FieldType::IntArray => numbers_change(alloc, word, value),
        FieldType::TextArray => texts_change(alloc, word, value),
    }
}

/// What a word says of a field of a kind.
fn change_by(
    alloc: Global,
    kind: FieldType,
    word: &str,
    value: &LineValue<'_>,
) -> Result<Option<Change>, NoMemory>
    ensures { IfOk result (λ change. change ≡ change_by kind word.now (view value.now)) }
{
    if word == "assign" {
        return assign_by(alloc, kind, value);
    }
    own_change(alloc, kind, word, value)
}

/// The one member of a value that is an object with just one.
fn only_in<'v, 'a>(value: &'v LineValue<'a>) -> Option<(&'a str, &'v LineValue<'a>)>
    ensures { option_map (λ m. (m.0.now, view m.1.now)) result
        ≡ option_and_then only (as_object (view value.now)) }
{
    match value.as_object() {
        Some(members) => only(members),
        None => None,
    }
}

/// What a value says of a field of a kind that may not be there.
#[tactic(auto, unfolding(crate::specs::Words::change_of))]
fn change_for(
    alloc: Global,
    kind: Option<FieldType>,
    value: &LineValue<'_>,
) -> Result<Option<Change>, NoMemory>
    ensures { IfOk result (λ change. change ≡ change_for kind (view value.now)) }
{
    let Some(kind) = kind else {
        return Ok(None);
    };
    match only_in(value) {
        Some((word, value)) => change_by(alloc, kind, word, value),
        None => Ok(None),
    }
}

/// What a member says of the field of its name, of a kind.
fn change_in(
    alloc: Global,
    name: &str,
    kind: Option<FieldType>,
    value: &LineValue<'_>,
) -> Result<Named, DocumentFault>
    ensures read { IfOk result (λ named. (is_no_change kind (view value.now) ≡ false)
        × (change_for kind (view value.now) ≡ Some named.change) × (named.name ≡ name.now)) }
    ensures refused { IfErr result (λ fault. (fault ≢ reason.NoMemory)
        → (is_no_change kind (view value.now) ≡ true) × (fault ≡ reason.WrongValue name.now)) }
{
    match change_for(alloc, kind, value)? {
        Some(change) => Ok(Named {
            name: name_of(alloc, name)?,
            change,
        }),
        None => Err(DocumentFault::WrongValue {
            name: name_of(alloc, name)?,
        }),
    }
}

/// The changes that an object says of a document of a type, up to its first wrong value.
fn changes_said<'a>(
    alloc: Global,
    members: &[(&'a str, LineValue<'a>)],
    type_name: &str,
    schema: &Schema,
) -> Result<Vec<Named>, DocumentFault>
    requires { are_rising (members_view members.now) ≡ true }
    ensures read { IfOk result (λ list.
        (first_name (is_wrong (kinds_of schema.now type_name.now)) (members_view members.now) ≡ None)
        × (pairs list.items ≡ said (change_in (kinds_of schema.now type_name.now))
        (members_view members.now))) }
    ensures refused { IfErr result (λ fault. (fault ≢ reason.NoMemory)
        → (option_map reason.WrongValue (first_name (is_wrong (kinds_of schema.now type_name.now))
        (members_view members.now)) ≡ Some fault)) }
    ensures sorted { IfOk result (λ list. T (fin.is_sorted name_cmp (pairs list.items))) }
{
    let mut list = Vec::with_capacity(alloc, members.len())?;
    for member in members {
        let name = member.0;
        let kind = schema.field(type_name, name);
        list.push(change_in(alloc, name, kind, &member.1)?)?;
    }
    Ok(list)
}

/// The changes that an object says of a document of a type.
pub fn changes_in<'a>(
    alloc: Global,
    members: &[(&'a str, LineValue<'a>)],
    type_name: &str,
    schema: &Schema,
) -> Result<Vec<Named>, DocumentFault>
    requires { are_rising (members_view members.now) ≡ true }
    ensures read { IfOk result (λ list.
        (name_fault (is_wrong (kinds_of schema.now type_name.now)) (kinds_of schema.now type_name.now)
        (members_view members.now) ≡ None)
        × (pairs list.items ≡ said (change_in (kinds_of schema.now type_name.now))
        (members_view members.now))) }
    ensures refused { IfErr result (λ fault. (fault ≢ reason.NoMemory)
        → (name_fault (is_wrong (kinds_of schema.now type_name.now)) (kinds_of schema.now type_name.now)
        (members_view members.now) ≡ Some fault)) }
    ensures sorted { IfOk result (λ list. T (fin.is_sorted name_cmp (pairs list.items))) }
{
    if let Some(name) = unknown_in(members, type_name, schema) {
        return Err(DocumentFault::UnknownField {
            name: name_of(alloc, name)?,
        });
    }
    changes_said(alloc, members, type_name, schema)
}
