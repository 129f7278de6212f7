ghost use Rattle.std.specs.Prelude.{◌≡◌, ◌≢◌, T, true, false, Some, None, IfOk, IfErr, option_map};
ghost use Rattle.std.specs.FinMap as fin;
ghost use Rattle.line_values.specs.Order.{are_rising};
ghost use Rattle.line_values.specs.View.{view, members_view};
ghost use Rattle.doc_types.specs.SchemaCodes.{name_cmp};
ghost use Rattle.documents.specs.Fields.{pairs};
ghost use Rattle.json_documents.specs.DocumentFaults.{first_name, is_unknown, is_no_value, is_wrong, name_fault};
ghost use Rattle.documents.specs.Kinds.{kinds_of};
ghost use Rattle.json_documents.specs.Json.{value_by, values_in};
ghost use Rattle.documents.specs.declared.fault.DocumentFault.TheVariants as reason;

use crate::values::value_by;
use doc_types::{FieldType, FieldValue, Schema};
use documents::field::name_of;
use documents::{DocumentFault, SharedField};
use line_values::LineValue;
use std::alloc::Global;

/// The least name that is no field of a type.
pub fn unknown_in<'a>(
    members: &[(&'a str, LineValue<'a>)],
    type_name: &str,
    schema: &Schema,
) -> Option<&'a str>
    ensures { option_map (λ name. name.now) result
        ≡ first_name (is_unknown (kinds_of schema.now type_name.now)) (members_view members.now) }
{
    for member in members {
        if schema.field(type_name, member.0).is_none() {
            return Some(member.0);
        }
    }
    None
}

/// What a member says of the field of its name, of a kind: nothing where it is null.
fn value_in(
    alloc: Global,
    name: &str,
    kind: Option<FieldType>,
    value: &LineValue<'_>,
) -> Result<Option<FieldValue>, DocumentFault>
    ensures read { IfOk result (λ found. (is_no_value kind (view value.now) ≡ false)
        × (found ≡ value_by kind (view value.now))) }
    ensures refused { IfErr result (λ fault. (fault ≢ reason.NoMemory)
        → (is_no_value kind (view value.now) ≡ true) × (fault ≡ reason.WrongValue name.now)) }
{
    if value.is_null() {
        return Ok(None);
    }
    match value_by(alloc, kind, value)? {
        Some(found) => Ok(Some(found)),
        None => Err(DocumentFault::WrongValue {
            name: name_of(alloc, name)?,
        }),
    }
}

/// The fields that an object says of a document of a type, up to its first wrong value.
fn values_in<'a>(
    alloc: Global,
    members: &[(&'a str, LineValue<'a>)],
    type_name: &str,
    schema: &Schema,
) -> Result<Vec<SharedField>, DocumentFault>
    requires { are_rising (members_view members.now) ≡ true }
    ensures read { IfOk result (λ list.
        (first_name (is_wrong (kinds_of schema.now type_name.now)) (members_view members.now) ≡ None)
        × (pairs list.items ≡ values_in (kinds_of schema.now type_name.now)
        (members_view members.now))) }
    ensures refused { IfErr result (λ fault. (fault ≢ reason.NoMemory)
        → (option_map reason.WrongValue (first_name (is_wrong (kinds_of schema.now type_name.now))
        (members_view members.now)) ≡ Some fault)) }
    ensures sorted { IfOk result (λ list. T (fin.is_sorted name_cmp (pairs list.items))) }
{
    let mut list = Vec::with_capacity(alloc, members.len())?;
    for member in members {
        let name = member.0;
        let kind = schema.field(type_name, name);
        let Some(found) = value_in(alloc, name, kind, &member.1)? else {
            continue;
        };
        list.push(SharedField::of(alloc, name, found)?)?;
    }
    Ok(list)
}

/// The fields that an object says of a document of a type.
pub fn fields_in<'a>(
    alloc: Global,
    members: &[(&'a str, LineValue<'a>)],
    type_name: &str,
    schema: &Schema,
) -> Result<Vec<SharedField>, DocumentFault>
    requires { are_rising (members_view members.now) ≡ true }
    ensures read { IfOk result (λ list.
        (name_fault (is_wrong (kinds_of schema.now type_name.now)) (kinds_of schema.now type_name.now)
        (members_view members.now) ≡ None)
        × (pairs list.items ≡ values_in (kinds_of schema.now type_name.now)
        (members_view members.now))) }
    ensures refused { IfErr result (λ fault. (fault ≢ reason.NoMemory)
        → (name_fault (is_wrong (kinds_of schema.now type_name.now)) (kinds_of schema.now type_name.now)
        (members_view members.now) ≡ Some fault)) }
    ensures sorted { IfOk result (λ list. T (fin.is_sorted name_cmp (pairs list.items))) }
{
    if let Some(name) = unknown_in(members, type_name, schema) {
        return Err(DocumentFault::UnknownField {
            name: name_of(alloc, name)?,
        });
    }
    values_in(alloc, members, type_name, schema)
}
