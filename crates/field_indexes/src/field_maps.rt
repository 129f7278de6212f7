ghost use Rattle.std.specs.Prelude.{◌≡◌, ◌<◌, ℕ, List, Some, None, bytes_eq, if◌then◌else◌, option_map, IfSome, OnOk, OnErr};
ghost use Rattle.std.specs.BTreeMap.{get_by_text};
ghost use Rattle.std.specs.FinMap as fin;
ghost use Rattle.doc_types.specs.Values.{kind_of};
ghost use Rattle.attribute_columns.specs.Columns.{without_value, with_moved};
ghost use Rattle.field_indexes.specs.Fields.{entered, is_field, field_at};

use crate::field_index::FieldIndex;
use doc_types::FieldValue;
use std::alloc::Global;
use std::collections::BTreeMap;
use value_lists::NoMemory;

/// A value more in a field of a type.
fn enter_in(
    alloc: Global,
    fields: &mut BTreeMap<String, FieldIndex>,
    field: &str,
    local: u32,
    value: &FieldValue,
) -> Result<(), NoMemory>
    requires kind { IfSome (get_by_text fields.old field.now) (λ h. kind_of value.now ≡ h.kind) }
    requires free { IfSome (get_by_text fields.old field.now) (λ h. fin.get h.values local ≡ None) }
    ensures ok { OnOk result ((f : List ℕ) → get_by_text fields.new f
        ≡ (if bytes_eq field.now f then Some (entered local value.now (get_by_text fields.old field.now))
        else get_by_text fields.old f)) }
    ensures err { OnErr result ((f : List ℕ) → get_by_text fields.new f ≡ get_by_text fields.old f) }
{
    if let Some(index) = fields.get_mut(field) {
        return index.enter(alloc, local, value);
    }
    let mut index = FieldIndex::new(alloc, value.kind());
    index.enter(alloc, local, value)?;
    fields.insert(String::from_str(alloc, field)?, index)?;
    Ok(())
}

/// A value less in a field of a type.
fn leave_in(fields: &mut BTreeMap<String, FieldIndex>, field: &str, local: u32)
    ensures { (f : List ℕ) → get_by_text fields.new f
        ≡ (if bytes_eq field.now f then option_map (without_value local) (get_by_text fields.old field.now)
        else get_by_text fields.old f) }
{
    if let Some(index) = fields.get_mut(field) {
        index.leave(local);
    }
}

/// A value becomes another document's, in a field of a type.
fn move_in(fields: &mut BTreeMap<String, FieldIndex>, field: &str, from: u32, to: u32)
    requires below { to < from }
    requires free { IfSome (get_by_text fields.old field.now) (λ h. fin.get h.values to ≡ None) }
    ensures { (f : List ℕ) → get_by_text fields.new f
        ≡ (if bytes_eq field.now f then option_map (with_moved from to) (get_by_text fields.old field.now)
        else get_by_text fields.old f) }
{
    if let Some(index) = fields.get_mut(field) {
        index.move_down(from, to);
    }
}

/// A value more.
pub fn enter_at(
    alloc: Global,
    types: &mut BTreeMap<String, BTreeMap<String, FieldIndex>>,
    name: &str,
    field: &str,
    local: u32,
    value: &FieldValue,
) -> Result<(), NoMemory>
    requires kind { IfSome (field_at types.old name.now field.now) (λ h. kind_of value.now ≡ h.kind) }
    requires free { IfSome (field_at types.old name.now field.now) (λ h. fin.get h.values local ≡ None) }
    ensures ok { OnOk result ((n f : List ℕ) → field_at types.new n f
        ≡ (if is_field name.now field.now n f
        then Some (entered local value.now (field_at types.old name.now field.now))
        else field_at types.old n f)) }
    ensures err { OnErr result ((n f : List ℕ) → field_at types.new n f ≡ field_at types.old n f) }
{
    if let Some(fields) = types.get_mut(name) {
        return enter_in(alloc, fields, field, local, value);
    }
    let mut fields = BTreeMap::new(alloc);
    enter_in(alloc, &mut fields, field, local, value)?;
    types.insert(String::from_str(alloc, name)?, fields)?;
    Ok(())
}

/// A value less.
pub fn leave_at(
    types: &mut BTreeMap<String, BTreeMap<String, FieldIndex>>,
    name: &str,
    field: &str,
    local: u32,
)
    ensures { (n f : List ℕ) → field_at types.new n f
        ≡ (if is_field name.now field.now n f
        then option_map (without_value local) (field_at types.old name.now field.now)
        else field_at types.old n f) }
{
    if let Some(fields) = types.get_mut(name) {
        leave_in(fields, field, local);
    }
}

/// A value becomes another document's.
pub fn move_at(
    types: &mut BTreeMap<String, BTreeMap<String, FieldIndex>>,
    name: &str,
    field: &str,
    from: u32,
    to: u32,
)
    requires below { to < from }
    requires free { IfSome (field_at types.old name.now field.now) (λ h. fin.get h.values to ≡ None) }
    ensures { (n f : List ℕ) → field_at types.new n f
        ≡ (if is_field name.now field.now n f
        then option_map (with_moved from to) (field_at types.old name.now field.now)
        else field_at types.old n f) }
{
    if let Some(fields) = types.get_mut(name) {
        move_in(fields, field, from, to);
    }
}

/// The field of two names, where it has one.
pub fn index_at<'a>(
    types: &'a BTreeMap<String, BTreeMap<String, FieldIndex>>,
    name: &str,
    field: &str,
) -> Option<&'a FieldIndex>
    ensures { option_map (λ index. index.now) result ≡ field_at types.now name.now field.now }
{
    match types.get(name) {
        Some(fields) => fields.get(field),
        None => None,
    }
}
