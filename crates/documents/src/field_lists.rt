ghost use Rattle.std.specs.Prelude.{◌≡◌, ◌≤◌, T, not, bytes_eq, length, OnOk, OnErr, option_map};
ghost use Rattle.std.specs.List.{filter};
ghost use Rattle.std.specs.FinMap as fin;
ghost use Rattle.doc_types.specs.SchemaCodes.{name_cmp};
ghost use Rattle.documents.specs.Fields.{pairs};
ghost use Rattle.documents.specs.Places.{place};

use crate::field::SharedField;
use std::cmp::Ordering;
use value_lists::NoMemory;

/// How many fields at the front have lesser names.
fn place_of(fields: &[SharedField], name: &str) -> usize
    ensures value { result ≡ place name.now (pairs fields.now) }
    ensures within { result ≤ length fields.now }
{
    let mut at = 0;
    while at < fields.len() {
        if name.cmp(fields[at].name()) != Ordering::Greater {
            return at;
        }
        at += 1;
    }
    at
}

/// The field of a name.
pub fn field_of<'a>(fields: &'a [SharedField], name: &str) -> Option<&'a SharedField>
    ensures { option_map (λ f. f.now.value) result ≡ fin.find name_cmp name.now (pairs fields.now) }
{
    fields.iter().find(|field| field.name() == name)
}

/// Puts a field in its place.
pub fn put_in(fields: &mut Vec<SharedField>, field: SharedField) -> Result<(), NoMemory>
    ensures ok { OnOk result (pairs fields.new.items
        ≡ fin.put name_cmp field.name field.value (pairs fields.old.items)) }
    ensures err { OnErr result (fields.new.items ≡ fields.old.items) }
    ensures sorted { T (fin.is_sorted name_cmp (pairs fields.old.items))
        → T (fin.is_sorted name_cmp (pairs fields.new.items)) }
{
    let at = place_of(fields, field.name());
    if at == fields.len() {
        fields.insert(at, field)?;
        return Ok(());
    }
    if fields[at].name() == field.name() {
        fields[at] = field;
        return Ok(());
    }
    fields.insert(at, field)?;
    Ok(())
}

/// Takes the field of a name out, if there is one.
pub fn clear_in(fields: &mut Vec<SharedField>, name: &str)
    ensures { fields.new.items ≡ filter (λ f. not (bytes_eq f.name name.now)) fields.old.items }
{
    fields.retain(|field| field.name() != name);
}
