ghost use Rattle.std.specs.Prelude.{◌≡◌, is_some, map, IfOk, Some, option_and_then, option_map};
ghost use Rattle.std.specs.FinMap as fin;
ghost use Rattle.doc_types.specs.SchemaCodes.{name_cmp};
ghost use Rattle.doc_types.specs.Known.{has_types, has_fields, some_fields};
ghost use Rattle.doc_types.specs.SchemaMaps.{field_pair, type_pair};

use crate::values::FieldType;
use std::alloc::Global;
use std::marker::Model;
use value_lists::{NoMemory, TryCopy};

/// The schema that a session has by itself.
pub const DEFAULT_SCHEMA: &str =
    "{\"music\":{\"artist\":\"text\",\"genres\":\"texts\",\"title\":\"text\",\"year\":\"int\"}}";

/// A field's name and kind.
#[derive(Drop)]
pub struct FieldOf {
    pub name: String,
    pub kind: FieldType,
}

/// A type's name and fields.
#[derive(Drop)]
pub struct TypeOf {
    pub name: String,
    pub fields: Vec<FieldOf>,
}

/// Which types there are, and which fields each has.
#[derive(Drop)]
pub struct Schema {
    types: Vec<TypeOf>,
}

impl Model for Schema {
    ghost use Rattle.std.specs.Prelude.{map};
    ghost use Rattle.std.specs.FinMap as fin;
    ghost use Rattle.doc_types.specs.SchemaCodes.{Types, types_code};
    ghost use Rattle.doc_types.specs.SchemaCodes.{name_cmp};
    ghost use Rattle.doc_types.specs.SchemaMaps.{type_pair};

    ghost Value = { Types };

    ghost coded = { types_code };

    ghost view = { λ s. fin.from_entries (map type_pair s.types.items) };
}

/// The type of a name.
fn type_named<'a>(types: &'a [TypeOf], name: &str) -> Option<&'a TypeOf>
    ensures { option_map (λ t. (type_pair t.now).1) result
        ≡ fin.find name_cmp name.now (map type_pair types.now) }
{
    types.iter().find(|t| t.name.as_str() == name)
}

/// The field of a name.
fn field_named<'a>(fields: &'a [FieldOf], name: &str) -> Option<&'a FieldOf>
    ensures { option_map (λ f. (field_pair f.now).1) result
        ≡ fin.find name_cmp name.now (map field_pair fields.now) }
{
    fields.iter().find(|f| f.name.as_str() == name)
}

impl Schema {
    /// The schema of these types; of a name that comes twice the first counts.
    pub fn of(types: Vec<TypeOf>) -> Schema
        ensures { result ≡ fin.from_entries (map type_pair types.items) }
    {
        Schema { types }
    }

    /// Whether there is a type.
    pub fn has_types(&self) -> bool
        ensures { result ≡ has_types self.now }
    {
        some_type(&self.types)
    }

    /// The type of this name.
    pub fn type_named(&self, name: &str) -> Option<&TypeOf>
        ensures { option_map (λ t. (type_pair t.now).1) result ≡ fin.get self.now name.now }
    {
        type_named(&self.types, name)
    }

    /// Whether there is a type of this name.
    pub fn has_type(&self, name: &str) -> bool
        ensures { result ≡ is_some (fin.get self.now name.now) }
    {
        type_named(&self.types, name).is_some()
    }

    /// Whether there is a type of this name with a field.
    pub fn has_fields(&self, type_name: &str) -> bool
        ensures { result ≡ has_fields self.now type_name.now }
    {
        match type_named(&self.types, type_name) {
            Some(found) => some_field(&found.fields),
            None => false,
        }
    }

    /// The kind of a field of a type.
    pub fn field(&self, type_name: &str, field: &str) -> Option<FieldType>
        ensures { result ≡ option_and_then (λ fields. fin.get fields field.now)
            (fin.get self.now type_name.now) }
    {
        match type_named(&self.types, type_name) {
            Some(found) => kind_of(&found.fields, field),
            None => None,
        }
    }
}

/// Copies of the fields of a type.
fn copy_fields(alloc: Global, fields: &[FieldOf]) -> Result<Vec<FieldOf>, NoMemory>
    ensures { IfOk result (λ copies. map field_pair copies.items ≡ map field_pair fields.now) }
{
    let mut copies = Vec::with_capacity(alloc, fields.len())?;
    for field in fields {
        copies.push(FieldOf {
            name: String::from_str(alloc, field.name.as_str())?,
            kind: field.kind,
        })?;
    }
    Ok(copies)
}

/// Copies of the types.
fn copy_types(alloc: Global, types: &[TypeOf]) -> Result<Vec<TypeOf>, NoMemory>
    ensures { IfOk result (λ copies. map type_pair copies.items ≡ map type_pair types.now) }
{
    let mut copies = Vec::with_capacity(alloc, types.len())?;
    for one in types {
        copies.push(TypeOf {
            name: String::from_str(alloc, one.name.as_str())?,
            fields: copy_fields(alloc, &one.fields)?,
        })?;
    }
    Ok(copies)
}

impl TryCopy for Schema {
    fn copy(&self, alloc: Global) -> Result<Schema, NoMemory> {
        Ok(Schema {
            types: copy_types(alloc, &self.types)?,
        })
    }
}

/// Whether there is a type.
fn some_type(types: &[TypeOf]) -> bool
    ensures { result ≡ has_types (fin.from_entries (map type_pair types.now)) }
{
    !types.is_empty()
}

/// Whether there is a field.
fn some_field(fields: &[FieldOf]) -> bool
    ensures { result ≡ some_fields (Some (fin.from_entries (map field_pair fields.now))) }
{
    !fields.is_empty()
}

/// The kind of the field of a name.
fn kind_of(fields: &[FieldOf], name: &str) -> Option<FieldType>
    ensures { result ≡ fin.find name_cmp name.now (map field_pair fields.now) }
{
    match field_named(fields, name) {
        Some(field) => Some(field.kind),
        None => None,
    }
}
