ghost use Rattle.std.specs.Prelude.{◌≡◌, ◌<◌, ℕ, List, Some, None, if◌then◌else◌, option_map, IfSome, OnOk, OnErr};
ghost use Rattle.std.specs.Option.{option_copied};
ghost use Rattle.std.specs.FinMap as fin;
ghost use Rattle.doc_types.specs.Values.{kind_of};
ghost use Rattle.attribute_columns.specs.Columns.{without_value, with_moved};
ghost use Rattle.field_indexes.specs.Fields.{entered, is_field};
ghost use Rattle.field_indexes.specs.Told.{fields_of};

use crate::field_index::FieldIndex;
use crate::field_maps::{enter_at, index_at, leave_at, move_at};
use doc_types::FieldValue;
use std::alloc::Global;
use std::collections::BTreeMap;
use value_lists::NoMemory;

/// All fields of all types of a node's documents, seen by contracts as `fields_of` them.
#[derive(Drop)]
pub struct FieldIndexes {
    pub types: BTreeMap<String, BTreeMap<String, FieldIndex>>,
}

impl FieldIndexes {
    /// No values.
    pub fn new(alloc: Global) -> FieldIndexes
        ensures { (n f : List ℕ) → fields_of result n f ≡ None }
    {
        FieldIndexes {
            types: BTreeMap::new(alloc),
        }
    }

    /// The field of a type and of a name, where some document had a value there.
    pub fn index(&self, name: &str, field: &str) -> Option<&FieldIndex>
        ensures { option_copied result ≡ fields_of self.now name.now field.now }
    {
        index_at(&self.types, name, field)
    }

    /// Gives a document a value that has none in this field of its type.
    pub fn enter(
        &mut self,
        alloc: Global,
        name: &str,
        field: &str,
        local: u32,
        value: &FieldValue,
    ) -> Result<(), NoMemory>
        requires kind { IfSome (fields_of self.old name.now field.now) (λ h. kind_of value.now ≡ h.kind) }
        requires free { IfSome (fields_of self.old name.now field.now) (λ h. fin.get h.values local ≡ None) }
        ensures ok { OnOk result ((n f : List ℕ) → fields_of self.new n f
            ≡ (if is_field name.now field.now n f
            then Some (entered local value.now (fields_of self.old name.now field.now))
            else fields_of self.old n f)) }
        ensures err { OnErr result ((n f : List ℕ) → fields_of self.new n f ≡ fields_of self.old n f) }
    {
        enter_at(alloc, &mut self.types, name, field, local, value)
    }

    /// Takes the value of a document away, if it has one.
    pub fn leave(&mut self, name: &str, field: &str, local: u32)
        ensures { (n f : List ℕ) → fields_of self.new n f
            ≡ (if is_field name.now field.now n f
            then option_map (without_value local) (fields_of self.old name.now field.now)
            else fields_of self.old n f) }
    {
        leave_at(&mut self.types, name, field, local);
    }

    /// Gives a document without a value that of a greater local id, which then has none.
    pub fn move_down(&mut self, name: &str, field: &str, from: u32, to: u32)
        requires below { to < from }
        requires free { IfSome (fields_of self.old name.now field.now) (λ h. fin.get h.values to ≡ None) }
        ensures { (n f : List ℕ) → fields_of self.new n f
            ≡ (if is_field name.now field.now n f
            then option_map (with_moved from to) (fields_of self.old name.now field.now)
            else fields_of self.old n f) }
    {
        move_at(&mut self.types, name, field, from, to);
    }
}
