ghost use Rattle.std.specs.Prelude.{◌≡◌, ◌<◌, ℤ, [], None, length, IfNone, IfSome, OnOk, OnErr};
ghost use Rattle.std.specs.Option.{option_copied};
ghost use Rattle.std.specs.Int.Signed.{◌≤ℤ◌, ◌<ℤ◌};
ghost use Rattle.std.specs.FinMap as fin;
ghost use Rattle.doc_types.specs.Values.{kind_of};
ghost use Rattle.local_ids.specs.Rising.{IsRising};
ghost use Rattle.attribute_columns.specs.Columns.{numbers_at, locals_with, empty_column, with_value, without_value, with_moved};

use crate::dictionary::{add_all, move_all, next_in, remove_all};
use crate::numbers::{lacking, numbers_of};
use doc_types::{FieldType, FieldValue};
use local_ids::LocalMap;
use std::alloc::Global;
use std::collections::BTreeMap;
use std::marker::Model;
use value_lists::{NoMemory, TryCopy};

/// The values of one field, by local id.
#[derive(Drop)]
pub struct Column {
    kind: FieldType,
    values: LocalMap<FieldValue>,
    lists: BTreeMap<i64, Vec<u32>>,
}

impl Model for Column {
    ghost use Rattle.attribute_columns.specs.Columns.{Held, held_code};
    ghost use Rattle.attribute_columns.specs.Dictionary.{IsKept};

    ghost Value = { Held };

    ghost coded = { held_code };

    ghost view = { λ c. record { kind = c.kind; values = c.values } };

    ghost invariant = { λ c. IsKept c.values c.lists };
}

/// The numbers of the value that a document has.
fn numbers_at(values: &LocalMap<FieldValue>, local: u32) -> &[i64]
    ensures { result.now ≡ numbers_at values.now local }
{
    match values.get(local) {
        Some(value) => numbers_of(value),
        None => &[],
    }
}

impl Column {
    /// No values, of a field of this kind.
    pub fn new(alloc: Global, kind: FieldType) -> Column
        ensures { result ≡ empty_column kind }
    {
        Column {
            kind,
            values: LocalMap::new(alloc),
            lists: BTreeMap::new(alloc),
        }
    }

    /// The kind of the field.
    pub fn kind(&self) -> FieldType
        ensures { result ≡ self.now.kind }
    {
        self.kind
    }

    /// The value of a document.
    pub fn value(&self, local: u32) -> Option<&FieldValue>
        ensures { option_copied result ≡ fin.get self.now.values local }
    {
        self.values.get(local)
    }

    /// Gives a document a value, of which a copy is kept. Takes for each number of the value and of the one before a
    /// logarithm, and the move of the ids above it in that number's list.
    pub fn set(&mut self, alloc: Global, local: u32, value: &FieldValue) -> Result<(), NoMemory>
        requires { kind_of value.now ≡ self.old.kind }
        ensures ok { OnOk result (self.new ≡ with_value local value.now self.old) }
        ensures err { OnErr result (self.new ≡ self.old) }
    {
        let before = numbers_at(&self.values, local);
        let fresh = lacking(alloc, numbers_of(value), before)?;
        let gone = lacking(alloc, before, numbers_of(value))?;
        let copy = value.copy(alloc)?;
        add_all(alloc, &mut self.lists, &fresh, local)?;
        match self.values.set(local, copy) {
            Ok(()) => {
                remove_all(&mut self.lists, &gone, local);
                Ok(())
            }
            Err(fault) => {
                remove_all(&mut self.lists, &fresh, local);
                Err(fault)
            }
        }
    }

    /// Takes the value of a document away, if it has one.
    pub fn clear(&mut self, local: u32)
        ensures { self.new ≡ without_value local self.old }
    {
        remove_all(&mut self.lists, numbers_at(&self.values, local), local);
        self.values.clear(local);
    }

    /// Gives a document without a value that of a greater local id, which then has none. Takes what `clear` takes, and no
    /// memory.
    pub fn move_down(&mut self, from: u32, to: u32)
        requires below { to < from }
        requires free { fin.get self.old.values to ≡ None }
        ensures { self.new ≡ with_moved from to self.old }
    {
        move_all(&mut self.lists, numbers_at(&self.values, from), from, to);
        self.values.move_down(from, to);
    }

    /// Gives memory back that no value needs. No error comes today.
    pub fn compact(&mut self) -> Result<(), NoMemory>
        ensures { self.new ≡ self.old }
    {
        self.values.compact();
        Ok(())
    }

    /// The least number from one to another, both with them, that some document has as its value or as an item, and the
    /// rising local ids of those that have it. Takes the logarithm of the numbers, and no memory.
    pub fn next_value(&self, low: i64, high: i64) -> Option<(i64, &[u32])>
        ensures none { IfNone result ((q : ℤ) → low ≤ℤ q → q ≤ℤ high → locals_with q self.now.values ≡ []) }

        // The number lies between, and none before it is that of a document.
        ensures from { IfSome result (λ r. low ≤ℤ r.0) }
        ensures to { IfSome result (λ r. r.0 ≤ℤ high) }
        ensures least { IfSome result (λ r. (q : ℤ) → low ≤ℤ q → q <ℤ r.0 → locals_with q self.now.values ≡ []) }

        // Its documents, one at least.
        ensures ids { IfSome result (λ r. r.1.now ≡ locals_with r.0 self.now.values) }
        ensures some { IfSome result (λ r. 0 < length r.1.now) }
    {
        next_in(&self.lists, low, high)
    }
}
