ghost use Rattle.std.specs.Prelude.{◌≡◌, IfOk};

use doc_types::FieldValue;
use std::alloc::Global;
use std::marker::Model;
use std::sync::Arc;
use value_lists::{NoMemory, TextValue, TryCopy};

/// A field's name and its value.
#[derive(Drop)]
pub struct Field {
    pub name: TextValue,
    pub value: FieldValue,
}

/// A field that copies share, seen by contracts as the field.
#[derive(Drop)]
pub struct SharedField {
    field: Arc<Field>,
}

impl Model for SharedField {
    ghost use Rattle.std.specs.Arc.{arc_value};
    ghost use Rattle.documents.specs.declared.field.Field.{Field};

    ghost Value = { Field };

    ghost view = { λ f. arc_value f.field };
}

impl SharedField {
    /// A field of its own.
    pub fn of(alloc: Global, name: &str, value: FieldValue) -> Result<SharedField, NoMemory>
        ensures { IfOk result (λ field. (field.name ≡ name.now) × (field.value ≡ value)) }
    {
        let name = name_of(alloc, name)?;
        Ok(SharedField {
            field: Arc::new(alloc, Field { name, value })?,
        })
    }

    /// Its name.
    pub fn name(&self) -> &str
        ensures { result.now ≡ self.now.name }
    {
        self.field.name.text()
    }

    /// Its value.
    pub fn value(&self) -> &FieldValue
        ensures { result.now ≡ self.now.value }
    {
        &self.field.value
    }
}

impl TryCopy for SharedField {
    fn copy(&self, _alloc: Global) -> Result<SharedField, NoMemory> {
        Ok(SharedField {
            field: Arc::try_clone(&self.field)?,
        })
    }
}

/// A name of its own, where there is memory.
pub fn name_of(alloc: Global, name: &str) -> Result<TextValue, NoMemory>
    ensures { IfOk result (λ text. text ≡ name.now) }
{
    Ok(TextValue::of(String::from_str(alloc, name)?))
}
