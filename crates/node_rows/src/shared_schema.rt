ghost use Rattle.std.specs.Prelude.{◌≡◌, IfOk};

use doc_types::Schema;
use std::alloc::Global;
use std::marker::Model;
use std::sync::Arc;
use value_lists::{NoMemory, TryCopy};

/// A schema that copies share, seen by contracts as the schema.
#[derive(Drop)]
pub struct SharedSchema {
    schema: Arc<Schema>,
}

impl Model for SharedSchema {
    ghost use Rattle.std.specs.Arc.{arc_value};
    ghost use Rattle.doc_types.specs.SchemaCodes.{Types, types_code};

    ghost Value = { Types };

    ghost coded = { types_code };

    ghost view = { λ s. arc_value s.schema };
}

impl SharedSchema {
    /// The schema, to be shared.
    pub fn new(alloc: Global, schema: Schema) -> Result<SharedSchema, NoMemory>
        ensures { IfOk result (λ shared. shared ≡ schema) }
    {
        match Arc::new(alloc, schema) {
            Ok(schema) => Ok(SharedSchema { schema }),
            Err(_) => Err(NoMemory),
        }
    }

    /// The schema.
    pub fn schema(&self) -> &Schema
        ensures { result.now ≡ self.now }
    {
        &self.schema
    }
}

impl TryCopy for SharedSchema {
    fn copy(&self, _alloc: Global) -> Result<SharedSchema, NoMemory> {
        Ok(SharedSchema {
            schema: Arc::try_clone(&self.schema)?,
        })
    }
}
