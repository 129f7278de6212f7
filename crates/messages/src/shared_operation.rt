ghost use Rattle.std.specs.Prelude.{◌≡◌, IfOk};

use crate::operation::Operation;
use std::alloc::Global;
use std::marker::Model;
use std::sync::Arc;
use value_lists::{NoMemory, TryCopy};

/// An operation that copies share, seen by contracts as the operation.
#[derive(Drop)]
pub struct SharedOperation {
    operation: Arc<Operation>,
}

impl Model for SharedOperation {
    ghost use Rattle.std.specs.Arc.{arc_value};
    ghost use Rattle.messages.specs.contracts.operation.Operation as declared_operation;
    ghost use Rattle.messages.specs.declared.operation.Operation.{Operation};

    ghost Value = { Operation };

    ghost coded = { declared_operation.the_row.coded };

    ghost view = { λ o. arc_value o.operation };
}

impl SharedOperation {
    /// The operation, to be shared.
    pub fn new(alloc: Global, operation: Operation) -> Result<SharedOperation, NoMemory>
        ensures { IfOk result (λ shared. shared ≡ operation) }
    {
        match Arc::new(alloc, operation) {
            Ok(operation) => Ok(SharedOperation { operation }),
            Err(_) => Err(NoMemory),
        }
    }

    /// The operation.
    pub fn operation(&self) -> &Operation
        ensures { result.now ≡ self.now }
    {
        &self.operation
    }
}

impl TryCopy for SharedOperation {
    fn copy(&self, _alloc: Global) -> Result<SharedOperation, NoMemory> {
        Ok(SharedOperation {
            operation: Arc::try_clone(&self.operation)?,
        })
    }
}
