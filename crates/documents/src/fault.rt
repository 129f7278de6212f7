ghost use Rattle.std.specs.Prelude.{◌≡◌};
ghost use Rattle.documents.specs.declared.fault.DocumentFault.TheVariants as document_fault;

use std::alloc::{AllocError, AllocFailed};
use thiserror::Error;
use value_lists::{NoMemory, TextValue};

/// Why an object says no document: the first of these that holds, and the least name.
#[derive(Debug, Drop, Error)]
pub enum DocumentFault {
    /// The schema has no such type.
    #[error("unknown type")]
    UnknownType,
    /// The type has no field of this name.
    #[error("unknown field")]
    UnknownField { name: TextValue },
    /// The field can't have this value.
    #[error("wrong value")]
    WrongValue { name: TextValue },
    /// The document has so many bytes, which is too many.
    #[error("{size} bytes are too many")]
    TooLarge { size: u64 },
    /// Want of memory.
    #[error("out of memory")]
    NoMemory,
}

impl From<NoMemory> for DocumentFault {
    ghost from_gives = { λ _ e. e ≡ document_fault.NoMemory };

    fn from(_error: NoMemory) -> DocumentFault {
        DocumentFault::NoMemory
    }
}

impl From<AllocError> for DocumentFault {
    ghost from_gives = { λ _ e. e ≡ document_fault.NoMemory };

    fn from(_error: AllocError) -> DocumentFault {
        DocumentFault::NoMemory
    }
}

impl<T: Drop> From<AllocFailed<T>> for DocumentFault {
    ghost from_gives = { λ _ e. e ≡ document_fault.NoMemory };

    fn from(_error: AllocFailed<T>) -> DocumentFault {
        DocumentFault::NoMemory
    }
}
