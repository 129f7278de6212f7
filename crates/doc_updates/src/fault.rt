ghost use Rattle.std.specs.Prelude.{◌≡◌};
ghost use Rattle.doc_updates.specs.declared.fault.UpdateFault.TheVariants as update_fault;

use std::alloc::Global;
use thiserror::Error;
use value_lists::{NoMemory, TextValue, TryCopy};

/// Why an update leaves a document as it is: the fault of its first field that has one, and else the
/// size.
#[derive(Debug, Drop, Error)]
pub enum UpdateFault {
    /// The field's number is divided by 0.
    #[error("a zero divisor")]
    ZeroDivisor { field: TextValue },
    /// The field's number would be outside the signed 64-bit range.
    #[error("an overflow")]
    Overflow { field: TextValue },
    /// The field's list would have more than 256 items.
    #[error("too many items")]
    TooMany { field: TextValue },
    /// The document would have so many bytes, which is too many.
    #[error("{size} bytes are too many")]
    TooLarge { size: u64 },
    /// Want of memory.
    #[error("out of memory")]
    NoMemory,
}

impl From<NoMemory> for UpdateFault {
    ghost from_gives = { λ _ e. e ≡ update_fault.NoMemory };

    fn from(_error: NoMemory) -> UpdateFault {
        UpdateFault::NoMemory
    }
}

impl TryCopy for UpdateFault {
    fn copy(&self, alloc: Global) -> Result<UpdateFault, NoMemory> {
        match self {
            UpdateFault::ZeroDivisor { field } => Ok(UpdateFault::ZeroDivisor {
                field: field.copy(alloc)?,
            }),
            UpdateFault::Overflow { field } => Ok(UpdateFault::Overflow {
                field: field.copy(alloc)?,
            }),
            UpdateFault::TooMany { field } => Ok(UpdateFault::TooMany {
                field: field.copy(alloc)?,
            }),
            UpdateFault::TooLarge { size } => Ok(UpdateFault::TooLarge { size: *size }),
            UpdateFault::NoMemory => Ok(UpdateFault::NoMemory),
        }
    }
}

/// Why one value can't be changed.
#[derive(Clone, Copy, PartialEq, Eq)]
pub enum Reason {
    ZeroDivisor,
    Overflow,
    TooMany,
    NoMemory,
}

impl From<NoMemory> for Reason {
    ghost use Rattle.doc_updates.specs.declared.fault.Reason.TheVariants as reason;

    ghost from_gives = { λ _ e. e ≡ reason.NoMemory };

    fn from(_error: NoMemory) -> Reason {
        Reason::NoMemory
    }
}
