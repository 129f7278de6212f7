ghost use Rattle.std.specs.Prelude.{◌≡◌};
ghost use Rattle.line_values.specs.declared.read_fault.ReadFault.TheVariants as read_fault;

use json::Invalid;
use std::alloc::{AllocError, AllocFailed};
use thiserror::Error;

/// Why a text gives no value.
#[derive(Clone, Copy, Debug, PartialEq, Eq, Error)]
pub enum ReadFault {
    /// It is no JSON value, one nests deeper than 127 arrays and objects, or a number is too large.
    #[error("no JSON value")]
    Text,
    #[error("out of memory")]
    NoMemory,
}

impl From<Invalid> for ReadFault {
    ghost from_gives = { λ _ e. e ≡ read_fault.Text };

    fn from(_error: Invalid) -> ReadFault {
        ReadFault::Text
    }
}

impl From<AllocError> for ReadFault {
    ghost from_gives = { λ _ e. e ≡ read_fault.NoMemory };

    fn from(_error: AllocError) -> ReadFault {
        ReadFault::NoMemory
    }
}

impl<T: Drop> From<AllocFailed<T>> for ReadFault {
    ghost from_gives = { λ _ e. e ≡ read_fault.NoMemory };

    fn from(_error: AllocFailed<T>) -> ReadFault {
        ReadFault::NoMemory
    }
}
