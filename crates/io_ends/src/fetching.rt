ghost use Rattle.std.specs.Prelude.{◌≡◌};
ghost use Rattle.io_ends.specs.declared.fetching.FetchError.TheVariants.{Fault, Memory};

use crate::ends::Failed;
use std::alloc::AllocError;
use thiserror::Error;

/// Why no bytes were read.
#[derive(Clone, Copy, Debug, PartialEq, Eq, Error)]
pub enum FetchError {
    #[error("the source failed")]
    Fault,
    #[error("out of memory")]
    Memory,
}

impl From<Failed> for FetchError {
    ghost from_gives = { λ _ e. e ≡ Fault };

    fn from(_failed: Failed) -> FetchError {
        FetchError::Fault
    }
}

impl From<AllocError> for FetchError {
    ghost from_gives = { λ _ e. e ≡ Memory };

    fn from(_error: AllocError) -> FetchError {
        FetchError::Memory
    }
}
