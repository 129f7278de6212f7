ghost use Rattle.std.specs.Prelude.{◌≡◌};
ghost use Rattle.node_journal.specs.declared.faults.JournalFault.TheVariants.{NoMemory};

use std::alloc::{AllocError, AllocFailed};
use thiserror::Error;

/// Why a message isn't taken.
#[derive(Clone, Copy, Debug, PartialEq, Eq, Error)]
pub enum JournalFault {
    /// An earlier take of this node answered `DiskFault`.
    #[error("the disk failed before")]
    Shut,
    /// The file would pass its limit.
    #[error("the file is full")]
    Full,
    /// The disk failed.
    #[error("the disk failed")]
    DiskFault,
    #[error("out of memory")]
    NoMemory,
}

impl From<value_lists::NoMemory> for JournalFault {
    ghost from_gives = { λ _ e. e ≡ NoMemory };

    fn from(_error: value_lists::NoMemory) -> JournalFault {
        JournalFault::NoMemory
    }
}

impl From<AllocError> for JournalFault {
    ghost from_gives = { λ _ e. e ≡ NoMemory };

    fn from(_error: AllocError) -> JournalFault {
        JournalFault::NoMemory
    }
}

impl<T: Drop> From<AllocFailed<T>> for JournalFault {
    ghost from_gives = { λ _ e. e ≡ NoMemory };

    fn from(_error: AllocFailed<T>) -> JournalFault {
        JournalFault::NoMemory
    }
}
