ghost use Rattle.std.specs.Prelude.{◌≡◌};
ghost use Rattle.node_journal.specs.declared.causes.OpenCause.TheVariants.{DiskFault, NoMemory};

use io_ends::Failed;
use std::alloc::AllocError;
use thiserror::Error;

/// Why a file on a disk isn't opened.
#[derive(Clone, Copy, Debug, PartialEq, Eq, Error)]
pub enum OpenCause {
    /// The file is longer than it may be.
    #[error("the file has {length} bytes, which is too long")]
    TooLong { length: u64 },
    /// An open gate stands here before no whole record, or before one that is no message.
    #[error("damaged at {at}")]
    Damaged { at: u64 },
    /// The disk failed.
    #[error("the disk failed")]
    DiskFault,
    #[error("out of memory")]
    NoMemory,
}

impl From<Failed> for OpenCause {
    ghost from_gives = { λ _ e. e ≡ DiskFault };

    fn from(_failed: Failed) -> OpenCause {
        OpenCause::DiskFault
    }
}

impl From<AllocError> for OpenCause {
    ghost from_gives = { λ _ e. e ≡ NoMemory };

    fn from(_error: AllocError) -> OpenCause {
        OpenCause::NoMemory
    }
}
