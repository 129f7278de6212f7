ghost use Rattle.std.specs.Prelude.{◌≡◌};
ghost use Rattle.pieces.specs.declared.fault.StoreFault.TheVariants as fault;

use thiserror::Error;
use value_lists::NoMemory;

/// Why a call on the buckets of a node is refused.
#[derive(Clone, Copy, Debug, PartialEq, Eq, Error)]
pub enum StoreFault {
    /// No piece is there.
    #[error("no bucket")]
    NoBucket,
    /// A piece is there, and is not the one that is named.
    #[error("another bucket")]
    Differs,
    /// Want of memory.
    #[error("out of memory")]
    NoMemory,
}

impl From<NoMemory> for StoreFault {
    ghost from_gives = { λ _ made. made ≡ fault.NoMemory };

    fn from(_error: NoMemory) -> StoreFault {
        StoreFault::NoMemory
    }
}
