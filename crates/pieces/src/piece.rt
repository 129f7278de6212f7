use bucket_ids::Bucket;
use std::alloc::Global;
use value_lists::{Listed, NoMemory, TryCopy};

/// A bucket that a node holds: the serial that it has there, and whether it is ready.
#[derive(Clone, Copy, Debug, PartialEq, Eq)]
pub struct Piece {
    pub bucket: Bucket,
    pub serial: u64,
    pub ready: bool,
}

impl TryCopy for Piece {
    fn copy(&self, _alloc: Global) -> Result<Piece, NoMemory> {
        Ok(*self)
    }
}

/// Pieces of one node, none of which has a key of another.
pub type PieceList = Listed<Piece>;
