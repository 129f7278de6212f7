//! Pieces: the buckets that a node holds, each with its serial and its mark, alone and in the order of their runs.
//!
//! A contract sees a `Piece` as the record of its three fields, the bucket as `Low`, and a `PieceList` as the list of its
//! pieces. `LaidPieces` are seen as a `Holding`: the list of the pieces and the last serial that was drawn. The buckets of its
//! pieces have no key in common, and lie in the order of their keys' bits turned round, in which each bucket is one run: so those
//! that a bucket meets lie side by side, and are found by a binary search. Each call's effect is a function on holdings
//! (`specs/Holdings.antt`), where it is refused says `specs/Told.antt`, and `specs/Pieces.antt` what becomes of the list.
//!
//! ```text
//! let mut pieces = LaidPieces::new(alloc);
//! pieces.make(alloc, Bucket::new(4, 0))?;       // serial 1
//! pieces.split(alloc, Bucket::new(5, 16))?;     // (5, 0) and (5, 16), both with serial 2
//! pieces.delete(Bucket::new(5, 0), 1)           // Differs
//! ```
#![tactic(auto)]

mod changes;
pub mod fault;
pub mod laid_pieces;
pub mod laws;
pub mod piece;
mod places;

pub use fault::StoreFault;
pub use laid_pieces::LaidPieces;
pub use piece::{Piece, PieceList};
