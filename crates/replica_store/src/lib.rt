//! What one node stores in one lane: entries, and the buckets that they lie in.
//!
//! A contract sees a `ReplicaStore` as a `Replica`: the finite map of its entries, the list of its pieces
//! in the order of their runs, and the last serial that was drawn (`specs/Replicas.antt`). What an accepted
//! call makes of it is one function, as `after_split`; where a call is refused says `IsTold`. All entries
//! stand in one map: a split and a join touch none, and a delete takes one run out of it.
//!
//! ```text
//! let mut store = ReplicaStore::new(alloc);
//! store.apply(Bucket::new(4, 0), &entries)?;     // a piece with serial 1
//! store.delete(Bucket::new(4, 0), 1)?;           // gone, with its entries
//! store.apply(Bucket::new(4, 0), &entries)?;     // serial 2
//! store.delete(Bucket::new(4, 0), 1)             // Differs: the entries stay
//! ```
#![tactic(auto)]

pub mod replica_store;

pub use pieces::{Piece, PieceList, StoreFault};
pub use replica_store::{Held, ReplicaStore};
