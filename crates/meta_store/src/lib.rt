//! Which documents a node has: their ids and keys, and the local id of each.
//!
//! A contract sees a `MetaStore` as a finite map from local ids to documents (`specs/Store.antt`). A new
//! document has the least local id that is free. The free ones are told by the rising list of those that are
//! taken: the least free one is where the list first stands apart from 0, 1, 2 and so on, which a binary
//! search finds.
//!
//! ```text
//! store.assign(alloc, &id, key)?    // 0
//! store.local(&id)                  // Some(0)
//! store.free(0);
//! ```
#![tactic(auto)]

mod indexes;
mod store;

pub use store::{MetaStore, Named};
