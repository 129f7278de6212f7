//! The numbers that a node gives its documents, from 0 on: rising lists of them, and maps from them.
//!
//! A contract sees a rising list as its ids (`specs/Rising.antt`), and a `LocalMap` as a finite map from
//! local ids.
//!
//! ```text
//! put_local(&mut list, 3)?;    // [1, 5] becomes [1, 3, 5]
//! map.set(alloc, 3, value)?;
//! ```
#![tactic(auto)]

pub mod laws;
pub mod local_map;
pub mod rising;

pub use local_map::LocalMap;
pub use rising::{drop_local, has_local, move_local, put_local};
