//! The documents of one node by local id: rows with their ids and keys, and the indexes of their fields.
//!
//! A contract sees a `NodeRows` as the rows of `document_rows`, with the types of the schema that their values are of
//! (`specs/TypedRows.antt`). A document has the least place that is free when it comes, and keeps it; its values that
//! aren't of their kinds are left out. What searches read are rising lists of places.
//!
//! ```text
//! let mut rows = NodeRows::new(alloc, &schema)?;
//! rows.take(alloc, key, &entry)?;
//! rows.of_type("music")                        // [0]
//! rows.with_token("music", "title", "blue")    // [0]
//! ```
#![tactic(auto)]

mod fitting;
mod node_rows;
mod shared_schema;

pub use node_rows::NodeRows;
pub use shared_schema::SharedSchema;
