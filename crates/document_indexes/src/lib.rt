//! What searches read of documents by local id: of each type its documents, and of each field its values, words and
//! numbers. A document enters at a local id, leaves it, or moves down to a lower one.
//!
//! A contract speaks of the list of each type and of the value that a document has in a field (`cell`).
//!
//! ```text
//! indexes.enter(alloc, 0, &document)?;
//! indexes.of_type("music")    // [0]
//! ```
#![tactic(auto)]

mod fields;
mod indexes;

pub use indexes::Indexes;
