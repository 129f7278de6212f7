//! What searches read of one field of a node's documents, by local id: its values, of each word the documents
//! that have it, of each number likewise.
//!
//! A contract sees a `FieldIndex` as a column: its kind with a finite map from local ids to values. What is
//! read of words and numbers is told off that map (`specs/Words.antt`).
//!
//! ```text
//! index.enter(alloc, 2, &value)?;    // the text "The Road"
//! index.with_word("road")            // [2]
//! ```
#![tactic(auto)]

mod field_index;
mod field_indexes;
mod field_maps;
mod word_lists;
mod words;

pub use field_index::FieldIndex;
pub use field_indexes::FieldIndexes;
