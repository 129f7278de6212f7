//! What one field has in each document of a node: values by local id, and for numbers an ordered dictionary.
//!
//! A contract sees a `Column` as its kind with a finite map from local ids to values (`specs/Columns.antt`).
//! The dictionary holds of each number the rising list of the documents that have it, as their value or as an
//! item; no clause but those of `next_value` speaks of it.
//!
//! ```text
//! column.set(alloc, 2, &FieldValue::Int(5))?;
//! column.next_value(0, 9)    // Some((5, [2]))
//! ```
#![tactic(auto)]

mod column;
mod dictionary;
pub mod laws;
mod numbers;

pub use column::Column;
