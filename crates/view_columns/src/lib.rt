//! What searches read of the fields of a lane's documents: columns.
//!
//! A view lends the column of a field once for all documents of a node (`Columns`): a contract says of what is lent
//! (`document_indexes::IsLent`) that it has of each document of a type what that has in the field, by local id.
//!
//! ```text
//! let years = view.column(0, "music", "year");
//! cell(years, 5)       // Some(Int(1959)), if that is the year of the document at 5
//! has_one(years)       // a document has one year at most
//! ```
#![tactic(auto)]

pub mod columns;
pub mod reading;

pub use columns::Columns;
pub use reading::{cell, has_one};
