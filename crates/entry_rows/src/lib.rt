//! Entries of documents, and slots with entries in rows.
//!
//! An `Entry` is a stamp with a document or with a remove; a `SharedEntry` is one that copies share. A slot is an entry
//! with the path of its document's key. `Chunks` keeps slots in their order (`specs/Order.antt`), in rows of about a
//! hundred; contracts see the rows joined as one list (`specs/Chunks.antt`).
//!
//! ```text
//! let spot = chunks.first_at(path);         // where the slots of no lower path begin
//! chunks.insert(alloc, spot, slot)?;        // a row that grows long is cut in two
//! chunks.cut(from, to);                     // takes out the slots from one seat to another
//! let rows = chunks.rows_about(one, two);   // the rows that may have slots from one to another
//! chunks.replace_rows(rows, others)?;       // others in their place; those behind are moved
//! ```
#![tactic(auto)]

pub mod chunks;
pub mod copies;
mod cuts;
mod edits;
pub mod rows;
mod seeks;
pub mod slots;
