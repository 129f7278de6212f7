//! Documents: an id and values by the names of fields, and their size.
//!
//! A contract sees a `Document` as a record of its id and of a finite map from field names to values
//! (`Contents` in `specs/Fields.antt`). Each field is shared by the copies of a document, so a copy
//! holds no bytes of its own.
//!
//! ```text
//! let mut document = Document::empty(alloc, id);
//! document.set(alloc, "year", FieldValue::Int(1990))?;
//! document.get("year")                 // Some(FieldValue::Int(1990))
//! document.size()                      // 4 + 8
//! ```
#![tactic(auto)]

pub mod document;
pub mod entry;
pub mod fault;
pub mod field;
mod field_lists;
pub mod shared_entry;
mod sizes;

pub use document::Document;
pub use entry::Entry;
pub use fault::DocumentFault;
pub use field::{Field, SharedField};
pub use shared_entry::SharedEntry;
