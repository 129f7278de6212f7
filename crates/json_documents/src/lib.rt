//! What JSON says of schemas, documents and updates, and how fields are shown in it.
//!
//! A contract sees a JSON value as `Data` of the kit's `serde_json`. `specs/Schemas.antt` says which
//! values are schemas, `specs/DocumentFaults.antt` which are documents of a schema, and
//! `specs/Updates.antt` which are updates; `specs/Json.antt` says what each value of a field is.
//!
//! ```text
//! let schema = schema_from_json(alloc, DEFAULT_SCHEMA)?;
//! let document = document_from_json(alloc, id, &fields, &schema)?;        // {"year":1990}
//! let update = update_from_json(alloc, &id, &changes, &schema)?;          // {"year":{"increment":1}}
//! fields_json(alloc, &document)?                                          // {"year":1990}
//! ```
#![tactic(auto)]

pub mod document_json;
pub mod laws;
pub mod line_json;
mod members;
pub mod schema_faults;
pub mod schema_json;
pub mod update_json;
mod values;
mod words;
mod written;

pub use document_json::{document_from_json, fields_json};
pub use line_json::{document_from_line, update_from_line};
pub use schema_faults::SchemaFault;
pub use schema_json::schema_from_json;
pub use update_json::update_from_json;
