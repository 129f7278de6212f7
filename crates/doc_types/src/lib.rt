//! Fields and their values, schemas, and the words of selections and queries.
//!
//! A contract sees a `Schema` as a finite map from the names of types to finite maps from the names of
//! fields to kinds (`specs/SchemaCodes.antt`), and a `FieldValue` as its number, bytes or list. Both
//! languages have one rule for blanks, names, numbers, texts and signs: a contract speaks of the token
//! at the front of a text and of what is behind it (`token_at` in `specs/Tokens.antt`).
//!
//! ```text
//! let schema = Schema::of(types);                   // `json_documents` reads one from JSON
//! schema.field("music", "year")                     // Some(FieldType::Int)
//! read_token(alloc, Language::Query, "12abc")?      // the integer 12, and "abc" behind it
//! ```
#![tactic(auto)]

pub mod cuts;
mod integers;
pub mod laws;
mod literals;
pub mod outputs;
pub mod schema;
pub mod symbols;
pub mod tokens;
pub mod values;

pub use outputs::{OutputKind, OutputKinds};
pub use schema::{DEFAULT_SCHEMA, Schema};
pub use symbols::{Language, Symbol};
pub use tokens::{Lexeme, read_token, skip_blanks};
pub use value_lists::TextValue;
pub use values::{FieldType, FieldValue, IntList, TextList};
