//! Selections: which documents an operation goes ahead on, as in Vespa's document selection.
//!
//! ```text
//! selection  = *( term "or" ) term
//! term       = *( factor "and" ) factor
//! factor     = "not" factor / "(" selection ")" / "true" / "false" / type / type "." field op literal
//! op         = "==" / "!=" / "<" / "<=" / ">" / ">="
//! literal    = integer / text / "null"
//! ```
//!
//! `specs/Grammar.antt` says which texts are selections under a schema and what each says; a contract sees
//! a `Selection` as its formula over terms. `specs/Truth.antt` says of which documents a term is true.
//!
//! ```text
//! let selection = Selection::parse(alloc, "music.year >= 1950 and not music.title == null", &schema)?;
//! selection.holds(&document)
//! ```
#![tactic(auto)]

pub mod laws;
mod parts;
mod reader;
pub mod selection;
pub mod terms;
mod truth;

pub use selection::{Selection, SelectionFault};
pub use terms::{Comparison, Literal, Term};
