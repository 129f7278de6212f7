//! The words of texts, and which documents have them.
//!
//! A contract sees the tokens of a text as `tokens_of` its bytes (`specs/Tokens.antt`): its longest runs
//! of ASCII letters and digits, with letters lower-cased; every other byte separates. It sees a `WordIndex`
//! as a finite map from words to the rising lists of the documents that have them (`specs/Index.antt`).
//!
//! ```text
//! tokens(alloc, "A-b 1")?    // "a", "b", "1"
//! index.add(alloc, "a", 3)?;
//! index.list("a")            // [3]
//! ```
#![tactic(auto)]

mod index;
pub mod laws;
mod lists;
mod words;

pub use index::WordIndex;
pub use words::{tokens, tokens_of_bytes};
