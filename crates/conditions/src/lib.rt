//! Conditions over atoms, for selections and queries: chains of `or` and `and`, negations and brackets; and readers of one
//! token after the other, for these languages and their kin.
//!
//! A language says, for each schema, which lists of tokens are its texts and what each says. A `TokenReader` takes a token, or
//! refuses it where no text goes on so. `read` then accepts exactly the texts of the language, and refuses another one at the
//! first token that no text has behind the tokens before it, where no token can be read, or at its end (`specs/Readings.antt`).
//!
//! `specs/Grammar.antt` says which lists of tokens are conditions over the atoms of a language and what each says;
//! `specs/Machine.antt` is the machine that reads them token by token. The law that the machine reads exactly the grammar is
//! proved once for every language of atoms (`laws`). A `Tree` is what a condition says; a chain of any length is a balanced tree
//! of it, so that nothing runs deep in it.
//!
//! ```text
//! read(alloc, Language::Selection, &schema, reader, "music.year == ")    // Err(Refused { offset: 14 })
//!
//! let reading = Conditions::start(alloc)?;
//! reading.step(alloc, Negation::Word, Kind::True)?.step(alloc, Negation::Word, Kind::Or)?
//! ```
#![tactic(auto)]

pub mod chains;
pub mod frames;
pub mod kinds;
pub mod laws;
pub mod reader;
pub mod reading;
pub mod token_reading;
pub mod tree;

pub use chains::{Chain, Joint};
pub use frames::Place;
pub use kinds::{Kind, Negation, ends_operand, is_other, kind_of};
pub use reader::{Stop, TokenReader};
pub use reading::{Conditions, behind_step, whole_tree};
pub use token_reading::{ReadFault, read};
pub use tree::Tree;
