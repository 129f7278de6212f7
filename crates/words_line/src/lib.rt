//! The words of the command: `read_words` makes `Options` of them.
//!
//! Each option is a name behind two dashes and a text, in the next word or behind `=`, as `clap` takes
//! them, and stands at most once; the first word is the program's name. A contract says what the
//! words say by the relation `Says` (`specs/Said.antt`): numbers are plain decimals in their ranges,
//! `--acks` and `--searchable` are at most `--redundancy`, and a generated session has no options but
//! its own. `words_say_one` is the law that they say at most one value of `Options`.
//!
//! ```text
//! vespa_cell --bits 1 --redundancy=3 --acks 2      // bits 1, redundancy 3, acks 2, the rest by default
//! vespa_cell --bits 01                             // WordsFault::Usage
//! ```
#![tactic(auto)]

mod command;
mod generated;
pub mod laws;
mod numbers;
pub mod options;
mod plain;
mod texts;

pub use options::{Generate, Options, WordsFault, read_words};
