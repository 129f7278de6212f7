//! Readers of one letter after the other, for any alphabet, and what follows for all of them.
//!
//! A language says which lists of letters are texts, and what each says. A `Scanner` is the state of a
//! reader: it takes a letter, or refuses it where no text goes on so. From the clauses of a single
//! step follows, once for all scanners, that `scan` accepts exactly the language and that the offset
//! of a refusal is the length of the longest prefix that can still become a text
//! (`specs/Refusals.antt`).
//!
//! ```text
//! impl Scanner for Numeral { .. }
//! scan(Numeral::start(), b"12x")    // Err(Refused { offset: 2 })
//! ```
#![tactic(auto)]

pub mod scanner;
mod scanning;

pub use scanner::Scanner;
pub use scanning::{Refused, scan};
