//! The logic of tests, numbers, options, results and lists that proofs of many crates share.
//!
//! It speaks of the standard library's types alone, and of nothing of this repository. The lemmas stand in
//! `proofs/`, by what they speak of; the law says of numbers what their tests say.
//!
//! ```text
//! tests_say_what_holds();    // m <= n exactly where its test says so
//! ```
#![tactic(auto)]

pub mod laws;
