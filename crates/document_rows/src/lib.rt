//! The documents of one node by local id: definitions and laws; no code so far.
//!
//! Rows are a list of places, each free or with a document; a local id is a place (`specs/Rows.antt`). What a search
//! reads of them are the places, rising, of those documents that pass a test (`specs/Reading.antt`).
#![tactic(auto)]

pub mod laws;
