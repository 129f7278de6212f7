//! Stamps order the writes of a document: of two entries the one with the greater stamp is newer.
//!
//! A contract sees a `Stamp` as the record of its two numbers. `specs/Order.antt` has the one order that all code uses, as a test
//! (`is_before`) and as a fact (`IsBefore`), with the laws that it is total and strict and that Rust's own comparisons answer by it.
//!
//! `StampPlaces` keeps a place for each of some stamps (`place_of` in `specs/Places.antt`). The counts of a version's stamps rise
//! one by one, so the places of a version lie in a list by count.
//!
//! ```text
//! let first = Stamp { version: 1, count: 1 };
//! first.is_before(first.next())    // true
//! Stamp::parse("1:1")              // Some(first); no other text is read as it
//!
//! let mut places = StampPlaces::none(alloc);
//! places.keep(alloc, first, 7)?;
//! places.get(first)                // Some(7)
//! ```
#![tactic(auto)]

pub mod laws;
pub mod places;
pub mod stamp;

pub use places::{StampPlaces, VersionPlaces};
pub use stamp::Stamp;
