//! The seats of one reader, one for each lane, and what a search finds there.
//!
//! A search enters each seat, reads the view of its guard, and leaves; it takes no lock and waits for nobody. It answers over
//! the views that it read, and each seat keeps what it saw. A contract sees `Seats` as a list of what seats have seen
//! (`Known` of `generation_guard`), or none; `IsReadFrom` in `specs/Searches.antt` says what a search found.
//!
//! ```text
//! let mut seats = Seats::of(seats);
//! seats.learn(3, note);                       // what lane 3 shows by now
//! seats.search(alloc, &query, version)?       // Some(Searched { answer, fronts })
//! ```
#![tactic(auto)]

mod reading;
mod seats;

pub use reading::{Fronts, Searched};
pub use seats::Seats;
