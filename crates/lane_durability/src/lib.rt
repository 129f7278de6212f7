//! The durability theorem of a lane: what holds of every legal journal, whatever happens to messages and
//! whichever nodes stop and start.
//!
//! Each function here carries laws in its contract and does nothing. A law speaks of all journals `J` that
//! are legal where a write needs `acks` copies and `P` says which nodes serve under a version; `laws` has
//! three facts (that of active nodes stands in `lane_journals`), `theorem` the law on the versions below a
//! version and what follows. What is promised stands in `specs/`, what the induction carries besides in
//! `proofs/`; `docs/journal.md` tells how it goes.
//!
//! ```text
//! durability()    // what was acknowledged, or something newer, is in enough node stores
//! ```
#![tactic(auto)]

pub mod laws;
pub mod theorem;
