//! The journal of a lane: its events, what is read off it, and which journals are legal.
//!
//! A lane keeps the list of its events, and what each node stores, which rows there are and what is
//! acknowledged is read off it. Definitions take it newest first. A journal as it is kept names entries
//! by their stamps (`LaneEvent`); what it means (`history`) has the entries in place, and laws speak of
//! that. `IsLegal` in `specs/KeptJournals.antt` says which journals are legal, `specs/Legal.antt` which
//! event may come next, with one record an event kind. `docs/journal.md` tells the same in words.
//!
//! ```text
//! Published { state }, Heard { distributor: 0, version: 1 },
//! Sent { number: 1, receiver: 0, body: Ask, .. }, Delivered { number: 1, .. }, Returned { number: 1 },
//! Opened { version: 1, rows, .. }, Decided { decision: RoundBegun { .. }, .. }, ..
//! ```
//!
//! What holds of every legal journal and is needed before the durability theorem.
//!
//! The lemmas stand in `proofs/`: one stamp is of one line, and one line of a document is open at a time (`Kept`);
//! a node is at a version that it answered under (`Versions`); who is a complete member took what its round found
//! (`Marks`), and what a Delete may take (`Deletes`, `Losses`). The law is of active nodes.
//!
//! ```text
//! one_active_copy()    // an active node is a complete member, and at most one node gets an Activate of a key
//! ```
#![tactic(auto)]

pub mod active_copies;
pub mod event;
pub mod laws;

pub use event::LaneEvent;
