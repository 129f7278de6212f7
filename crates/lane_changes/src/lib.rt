//! Which changes of what a search sees of a lane the events of its journal give, and that the lane's nodes tell just
//! these. A crate of definitions and laws.
//!
//! `changes_of` in `specs/Changes.antt` lists the changes that the events of a journal give, oldest first, and
//! `keeping` in `specs/Deliveries.antt` says what a node keeps after them, delivery by delivery. In a lane that keeps
//! its journal a node tells of each message the journal's next changes (`nodes_tell_changes`). A stop or a start gives
//! one change, and all other events none (`other_events`).
//!
//! ```text
//! Delivered { number, reply: Answer { .. } }, ..    // a node took a Store in its region:
//! LaneChange::Take { node, entry }, ..              // so this change is the journal's next one
//! ```
#![tactic(auto)]

pub mod laws;
