//! A storage node's part in one lane as a value: what it has, what it replies to a message, and what it tells; definitions
//! and laws, and no code that runs.
//!
//! `Node` in `specs/Nodes.antt` is the greatest version of a message, entries, pieces, active regions, and the last serial
//! that was drawn. `Takes` in `specs/Takes.antt` says for each message what is replied and what the node is then: it compares
//! versions first, and then treats the body. `changes_taken` in `specs/Telling.antt` says which changes of a view of the lane
//! the node tells. `service_layer` has the code; what is proved of lanes and journals stands on this crate alone.
//!
//! ```text
//! replies_are_one();             // but for want of memory, a message has one reply, and leaves one node
//! refusals_change_nothing();     // but the version, and the regions that were active under the older one
//! ```
#![tactic(auto)]

pub mod laws;
