//! One storage node's part in one lane: what it replies to a message, and what it has then.
//!
//! A contract sees a `NodePart` as a `Node` of `node_model`. `NodePart::take` first compares versions, and then treats the
//! body: `Takes` says for each message what is replied and what the node is then, and `changes_taken` which changes of a
//! view of the lane it tells; a `ChangeList` is seen as the list of them. Its parts hold its entries (`specs/Placing.antt`).
//! One contract serves a node alone and a lane that keeps a journal.
//!
//! ```text
//! let mut node = NodePart::new(alloc, &schema)?;
//! let taken = node.take(&message);     // taken.reply goes back, taken.noted into the journal
//! taken.changes.len()                  // taken.changes go to the view: 1 of a greater version, at least
//! node.pieces()
//! node.parts().place(&id)             // Ready exactly where the piece of the document is
//! ```
#![tactic(auto)]

pub mod changes;
pub mod node_part;
mod node_store;
mod replies;

pub use changes::{ChangeList, LaterChanges};
pub use node_part::NodePart;
pub use replies::Taken;
