//! The view of a lane, made of its nodes as they stand.
//!
//! A view goes on with the changes that nodes tell. One that begins later is made of the nodes themselves: it shows just
//! what is read off the journal that the nodes keep (`view_of` of `journal_views`).
//!
//! ```text
//! let view = view_of_nodes(alloc, &schema, &nodes, stopped)?;
//! view.measure(7)    // over how many keys some node at version 7 is active that isn't stopped
//! ```
#![tactic(auto)]

mod telling;

pub use telling::view_of_nodes;
