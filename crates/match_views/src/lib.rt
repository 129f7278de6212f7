//! Which documents of a lane's view a query finds.
//!
//! A contract sees `Hits` as a list of hits: of each node that serves, rising, the local ids of the documents of which
//! the query is true (`specs/Hits.antt`). They are found by rising lists that the view lends (`view_changes::Lists`),
//! joined, cut and complemented as the query says; no document is read.
//!
//! ```text
//! let hits = matches(alloc, &query, &view, 3)?;
//! hits.items()    // [Hit { node: 0, local: 2 }, Hit { node: 0, local: 5 }]
//! ```
#![tactic(auto)]

mod evaluate;
pub mod hits;
pub mod laws;
mod marks;
mod ranges;
pub mod sets;
mod spans;
mod terms;

pub use hits::{Hit, Hits, matches};
