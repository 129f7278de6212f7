//! Where the changes of a lane go, and who sees them.
//!
//! A shelf takes changes in (`append`), and shows them when it is told so (`publish`). A contract sees of it the list of
//! the changes that are pending, and which lists of changes are shown (`specs/Shelves.antt`): what was appended is what is
//! shown, and then what is pending. A `LaneChange` is seen as its variant with the buckets and entries as contracts
//! see these, so lists of changes are compared as lists.
//!
//! A `PlainShelf` is a view for one reader; a `NoShelf` shows nothing to anybody.
//!
//! ```text
//! let mut shelf = PlainShelf::new(alloc, view);
//! shelf.append(change)?;         // pending
//! shelf.publish()?;              // shown
//! shelf.view()                   // the opening view after that change
//! ```
#![tactic(auto)]

pub mod laws;
mod no_shelf;
mod plain_shelf;
mod settling;
mod shelf;

pub use no_shelf::NoShelf;
pub use plain_shelf::PlainShelf;
pub use settling::{hand_over, settle};
pub use shelf::Shelf;
