//! What searches see of a lane, and what a change makes of it: of each node its version, whether it is stopped, its
//! active regions and the documents there.
//!
//! A `View` is what is seen (`specs/Views.antt`), and a `LaneChange` a function of views. What a node keeps and does is
//! shown by the changes that it tells (`specs/Deeds.antt`, laws). What a search reads of a view are rising lists of local
//! ids (`Lists`), documents and measures (`Shown`).
//!
//! ```text
//! changes_of node kept (Stores entry)    // [Take node entry], where the entry is newer and lies in a region
//! changed view (Take node entry)         // its document stands in the node's rows
//! ```
#![tactic(auto)]

pub mod change;
pub mod fresh;
pub mod laws;
pub mod reading;
pub mod regions;

pub use change::LaneChange;
pub use reading::{Lists, Shown};
