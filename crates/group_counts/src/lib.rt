//! The groups of the documents that a query finds, and what it says of each.
//!
//! A contract speaks of the documents that came so far, as a list: their groups are `groups_of` (`specs/Groups.antt`), one
//! for each number and then one for each text that some document has in the field, rising, with how many documents have it
//! and the sum, the least and the greatest of what these have in other fields. `Groups` is seen as its tallies
//! (`specs/Gathered.antt`), and `IsGathered` says of which documents they are.
//!
//! ```text
//! let mut groups = Groups::new(alloc, &query);
//! groups.add(alloc, &view, &matches(alloc, &query, &view, 3)?)?;
//! groups.finish(alloc)?    // Group { value: Int(1959), count: 2, outputs: .. }, ..
//! ```
#![tactic(auto)]

mod figures;
pub mod groups;
pub mod laws;
mod slots;
mod taking;
mod tallies;
mod tally;

pub use groups::Groups;
