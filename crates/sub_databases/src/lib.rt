//! A node's three parts in one lane: documents that are ready to be searched, documents that aren't, and removes.
//!
//! A contract sees `SubDatabases` as `Parts` (`specs/Parts.antt`): one finite map of the newest entries, and the documents
//! of the ready part by local id. Where a document is follows from both (`place_in`), so it is in one part: nowhere
//! without an entry, removed where the newest entry has no document of its id, else ready exactly where the ready part has
//! it. What a call makes of the parts, and of each document's place, says `specs/Changes.antt`. Entries and documents are
//! shared.
//!
//! ```text
//! let mut parts = SubDatabases::new(alloc, &schema)?;
//! parts.take(alloc, key, &entry, false)?;             // NotReady
//! parts.make_ready(alloc, Bucket::new(4, 0))?;        // Ready, with a local id
//! parts.take(alloc, key, &remove, true)?;             // Removed
//! parts.drop_bucket(Bucket::new(4, 0));               // Nowhere
//! ```
#![tactic(auto)]

mod dropping;
mod filling;
pub mod laws;
pub mod parts;
pub mod place;
mod taking;
mod uniting;

pub use parts::SubDatabases;
pub use place::Place;
