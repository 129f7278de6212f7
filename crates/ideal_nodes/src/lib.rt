//! Where a bucket's documents are to lie: its nodes in ideal order, and the owner of a lane.
//!
//! Each node has a score for a bucket, from the MD5 of both (RFC 1321), as Vespa's distribution
//! orders nodes by pseudo-random numbers. A contract speaks of the score (`score_of`), of which of two
//! nodes ranks first (`Ranks`: the greater score, ties by the lower number), of a node's rank in its group
//! (`rank_of`), and of the list that has each node that is up once, by rank and then by score
//! (`IsIdeal`). So the best of each group comes before the second of any. No call takes memory.
//!
//! ```text
//! ideal(bucket, &state).at(0)    // the node that is to have the bucket's first replica
//! owner(lane, &state)            // None where no distributor is up
//! ```
#![tactic(auto)]

pub mod laws;
pub mod lists;
pub mod owners;
pub mod placement;
mod ranks;
pub mod scores;

pub use lists::NodeList;
pub use owners::owner_among;
pub use placement::{ideal, owner};
