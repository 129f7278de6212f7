//! Buckets: sets of document keys that agree in their low bits.
//!
//! A key is a number below 2^58. The bucket with `bits` bits and low bits `low` holds the keys that
//! are `low` modulo 2^bits. A split gives the two children, which have one bit more; a join gives the
//! parent. A contract sees a `Bucket` as the record `Low` of its two numbers and speaks of the set of
//! its keys (`IsIn`). Where the bits of a key are turned round, each bucket is one run of numbers:
//! `path_of` and `Bucket::run` say where.
//!
//! ```text
//! let lane = Bucket::new(4, 0);
//! lane.contains(32)              // true
//! let (even, odd) = lane.children();
//! even.print(alloc)?             // "1400000000000000"
//! ```
#![tactic(auto)]

pub mod bucket;
pub mod laws;
pub mod paths;
mod printed;

pub use bucket::{BadBucket, Bucket};
pub use paths::path_of;
