//! The rows of a lane: the buckets that a distributor deals with one by one, and what it knows of each.
//!
//! A contract sees a `BucketDb` as the lane's bucket and the list of its rows (`Rows`), which
//! partition the lane's keys and stand in rising bucket number (`AreRows`, `specs/Rows.antt`). Rows
//! come of the answers of nodes (`specs/Answers.antt`) and change by splits, joins and marks
//! (`specs/Changes.antt`).
//!
//! ```text
//! let mut rows = BucketDb::of_answers(alloc, lane, &answers)?;
//! let at = rows.row_of(key);
//! rows.split_row(at)?;
//! rows.rows()[0].bucket.print(alloc)?
//! ```
#![tactic(auto)]

mod answers;
pub mod bucket_db;
mod changes;
pub mod row;
mod search;

pub use bucket_db::BucketDb;
pub use row::{Deleting, Row};
