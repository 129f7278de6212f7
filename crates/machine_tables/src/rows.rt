//! The rows of answers.

use crate::words::{read_bucket, read_buckets};
use bucket_db::{BucketDb, Row};
use std::alloc::Global;

/// The rows of a lane by the answers of nodes.
pub fn rows_of(alloc: Global, lane: &str, answers: &str) -> Option<BucketDb> {
    let lane = read_bucket(lane)?;
    match read_buckets(alloc, answers) {
        Some(answers) => BucketDb::of_answers(alloc, lane, &answers).ok(),
        None => None,
    }
}

/// Appends the bucket of a row with a blank behind it; whether there is memory for it.
fn push_name(alloc: Global, text: &mut String, row: &Row) -> bool {
    match row.bucket.print(alloc) {
        Ok(name) => text.push_str(&name).is_ok() && text.push(' ').is_ok(),
        Err(_) => false,
    }
}

/// The buckets of rows, a blank behind each.
fn names(alloc: Global, rows: &[Row]) -> Option<String> {
    let mut text = String::new(alloc);
    let mut good = true;
    for row in rows {
        good &= push_name(alloc, &mut text, row);
    }
    if good { Some(text) } else { None }
}

/// The rows of a lane by the buckets that nodes name.
pub fn say(alloc: Global, lane: &str, answers: &str) -> Option<String> {
    match rows_of(alloc, lane, answers) {
        Some(db) => names(alloc, db.rows()),
        None => None,
    }
}
