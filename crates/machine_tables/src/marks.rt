//! What marks rows have when they are split and joined.

use crate::rows::rows_of;
use crate::table::{done, shown};
use crate::texts::{halves, number, word};
use crate::words::{read_bucket, read_node, read_place, read_set};
use bucket_db::{BucketDb, Deleting};
use bucket_ids::Bucket;
use std::alloc::Global;

/// The rows of one lane, which lines mark, split and join; none before the first line.
#[derive(Drop)]
pub struct Marks {
    db: Option<BucketDb>,
}

/// The place of a key among the rows of an answer.
fn place(alloc: Global, words: &str) -> Option<String> {
    let (lane, answer) = (read_bucket(word(words, 0))?, read_bucket(word(words, 1))?);
    let key = number(words, 2)?;
    if !lane.contains(key) {
        return None;
    }
    match BucketDb::of_answers(alloc, lane, &[answer]) {
        Ok(db) => shown(alloc, &db.row_of(key)),
        Err(_) => None,
    }
}

/// Whether the row of a place may be joined with its sibling.
fn joinable(alloc: Global, db: &BucketDb, at: &str) -> Option<String> {
    let at = read_place(at, db.rows().len())?;
    shown(alloc, &db.can_join(at))
}

/// Marks the row of a place by its complete members, its active node, that this one accepts, or the Delete of serial 9 to
/// node 3 that it waits for.
fn mark(db: &mut BucketDb, verb: &str, words: &str) -> Option<()> {
    let at = read_place(word(words, 0), db.rows().len())?;
    let deleting = Deleting {
        bucket: Bucket::new(4, 0),
        node: 3,
        serial: 9,
    };
    match verb {
        "complete" => db.set_marks(at, read_set(words, 1)?),
        "active" => db.set_active(at, read_node(word(words, 1))?),
        "accepted" => db.set_accepted(at),
        "deleting" => db.set_deleting(at, Some(deleting)),
        _ => return None,
    }
    Some(())
}

/// Splits the row of a place, or joins it with its sibling.
fn reshape(db: &mut BucketDb, verb: &str, words: &str) -> Option<()> {
    let at = read_place(words, db.rows().len())?;
    match verb {
        "split" if db.rows()[at].bucket.bits() < 58 => db.split_row(at).ok(),
        "join" if db.can_join(at) => db.join_rows(at).ok(),
        _ => None,
    }
}

/// Changes rows or asks them.
fn say(alloc: Global, db: &mut BucketDb, verb: &str, rest: &str) -> Option<String> {
    match verb {
        "place" => place(alloc, rest),
        "rows" => shown(alloc, &db.rows()),
        "joinable" => joinable(alloc, db, rest),
        "split" | "join" => done(alloc, reshape(db, verb, rest).is_some()),
        verb => done(alloc, mark(db, verb, rest).is_some()),
    }
}

impl Marks {
    /// No rows.
    pub fn new() -> Marks {
        Marks { db: None }
    }

    /// Begins with the rows of answers.
    fn begin(&mut self, alloc: Global, words: &str) -> bool {
        let (lane, answers) = halves(words);
        self.db = rows_of(alloc, lane, answers);
        self.db.is_some()
    }

    /// What comes of a line.
    pub fn say(&mut self, alloc: Global, verb: &str, rest: &str) -> Option<String> {
        match verb {
            "begin" => done(alloc, self.begin(alloc, rest)),
            verb => say(alloc, self.db.as_mut()?, verb, rest),
        }
    }
}
