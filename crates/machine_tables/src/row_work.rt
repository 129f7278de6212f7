//! Rows at work, for `bench/rows` to time.

ghost use Rattle.std.specs.Prelude.{◌≡◌};

use bucket_db::BucketDb;
use bucket_ids::Bucket;
use std::alloc::Global;

/// Splits the row of the least number.
fn split_least(db: &mut BucketDb) -> Option<()>
    ensures { db.new.lane ≡ db.old.lane }
{
    let rows = db.rows();
    if rows.is_empty() || rows[0].bucket.bits() >= 58 {
        return None;
    }
    db.split_row(0).ok()
}

/// The same so many times.
fn split_each(db: &mut BucketDb, count: u32) -> Option<()>
    ensures { db.new.lane ≡ db.old.lane }
{
    for _ in 0..count {
        split_least(db)?;
    }
    Some(())
}

/// Puts in the place of rows those of answers that name each of them.
fn answers(alloc: Global, db: &mut BucketDb, lane: Bucket) -> Option<()> {
    let mut answers = Vec::new(alloc);
    let mut good = true;
    for row in db.rows() {
        good &= answers.push(row.bucket).is_ok();
    }
    match BucketDb::of_answers(alloc, lane, &answers) {
        Ok(answered) if good => {
            *db = answered;
            Some(())
        }
        _ => None,
    }
}

/// Joins, of the rows of the most bits, the one of the least number.
fn join_deepest(db: &mut BucketDb) -> Option<()> {
    let rows = db.rows();
    let most = rows.last()?.bucket.bits();
    let at = rows.partition_point(|row| row.bucket.bits() < most);
    if at >= rows.len() || !db.can_join(at) {
        return None;
    }
    db.join_rows(at).ok()
}

/// The same so many times.
fn join_each(db: &mut BucketDb, count: u32) -> Option<()> {
    for _ in 0..count {
        join_deepest(db)?;
    }
    Some(())
}

/// Looks up so many keys of the lane.
fn find_all(db: &BucketDb, lane: Bucket, count: u32) -> Option<()>
    requires { db.now.lane ≡ lane }
{
    for number in 0..count {
        let key = u64::from(number) * 2;
        if lane.contains(key) {
            let _place = db.row_of(key);
        }
    }
    Some(())
}

/// Does a kind of work on rows.
fn work_on(alloc: Global, db: &mut BucketDb, lane: Bucket, kind: &str, count: u32) -> Option<()>
    requires { db.old.lane ≡ lane }
{
    split_each(db, count.saturating_sub(1))?;
    match kind {
        "rows" => Some(()),
        "answers" => answers(alloc, db, lane),
        "keys" => find_all(db, lane, count),
        "splits" => split_each(db, count),
        "joins" => {
            split_each(db, count)?;
            join_each(db, count)
        }
        _ => None,
    }
}

/// Does a kind of work on so many rows, and says how many there are then.
pub fn work(alloc: Global, kind: &str, count: u32) -> Option<u64> {
    let lane = Bucket::new(1, 0);
    match BucketDb::of_answers(alloc, lane, &[]) {
        Ok(mut db) => {
            work_on(alloc, &mut db, lane, kind, count)?;
            Some(db.rows().len() as u64)
        }
        Err(_) => None,
    }
}
