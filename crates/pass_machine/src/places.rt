ghost use Rattle.std.specs.Prelude.{◌≡◌, ◌<◌, ℕ, length, slice_get, Some, IfSome, nat_lt};
ghost use Rattle.std.specs.List.{prefix_len};
ghost use Rattle.bucket_ids.specs.Printed.{number_of as number_in};
ghost use Rattle.bucket_db.specs.Rows.{AreRows, buckets_of};
ghost use Rattle.bucket_db.specs.declared.row.Row.{Row as OneRow};
ghost use Rattle.distributor_part.specs.Parts.{rows_of};
ghost use Rattle.pass_machine.specs.Notes.{note_for, documents_in};
ghost use Rattle.pass_machine.specs.Places.{first_with, place_of, next_place, can_join, are_small, is_first_half, is_full_by, is_same_delete, was_sent};

use crate::notes::Notes;
use bucket_db::row::number_of;
use bucket_db::{Deleting, Row};
use bucket_ids::Bucket;
use distributor_part::DistributorPart;

// ---- places

/// Where the rows of at least so many bits begin, since they stand in rising number.
pub fn first_with(part: &DistributorPart, bits: u8) -> usize
    ensures { result ≡ first_with bits (rows_of part.now.rows) }
{
    let rows = part.rows();
    rows.partition_point(
        |row: &Row| -> bool
            ensures { result ≡ nat_lt row.now.bucket.bits bits }
        { row.bucket.bits() < bits },
    )
}

/// Where the row of a bucket stands.
pub fn place_of(part: &DistributorPart, bucket: Bucket) -> usize
    ensures { result ≡ place_of bucket (rows_of part.now.rows) }
{
    let number = number_of(bucket);
    let rows = part.rows();
    rows.partition_point(
        |row: &Row| -> bool
            ensures { result ≡ nat_lt (number_in row.now.bucket) number }
        { number_of(row.bucket) < number },
    )
}

/// The next place, if there is a row at this one.
pub fn next_place(part: &DistributorPart, at: usize) -> usize
    ensures { result ≡ next_place (length (rows_of part.now.rows)) at }
{
    if at < part.rows().len() { at + 1 } else { at }
}

// ---- joins

/// Whether a row and its sibling have few enough documents together, which is known only where both had whole rounds.
pub fn are_small(notes: &Notes, bucket: Bucket, split_at: u32) -> bool
    requires { 1 < bucket.bits }
    ensures { result ≡ are_small notes.now.by_number bucket split_at }
{
    let (Some(one), Some(other)) = (notes.documents(bucket), notes.documents(bucket.sibling()))
    else {
        return false;
    };
    one.saturating_add(other) <= u64::from(split_at / 2)
}

/// Whether a bucket is the first half of its parent.
pub fn is_first_half(bucket: Bucket) -> bool
    requires { 1 < bucket.bits }
    ensures { result ≡ is_first_half bucket }
{
    let (first, _) = bucket.parent().children();
    first == bucket
}

/// Whether the row of a place may be joined with its sibling.
pub fn can_join(part: &DistributorPart, at: usize) -> bool
    requires { at < length (rows_of part.now.rows) }
    ensures { (row : OneRow) → slice_get (rows_of part.now.rows) at ≡ Some row
        → result ≡ can_join part.now.lane (rows_of part.now.rows) row }
{
    let _rows = part.rows();
    part.can_join(at)
}

// ---- splits

/// Whether a row of fewer than 58 bits has too many documents, which is known only after a whole round.
pub fn is_full(notes: &Notes, bucket: Bucket, split_at: u32) -> bool
    ensures { result ≡ is_full_by split_at bucket.bits (documents_in (note_for bucket notes.now.by_number)) }
{
    match notes.documents(bucket) {
        Some(documents) => bucket.bits() < 58 && u64::from(split_at) < documents,
        None => false,
    }
}

// ---- Deletes that are sent again

/// Whether a row has this Delete.
fn is_same_delete(delete: &Deleting, other: Option<Deleting>) -> bool
    ensures { result ≡ is_same_delete delete.now other }
{
    match other {
        Some(other) => *delete == other,
        None => false,
    }
}

/// Whether a row before the place has the same Delete, so that it was sent again before.
pub fn was_sent(rows: &[Row], at: usize, delete: &Deleting) -> bool
    requires { at < length rows.now }
    ensures { result ≡ was_sent rows.now at delete.now }
{
    rows[..at].iter().any(
        |row: &Row| -> bool
            ensures { result ≡ is_same_delete delete.entry.now row.now.deleting }
        { is_same_delete(delete, row.deleting) },
    )
}
