ghost use Rattle.std.specs.Prelude.{◌≡◌, ◌⊎◌, ◌+◌, ◌<◌, ◌≤◌, length, map, Some, None, IsTrue, ◌↔◌, OnOk, OnErr, IfSome, slice_get, vec_len, vec_capacity};
ghost use Rattle.std.specs.List.{insert, remove};
ghost use Rattle.bucket_db.specs.Order.{AreHalves, RisesFrom};
ghost use Rattle.bucket_db.specs.Rows.{buckets_of};
ghost use Rattle.bucket_db.specs.Changes.{with_row, split_at, with_joined, IsJoined, MayJoin, is_delete, after_delete, without_delete};
ghost use Rattle.bucket_db.specs.declared.row.Row.{Row};

use crate::row::{Deleting, Row, number_of};
use crate::search::first_from;
use bucket_ids::Bucket;
use value_lists::NoMemory;

/// Puts a row where its number belongs.
pub fn place(rows: &mut Vec<Row>, row: Row)
    requires rising { RisesFrom 0 (buckets_of rows.old.items) }
    requires room { vec_len rows.old < vec_capacity rows.old }
    ensures rows { rows.new.items ≡ with_row row rows.old.items }
    ensures len { vec_len rows.new ≡ vec_len rows.old + 1 }
    ensures capacity { vec_capacity rows.old ≤ vec_capacity rows.new }
{
    let at = first_from(rows, number_of(row.bucket));
    let Ok(()) = rows.insert(at, row) else {
        unreachable!();
    };
}

/// The place that a row comes to where another goes first.
fn place_without(gone: usize, place: usize) -> usize
    ensures behind { gone < place → result + 1 ≡ place }
    ensures before { place ≤ gone → result ≡ place }
{
    if gone < place { place - 1 } else { place }
}

/// Takes out the row of one place and puts another in at a later one; what lies between comes forward.
fn move_forward(rows: &mut Vec<Row>, from: usize, to: usize, row: Row)
    requires rising { from < to }
    requires to { to < length rows.old.items }
    ensures rows { rows.new.items ≡ insert (remove rows.old.items from) to row }
    ensures len { vec_len rows.new ≡ vec_len rows.old }
    ensures capacity { vec_capacity rows.new ≡ vec_capacity rows.old }
{
    rows.copy_within(from + 1..to + 1, from);
    rows[to] = row;
}

/// Takes out the row of one place and puts another in at no later one; what lies between goes back.
fn move_back(rows: &mut Vec<Row>, from: usize, to: usize, row: Row)
    requires falling { to ≤ from }
    requires from { from < length rows.old.items }
    ensures rows { rows.new.items ≡ insert (remove rows.old.items from) to row }
    ensures len { vec_len rows.new ≡ vec_len rows.old }
    ensures capacity { vec_capacity rows.new ≡ vec_capacity rows.old }
{
    rows.copy_within(to..from, to + 1);
    rows[to] = row;
}

/// Takes out the row of one place and puts another in at a place; only what lies between moves.
fn replace(rows: &mut Vec<Row>, from: usize, to: usize, row: Row)
    requires from { from < length rows.old.items }
    requires to { to < length rows.old.items }
    ensures rows { rows.new.items ≡ insert (remove rows.old.items from) to row }
    ensures len { vec_len rows.new ≡ vec_len rows.old }
    ensures capacity { vec_capacity rows.new ≡ vec_capacity rows.old }
{
    if from < to {
        move_forward(rows, from, to, row);
    } else {
        move_back(rows, from, to, row);
    }
}

/// Takes out the row of a place and puts another in where its number belongs.
fn exchange(rows: &mut Vec<Row>, at: usize, row: Row)
    requires place { at < length rows.old.items }
    requires rising { RisesFrom 0 (buckets_of rows.old.items) }
    ensures rows { rows.new.items ≡ with_row row (remove rows.old.items at) }
    ensures len { vec_len rows.new ≡ vec_len rows.old }
    ensures capacity { vec_capacity rows.new ≡ vec_capacity rows.old }
{
    let place = first_from(rows, number_of(row.bucket));
    replace(rows, at, place_without(at, place), row);
}

/// Splits the row of a place in its halves.
pub fn split_at(rows: &mut Vec<Row>, at: usize) -> Result<(), NoMemory>
    requires place { at < length rows.old.items }
    requires fewer { IfSome (slice_get rows.old.items at) (λ row. row.bucket.bits < 58) }
    requires rising { RisesFrom 0 (buckets_of rows.old.items) }
    ensures ok { OnOk result (rows.new.items ≡ split_at at rows.old.items) }
    ensures err { OnErr result (rows.new.items ≡ rows.old.items) }
{
    rows.reserve(1)?;
    let row = rows[at];
    let (first, second) = row.bucket.children();
    exchange(
        rows,
        at,
        Row {
            bucket: first,
            ..row
        },
    );
    place(
        rows,
        Row {
            bucket: second,
            ..row
        },
    );
    Ok(())
}

/// The Delete of the first row, or else that of the other.
fn either(own: Option<Deleting>, other: Option<Deleting>) -> Option<Deleting>
    ensures own { other ≡ None → result ≡ own }
    ensures other { own ≡ None → result ≡ other }
{
    match own {
        Some(deleting) => Some(deleting),
        None => other,
    }
}

/// The row that two siblings make.
fn joined(row: &Row, other: &Row) -> Row
    requires { 1 < row.now.bucket.bits }
    ensures { IsJoined row.now other.now result }
{
    Row {
        bucket: row.bucket.parent(),
        complete: row.complete.intersection(other.complete),
        active: row.active,
        accepted: row.accepted && other.accepted,
        deleting: either(row.deleting, other.deleting),
    }
}

/// Whether two rows have the same active node, or none.
fn same_active(own: Option<u8>, other: Option<u8>) -> bool
    ensures { IsTrue result ↔ (own ≡ other) }
{
    match (own, other) {
        (Some(node), Some(active)) => node == active,
        (None, None) => true,
        _ => false,
    }
}

/// Whether not both are there.
fn at_most_one(own: Option<Deleting>, other: Option<Deleting>) -> bool
    ensures { IsTrue result ↔ ((own ≡ None) ⊎ (other ≡ None)) }
{
    match (own, other) {
        (Some(_), Some(_)) => false,
        _ => true,
    }
}

/// Whether the other row has the sibling's bucket, and may be joined with the row.
pub fn may_join(row: &Row, sibling: Bucket, other: &Row) -> bool
    ensures { IsTrue result ↔ MayJoin row.now sibling other.now }
{
    if number_of(other.bucket) != number_of(sibling) {
        return false;
    }
    if !at_most_one(row.deleting, other.deleting) {
        return false;
    }
    same_active(row.active, other.active)
}

/// Whether a Delete is for the bucket and to the node.
fn is_delete(bucket: Bucket, node: u8, deleting: &Deleting) -> bool
    ensures { result ≡ is_delete bucket node deleting.now }
{
    let same = deleting.bucket.bits() == bucket.bits() && deleting.bucket.low() == bucket.low();
    same && deleting.node == node
}

/// What stays unanswered once the Delete of the bucket to the node has its answer.
fn after_delete(bucket: Bucket, node: u8, deleting: Option<Deleting>) -> Option<Deleting>
    ensures { result ≡ after_delete bucket node deleting }
{
    match deleting {
        Some(deleting) if is_delete(bucket, node, &deleting) => None,
        _ => deleting,
    }
}

/// The Delete of the bucket to the node has its answer, in each row that has it.
pub fn end_deletes(rows: &mut [Row], bucket: Bucket, node: u8)
    ensures { rows.new ≡ map (without_delete bucket node) rows.old }
{
    for row in rows.iter_mut() {
        row.deleting = after_delete(bucket, node, row.deleting);
    }
}

/// Two places, the lesser first.
fn in_order(at: usize, other: usize) -> (usize, usize)
    ensures rising { at < other → (result.0 ≡ at) × (result.1 ≡ other) }
    ensures falling { other ≤ at → (result.0 ≡ other) × (result.1 ≡ at) }
{
    if at < other { (at, other) } else { (other, at) }
}

/// Joins the rows of two places, which are siblings.
pub fn join_at(rows: &mut Vec<Row>, at: usize, sibling: usize)
    requires place { at < length rows.old.items }
    requires sibling { sibling < length rows.old.items }
    requires halves { AreHalves rows.old.items at sibling }
    requires more { IfSome (slice_get rows.old.items at) (λ row. 1 < row.bucket.bits) }
    requires rising { RisesFrom 0 (buckets_of rows.old.items) }
    ensures { (row other : Row) → slice_get rows.old.items at ≡ Some row
        → slice_get rows.old.items sibling ≡ Some other
        → (joined : Row) × IsJoined row other joined × (rows.new.items ≡ with_joined joined rows.old.items) }
{
    let joined = joined(&rows[at], &rows[sibling]);
    let (least, most) = in_order(at, sibling);
    let _last = rows.remove(most);
    exchange(rows, least, joined);
}
